//! Halves that are dealt beforehand.
use dealer::Dealer;
use hy_bits::Role;
use rand_chacha::ChaCha20Rng;
use share_core::{Half, Halves, Instr, InstrKind};
use std::alloc::{AllocError, Global};

/// The halves of one instruction, of P0 and of P1.
#[derive(Clone, Copy)]
pub struct Given<'a> {
    pub first: &'a [Half],
    pub second: &'a [Half],
}

impl Halves for Given<'_> {
    ghost use Rattle.party_tests.specs.Given.{given};

    ghost meant = { λ halves role k. given role halves.first.now halves.second.now k };

    fn half(&self, role: Role, k: u32) -> Half {
        let halves = match role {
            Role::P0 => self.first,
            Role::P1 => self.second,
        };
        match halves.get(k as usize) {
            Some(half) => *half,
            None => Half { words: [0; 512] },
        }
    }
}

/// The halves of all instructions of a plan, one after another, and where those of each begin.
#[derive(Drop)]
pub struct Dealt {
    pub first: Vec<Half>,
    pub second: Vec<Half>,
    pub starts: Vec<usize>,
}

fn deal_one(
    dealt: &mut Dealt,
    dealer: &mut Dealer<ChaCha20Rng>,
    instr: &Instr,
) -> Result<(), AllocError> {
    let (first, second) = dealer.next(instr);
    dealt.first.push(first)?;
    dealt.second.push(second)?;
    Ok(())
}

/// The gates of an instruction, if it is a level.
fn gates_of<'a>(instr: &Instr, gates: &'a [Instr]) -> &'a [Instr] {
    match instr.kind {
        InstrKind::LevelA | InstrKind::LevelB | InstrKind::LevelY => {
            let rest = &gates[(instr.left as usize).min(gates.len())..];
            &rest[..(instr.right as usize).min(rest.len())]
        }
        _ => &[],
    }
}

/// Deals for a whole plan; a level gate by gate.
pub fn deal(
    alloc: Global,
    dealer: &mut Dealer<ChaCha20Rng>,
    instrs: &[Instr],
    gates: &[Instr],
) -> Result<Dealt, AllocError> {
    let mut dealt = Dealt {
        first: Vec::new(alloc),
        second: Vec::new(alloc),
        starts: Vec::new(alloc),
    };
    for instr in instrs {
        dealt.starts.push(dealt.first.len())?;
        let level = gates_of(instr, gates);
        if level.is_empty() {
            deal_one(&mut dealt, dealer, instr)?;
        }
        for gate in level {
            deal_one(&mut dealt, dealer, gate)?;
        }
    }
    Ok(dealt)
}

impl Dealt {
    /// The halves from where those of this instruction begin.
    pub fn at(&self, instr: usize) -> Given<'_> {
        let start = match self.starts.get(instr) {
            Some(start) => *start,
            None => 0,
        };
        Given {
            first: from(self.first.as_slice(), start),
            second: from(self.second.as_slice(), start),
        }
    }
}

fn from(halves: &[Half], start: usize) -> &[Half] {
    &halves[start.min(halves.len())..]
}
