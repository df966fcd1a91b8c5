//! Plans from texts.
use hy_bits::{Inputs, Sequence, Width};
use share_core::{Instr, InstrKind};
use std::alloc::Global;
use std::test::Fail;

/// A plan, and the parties' own words.
#[derive(Drop)]
pub struct Plan {
    pub shares: u32,
    pub first: Inputs,
    pub second: Inputs,
    pub instrs: Vec<Instr>,
    pub gates: Vec<Instr>,
    pub codes: Vec<u32>,
}

const KINDS: [InstrKind; 37] = [
    InstrKind::Offset,
    InstrKind::InAP0,
    InstrKind::InAP1,
    InstrKind::InBP0,
    InstrKind::InBP1,
    InstrKind::InYP0,
    InstrKind::ChooseIn,
    InstrKind::ChooseA,
    InstrKind::ChooseB,
    InstrKind::AnswerIn,
    InstrKind::AnswerSharesA,
    InstrKind::AnswerSharesB,
    InstrKind::AnswerToA,
    InstrKind::LevelA,
    InstrKind::LevelB,
    InstrKind::LevelY,
    InstrKind::Carries,
    InstrKind::OpenA,
    InstrKind::OpenB,
    InstrKind::OpenY,
    InstrKind::MulA,
    InstrKind::AndB,
    InstrKind::AndY,
    InstrKind::AddA,
    InstrKind::AddLeft,
    InstrKind::AddRight,
    InstrKind::SubA,
    InstrKind::SubLeft,
    InstrKind::SubRight,
    InstrKind::MulLeft,
    InstrKind::MulRight,
    InstrKind::NegA,
    InstrKind::TruncA,
    InstrKind::Known,
    InstrKind::XorB,
    InstrKind::XorY,
    InstrKind::Y2B,
];

fn kind_named(alloc: Global, name: &str) -> Result<InstrKind, Fail> {
    for kind in KINDS {
        let shown = format!(in alloc; "{kind:?}")?;
        if shown.as_str() == name {
            return Ok(kind);
        }
    }
    Err("a kind".into())
}

fn width_of(bits: u64) -> Result<Width, Fail> {
    match bits {
        1 => Ok(Width::W1),
        8 => Ok(Width::W8),
        16 => Ok(Width::W16),
        32 => Ok(Width::W32),
        64 => Ok(Width::W64),
        _ => Err("a width".into()),
    }
}

/// The numbers of a line.
fn numbers(alloc: Global, text: &str) -> Result<Vec<u64>, Fail> {
    let mut all = Vec::new(alloc);
    for word in text.split(' ') {
        all.push(word.parse::<u64>()?)?;
    }
    Ok(all)
}

/// An instruction: its kind, and its numbers in the order number, width, left, right, target, value.
fn instruction(alloc: Global, text: &str) -> Result<Instr, Fail> {
    let (kind, rest) = text.split_once(' ').ok_or("an instruction")?;
    let kind = kind_named(alloc, kind)?;
    match numbers(alloc, rest)?.as_slice() {
        [number, width, left, right, target, value] => Ok(Instr {
            kind,
            number: u32::try_from(*number)?,
            width: width_of(*width)?,
            left: u32::try_from(*left)?,
            right: u32::try_from(*right)?,
            target: u32::try_from(*target)?,
            value: *value,
        }),
        _ => Err("six numbers".into()),
    }
}

/// Adds a line to a plan.
fn add(alloc: Global, plan: &mut Plan, line: &str) -> Result<(), Fail> {
    let (what, rest) = line.split_once(' ').ok_or("a line")?;
    match what {
        "plan" => plan.shares = rest.parse::<u32>()?,
        "own0" => plan.first = Sequence::new(numbers(alloc, rest)?),
        "own1" => plan.second = Sequence::new(numbers(alloc, rest)?),
        "i" => plan.instrs.push(instruction(alloc, rest)?)?,
        "g" => plan.gates.push(instruction(alloc, rest)?)?,
        "c" => {
            for code in numbers(alloc, rest)? {
                plan.codes.push(u32::try_from(code)?)?;
            }
        }
        _ => return Err("a line".into()),
    }
    Ok(())
}

/// The plan of a text.
pub fn plan_of(alloc: Global, text: &str) -> Result<Plan, Fail> {
    let mut plan = Plan {
        shares: 0,
        first: Sequence::new(Vec::new(alloc)),
        second: Sequence::new(Vec::new(alloc)),
        instrs: Vec::new(alloc),
        gates: Vec::new(alloc),
        codes: Vec::new(alloc),
    };
    for line in text.lines() {
        add(alloc, &mut plan, line)?;
    }
    Ok(plan)
}
