//! A list of instructions under way.
ghost use Rattle.std.specs.Prelude.{◌≡◌, ◌+◌, ◌*◌, ◌<◌, ◌^◌, ◌++◌, length, IfOk, OnOk};
ghost use Rattle.plan_script.specs.Script.{making_bits, making_word, no_script, put, garbling, share_code, with_bit, with_bits, with_code, with_shares};
ghost use Rattle.plan_script.specs.Levels.{with_gate};

use choice_core::Sharing;
use hy_bits::Memory;
use share_core::Instr;
use std::alloc::Global;
use std::marker::Model;

/// The code of a share that is not complemented.
///
/// # Errors
///
/// Codes of so many shares would take more memory than there is.
pub fn share_code(share: u32) -> Result<u32, Memory>
    ensures { IfOk result (λ code. code ≡ share_code share) }
{
    if share < (1 << 31) - 1 {
        Ok(2 * share + 2)
    } else {
        Err(Memory)
    }
}

/// The number of things of a list.
///
/// # Errors
///
/// So many would take more memory than there is.
pub fn count(length: usize) -> Result<u32, Memory>
    ensures { IfOk result (λ count. count ≡ length) }
{
    if length < 1 << 32 {
        Ok(length as u32)
    } else {
        Err(Memory)
    }
}

/// The sum of two numbers of shares.
///
/// # Errors
///
/// So many would take more memory than there is.
pub fn sum(a: u32, b: u32) -> Result<u32, Memory>
    ensures { IfOk result (λ sum. sum ≡ a + b) }
{
    match a.checked_add(b) {
        Some(sum) => Ok(sum),
        None => Err(Memory),
    }
}

/// A list of instructions, with the gates of its levels and the codes of its words at B and Y, and the number of shares that they make.
#[derive(Drop)]
pub struct Script {
    instrs: Vec<Instr>,
    gates: Vec<Instr>,
    codes: Vec<u32>,
    shares: u32,
    garbled: u32,
}

impl Model for Script {
    ghost use Rattle.plan_script.specs.Script.{Script};

    ghost Value = { Script };

    ghost view = { λ s. record { instrs = s.instrs.items; gates = s.gates.items; codes = s.codes.items; shares = s.shares; garbled = s.garbled } };
}

impl Script {
    /// No instructions.
    pub fn new(alloc: Global) -> Script
        ensures { result ≡ no_script }
    {
        Script {
            instrs: Vec::new(alloc),
            gates: Vec::new(alloc),
            codes: Vec::new(alloc),
            shares: 0,
            garbled: 0,
        }
    }

    /// The instructions, in order.
    pub fn instrs(&self) -> &[Instr]
        ensures { result.now ≡ self.now.instrs }
    {
        self.instrs.as_slice()
    }

    /// The gates of the levels, level after level.
    pub fn gates(&self) -> &[Instr]
        ensures { result.now ≡ self.now.gates }
    {
        self.gates.as_slice()
    }

    /// The codes of the words at B and Y.
    pub fn codes(&self) -> &[u32]
        ensures { result.now ≡ self.now.codes }
    {
        self.codes.as_slice()
    }

    /// How many shares the instructions make.
    pub fn shares(&self) -> u32
        ensures { result ≡ self.now.shares }
    {
        self.shares
    }

    /// How many gates are garbled.
    pub fn garbled(&self) -> u32
        ensures { result ≡ self.now.garbled }
    {
        self.garbled
    }

    /// Puts an instruction after the others. Its number is its place.
    #[tactic(auto, unfolding(crate::specs::Script::put))]
    pub fn put(&mut self, instr: Instr) -> Result<(), Memory>
        ensures { OnOk result (self.new ≡ put instr self.old) }
    {
        let number = count(self.instrs.len())?;
        self.instrs.push(Instr { number, ..instr })?;
        Ok(())
    }

    /// Makes so many shares.
    #[tactic(auto, unfolding(crate::specs::Script::with_shares))]
    pub fn add_shares(&mut self, count: u32) -> Result<(), Memory>
        ensures { OnOk result (self.new ≡ with_shares count self.old) }
    {
        self.shares = sum(self.shares, count)?;
        Ok(())
    }

    /// Makes the share of a bit, and puts its code after the others.
    #[tactic(auto, unfolding(crate::specs::Script::with_bit))]
    fn add_bit(&mut self) -> Result<(), Memory>
        ensures { OnOk result (self.new ≡ with_bit self.old) }
    {
        let code = share_code(self.shares)?;
        self.shares += 1;
        self.codes.push(code)?;
        Ok(())
    }

    /// Makes the shares of so many bits.
    #[tactic(auto, unfolding(crate::specs::Script::with_bits))]
    fn add_bits(&mut self, count: u32) -> Result<(), Memory>
        ensures { OnOk result (self.new ≡ with_bits count self.old) }
    {
        for _ in 0..count {
            self.add_bit()?;
        }
        Ok(())
    }

    /// Puts a code after the others.
    #[tactic(auto, unfolding(crate::specs::Script::with_code))]
    pub fn add_code(&mut self, code: u32) -> Result<(), Memory>
        ensures { OnOk result (self.new ≡ with_code code self.old) }
    {
        self.codes.push(code)?;
        Ok(())
    }

    /// Puts a gate into the level that comes next.
    #[tactic(auto, unfolding(crate::specs::Levels::with_gate))]
    pub fn add_gate(&mut self, sharing: Sharing, gate: Instr) -> Result<(), Memory>
        ensures { OnOk result (self.new ≡ with_gate sharing gate self.old) }
    {
        if let Sharing::Yao = sharing {
            let number = self.garbled;
            self.garbled = sum(number, 1)?;
            self.gates.push(Instr { number, ..gate })?;
        } else {
            let number = count(self.instrs.len())?;
            self.gates.push(Instr { number, ..gate })?;
        }
        Ok(())
    }

    /// Garbles so many gates.
    #[tactic(auto, unfolding(crate::specs::Script::garbling))]
    pub fn garble(&mut self, count: u32) -> Result<(), Memory>
        ensures { OnOk result (self.new ≡ garbling count self.old) }
    {
        self.garbled = sum(self.garbled, count)?;
        Ok(())
    }

    /// Puts an instruction that makes a word at A, and tells its code.
    #[tactic(auto, unfolding(crate::specs::Script::making_word))]
    pub fn make_word(&mut self, instr: Instr) -> Result<u32, Memory>
        ensures { IfOk result (λ at. record { script = self.new; at = at } ≡ making_word instr self.old) }
    {
        let target = self.shares;
        let code = share_code(target)?;
        self.put(Instr { target, ..instr })?;
        self.add_shares(1)?;
        Ok(code)
    }

    /// Puts an instruction that makes so many bits at B or Y, and tells the place of their codes.
    #[tactic(auto, unfolding(crate::specs::Script::making_bits))]
    pub fn make_bits(&mut self, bits: u32, instr: Instr) -> Result<u32, Memory>
        ensures { IfOk result (λ at. record { script = self.new; at = at } ≡ making_bits bits instr self.old) }
    {
        let target = count(self.codes.len())?;
        self.put(Instr { target, ..instr })?;
        self.add_bits(bits)?;
        Ok(target)
    }
}
