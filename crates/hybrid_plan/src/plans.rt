//! The parts of a plan.
ghost use Rattle.std.specs.Prelude.{◌≡◌};
ghost use Rattle.hybrid_plan.specs.Levels.{LevelsMatch};

use hy_bits::Sequence;
use plan_figures::Figures;
use share_core::Instr;
use std::marker::Model;

/// A list of instructions that two parties run. The gates of every level are of its sharing.
#[derive(Drop)]
pub struct Plan {
    instrs: Sequence<Instr>,
    gates: Sequence<Instr>,
    codes: Sequence<u32>,
    shares: u32,
    figures: Figures,
}

impl Model for Plan {
    ghost use Rattle.hybrid_plan.specs.Levels.{LevelsMatch};
    ghost use Rattle.hybrid_plan.specs.Plans.{Plan};

    ghost Value = { Plan };

    ghost view = { λ p. record { instrs = p.instrs; gates = p.gates; codes = p.codes; shares = p.shares; figures = p.figures } };

    ghost invariant = { λ p. LevelsMatch p.instrs p.gates };
}

impl Plan {
    /// The plan of these parts. It takes no memory.
    pub fn of(
        instrs: Sequence<Instr>,
        gates: Sequence<Instr>,
        codes: Sequence<u32>,
        shares: u32,
        figures: Figures,
    ) -> Plan
        requires { LevelsMatch instrs gates }
        ensures { result ≡ record { instrs = instrs; gates = gates; codes = codes; shares = shares; figures = figures } }
    {
        Plan {
            instrs,
            gates,
            codes,
            shares,
            figures,
        }
    }

    /// The instructions, in order.
    pub fn instrs(&self) -> &[Instr]
        ensures value { result.now ≡ self.now.instrs }
        ensures levels { LevelsMatch self.now.instrs self.now.gates }
    {
        self.instrs.as_slice()
    }

    /// The gates of the levels, level after level.
    pub fn gates(&self) -> &[Instr]
        ensures { result.now ≡ self.now.gates }
    {
        self.gates.as_slice()
    }

    /// The codes over slots of the words at B and Y.
    pub fn codes(&self) -> &[u32]
        ensures { result.now ≡ self.now.codes }
    {
        self.codes.as_slice()
    }

    /// How many slots the shares take.
    pub fn shares(&self) -> u32
        ensures { result ≡ self.now.shares }
    {
        self.shares
    }

    /// How much is sent and drawn.
    pub fn figures(&self) -> Figures
        ensures { result ≡ self.now.figures }
    {
        self.figures
    }
}
