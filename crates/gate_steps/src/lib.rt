//! Steps that change a circuit of gates, which of them are right, and what follows where a list of them leads from one net to another.
//!
//! # Guarantees
//!
//! Each clause stands in `src/lib.rt`; read `specs/Cones.antt`, then `specs/Steps.antt`.
//!
//! - `Log::keeps_outputs`: where the steps of a log replay one net into another, the two have equal outputs on all inputs, whoever wrote
//!   the log.
//! - `Step::apply` makes a right step in an arena, and everything keeps its value.
//!
//! Laws that the crates above can import:
//!
//! | lemma | says |
//! |---|---|
//! | `proofs/ConeLaws.antt`, `free-of_cones`, `equal-of_cones` | the literal of a right replacement doesn't depend on the variable, and has its values for all inputs |
//! | `proofs/StepLaws.antt`, `KeepsValues-after` | right steps keep the value of every literal and of every output |
//! | `proofs/StepLaws.antt`, `AreRight-push`, `after-push` | a right step more after right steps |
#![tactic(auto)]

ghost use Rattle.std.specs.Prelude.{◌≡◌, ◌<◌, length, IfErr, OnErr, OnOk};
ghost use Rattle.hy_links.specs.Arena.{max_nodes};
ghost use Rattle.gate_arena.specs.Values.{KeepsValues};

use gate_arena::Arena;
use gate_net::{Gate, GateFault, Lit, Net};

/// The most leaves of a replacement.
pub const LEAF_LIMIT: usize = 4;

/// The most gates of a cone.
pub const CONE_LIMIT: usize = 16;

/// A step that changes a circuit.
#[derive(Drop)]
pub enum Step {
    /// A new And gate, which makes the next variable.
    And(Lit, Lit),
    /// A new Xor gate, which makes the next variable.
    Xor(Lit, Lit),
    /// Each place that holds the variable `variable` holds `by` instead. The two are equal over the variables `leaves`.
    Replace {
        variable: u32,
        by: Lit,
        leaves: Vec<u32>,
    },
}

/// Steps in the order in which they are made.
#[derive(Drop)]
pub struct Log {
    pub steps: Vec<Step>,
}

impl Step {
    ghost use Rattle.gate_steps.specs.Steps.{IsRight, stepped};

    /// Makes this step in `arena`, where it is right. Time is constant for a new gate, and grows with the places that hold the
    /// variable for a replacement.
    ///
    /// # Errors
    ///
    /// Memory ran out, and the arena is as before.
    pub fn apply(&self, arena: &mut Arena) -> Result<(), GateFault>
        requires right { IsRight arena.old.circuit self.now }
        requires room { length arena.old.circuit.gates < max_nodes }
        ensures circuit { OnOk result (arena.new.circuit ≡ stepped arena.old.circuit self.now) }
        ensures values { OnOk result (KeepsValues arena.old.circuit arena.new.circuit) }
        ensures err { OnErr result (arena.new ≡ arena.old) }
        ensures memory { IfErr result (λ e. e ≡ GateFault.Memory) }
    {
        // For the proof: no gate of the arena depends on itself.
        arena.has_values();
        match self {
            Step::And(a, b) => {
                arena.add(Gate::And(*a, *b))?;
            }
            Step::Xor(a, b) => {
                arena.add(Gate::Xor(*a, *b))?;
            }
            Step::Replace { variable, by, .. } => arena.replace(*variable, *by),
        }
        Ok(())
    }
}

impl Log {
    ghost use Rattle.gate_steps.specs.Steps.{HaveEqualOutputs, Replays};

    /// Where the steps of this log replay `old` into `new`, the two nets have equal outputs on all inputs.
    pub fn keeps_outputs(&self, old: &Net, new: &Net)
        ensures { Replays old.now self.now.steps.items new.now → HaveEqualOutputs old.now new.now }
    {
        // For the proof: the gates of a net stand in order.
        let _gates = old.gates();
    }
}
