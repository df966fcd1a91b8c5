//! Circuits made smaller, with equal outputs.
//!
//! # Guarantees
//!
//! Each clause stands in `src/lib.rt`.
//!
//! - `rewrite` gives a net with equal outputs on all inputs and the same inputs and budget, which is reduced and has no more gates, And gates
//!   or And depth; it wants memory alone (read `specs/Steps.antt` of gate_steps for equal outputs, `specs/Paths.antt` of gate_net for
//!   reduced nets, `specs/Meaning.antt` of gate_net for counts and depths).
#![tactic(auto)]

ghost use Rattle.std.specs.Prelude.{◌≡◌, ◌≤◌, length, IfErr, IfOk};
ghost use Rattle.gate_net.specs.Meaning.{and_count, depth_of};
ghost use Rattle.gate_net.specs.Paths.{IsReduced};
ghost use Rattle.gate_net.specs.Shape.{gate_limit};
ghost use Rattle.gate_steps.specs.Steps.{HaveEqualOutputs};

mod copying;
mod rules;
mod sweep;

use copying::copied;
use gate_net::{Form, GateFault, Net};
use std::alloc::Global;
use sweep::swept;

/// The net `net` of at most `GATE_LIMIT` gates made smaller: its gates fold and share as calls of `and` and `xor` do, each with one look at
/// the gates below it (absorption, p & (p ^ d) is p & ~d, p ^ (p ^ d) is d), and those that then reach no output go. Both forms are
/// alike. Time grows with the numbers of inputs, gates and outputs.
///
/// # Errors
///
/// Memory ran out.
pub fn rewrite(alloc: Global, net: Net, _form: Form) -> Result<Net, GateFault>
    requires { length net.gates ≤ gate_limit }
    ensures equal { IfOk result (HaveEqualOutputs net) }
    ensures reduced { IfOk result IsReduced }

    // Nothing grows.
    ensures gates { IfOk result (λ r. length r.gates ≤ length net.gates) }
    ensures ands { IfOk result (λ r. and_count r.gates ≤ and_count net.gates) }
    ensures depth { IfOk result (λ r. depth_of r ≤ depth_of net) }

    // What stays.
    ensures ins { IfOk result (λ r. r.ins ≡ net.ins) }
    ensures budget { IfOk result (λ r. r.budget ≡ net.budget) }
    ensures memory { IfErr result (λ e. e ≡ GateFault.Memory) }
{
    let copy = copied(alloc, &net)?;
    swept(alloc, &copy)
}
