//! The gates of a net that reach an output.
ghost use Rattle.std.specs.Prelude.{◌≡◌, ◌≤◌, length, IfErr, IfOk};
ghost use Rattle.gate_net.specs.Meaning.{and_count, depth_of};
ghost use Rattle.gate_net.specs.Paths.{IsReduced};
ghost use Rattle.gate_net.specs.Shape.{IsNormal, gate_limit};
ghost use Rattle.gate_steps.specs.Steps.{HaveEqualOutputs};

use gate_arena::Arena;
use gate_net::{GateFault, Net};
use std::alloc::Global;

/// The net `net`, whose gates are in normal form and distinct, without the gates that reach no output.
pub fn swept(alloc: Global, net: &Net) -> Result<Net, GateFault>
    requires normal { IsNormal net.now.gates }
    requires few { length net.now.gates ≤ gate_limit }
    ensures equal { IfOk result (HaveEqualOutputs net.now) }
    ensures reduced { IfOk result IsReduced }
    ensures gates { IfOk result (λ r. length r.gates ≤ length net.now.gates) }
    ensures ands { IfOk result (λ r. and_count r.gates ≤ and_count net.now.gates) }
    ensures depth { IfOk result (λ r. depth_of r ≤ depth_of net.now) }
    ensures ins { IfOk result (λ r. r.ins ≡ net.now.ins) }
    ensures budget { IfOk result (λ r. r.budget ≡ net.now.budget) }
    ensures memory { IfErr result (λ e. e ≡ GateFault.Memory) }
{
    // For the proof: the gates of a net stand in order.
    let _gates = net.gates();
    let arena = Arena::of(alloc, net)?;
    arena.net(alloc)
}
