//! The selection of one of two words.
ghost use Rattle.std.specs.Prelude.{◌≡◌, ℕ, ◌+◌, ◌*◌, ◌≤◌, ◌<◌, Bool, List, length, if◌then◌else◌, IfOk, IfErr};
ghost use Rattle.gate_net.specs.Circuit.{Stands};
ghost use Rattle.gate_net.specs.Meaning.{value, level};
ghost use Rattle.gate_net.specs.Growth.{Grows, StopsWithin};
ghost use Rattle.gate_net.specs.Spelled.{values, AllStand, AllWithin};
ghost use Rattle.adder_blocks.specs.Steps.{chosen, IsOfThree, LevelOfThree};

use gate_net::{Form, GateFault, Lit, Net};
use std::alloc::Global;

/// `y ^ (c & (x ^ y))`: `x` where `c` is 1, else `y`.
fn choose_bit(net: &mut Net, c: Lit, x: Lit, y: Lit) -> Result<Lit, GateFault>
    requires selector { Stands net.old c }
    requires first { Stands net.old x }
    requires second { Stands net.old y }
    ensures grows { Grows net.old net.new 3 1 }
    ensures stops { IfErr result (StopsWithin net.old net.new 3) }
    ensures stands { IfOk result (Stands net.new) }
    ensures value { IfOk result (IsOfThree chosen net.old net.new c x y) }
    ensures level { IfOk result (LevelOfThree 1 net.old net.new c x y) }
{
    let differ = net.xor(x, y)?;
    let taken = net.and(c, differ)?;
    let chosen = net.xor(y, taken)?;
    Ok(chosen)
}

/// The word `a` where `c` is 1, else `b`, bit by bit. Both forms are the same: an AND and two more
/// gates a bit.
///
/// # Errors
///
/// `GateLimit` where the net has reached its budget, and `Memory`. The net may have more gates.
pub fn choose(
    alloc: Global,
    net: &mut Net,
    _form: Form,
    c: Lit,
    a: &[Lit],
    b: &[Lit],
) -> Result<Vec<Lit>, GateFault>
    requires selector { Stands net.old c }
    requires first { AllStand net.old a.now }
    requires second { AllStand net.old b.now }
    requires same_length { length a.now ≡ length b.now }

    // The answer, for all inputs.
    ensures stands { IfOk result (λ r. AllStand net.new r.items) }
    ensures same { IfOk result (λ r. length r.items ≡ length a.now) }
    ensures value { IfOk result (λ r. (bits : List Bool) → values net.new bits r.items ≡ (if value net.old bits c then values net.old bits a.now else values net.old bits b.now)) }
    ensures level { IfOk result (λ r. (d : ℕ) → level net.old c ≤ d → AllWithin net.old d a.now → AllWithin net.old d b.now → AllWithin net.new (d + 1) r.items) }

    // The gates, also after an Err: at most three a bit, of which one is an And.
    ensures grows { Grows net.old net.new (3 * length a.now) (length a.now) }
    ensures stops { IfErr result (StopsWithin net.old net.new (3 * length a.now)) }
{
    let mut out = Vec::new(alloc);
    for (place, x) in a.iter().enumerate() {
        let bit = choose_bit(net, c, *x, b[place])?;
        out.push(bit)?;
    }
    Ok(out)
}
