//! The full adder, and its carry alone.
ghost use Rattle.std.specs.Prelude.{IfOk, IfErr};
ghost use Rattle.hy_bits.specs.Bits.{sum_bit, next_carry};
ghost use Rattle.gate_net.specs.Circuit.{Stands};
ghost use Rattle.gate_net.specs.Growth.{Grows, StopsWithin};
ghost use Rattle.adder_blocks.specs.Steps.{IsOfThree, LevelOfThree};

use gate_net::{GateFault, Lit, Net};

/// A full adder: the lowest bit of `a + b + carry`, and the carry into the next place. It has five gates, one of which is an And,
/// and the sum bit has none on its paths.
///
/// # Errors
///
/// `GateLimit` where the net has reached its budget, and `Memory`. The net may have more gates.
pub fn full_adder(net: &mut Net, a: Lit, b: Lit, carry: Lit) -> Result<(Lit, Lit), GateFault>
    requires first { Stands net.old a }
    requires second { Stands net.old b }
    requires third { Stands net.old carry }
    ensures grows { Grows net.old net.new 5 1 }
    ensures stops { IfErr result (StopsWithin net.old net.new 5) }
    ensures stands { IfOk result (λ r. Stands net.new r.0 × Stands net.new r.1) }
    ensures sum { IfOk result (λ r. IsOfThree sum_bit net.old net.new a b carry r.0) }
    ensures carry { IfOk result (λ r. IsOfThree next_carry net.old net.new a b carry r.1) }
    ensures sum_level { IfOk result (λ r. LevelOfThree 0 net.old net.new a b carry r.0) }
    ensures carry_level { IfOk result (λ r. LevelOfThree 1 net.old net.new a b carry r.1) }
{
    let first = net.xor(a, carry)?;
    let second = net.xor(b, carry)?;
    let sum = net.xor(first, b)?;
    let both = net.and(first, second)?;
    let next = net.xor(carry, both)?;
    Ok((sum, next))
}

/// The carry of a place of a sum: 1 where at least two of the three are. One AND.
pub(crate) fn majority(net: &mut Net, a: Lit, b: Lit, carry: Lit) -> Result<Lit, GateFault>
    requires first { Stands net.old a }
    requires second { Stands net.old b }
    requires third { Stands net.old carry }
    ensures grows { Grows net.old net.new 4 1 }
    ensures stops { IfErr result (StopsWithin net.old net.new 4) }
    ensures stands { IfOk result (Stands net.new) }
    ensures value { IfOk result (IsOfThree next_carry net.old net.new a b carry) }
    ensures level { IfOk result (LevelOfThree 1 net.old net.new a b carry) }
{
    let first = net.xor(a, carry)?;
    let second = net.xor(b, carry)?;
    let both = net.and(first, second)?;
    let next = net.xor(carry, both)?;
    Ok(next)
}
