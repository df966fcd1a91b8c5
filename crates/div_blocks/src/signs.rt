//! Signs of words.
ghost use Rattle.std.specs.Prelude.{◌≡◌, ℕ, ◌+◌, ◌-◌, ◌*◌, ◌^◌, ◌<◌, Bool, ◌&&◌, List, length, IfOk, IfErr};
ghost use Rattle.hy_bits.specs.Bits.{xor};
ghost use Rattle.gate_net.specs.Circuit.{Stands};
ghost use Rattle.gate_net.specs.Meaning.{value};
ghost use Rattle.gate_net.specs.Growth.{Grows, StopsWithin};
ghost use Rattle.gate_net.specs.Spelled.{values, spelled, AllStand};
ghost use Rattle.adder_blocks.specs.Steps.{IsOfThree};
ghost use Rattle.div_blocks.specs.Division.{signed_by};

use gate_net::{GateFault, Lit, Net};
use std::alloc::Global;

/// One place of a word that is negated where `sign` is 1, as its complement and one: the bit, and the carry
/// into the place above. One AND.
fn sign_place(net: &mut Net, x: Lit, sign: Lit, carry: Lit) -> Result<(Lit, Lit), GateFault>
    requires first { Stands net.old x }
    requires second { Stands net.old sign }
    requires third { Stands net.old carry }
    ensures grows { Grows net.old net.new 3 1 }
    ensures stops { IfErr result (StopsWithin net.old net.new 3) }
    ensures stands { IfOk result (λ r. Stands net.new r.0 × Stands net.new r.1) }
    ensures bit { IfOk result (λ r. IsOfThree (λ x s c. xor (xor x s) c) net.old net.new x sign carry r.0) }
    ensures carry { IfOk result (λ r. IsOfThree (λ x s c. xor x s && c) net.old net.new x sign carry r.1) }
{
    let turned = net.xor(x, sign)?;
    let bit = net.xor(turned, carry)?;
    let next = net.and(turned, carry)?;
    Ok((bit, next))
}

/// Minus the word where `sign` is 1, else the word, modulo two to its length. One AND for each place but the
/// highest.
pub(crate) fn with_sign(
    alloc: Global,
    net: &mut Net,
    word: &[Lit],
    sign: Lit,
) -> Result<Vec<Lit>, GateFault>
    requires word { AllStand net.old word.now }
    requires sign { Stands net.old sign }
    requires some { 0 < length word.now }
    ensures stands { IfOk result (λ r. AllStand net.new r.items) }
    ensures same { IfOk result (λ r. length r.items ≡ length word.now) }
    ensures value { IfOk result (λ r. (bits : List Bool) → spelled net.new bits r.items ≡ signed_by (2 ^ length word.now) (value net.old bits sign) (spelled net.old bits word.now)) }
    ensures grows { Grows net.old net.new (3 * length word.now) (length word.now - 1) }
    ensures stops { IfErr result (StopsWithin net.old net.new (3 * length word.now)) }
{
    let top = word.len() - 1;
    let mut out = Vec::new(alloc);
    let mut carry = sign;
    for place in 0..top {
        let (bit, next) = sign_place(net, word[place], sign, carry)?;
        out.push(bit)?;
        carry = next;
    }
    let turned = net.xor(word[top], sign)?;
    let bit = net.xor(turned, carry)?;
    out.push(bit)?;
    Ok(out)
}
