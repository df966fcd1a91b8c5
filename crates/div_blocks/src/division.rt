//! Quotients and remainders of words by either reading, by a restoring divider.
ghost use Rattle.std.specs.Prelude.{◌≡◌, ℕ, ◌+◌, ◌-◌, ◌*◌, ◌^◌, ◌≤◌, ◌<◌, Bool, true, false, List, length, IfOk, IfErr};
ghost use Rattle.hy_bits.specs.Sizes.{divider_size};
ghost use Rattle.gate_net.specs.Growth.{Grows, StopsWithin};
ghost use Rattle.gate_net.specs.Spelled.{spelled, AllStand};
ghost use Rattle.div_blocks.specs.Division.{quotient_of, remainder_of};

use crate::rows::divide_rows;
use crate::signs::with_sign;
use gate_net::{Form, GateFault, Lit, Net};
use std::alloc::Global;

/// The quotient and the remainder of two words of one length from 2 on, by their signed readings: those of the
/// numbers without signs, with the signs put to them after.
fn divide_signed(
    alloc: Global,
    net: &mut Net,
    a: &[Lit],
    b: &[Lit],
) -> Result<(Vec<Lit>, Vec<Lit>), GateFault>
    requires first { AllStand net.old a.now }
    requires second { AllStand net.old b.now }
    requires same_length { length a.now ≡ length b.now }
    requires some { 0 < length a.now }
    ensures stands { IfOk result (λ r. AllStand net.new r.0.items × AllStand net.new r.1.items) }
    ensures same { IfOk result (λ r. (length r.0.items ≡ length a.now) × (length r.1.items ≡ length a.now)) }
    ensures quotient { IfOk result (λ r. (bits : List Bool) → spelled net.new bits r.0.items ≡ quotient_of true (length a.now) (spelled net.old bits a.now) (spelled net.old bits b.now)) }
    ensures remainder { IfOk result (λ r. (bits : List Bool) → spelled net.new bits r.1.items ≡ remainder_of true (length a.now) (spelled net.old bits a.now) (spelled net.old bits b.now)) }
    ensures grows { Grows net.old net.new (3 * (length a.now * length a.now) + 17 * length a.now) (length a.now * length a.now + 7 * length a.now) }
    ensures stops { IfErr result (StopsWithin net.old net.new (3 * (length a.now * length a.now) + 17 * length a.now)) }
{
    let top = a.len() - 1;
    let dividend = with_sign(alloc, net, a, a[top])?;
    let divisor = with_sign(alloc, net, b, b[top])?;
    let (quotient, left) = divide_rows(alloc, net, &dividend, &divisor, Lit::TRUE)?;
    let differ = net.xor(a[top], b[top])?;
    let quotient = with_sign(alloc, net, &quotient, differ)?;
    let remainder = with_sign(alloc, net, &left, a[top])?;
    Ok((quotient, remainder))
}

/// The quotient and the remainder of two words of one length from 1 on, by their signed or their unsigned
/// readings: a restoring divider. A quotient is rounded toward zero, and a remainder has the sign of `a`. By zero the quotient is all
/// ones, or 1 where a signed `a` is negative, and the remainder is `a`; the least number by -1 is itself, with
/// nothing left. Both forms are the same.
///
/// # Errors
///
/// `GateLimit` where the net has reached its budget, and `Memory`. The net may have more gates.
pub fn divide(
    alloc: Global,
    net: &mut Net,
    _form: Form,
    signed: bool,
    a: &[Lit],
    b: &[Lit],
) -> Result<(Vec<Lit>, Vec<Lit>), GateFault>
    requires first { AllStand net.old a.now }
    requires second { AllStand net.old b.now }
    requires same_length { length a.now ≡ length b.now }
    requires some { 0 < length a.now }

    // The answers, for all inputs.
    ensures stands { IfOk result (λ r. AllStand net.new r.0.items × AllStand net.new r.1.items) }
    ensures same { IfOk result (λ r. (length r.0.items ≡ length a.now) × (length r.1.items ≡ length a.now)) }
    ensures quotient { IfOk result (λ r. (bits : List Bool) → spelled net.new bits r.0.items ≡ quotient_of signed (length a.now) (spelled net.old bits a.now) (spelled net.old bits b.now)) }
    ensures remainder { IfOk result (λ r. (bits : List Bool) → spelled net.new bits r.1.items ≡ remainder_of signed (length a.now) (spelled net.old bits a.now) (spelled net.old bits b.now)) }

    // The gates, also after an Err: at a length of n at most n^2 + 3n - 1 ANDs for the unsigned readings and
    // n^2 + 7n for the signed ones; and together with at most eight gates for each two places and each level of a
    // tree and one more, at most 2n^2 + 8n ANDs at every length.
    ensures ands_unsigned { signed ≡ false → Grows net.old net.new (3 * (length a.now * length a.now) + 5 * length a.now - 1) (length a.now * length a.now + 3 * length a.now - 1) }
    ensures ands_signed { Grows net.old net.new (3 * (length a.now * length a.now) + 17 * length a.now) (length a.now * length a.now + 7 * length a.now) }
    ensures gates { (k : ℕ) → length a.now ≤ 2 ^ k → Grows net.old net.new (divider_size (length a.now) k) (2 * (length a.now * length a.now) + 8 * length a.now) }
    ensures stops { IfErr result (λ e. (k : ℕ) → length a.now ≤ 2 ^ k → StopsWithin net.old net.new (divider_size (length a.now) k) e) }
{
    if signed && a.len() > 1 {
        let out = divide_signed(alloc, net, a, b)?;
        return Ok(out);
    }
    let out = divide_rows(alloc, net, a, b, Lit::TRUE)?;
    Ok(out)
}
