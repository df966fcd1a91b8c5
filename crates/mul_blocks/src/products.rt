//! Products in either form.
ghost use Rattle.std.specs.Prelude.{◌≡◌, ℕ, ◌+◌, ◌-◌, ◌*◌, ◌^◌, ◌≤◌, ◌<◌, Bool, List, length, IfOk, IfErr};
ghost use Rattle.hy_bits.specs.Words.{word_mul};
ghost use Rattle.hy_bits.specs.Sizes.{product_size};
ghost use Rattle.gate_net.specs.Growth.{Grows, StopsWithin};
ghost use Rattle.gate_net.specs.Spelled.{spelled, AllStand, AllWithin};

use crate::carry_save::rows_in_two;
use crate::rows::{product_by_rows, row};
use adder_blocks::sum;
use gate_net::{Form, GateFault, Lit, Net};
use std::alloc::Global;

/// The product of two words of one length, modulo two to the length, by a tree of carry-save adders and
/// one sum.
fn product_by_tree(
    alloc: Global,
    net: &mut Net,
    a: &[Lit],
    b: &[Lit],
) -> Result<Vec<Lit>, GateFault>
    requires first { AllStand net.old a.now }
    requires second { AllStand net.old b.now }
    requires same_length { length a.now ≡ length b.now }
    requires some { 0 < length a.now }
    ensures stands { IfOk result (λ r. AllStand net.new r.items) }
    ensures same { IfOk result (λ r. length r.items ≡ length a.now) }
    ensures value { IfOk result (λ r. (bits : List Bool) → spelled net.new bits r.items ≡ word_mul (2 ^ length a.now) (spelled net.old bits a.now) (spelled net.old bits b.now)) }
    ensures level { IfOk result (λ r. (d k : ℕ) → length a.now ≤ 2 ^ k → 0 < k → AllWithin net.old d a.now → AllWithin net.old d b.now → AllWithin net.new (d + 3 * k) r.items) }
    ensures gates { (k : ℕ) → length a.now ≤ 2 ^ k → Grows net.old net.new (product_size (length a.now) k) (product_size (length a.now) k) }
    ensures stops { IfErr result (λ e. (k : ℕ) → length a.now ≤ 2 ^ k → StopsWithin net.old net.new (product_size (length a.now) k) e) }
{
    if a.len() == 1 {
        let only = row(alloc, net, a, b[0])?;
        return Ok(only);
    }
    let (x, y) = rows_in_two(alloc, net, a, b, 0)?;
    let out = sum(alloc, net, Form::Shallow, &x, &y)?;
    Ok(out)
}

/// The product of two words of one length from 1 on, modulo two to the length. In the compact form its rows
/// are added one after another, in the shallow form by a carry-save tree and one prefix adder.
///
/// # Errors
///
/// `GateLimit` where the net has reached its budget, and `Memory`. The net may have more gates.
pub fn product(
    alloc: Global,
    net: &mut Net,
    form: Form,
    a: &[Lit],
    b: &[Lit],
) -> Result<Vec<Lit>, GateFault>
    requires first { AllStand net.old a.now }
    requires second { AllStand net.old b.now }
    requires same_length { length a.now ≡ length b.now }
    requires some { 0 < length a.now }

    // The answer, for all inputs.
    ensures stands { IfOk result (λ r. AllStand net.new r.items) }
    ensures same { IfOk result (λ r. length r.items ≡ length a.now) }
    ensures value { IfOk result (λ r. (bits : List Bool) → spelled net.new bits r.items ≡ word_mul (2 ^ length a.now) (spelled net.old bits a.now) (spelled net.old bits b.now)) }

    // The depth in the shallow form: three times the logarithm of the length, rounded up, from length 2 on.
    ensures depth { IfOk result (λ r. form ≡ Form.Shallow → (d k : ℕ) → length a.now ≤ 2 ^ k → 0 < k → AllWithin net.old d a.now → AllWithin net.old d b.now → AllWithin net.new (d + 3 * k) r.items) }

    // The gates, also after an Err: in the compact form n^2 - n + 1 ANDs at a length of n, and in either form
    // at most eight gates for each two places, and those of a sum.
    ensures ands { form ≡ Form.Compact → Grows net.old net.new (3 * (length a.now * length a.now)) (length a.now * length a.now - length a.now + 1) }
    ensures gates { (k : ℕ) → length a.now ≤ 2 ^ k → Grows net.old net.new (product_size (length a.now) k) (product_size (length a.now) k) }
    ensures stops { IfErr result (λ e. (k : ℕ) → length a.now ≤ 2 ^ k → StopsWithin net.old net.new (product_size (length a.now) k) e) }
{
    match form {
        Form::Compact => {
            let out = product_by_rows(alloc, net, a, b)?;
            Ok(out)
        }
        Form::Shallow => {
            let out = product_by_tree(alloc, net, a, b)?;
            Ok(out)
        }
    }
}
