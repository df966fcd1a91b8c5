//! Sums, differences and negatives.
ghost use Rattle.std.specs.Prelude.{◌≡◌, ℕ, ◌+◌, ◌-◌, ◌*◌, ◌^◌, ◌≤◌, ◌<◌, Bool, List, length, map, IfOk, IfErr};
ghost use Rattle.hy_bits.specs.Bits.{sum_bits};
ghost use Rattle.hy_bits.specs.Words.{word_add, word_sub, word_neg};
ghost use Rattle.hy_bits.specs.Sizes.{adder_size};
ghost use Rattle.gate_net.specs.Literal.{complement_of};
ghost use Rattle.gate_net.specs.Circuit.{Stands};
ghost use Rattle.gate_net.specs.Meaning.{value, level};
ghost use Rattle.gate_net.specs.Growth.{Grows, StopsWithin};
ghost use Rattle.gate_net.specs.Spelled.{values, spelled, AllStand, AllWithin};

use crate::adder::full_adder;
use crate::lookahead::lookahead_sum;
use gate_net::{Form, GateFault, Lit, Net};
use std::alloc::{AllocError, Global};

/// The bits of `a + b` and a carry into the lowest place, with one AND for each place but the highest:
/// the carry out of that one isn't made.
fn ripple(
    alloc: Global,
    net: &mut Net,
    a: &[Lit],
    b: &[Lit],
    start: Lit,
) -> Result<Vec<Lit>, GateFault>
    requires first { AllStand net.old a.now }
    requires second { AllStand net.old b.now }
    requires carry { Stands net.old start }
    requires same_length { length a.now ≡ length b.now }
    requires some { 0 < length a.now }
    ensures stands { IfOk result (λ r. AllStand net.new r.items) }
    ensures value { IfOk result (λ r. (bits : List Bool) → values net.new bits r.items ≡ sum_bits (value net.old bits start) (values net.old bits a.now) (values net.old bits b.now)) }
    ensures grows { Grows net.old net.new (5 * length a.now) (length a.now - 1) }
    ensures stops { IfErr result (StopsWithin net.old net.new (5 * length a.now)) }
{
    let top = a.len() - 1;
    let mut out = Vec::new(alloc);
    let mut carry = start;
    for place in 0..top {
        let (bit, next) = full_adder(net, a[place], b[place], carry)?;
        out.push(bit)?;
        carry = next;
    }
    let differ = net.xor(a[top], b[top])?;
    let bit = net.xor(differ, carry)?;
    out.push(bit)?;
    Ok(out)
}

/// The complements of all literals. They cost no gate.
pub(crate) fn complements(alloc: Global, ls: &[Lit]) -> Result<Vec<Lit>, AllocError>
    ensures { IfOk result (λ r. r.items ≡ map complement_of ls.now) }
{
    ls.iter().map(|l| l.complement()).collect(alloc)
}

/// The bits of `a + b` and a carry into the lowest place, in either form.
fn add(
    alloc: Global,
    net: &mut Net,
    form: Form,
    a: &[Lit],
    b: &[Lit],
    start: Lit,
) -> Result<Vec<Lit>, GateFault>
    requires first { AllStand net.old a.now }
    requires second { AllStand net.old b.now }
    requires carry { Stands net.old start }
    requires same_length { length a.now ≡ length b.now }
    requires some { 0 < length a.now }
    ensures stands { IfOk result (λ r. AllStand net.new r.items) }
    ensures value { IfOk result (λ r. (bits : List Bool) → values net.new bits r.items ≡ sum_bits (value net.old bits start) (values net.old bits a.now) (values net.old bits b.now)) }
    ensures depth { IfOk result (λ r. form ≡ Form.Shallow → (d k : ℕ) → length a.now ≤ 2 ^ k → AllWithin net.old d a.now → AllWithin net.old d b.now → level net.old start ≤ d → AllWithin net.new (d + 1 + k) r.items) }
    ensures ands { form ≡ Form.Compact → Grows net.old net.new (5 * length a.now) (length a.now - 1) }
    ensures gates { (k : ℕ) → length a.now ≤ 2 ^ k → Grows net.old net.new (adder_size (length a.now) k) (adder_size (length a.now) k) }
    ensures stops { IfErr result (λ e. (k : ℕ) → length a.now ≤ 2 ^ k → StopsWithin net.old net.new (adder_size (length a.now) k) e) }
{
    match form {
        Form::Compact => {
            let out = ripple(alloc, net, a, b, start)?;
            Ok(out)
        }
        Form::Shallow => {
            let out = lookahead_sum(alloc, net, a, b, start)?;
            Ok(out)
        }
    }
}

/// The sum of two words of one length from 1 on, modulo two to the length: a ripple adder or a prefix adder.
///
/// # Errors
///
/// `GateLimit` where the net has reached its budget, and `Memory`. The net may have more gates.
pub fn sum(
    alloc: Global,
    net: &mut Net,
    form: Form,
    a: &[Lit],
    b: &[Lit],
) -> Result<Vec<Lit>, GateFault>
    requires first { AllStand net.old a.now }
    requires second { AllStand net.old b.now }
    requires same_length { length a.now ≡ length b.now }
    requires some { 0 < length a.now }

    // The answer, for all inputs.
    ensures stands { IfOk result (λ r. AllStand net.new r.items) }
    ensures same { IfOk result (λ r. length r.items ≡ length a.now) }
    ensures value { IfOk result (λ r. (bits : List Bool) → spelled net.new bits r.items ≡ word_add (2 ^ length a.now) (spelled net.old bits a.now) (spelled net.old bits b.now)) }

    // The depth in the shallow form: one and the logarithm of the length, rounded up.
    ensures depth { IfOk result (λ r. form ≡ Form.Shallow → (d k : ℕ) → length a.now ≤ 2 ^ k → AllWithin net.old d a.now → AllWithin net.old d b.now → AllWithin net.new (d + 1 + k) r.items) }

    // The gates, also after an Err: in the compact form one AND less than places, and in either form
    // at most eight gates a place for each level of the tree and one more.
    ensures ands { form ≡ Form.Compact → Grows net.old net.new (5 * length a.now) (length a.now - 1) }
    ensures gates { (k : ℕ) → length a.now ≤ 2 ^ k → Grows net.old net.new (adder_size (length a.now) k) (adder_size (length a.now) k) }
    ensures stops { IfErr result (λ e. (k : ℕ) → length a.now ≤ 2 ^ k → StopsWithin net.old net.new (adder_size (length a.now) k) e) }
{
    let out = add(alloc, net, form, a, b, Lit::FALSE)?;
    Ok(out)
}

/// The difference of two words of one length from 1 on, modulo two to the length: the sum with the complement and one.
///
/// # Errors
///
/// `GateLimit` where the net has reached its budget, and `Memory`. The net may have more gates.
pub fn difference(
    alloc: Global,
    net: &mut Net,
    form: Form,
    a: &[Lit],
    b: &[Lit],
) -> Result<Vec<Lit>, GateFault>
    requires first { AllStand net.old a.now }
    requires second { AllStand net.old b.now }
    requires same_length { length a.now ≡ length b.now }
    requires some { 0 < length a.now }

    // The answer, for all inputs.
    ensures stands { IfOk result (λ r. AllStand net.new r.items) }
    ensures same { IfOk result (λ r. length r.items ≡ length a.now) }
    ensures value { IfOk result (λ r. (bits : List Bool) → spelled net.new bits r.items ≡ word_sub (2 ^ length a.now) (spelled net.old bits a.now) (spelled net.old bits b.now)) }

    // The depth in the shallow form: one and the logarithm of the length, rounded up.
    ensures depth { IfOk result (λ r. form ≡ Form.Shallow → (d k : ℕ) → length a.now ≤ 2 ^ k → AllWithin net.old d a.now → AllWithin net.old d b.now → AllWithin net.new (d + 1 + k) r.items) }

    // The gates, also after an Err: in the compact form one AND less than places, and in either form
    // at most eight gates a place for each level of the tree and one more.
    ensures ands { form ≡ Form.Compact → Grows net.old net.new (5 * length a.now) (length a.now - 1) }
    ensures gates { (k : ℕ) → length a.now ≤ 2 ^ k → Grows net.old net.new (adder_size (length a.now) k) (adder_size (length a.now) k) }
    ensures stops { IfErr result (λ e. (k : ℕ) → length a.now ≤ 2 ^ k → StopsWithin net.old net.new (adder_size (length a.now) k) e) }
{
    let complements = complements(alloc, b)?;
    let out = add(alloc, net, form, a, &complements, Lit::TRUE)?;
    Ok(out)
}

/// Zero minus a word of a length from 1 on, modulo two to the length.
///
/// # Errors
///
/// `GateLimit` where the net has reached its budget, and `Memory`. The net may have more gates.
pub fn negative(alloc: Global, net: &mut Net, form: Form, a: &[Lit]) -> Result<Vec<Lit>, GateFault>
    requires stand { AllStand net.old a.now }
    requires some { 0 < length a.now }

    // The answer, for all inputs.
    ensures stands { IfOk result (λ r. AllStand net.new r.items) }
    ensures same { IfOk result (λ r. length r.items ≡ length a.now) }
    ensures value { IfOk result (λ r. (bits : List Bool) → spelled net.new bits r.items ≡ word_neg (2 ^ length a.now) (spelled net.old bits a.now)) }

    // The depth in the shallow form: one and the logarithm of the length, rounded up.
    ensures depth { IfOk result (λ r. form ≡ Form.Shallow → (d k : ℕ) → length a.now ≤ 2 ^ k → AllWithin net.old d a.now → AllWithin net.new (d + 1 + k) r.items) }

    // The gates, also after an Err: in the compact form one AND less than places, and in either form
    // at most eight gates a place for each level of the tree and one more.
    ensures ands { form ≡ Form.Compact → Grows net.old net.new (5 * length a.now) (length a.now - 1) }
    ensures gates { (k : ℕ) → length a.now ≤ 2 ^ k → Grows net.old net.new (adder_size (length a.now) k) (adder_size (length a.now) k) }
    ensures stops { IfErr result (λ e. (k : ℕ) → length a.now ≤ 2 ^ k → StopsWithin net.old net.new (adder_size (length a.now) k) e) }
{
    let zeros = vec![in alloc; Lit::FALSE; a.len()]?;
    let out = difference(alloc, net, form, &zeros, a)?;
    Ok(out)
}
