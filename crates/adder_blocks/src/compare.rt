//! Comparisons.
ghost use Rattle.std.specs.Prelude.{◌≡◌, ◌==◌, ℕ, ◌+◌, ◌-◌, ◌*◌, ◌^◌, ◌≤◌, ◌<◌, Bool, List, length, map, not, nat_lt, IfOk, IfErr};
ghost use Rattle.std.specs.List.{list_all};
ghost use Rattle.hy_bits.specs.Bits.{xor, next_carry, carry_out, bitwise};
ghost use Rattle.hy_bits.specs.Words.{is_less_s};
ghost use Rattle.hy_bits.specs.Sizes.{adder_size};
ghost use Rattle.gate_net.specs.Circuit.{Stands};
ghost use Rattle.gate_net.specs.Meaning.{value, level};
ghost use Rattle.gate_net.specs.Growth.{Grows, StopsWithin};
ghost use Rattle.gate_net.specs.Spelled.{values, spelled, AllStand, AllWithin};
ghost use Rattle.adder_blocks.specs.Steps.{TopComplemented};

use crate::adder::majority;
use crate::lookahead::lookahead_carry;
use crate::sums::complements;
use gate_net::{Form, GateFault, Lit, Net};
use std::alloc::{AllocError, Global};

/// Whether all literals are 1: a tree of ANDs by halves.
pub(crate) fn all_of(net: &mut Net, ls: &[Lit]) -> Result<Lit, GateFault>
    requires stand { AllStand net.old ls.now }
    requires some { 0 < length ls.now }
    ensures grows { Grows net.old net.new (length ls.now - 1) (length ls.now - 1) }
    ensures stops { IfErr result (StopsWithin net.old net.new (length ls.now)) }
    ensures stands { IfOk result (Stands net.new) }
    ensures value { IfOk result (λ r. (bits : List Bool) → value net.new bits r ≡ list_all (λ b. b) (values net.old bits ls.now)) }
    ensures level { IfOk result (λ r. (d k : ℕ) → length ls.now ≤ 2 ^ k → AllWithin net.old d ls.now → level net.new r ≤ d + k) }
{
    if ls.len() == 1 {
        return Ok(ls[0]);
    }
    let (low, high) = ls.split_at(ls.len() - ls.len() / 2);
    let first = all_of(net, low)?;
    let second = all_of(net, high)?;
    let both = net.and(first, second)?;
    Ok(both)
}

/// The carry out of the top of `a + b` and a carry into the lowest place: an AND for each place.
fn carry_chain(net: &mut Net, a: &[Lit], b: &[Lit], start: Lit) -> Result<Lit, GateFault>
    requires first { AllStand net.old a.now }
    requires second { AllStand net.old b.now }
    requires carry { Stands net.old start }
    requires same_length { length a.now ≡ length b.now }
    ensures stands { IfOk result (Stands net.new) }
    ensures value { IfOk result (λ r. (bits : List Bool) → value net.new bits r ≡ carry_out (value net.old bits start) (values net.old bits a.now) (values net.old bits b.now)) }
    ensures grows { Grows net.old net.new (4 * length a.now) (length a.now) }
    ensures stops { IfErr result (StopsWithin net.old net.new (4 * length a.now)) }
{
    let mut carry = start;
    for (place, x) in a.iter().enumerate() {
        carry = majority(net, *x, b[place], carry)?;
    }
    Ok(carry)
}

/// The carry out of the top of `a + b` and a carry into the lowest place, in either form.
fn carry_of_sum(
    alloc: Global,
    net: &mut Net,
    form: Form,
    a: &[Lit],
    b: &[Lit],
    start: Lit,
) -> Result<Lit, GateFault>
    requires first { AllStand net.old a.now }
    requires second { AllStand net.old b.now }
    requires carry { Stands net.old start }
    requires same_length { length a.now ≡ length b.now }
    requires some { 0 < length a.now }
    ensures stands { IfOk result (Stands net.new) }
    ensures value { IfOk result (λ r. (bits : List Bool) → value net.new bits r ≡ carry_out (value net.old bits start) (values net.old bits a.now) (values net.old bits b.now)) }
    ensures depth { IfOk result (λ r. form ≡ Form.Shallow → (d k : ℕ) → length a.now ≤ 2 ^ k → AllWithin net.old d a.now → AllWithin net.old d b.now → level net.old start ≤ d → level net.new r ≤ d + 1 + k) }
    ensures ands { form ≡ Form.Compact → Grows net.old net.new (4 * length a.now) (length a.now) }
    ensures gates { (k : ℕ) → length a.now ≤ 2 ^ k → Grows net.old net.new (adder_size (length a.now) k) (adder_size (length a.now) k) }
    ensures stops { IfErr result (λ e. (k : ℕ) → length a.now ≤ 2 ^ k → StopsWithin net.old net.new (adder_size (length a.now) k) e) }
{
    match form {
        Form::Compact => {
            let carry = carry_chain(net, a, b, start)?;
            Ok(carry)
        }
        Form::Shallow => {
            let carry = lookahead_carry(alloc, net, a, b, start)?;
            Ok(carry)
        }
    }
}

/// Whether the word `a` is less than the word `b` of the same length from 1 on: the carry that their difference leaves.
///
/// # Errors
///
/// `GateLimit` where the net has reached its budget, and `Memory`. The net may have more gates.
pub fn less_u(
    alloc: Global,
    net: &mut Net,
    form: Form,
    a: &[Lit],
    b: &[Lit],
) -> Result<Lit, GateFault>
    requires first { AllStand net.old a.now }
    requires second { AllStand net.old b.now }
    requires same_length { length a.now ≡ length b.now }
    requires some { 0 < length a.now }

    // The answer, for all inputs.
    ensures stands { IfOk result (Stands net.new) }
    ensures value { IfOk result (λ r. (bits : List Bool) → value net.new bits r ≡ nat_lt (spelled net.old bits a.now) (spelled net.old bits b.now)) }

    // The depth in the shallow form: one and the logarithm of the length, rounded up.
    ensures depth { IfOk result (λ r. form ≡ Form.Shallow → (d k : ℕ) → length a.now ≤ 2 ^ k → AllWithin net.old d a.now → AllWithin net.old d b.now → level net.new r ≤ d + 1 + k) }

    // The gates, also after an Err: in the compact form an AND for each place, and in either form at
    // most eight gates a place for each level of the tree and one more.
    ensures ands { form ≡ Form.Compact → Grows net.old net.new (4 * length a.now) (length a.now) }
    ensures gates { (k : ℕ) → length a.now ≤ 2 ^ k → Grows net.old net.new (adder_size (length a.now) k) (adder_size (length a.now) k) }
    ensures stops { IfErr result (λ e. (k : ℕ) → length a.now ≤ 2 ^ k → StopsWithin net.old net.new (adder_size (length a.now) k) e) }
{
    let complements = complements(alloc, b)?;
    let at_least = carry_of_sum(alloc, net, form, a, &complements, Lit::TRUE)?;
    Ok(at_least.complement())
}

/// The literals with the top one complemented: the order of the numbers is then that of the signed
/// readings.
fn with_top_complemented(alloc: Global, ls: &[Lit]) -> Result<Vec<Lit>, AllocError>
    requires { 0 < length ls.now }
    ensures { IfOk result (λ r. TopComplemented ls.now r.items) }
{
    let top = ls.len() - 1;
    let mut out = ls[..top].to_vec(alloc)?;
    out.push(ls[top].complement())?;
    Ok(out)
}

/// Whether the word `a` is less than the word `b` of the same length from 1 on, by their signed readings.
///
/// # Errors
///
/// `GateLimit` where the net has reached its budget, and `Memory`. The net may have more gates.
pub fn less_s(
    alloc: Global,
    net: &mut Net,
    form: Form,
    a: &[Lit],
    b: &[Lit],
) -> Result<Lit, GateFault>
    requires first { AllStand net.old a.now }
    requires second { AllStand net.old b.now }
    requires same_length { length a.now ≡ length b.now }
    requires some { 0 < length a.now }

    // The answer, for all inputs.
    ensures stands { IfOk result (Stands net.new) }
    ensures value { IfOk result (λ r. (bits : List Bool) → value net.new bits r ≡ is_less_s (2 ^ length a.now) (spelled net.old bits a.now) (spelled net.old bits b.now)) }

    // The depth in the shallow form: one and the logarithm of the length, rounded up.
    ensures depth { IfOk result (λ r. form ≡ Form.Shallow → (d k : ℕ) → length a.now ≤ 2 ^ k → AllWithin net.old d a.now → AllWithin net.old d b.now → level net.new r ≤ d + 1 + k) }

    // The gates, also after an Err: in the compact form an AND for each place, and in either form at
    // most eight gates a place for each level of the tree and one more.
    ensures ands { form ≡ Form.Compact → Grows net.old net.new (4 * length a.now) (length a.now) }
    ensures gates { (k : ℕ) → length a.now ≤ 2 ^ k → Grows net.old net.new (adder_size (length a.now) k) (adder_size (length a.now) k) }
    ensures stops { IfErr result (λ e. (k : ℕ) → length a.now ≤ 2 ^ k → StopsWithin net.old net.new (adder_size (length a.now) k) e) }
{
    let first = with_top_complemented(alloc, a)?;
    let second = with_top_complemented(alloc, b)?;
    let less = less_u(alloc, net, form, &first, &second)?;
    Ok(less)
}

/// The literals that say of each place whether the two words agree there.
fn agreements(alloc: Global, net: &mut Net, a: &[Lit], b: &[Lit]) -> Result<Vec<Lit>, GateFault>
    requires first { AllStand net.old a.now }
    requires second { AllStand net.old b.now }
    requires same_length { length a.now ≡ length b.now }
    ensures stands { IfOk result (λ r. AllStand net.new r.items) }
    ensures value { IfOk result (λ r. (bits : List Bool) → values net.new bits r.items ≡ bitwise (λ x y. not (xor x y)) (values net.old bits a.now) (values net.old bits b.now)) }
    ensures level { IfOk result (λ r. (d : ℕ) → AllWithin net.old d a.now → AllWithin net.old d b.now → AllWithin net.new d r.items) }
    ensures grows { Grows net.old net.new (length a.now) 0 }
    ensures stops { IfErr result (StopsWithin net.old net.new (length a.now)) }
{
    let mut out = Vec::new(alloc);
    for (place, x) in a.iter().enumerate() {
        let differ = net.xor(*x, b[place])?;
        out.push(differ.complement())?;
    }
    Ok(out)
}

/// Whether two words of one length from 1 on are equal. Both forms are the same: a tree of ANDs.
///
/// # Errors
///
/// `GateLimit` where the net has reached its budget, and `Memory`. The net may have more gates.
pub fn equal(
    alloc: Global,
    net: &mut Net,
    _form: Form,
    a: &[Lit],
    b: &[Lit],
) -> Result<Lit, GateFault>
    requires first { AllStand net.old a.now }
    requires second { AllStand net.old b.now }
    requires same_length { length a.now ≡ length b.now }
    requires some { 0 < length a.now }

    // The answer, for all inputs.
    ensures stands { IfOk result (Stands net.new) }
    ensures value { IfOk result (λ r. (bits : List Bool) → value net.new bits r ≡ (spelled net.old bits a.now == spelled net.old bits b.now)) }

    // The depth, in either form: at most the logarithm of the length, rounded up.
    ensures level { IfOk result (λ r. (d k : ℕ) → length a.now ≤ 2 ^ k → AllWithin net.old d a.now → AllWithin net.old d b.now → level net.new r ≤ d + k) }

    // The gates, also after an Err.
    ensures grows { Grows net.old net.new (2 * length a.now) (length a.now - 1) }
    ensures stops { IfErr result (StopsWithin net.old net.new (2 * length a.now)) }
{
    let agreements = agreements(alloc, net, a, b)?;
    let all = all_of(net, &agreements)?;
    Ok(all)
}
