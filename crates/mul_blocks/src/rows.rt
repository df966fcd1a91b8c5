//! Rows of a product, and their sum one after another.
ghost use Rattle.std.specs.Prelude.{◌≡◌, ℕ, ◌+◌, ◌-◌, ◌*◌, ◌%◌, ◌^◌, ◌≤◌, ◌<◌, Bool, List, length, IfOk, IfErr};
ghost use Rattle.hy_bits.specs.Bits.{bit};
ghost use Rattle.hy_bits.specs.Words.{word_mul};
ghost use Rattle.gate_net.specs.Circuit.{Stands};
ghost use Rattle.gate_net.specs.Meaning.{value, level};
ghost use Rattle.gate_net.specs.Growth.{Grows, StopsWithin};
ghost use Rattle.gate_net.specs.Spelled.{values, spelled, AllStand, AllWithin};
ghost use Rattle.mul_blocks.specs.Rows.{row_bits};

use adder_blocks::sum;
use gate_net::{Form, GateFault, Lit, Net};
use std::alloc::Global;

/// The word where the digit is 1, else zero. One AND for each literal.
pub(crate) fn row(
    alloc: Global,
    net: &mut Net,
    word: &[Lit],
    digit: Lit,
) -> Result<Vec<Lit>, GateFault>
    requires word { AllStand net.old word.now }
    requires digit { Stands net.old digit }
    ensures stands { IfOk result (λ r. AllStand net.new r.items) }
    ensures same { IfOk result (λ r. length r.items ≡ length word.now) }
    ensures value { IfOk result (λ r. (bits : List Bool) → values net.new bits r.items ≡ row_bits (value net.old bits digit) (values net.old bits word.now)) }
    ensures level { IfOk result (λ r. (d : ℕ) → AllWithin net.old d word.now → level net.old digit ≤ d → AllWithin net.new (d + 1) r.items) }
    ensures grows { Grows net.old net.new (length word.now) (length word.now) }
    ensures stops { IfErr result (StopsWithin net.old net.new (length word.now)) }
{
    let mut out = Vec::new(alloc);
    for x in word {
        let both = net.and(digit, *x)?;
        out.push(both)?;
    }
    Ok(out)
}

/// The row of a digit and twice `rest`, which is one place shorter, modulo two to the length of the row.
fn row_and_twice(
    alloc: Global,
    net: &mut Net,
    word: &[Lit],
    digit: Lit,
    rest: &[Lit],
) -> Result<Vec<Lit>, GateFault>
    requires word { AllStand net.old word.now }
    requires digit { Stands net.old digit }
    requires rest { AllStand net.old rest.now }
    requires shorter { length word.now ≡ length rest.now + 1 }
    requires some { 0 < length rest.now }
    ensures stands { IfOk result (λ r. AllStand net.new r.items) }
    ensures same { IfOk result (λ r. length r.items ≡ length word.now) }
    ensures value { IfOk result (λ r. (bits : List Bool) → spelled net.new bits r.items ≡ (bit (value net.old bits digit) * spelled net.old bits word.now + 2 * spelled net.old bits rest.now) % 2 ^ length word.now) }
    ensures grows { Grows net.old net.new (6 * length rest.now + 1) (2 * length rest.now) }
    ensures stops { IfErr result (StopsWithin net.old net.new (6 * length rest.now + 2)) }
{
    let mut out = row(alloc, net, word, digit)?;
    let high = sum(alloc, net, Form::Compact, &out[1..], rest)?;
    out.truncate(1);
    out.extend_from_slice(&high)?;
    Ok(out)
}

/// The product of two words of one length, modulo two to the length, by its rows one after another, from
/// the highest digit's. The row of a digit at place `i` has as many literals as matter, `i` less than all.
pub(crate) fn product_by_rows(
    alloc: Global,
    net: &mut Net,
    a: &[Lit],
    b: &[Lit],
) -> Result<Vec<Lit>, GateFault>
    requires first { AllStand net.old a.now }
    requires second { AllStand net.old b.now }
    requires same_length { length a.now ≡ length b.now }
    requires some { 0 < length a.now }
    ensures stands { IfOk result (λ r. AllStand net.new r.items) }
    ensures same { IfOk result (λ r. length r.items ≡ length a.now) }
    ensures value { IfOk result (λ r. (bits : List Bool) → spelled net.new bits r.items ≡ word_mul (2 ^ length a.now) (spelled net.old bits a.now) (spelled net.old bits b.now)) }
    ensures grows { Grows net.old net.new (3 * (length a.now * length a.now)) (length a.now * length a.now - length a.now + 1) }
    ensures stops { IfErr result (StopsWithin net.old net.new (3 * (length a.now * length a.now))) }
{
    let top = a.len() - 1;
    let mut out = row(alloc, net, &a[..1], b[top])?;
    for count in 1..a.len() {
        out = row_and_twice(alloc, net, &a[..count + 1], b[top - count], &out)?;
    }
    Ok(out)
}
