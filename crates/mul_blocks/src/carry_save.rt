//! A product's rows as two words with their sum, by a carry-save tree: four words become two by two full adders a place, again and
//! again (Wallace).
ghost use Rattle.std.specs.Prelude.{◌≡◌, ℕ, ◌+◌, ◌-◌, ◌*◌, ◌%◌, ◌^◌, ◌≤◌, ◌<◌, Bool, List, length, IfOk, IfErr};
ghost use Rattle.hy_bits.specs.Bits.{bit};
ghost use Rattle.gate_net.specs.Circuit.{Stands};
ghost use Rattle.gate_net.specs.Meaning.{value, level};
ghost use Rattle.gate_net.specs.Growth.{Grows, StopsWithin};
ghost use Rattle.gate_net.specs.Spelled.{values, spelled, AllStand, AllWithin};
ghost use Rattle.mul_blocks.specs.Rows.{AddUpTo, BothStand, BothWithin};

use crate::rows::row;
use adder_blocks::full_adder;
use gate_net::{GateFault, Lit, Net};
use std::alloc::Global;

/// Two words with the sum of three, modulo two to their length. The carry out of the top isn't made.
fn carry_save(
    alloc: Global,
    net: &mut Net,
    x: &[Lit],
    y: &[Lit],
    z: &[Lit],
) -> Result<(Vec<Lit>, Vec<Lit>), GateFault>
    requires first { AllStand net.old x.now }
    requires second { AllStand net.old y.now }
    requires third { AllStand net.old z.now }
    requires same_second { length y.now ≡ length x.now }
    requires same_third { length z.now ≡ length x.now }
    requires some { 0 < length x.now }
    ensures stands { IfOk result (λ r. BothStand net.new (r.0.items, r.1.items)) }
    ensures same { IfOk result (λ r. (length r.0.items ≡ length x.now) × (length r.1.items ≡ length x.now)) }
    ensures value { IfOk result (λ r. AddUpTo net.new (2 ^ length x.now) (λ bits. spelled net.old bits x.now + spelled net.old bits y.now + spelled net.old bits z.now) (r.0.items, r.1.items)) }
    ensures level { IfOk result (λ r. (d : ℕ) → AllWithin net.old d x.now → AllWithin net.old d y.now → AllWithin net.old d z.now → BothWithin net.new (d + 1) (r.0.items, r.1.items)) }
    ensures grows { Grows net.old net.new (5 * length x.now) (length x.now) }
    ensures stops { IfErr result (StopsWithin net.old net.new (5 * length x.now)) }
{
    let top = x.len() - 1;
    let mut sums = Vec::new(alloc);
    let mut carries = vec![in alloc; Lit::FALSE; 1]?;
    for place in 0..top {
        let (sum, carry) = full_adder(net, x[place], y[place], z[place])?;
        sums.push(sum)?;
        carries.push(carry)?;
    }
    let differ = net.xor(x[top], y[top])?;
    let sum = net.xor(differ, z[top])?;
    sums.push(sum)?;
    Ok((sums, carries))
}

/// Two words with the sum of four.
fn four_to_two(
    alloc: Global,
    net: &mut Net,
    x: &[Lit],
    y: &[Lit],
    z: &[Lit],
    w: &[Lit],
) -> Result<(Vec<Lit>, Vec<Lit>), GateFault>
    requires first { AllStand net.old x.now }
    requires second { AllStand net.old y.now }
    requires third { AllStand net.old z.now }
    requires fourth { AllStand net.old w.now }
    requires same_second { length y.now ≡ length x.now }
    requires same_third { length z.now ≡ length x.now }
    requires same_fourth { length w.now ≡ length x.now }
    requires some { 0 < length x.now }
    ensures stands { IfOk result (λ r. BothStand net.new (r.0.items, r.1.items)) }
    ensures same { IfOk result (λ r. (length r.0.items ≡ length x.now) × (length r.1.items ≡ length x.now)) }
    ensures value { IfOk result (λ r. AddUpTo net.new (2 ^ length x.now) (λ bits. spelled net.old bits x.now + spelled net.old bits y.now + (spelled net.old bits z.now + spelled net.old bits w.now)) (r.0.items, r.1.items)) }
    ensures level { IfOk result (λ r. (d : ℕ) → AllWithin net.old d x.now → AllWithin net.old d y.now → AllWithin net.old d z.now → AllWithin net.old d w.now → BothWithin net.new (d + 2) (r.0.items, r.1.items)) }
    ensures grows { Grows net.old net.new (10 * length x.now) (2 * length x.now) }
    ensures stops { IfErr result (StopsWithin net.old net.new (10 * length x.now)) }
{
    let (sums, carries) = carry_save(alloc, net, x, y, z)?;
    let out = carry_save(alloc, net, &sums, &carries, w)?;
    Ok(out)
}

/// The row of the digit at a place: `word` moved up to the place, cut to its length, where the digit is 1.
fn placed_row(
    alloc: Global,
    net: &mut Net,
    word: &[Lit],
    digit: Lit,
    place: usize,
) -> Result<Vec<Lit>, GateFault>
    requires word { AllStand net.old word.now }
    requires digit { Stands net.old digit }
    requires within { place < length word.now }
    ensures stands { IfOk result (λ r. AllStand net.new r.items) }
    ensures same { IfOk result (λ r. length r.items ≡ length word.now) }
    ensures value { IfOk result (λ r. (bits : List Bool) → spelled net.new bits r.items ≡ (spelled net.old bits word.now * (2 ^ place * bit (value net.old bits digit))) % 2 ^ length word.now) }
    ensures level { IfOk result (λ r. (d : ℕ) → AllWithin net.old d word.now → level net.old digit ≤ d → AllWithin net.new (d + 1) r.items) }
    ensures grows { Grows net.old net.new (length word.now) (length word.now) }
    ensures stops { IfErr result (StopsWithin net.old net.new (length word.now)) }
{
    let high = row(alloc, net, &word[..word.len() - place], digit)?;
    let mut out = vec![in alloc; Lit::FALSE; place]?;
    out.extend_from_slice(&high)?;
    Ok(out)
}

/// Two words with the sum of two or three rows.
fn few_rows(
    alloc: Global,
    net: &mut Net,
    word: &[Lit],
    digits: &[Lit],
    place: usize,
) -> Result<(Vec<Lit>, Vec<Lit>), GateFault>
    requires word { AllStand net.old word.now }
    requires digits { AllStand net.old digits.now }
    requires least { 2 ≤ length digits.now }
    requires most { length digits.now ≤ 3 }
    requires within { place + length digits.now ≤ length word.now }
    ensures stands { IfOk result (λ r. BothStand net.new (r.0.items, r.1.items)) }
    ensures same { IfOk result (λ r. (length r.0.items ≡ length word.now) × (length r.1.items ≡ length word.now)) }
    ensures value { IfOk result (λ r. AddUpTo net.new (2 ^ length word.now) (λ bits. spelled net.old bits word.now * (2 ^ place * spelled net.old bits digits.now)) (r.0.items, r.1.items)) }
    ensures level { IfOk result (λ r. (d k : ℕ) → length digits.now ≤ 2 * 2 ^ k → AllWithin net.old d word.now → AllWithin net.old d digits.now → BothWithin net.new (d + 1 + 2 * k) (r.0.items, r.1.items)) }
    ensures grows { Grows net.old net.new (length word.now * length digits.now + 5 * (length word.now * (length digits.now - 2))) (length word.now * length digits.now + 5 * (length word.now * (length digits.now - 2))) }
    ensures stops { IfErr result (StopsWithin net.old net.new (length word.now * length digits.now + 5 * (length word.now * (length digits.now - 2)))) }
{
    let first = placed_row(alloc, net, word, digits[0], place)?;
    let second = placed_row(alloc, net, word, digits[1], place + 1)?;
    if digits.len() == 2 {
        return Ok((first, second));
    }
    let third = placed_row(alloc, net, word, digits[2], place + 2)?;
    let out = carry_save(alloc, net, &first, &second, &third)?;
    Ok(out)
}

/// Two words with the sum of the rows of the digits, of which the lowest has this place: a tree by halves.
pub(crate) fn rows_in_two(
    alloc: Global,
    net: &mut Net,
    word: &[Lit],
    digits: &[Lit],
    place: usize,
) -> Result<(Vec<Lit>, Vec<Lit>), GateFault>
    requires word { AllStand net.old word.now }
    requires digits { AllStand net.old digits.now }
    requires least { 2 ≤ length digits.now }
    requires within { place + length digits.now ≤ length word.now }
    ensures stands { IfOk result (λ r. BothStand net.new (r.0.items, r.1.items)) }
    ensures same { IfOk result (λ r. (length r.0.items ≡ length word.now) × (length r.1.items ≡ length word.now)) }
    ensures value { IfOk result (λ r. AddUpTo net.new (2 ^ length word.now) (λ bits. spelled net.old bits word.now * (2 ^ place * spelled net.old bits digits.now)) (r.0.items, r.1.items)) }
    ensures level { IfOk result (λ r. (d k : ℕ) → length digits.now ≤ 2 * 2 ^ k → AllWithin net.old d word.now → AllWithin net.old d digits.now → BothWithin net.new (d + 1 + 2 * k) (r.0.items, r.1.items)) }
    ensures grows { Grows net.old net.new (length word.now * length digits.now + 5 * (length word.now * (length digits.now - 2))) (length word.now * length digits.now + 5 * (length word.now * (length digits.now - 2))) }
    ensures stops { IfErr result (StopsWithin net.old net.new (length word.now * length digits.now + 5 * (length word.now * (length digits.now - 2)))) }
{
    if digits.len() <= 3 {
        let few = few_rows(alloc, net, word, digits, place)?;
        return Ok(few);
    }
    let (low, high) = digits.split_at(digits.len() - digits.len() / 2);
    let (x, y) = rows_in_two(alloc, net, word, low, place)?;
    let (z, w) = rows_in_two(alloc, net, word, high, place + low.len())?;
    let out = four_to_two(alloc, net, &x, &y, &z, &w)?;
    Ok(out)
}
