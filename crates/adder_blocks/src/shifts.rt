//! Shifts by a count that is itself a word.
ghost use Rattle.std.specs.Prelude.{◌≡◌, ◌≤◌, ◌<◌, ℕ, ◌+◌, ◌-◌, ◌*◌, ◌^◌, Bool, List, length, nat_lt, IfOk, IfErr};
ghost use Rattle.hy_bits.specs.Bits.{number};
ghost use Rattle.hy_bits.specs.Sizes.{adder_size};
ghost use Rattle.gate_net.specs.Circuit.{Stands};
ghost use Rattle.gate_net.specs.Meaning.{value};
ghost use Rattle.gate_net.specs.Growth.{Grows, StopsWithin};
ghost use Rattle.gate_net.specs.Spelled.{values, spelled, AllStand};
ghost use Rattle.adder_blocks.specs.Shifts.{moved_by, shifted_by};

use crate::compare::all_of;
use crate::selection::choose;
use crate::sums::complements;
use gate_net::{Form, GateFault, Lit, Net};
use hy_bits::Op;
use std::alloc::{AllocError, Global};

/// The word `a` shifted by the number that `count` spells: up for `Shl`, down with copies of the top bit for `ShrS`, and
/// down with zeros for any other operation. By the length or more everything is pushed out. Both forms are alike.
pub fn shift(
    alloc: Global,
    net: &mut Net,
    form: Form,
    op: Op,
    a: &[Lit],
    count: &[Lit],
) -> Result<Vec<Lit>, GateFault>
    requires first { AllStand net.old a.now }
    requires second { AllStand net.old count.now }
    requires some { 0 < length a.now }
    requires width { length a.now ≤ 64 }

    // The answer, for all inputs.
    ensures stands { IfOk result (λ r. AllStand net.new r.items) }
    ensures same { IfOk result (λ r. length r.items ≡ length a.now) }
    ensures value { IfOk result (λ r. (bits : List Bool) → spelled net.new bits r.items ≡ shifted_by op (length a.now) (spelled net.old bits a.now) (spelled net.old bits count.now)) }

    // The gates, also after an Err.
    ensures gates { (k : ℕ) → length a.now ≤ 2 ^ k → Grows net.old net.new (adder_size (length a.now) k + 4 * length count.now) (adder_size (length a.now) k + 4 * length count.now) }
    ensures stops { IfErr result (λ e. (k : ℕ) → length a.now ≤ 2 ^ k → StopsWithin net.old net.new (adder_size (length a.now) k + 4 * length count.now) e) }
{
    match op {
        Op::Shl => {
            let out = shifted(alloc, net, form, true, a, count, Lit::FALSE)?;
            Ok(out)
        }
        Op::ShrS => {
            let out = shifted(alloc, net, form, false, a, count, a[a.len() - 1])?;
            Ok(out)
        }
        _ => {
            let out = shifted(alloc, net, form, false, a, count, Lit::FALSE)?;
            Ok(out)
        }
    }
}

/// The literals moved by places, up or down, with `fill` where nothing comes from.
fn moved(
    alloc: Global,
    up: bool,
    ls: &[Lit],
    places: usize,
    fill: Lit,
) -> Result<Vec<Lit>, AllocError>
    requires { places ≤ length ls.now }
    ensures { IfOk result (λ r. r.items ≡ moved_by up fill places ls.now) }
{
    let mut out = vec![in alloc; fill; places]?;
    if up {
        out.extend_from_slice(&ls[..ls.len() - places])?;
        return Ok(out);
    }
    let mut low = ls[places..].to_vec(alloc)?;
    low.extend_from_slice(&out)?;
    Ok(low)
}

/// The literals moved by the number that the count spells, in one selection for each bit of the count.
fn moved_by_count(
    alloc: Global,
    net: &mut Net,
    up: bool,
    a: &[Lit],
    count: &[Lit],
    fill: Lit,
) -> Result<Vec<Lit>, GateFault>
    requires first { AllStand net.old a.now }
    requires second { AllStand net.old count.now }
    requires fill { Stands net.old fill }
    requires short { (place : ℕ) → place < length count.now → 2 ^ place ≤ length a.now }
    requires width { length a.now ≤ 64 }
    ensures stands { IfOk result (λ r. AllStand net.new r.items) }
    ensures value { IfOk result (λ r. (bits : List Bool) → values net.new bits r.items ≡ moved_by up (value net.old bits fill) (number (values net.old bits count.now)) (values net.old bits a.now)) }
    ensures grows { Grows net.old net.new (3 * length a.now * length count.now) (length a.now * length count.now) }
    ensures stops { IfErr result (StopsWithin net.old net.new (3 * length a.now * length count.now)) }
{
    let mut out = a.to_vec(alloc)?;
    for (place, c) in count.iter().enumerate() {
        let far = moved(alloc, up, &out, 1 << place, fill)?;
        out = choose(alloc, net, Form::Compact, *c, &far, &out)?;
    }
    Ok(out)
}

/// The number of bits of a count of `bits` bits that move a word of `width` bits by less than its width.
fn stages(width: usize, bits: usize) -> usize
    requires { width ≤ 64 }
    ensures within { result ≤ bits }
    ensures short { (place : ℕ) → place < result → 2 ^ place < width }
    ensures whole { result < bits → width ≤ 2 ^ result }
{
    let mut stages = 0;
    while stages < bits && (1 << stages) < width {
        stages += 1;
    }
    stages
}

/// Whether some literal is 1.
fn any_of(alloc: Global, net: &mut Net, ls: &[Lit]) -> Result<Lit, GateFault>
    requires stand { AllStand net.old ls.now }
    requires some { 0 < length ls.now }
    ensures grows { Grows net.old net.new (length ls.now) (length ls.now) }
    ensures stops { IfErr result (StopsWithin net.old net.new (length ls.now)) }
    ensures stands { IfOk result (Stands net.new) }
    ensures value { IfOk result (λ r. (bits : List Bool) → value net.new bits r ≡ nat_lt 0 (spelled net.old bits ls.now)) }
{
    let complements = complements(alloc, ls)?;
    let none = all_of(net, &complements)?;
    Ok(none.complement())
}

/// The literals moved by the number that the count spells, whatever that is.
fn shifted(
    alloc: Global,
    net: &mut Net,
    form: Form,
    up: bool,
    a: &[Lit],
    count: &[Lit],
    fill: Lit,
) -> Result<Vec<Lit>, GateFault>
    requires first { AllStand net.old a.now }
    requires second { AllStand net.old count.now }
    requires fill { Stands net.old fill }
    requires width { length a.now ≤ 64 }
    ensures stands { IfOk result (λ r. AllStand net.new r.items) }
    ensures value { IfOk result (λ r. (bits : List Bool) → values net.new bits r.items ≡ moved_by up (value net.old bits fill) (spelled net.old bits count.now) (values net.old bits a.now)) }
    ensures gates { (k : ℕ) → length a.now ≤ 2 ^ k → Grows net.old net.new (adder_size (length a.now) k + 4 * length count.now) (adder_size (length a.now) k + 4 * length count.now) }
    ensures stops { IfErr result (λ e. (k : ℕ) → length a.now ≤ 2 ^ k → StopsWithin net.old net.new (adder_size (length a.now) k + 4 * length count.now) e) }
{
    let (low, high) = count.split_at(stages(a.len(), count.len()));
    let near = moved_by_count(alloc, net, up, a, low, fill)?;
    if high.is_empty() {
        return Ok(near);
    }
    let any = any_of(alloc, net, high)?;
    let far = vec![in alloc; fill; a.len()]?;
    let out = choose(alloc, net, form, any, &far, &near)?;
    Ok(out)
}
