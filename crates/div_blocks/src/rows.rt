//! Division in writing: one row for each digit of the quotient, from the highest.
ghost use Rattle.std.specs.Prelude.{◌≡◌, ℕ, ◌+◌, ◌-◌, ◌*◌, ◌^◌, ◌≤◌, ◌<◌, Bool, not, ◌&&◌, nat_le, List, length, if◌then◌else◌, IfOk, IfErr};
ghost use Rattle.hy_bits.specs.Bits.{xor, next_carry, bitwise};
ghost use Rattle.hy_bits.specs.Words.{word_div_u, word_rem_u};
ghost use Rattle.gate_net.specs.Circuit.{Stands};
ghost use Rattle.gate_net.specs.Meaning.{value};
ghost use Rattle.gate_net.specs.Growth.{Grows, StopsWithin};
ghost use Rattle.gate_net.specs.Spelled.{values, spelled, AllStand};
ghost use Rattle.adder_blocks.specs.Steps.{IsOfThree};
ghost use Rattle.div_blocks.specs.Division.{changed_bits, left_of, SaysBelow};

use gate_net::{GateFault, Lit, Net};
use std::alloc::Global;

/// One place of the difference `x - y`, which is `x + !y` and a carry: whether the bit of `x` changes, and
/// the carry into the place above. One AND.
fn difference_place(net: &mut Net, x: Lit, y: Lit, carry: Lit) -> Result<(Lit, Lit), GateFault>
    requires first { Stands net.old x }
    requires second { Stands net.old y }
    requires third { Stands net.old carry }
    ensures grows { Grows net.old net.new 4 1 }
    ensures stops { IfErr result (StopsWithin net.old net.new 4) }
    ensures stands { IfOk result (λ r. Stands net.new r.0 × Stands net.new r.1) }
    ensures change { IfOk result (λ r. IsOfThree (λ x y c. xor (not y) c) net.old net.new x y carry r.0) }
    ensures carry { IfOk result (λ r. IsOfThree (λ x y c. next_carry x (not y) c) net.old net.new x y carry r.1) }
{
    let differ = net.xor(x, carry)?;
    let change = net.xor(y.complement(), carry)?;
    let both = net.and(differ, change)?;
    let next = net.xor(carry, both)?;
    Ok((change, next))
}

/// The places in which `x` and `x - y` differ, and whether `y` is at most `x`.
fn changes(alloc: Global, net: &mut Net, x: &[Lit], y: &[Lit]) -> Result<(Vec<Lit>, Lit), GateFault>
    requires first { AllStand net.old x.now }
    requires second { AllStand net.old y.now }
    requires same_length { length x.now ≡ length y.now }
    ensures stands { IfOk result (λ r. AllStand net.new r.0.items × Stands net.new r.1) }
    ensures same { IfOk result (λ r. length r.0.items ≡ length x.now) }
    ensures value { IfOk result (λ r. (bits : List Bool) → values net.new bits r.0.items ≡ changed_bits (values net.old bits x.now) (values net.old bits y.now)) }
    ensures fits { IfOk result (λ r. (bits : List Bool) → value net.new bits r.1 ≡ nat_le (spelled net.old bits y.now) (spelled net.old bits x.now)) }
    ensures grows { Grows net.old net.new (4 * length x.now) (length x.now) }
    ensures stops { IfErr result (StopsWithin net.old net.new (4 * length x.now)) }
{
    let mut out = Vec::new(alloc);
    let mut carry = Lit::TRUE;
    for (place, l) in x.iter().enumerate() {
        let (change, next) = difference_place(net, *l, y[place], carry)?;
        out.push(change)?;
        carry = next;
    }
    Ok((out, carry))
}

/// The word with its bits changed, where `taken` is 1. One AND for each literal.
fn changed(
    alloc: Global,
    net: &mut Net,
    word: &[Lit],
    changes: &[Lit],
    taken: Lit,
) -> Result<Vec<Lit>, GateFault>
    requires word { AllStand net.old word.now }
    requires changes { AllStand net.old changes.now }
    requires taken { Stands net.old taken }
    requires same_length { length changes.now ≡ length word.now }
    ensures stands { IfOk result (λ r. AllStand net.new r.items) }
    ensures same { IfOk result (λ r. length r.items ≡ length word.now) }
    ensures value { IfOk result (λ r. (bits : List Bool) → values net.new bits r.items ≡ bitwise (λ x y. xor x (value net.old bits taken && y)) (values net.old bits word.now) (values net.old bits changes.now)) }
    ensures grows { Grows net.old net.new (2 * length word.now) (length word.now) }
    ensures stops { IfErr result (StopsWithin net.old net.new (2 * length word.now)) }
{
    let mut out = Vec::new(alloc);
    for (place, l) in word.iter().enumerate() {
        let change = net.and(taken, changes[place])?;
        let bit = net.xor(*l, change)?;
        out.push(bit)?;
    }
    Ok(out)
}

/// One row: whether the divisor fits into `whole`, which is the quotient's digit, and what is then left of
/// `whole`. `low` has as many of the divisor's lowest digits as `whole` has, and `short` says that there are no
/// others.
fn row(
    alloc: Global,
    net: &mut Net,
    whole: &[Lit],
    low: &[Lit],
    short: Lit,
) -> Result<(Lit, Vec<Lit>), GateFault>
    requires whole { AllStand net.old whole.now }
    requires low { AllStand net.old low.now }
    requires short { Stands net.old short }
    requires same_length { length whole.now ≡ length low.now }
    ensures stands { IfOk result (λ r. Stands net.new r.0 × AllStand net.new r.1.items) }
    ensures same { IfOk result (λ r. length r.1.items ≡ length whole.now) }
    ensures digit { IfOk result (λ r. (bits : List Bool) → value net.new bits r.0 ≡ (nat_le (spelled net.old bits low.now) (spelled net.old bits whole.now) && value net.old bits short)) }
    ensures left { IfOk result (λ r. (bits : List Bool) → spelled net.new bits r.1.items ≡ left_of (value net.new bits r.0) (spelled net.old bits whole.now) (spelled net.old bits low.now)) }
    ensures grows { Grows net.old net.new (6 * length whole.now + 1) (2 * length whole.now + 1) }
    ensures stops { IfErr result (StopsWithin net.old net.new (6 * length whole.now + 1)) }
{
    let (changes, fits) = changes(alloc, net, whole, low)?;
    let digit = net.and(fits, short)?;
    let left = changed(alloc, net, whole, &changes, digit)?;
    Ok((digit, left))
}

/// The quotient and the remainder of `a` by `b`, both as long as `a`. The higher digits of `a` are divided
/// first. What is left of them and the lowest digit have no more places than `a`, so a row takes as many digits of
/// `b`; `short` says that `b` has no others.
pub(crate) fn divide_rows(
    alloc: Global,
    net: &mut Net,
    a: &[Lit],
    b: &[Lit],
    short: Lit,
) -> Result<(Vec<Lit>, Vec<Lit>), GateFault>
    requires first { AllStand net.old a.now }
    requires second { AllStand net.old b.now }
    requires third { Stands net.old short }
    requires some { 0 < length a.now }
    requires within { length a.now ≤ length b.now }
    requires short { SaysBelow net.old b.now (length a.now) short }
    ensures stands { IfOk result (λ r. AllStand net.new r.0.items × AllStand net.new r.1.items) }
    ensures same { IfOk result (λ r. (length r.0.items ≡ length a.now) × (length r.1.items ≡ length a.now)) }
    ensures quotient { IfOk result (λ r. (bits : List Bool) → spelled net.new bits r.0.items ≡ word_div_u (2 ^ length a.now) (spelled net.old bits a.now) (spelled net.old bits b.now)) }
    ensures remainder { IfOk result (λ r. (bits : List Bool) → spelled net.new bits r.1.items ≡ word_rem_u (spelled net.old bits a.now) (spelled net.old bits b.now)) }
    ensures grows { Grows net.old net.new (3 * (length a.now * length a.now) + 5 * length a.now - 1) (length a.now * length a.now + 3 * length a.now - 1) }
    ensures stops { IfErr result (StopsWithin net.old net.new (3 * (length a.now * length a.now) + 5 * length a.now - 1)) }
{
    let places = a.len();
    if places == 1 {
        let (digit, left) = row(alloc, net, a, &b[..1], short)?;
        let quotient = vec![in alloc; digit; 1]?;
        return Ok((quotient, left));
    }
    let shorter = net.and(short, b[places - 1].complement())?;
    let (mut quotient, mut whole) = divide_rows(alloc, net, &a[1..], b, shorter)?;
    whole.insert(0, a[0])?;
    let (digit, left) = row(alloc, net, &whole, &b[..places], short)?;
    quotient.insert(0, digit)?;
    Ok((quotient, left))
}
