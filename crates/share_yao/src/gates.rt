ghost use Rattle.std.specs.Prelude.{◌≡◌, ◌+◌, ◌*◌, [], drop, length};
ghost use Rattle.hy_bits.specs.declared.turns.Role.TheVariants.{P0};
ghost use Rattle.share_core.specs.Garbled.{IsLabel, and_label, and_rows, and_share_Y, hash, joined_halves, label_if, label_of, label_xor, low_bit, row_e, row_g};

use crate::labels::{hash, label_for, label_if, label_xor, low_bit, read_label, write_label};
use share_core::{Label, Offset};

/// Garbles the And gate of number `gate` from P0's zero labels `a` and `b`: writes its two garbled rows of 16 bytes each into `out`,
/// by half gates, and gives the zero label of the result. It takes four compressions of SHA-256.
pub fn garble(gate: u64, a: Label, b: Label, offset: Offset, out: &mut [u8]) -> Label
    requires { length out.old ≡ 32 }
    ensures rows { out.new ≡ and_rows offset gate a b }
    ensures value { result ≡ and_share_Y P0 offset gate a b [] }
    ensures label { IsLabel result }
{
    let left = hash_left(a, gate);
    let right = hash_right(b, gate);
    let left_rows = label_xor(left, hash_left(label_for(offset, a, true), gate));
    let right_rows = label_xor(right, hash_right(label_for(offset, b, true), gate));
    let garbler = label_for(offset, left_rows, low_bit(b));
    let evaluator = label_xor(right_rows, a);
    let (first, second) = out.split_at_mut(16);
    write_label(garbler, first);
    write_label(evaluator, second);
    joined_halves(left, right, a, b, garbler, evaluator)
}

/// Evaluates the garbled And gate of number `gate`: P1's label of the result, from its labels `a` and `b` and P0's `rows`. It takes
/// two compressions of SHA-256.
pub fn evaluate(gate: u64, a: Label, b: Label, rows: &[u8]) -> Label
    requires { length rows.now ≡ 32 }
    ensures value { result ≡ and_label gate a b (label_of rows.now) (label_of (drop 16 rows.now)) }
    ensures label { IsLabel result }
{
    let left = hash_left(a, gate);
    let right = hash_right(b, gate);
    let garbler = read_label(rows);
    let evaluator = read_label(&rows[16..]);
    joined_halves(left, right, a, b, garbler, evaluator)
}

/// A party's label of an And's result, from the hashes `left` and `right` of its labels `a` and `b` and the two garbled rows.
fn joined_halves(
    left: Label,
    right: Label,
    a: Label,
    b: Label,
    garbler: Label,
    evaluator: Label,
) -> Label
    ensures value { result ≡ joined_halves left right a b garbler evaluator }
    ensures label { IsLabel result }
{
    label_xor(
        label_xor(left, label_if(low_bit(a), garbler)),
        label_xor(right, label_if(low_bit(b), label_xor(evaluator, a))),
    )
}

/// P0's zero label of the result of gate `gate` without the rows. It takes two compressions, since of each wire one hash is in it.
pub(crate) fn zero_of_and(gate: u64, a: Label, b: Label, offset: Offset) -> Label
    ensures value { result ≡ and_share_Y P0 offset gate a b [] }
    ensures label { IsLabel result }
{
    label_xor(
        garbler_half(gate, a, b, offset),
        evaluator_half(gate, a, b, offset),
    )
}

/// The garbler's half of P0's new zero label: the hash of its left label `a` and, where the label's permute bit is 1, the first row.
fn garbler_half(gate: u64, a: Label, b: Label, offset: Offset) -> Label
    ensures { let row = row_g offset gate a b in
        result ≡ label_xor (hash a (2 * gate)) (label_if (low_bit a) row) }
{
    if low_bit(a) {
        let other = hash_left(label_for(offset, a, true), gate);
        label_for(offset, other, low_bit(b))
    } else {
        hash_left(a, gate)
    }
}

/// The evaluator's half: the hash of its right label `b` and, where the label's permute bit is 1, the second row xor the left label.
fn evaluator_half(gate: u64, a: Label, b: Label, offset: Offset) -> Label
    ensures { let row = label_xor (row_e offset gate a b) a in
        result ≡ label_xor (hash b (2 * gate + 1)) (label_if (low_bit b) row) }
{
    if low_bit(b) {
        hash_right(label_for(offset, b, true), gate)
    } else {
        hash_right(b, gate)
    }
}

/// The hash of a left label `key` in gate `gate`.
fn hash_left(key: Label, gate: u64) -> Label
    ensures value { result ≡ hash key (2 * gate) }
    ensures label { IsLabel result }
{
    hash(key, gate.wrapping_mul(2))
}

/// The hash of a right label `key` in gate `gate`.
fn hash_right(key: Label, gate: u64) -> Label
    ensures value { result ≡ hash key (2 * gate + 1) }
    ensures label { IsLabel result }
{
    hash(key, gate.wrapping_mul(2).wrapping_add(1))
}
