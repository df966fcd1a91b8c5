//! The carries of a sum at Y, from the lowest place up: P0 garbles an And for each and P1 evaluates it. The new shares are the labels of the
//! sum's bits.
ghost use Rattle.std.specs.Prelude.{◌≡◌, ◌+◌, ◌-◌, ◌*◌, ◌<◌, ◌≤◌, ◌++◌, ℕ, [], drop, length, slice_index, take};
ghost use Rattle.hy_bits.specs.Words.{bits};
ghost use Rattle.hy_bits.specs.declared.turns.Role.TheVariants.{P0, P1};
ghost use Rattle.byte_queue.specs.Ring.{spare};
ghost use Rattle.share_core.specs.Conversions.{carries_message, sum_label};
ghost use Rattle.share_core.specs.Garbled.{label_xor, wire};
ghost use Rattle.share_core.specs.Instructions.{frame_for, slot_of};
ghost use Rattle.share_core.specs.Machine.{listed, written};
ghost use Rattle.party.specs.Steps.{labels_in};

use crate::framing::put_head;
use crate::operands::labels_of_codes;
use crate::targets::put_labels;
use byte_queue::Queue;
use hy_bits::{Role, Width};
use share_convert::{carry_finish, carry_send};
use share_core::{HEAD, Instr, Label, Offset};
use share_yao::{Labels, YaoDealt, label_xor};

/// Puts the rows of the carries of two words, and gives the labels of the sum's bits.
fn garble_sum(
    w: Width,
    number: u64,
    offset: Offset,
    a: &Labels,
    b: &Labels,
    outbox: &mut Queue,
) -> Labels
    requires { 32 * (bits w - 1) ≤ spare outbox.old }
    ensures items { outbox.new.items ≡ outbox.old.items ++ carries_message w offset number (wire a.now.list) (wire b.now.list) }
    ensures room { outbox.new.room ≡ outbox.old.room }
    ensures sums { (k : ℕ) → k < bits w → wire result.list k ≡ sum_label P0 offset number (wire a.now.list) (wire b.now.list) [] k }
{
    let last = w.bits() as usize - 1;
    let mut sums = Labels::zero();
    let mut carry = Label::ZERO;
    for i in 0..last {
        sums.set(i, sum_of(a, b, carry, i));
        let mut rows = [0; 32];
        carry = carry_send(
            number.wrapping_add(i as u64),
            a.list[i],
            b.list[i],
            carry,
            YaoDealt { offset },
            &mut rows,
        );
        outbox.put(rows.as_slice());
    }
    sums.set(last, sum_of(a, b, carry, last));
    sums
}

/// The label of a bit of a sum.
fn sum_of(a: &Labels, b: &Labels, carry: Label, i: usize) -> Label
    requires { i < 64 }
    ensures { result ≡ label_xor (label_xor (wire a.now.list i) (wire b.now.list i)) carry }
{
    label_xor(label_xor(a.list[i], b.list[i]), carry)
}

/// P1's labels of the sum's bits, from the rows in the inbox.
fn evaluate_sum(
    w: Width,
    number: u64,
    offset: Offset,
    a: &Labels,
    b: &Labels,
    inbox: &Queue,
) -> Labels
    requires { 5 + 32 * (bits w - 1) ≤ length inbox.now.items }
    ensures { let payload = take (32 * (bits w - 1)) (drop 5 inbox.now.items) in
        (k : ℕ) → k < bits w → wire result.list k ≡ sum_label P1 offset number (wire a.now.list) (wire b.now.list) payload k }
{
    let last = w.bits() as usize - 1;
    let mut sums = Labels::zero();
    let mut carry = Label::ZERO;
    for i in 0..last {
        sums.set(i, sum_of(a, b, carry, i));
        let mut rows = [0; 32];
        inbox.copy(HEAD + 32 * i, &mut rows);
        let gate = number.wrapping_add(i as u64);
        carry = carry_finish(gate, a.list[i], b.list[i], carry, rows.as_slice());
    }
    sums.set(last, sum_of(a, b, carry, last));
    sums
}

/// P0's part of a sum.
pub(crate) fn carries_own(
    instr: &Instr,
    codes: &[u32],
    offset: Offset,
    slots: &mut [Label],
    outbox: &mut Queue,
)
    requires { let a = labels_in P0 offset codes.now slots.old instr.now.left in
        let b = labels_in P0 offset codes.now slots.old (instr.now.left + bits instr.now.width) in
        length (frame_for instr.now.kind (carries_message instr.now.width offset instr.now.value a b)) ≤ spare outbox.old }
    ensures items { let a = labels_in P0 offset codes.now slots.old instr.now.left in
        let b = labels_in P0 offset codes.now slots.old (instr.now.left + bits instr.now.width) in
        outbox.new.items ≡ outbox.old.items ++ frame_for instr.now.kind (carries_message instr.now.width offset instr.now.value a b) }
    ensures room { outbox.new.room ≡ outbox.old.room }
    ensures slots { let w = instr.now.width in
        let a = labels_in P0 offset codes.now slots.old instr.now.left in
        let b = labels_in P0 offset codes.now slots.old (instr.now.left + bits w) in
        slots.new ≡ written slots.old (listed (bits w) (λ k. slot_of (slice_index codes.now (instr.now.target + k)))) (listed (bits w) (sum_label P0 offset instr.now.value a b [])) }
{
    let w = instr.width;
    let count = w.bits() as usize;
    let left = instr.left as usize;
    let a = labels_of_codes(w, Role::P0, offset, codes, slots, left);
    let b = labels_of_codes(w, Role::P0, offset, codes, slots, left + count);
    put_head(instr.kind, 32 * (count - 1), outbox);
    let sums = garble_sum(w, instr.value, offset, &a, &b, outbox);
    put_labels(count, codes, instr.target as usize, &sums, slots);
}

/// P1's part of a sum.
pub(crate) fn carries_other(
    instr: &Instr,
    codes: &[u32],
    offset: Offset,
    slots: &mut [Label],
    inbox: &Queue,
)
    requires { 5 + 32 * (bits instr.now.width - 1) ≤ length inbox.now.items }
    ensures { let w = instr.now.width in
        let a = labels_in P1 offset codes.now slots.old instr.now.left in
        let b = labels_in P1 offset codes.now slots.old (instr.now.left + bits w) in
        let payload = take (32 * (bits w - 1)) (drop 5 inbox.now.items) in
        slots.new ≡ written slots.old (listed (bits w) (λ k. slot_of (slice_index codes.now (instr.now.target + k)))) (listed (bits w) (sum_label P1 offset instr.now.value a b payload)) }
{
    let w = instr.width;
    let count = w.bits() as usize;
    let left = instr.left as usize;
    let a = labels_of_codes(w, Role::P1, offset, codes, slots, left);
    let b = labels_of_codes(w, Role::P1, offset, codes, slots, left + count);
    let sums = evaluate_sum(w, instr.value, offset, &a, &b, inbox);
    put_labels(count, codes, instr.target as usize, &sums, slots);
}
