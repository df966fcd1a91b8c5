//! Where new shares go. What has no slot is dropped.
ghost use Rattle.std.specs.Prelude.{◌≡◌, ◌+◌, ◌≤◌, ◌<◌, ◌^◌, set, slice_index};
ghost use Rattle.hy_bits.specs.Words.{bits};
ghost use Rattle.share_core.specs.Garbled.{wire};
ghost use Rattle.share_core.specs.Instructions.{slot_of};
ghost use Rattle.share_core.specs.Machine.{bit_slots, listed, written};

use crate::operands::{code_at, slot_of};
use hy_bits::Width;
use share_core::Label;
use share_yao::{Labels, bit_of};

/// Puts `share` into a slot.
pub(crate) fn put(slots: &mut [Label], slot: usize, share: Label)
    ensures { slots.new ≡ set slots.old slot share }
{
    if slot < slots.len() {
        slots[slot] = share;
    }
}

/// Puts a share at A into a slot.
pub(crate) fn put_word(slots: &mut [Label], slot: u32, word: u64)
    ensures { slots.new ≡ set slots.old slot (record { low = word; high = 0 }) }
{
    put(slots, slot as usize, Label { low: word, high: 0 });
}

/// Puts the first `count` labels into the slots of the codes from `place` on.
pub(crate) fn put_labels(
    count: usize,
    codes: &[u32],
    place: usize,
    labels: &Labels,
    slots: &mut [Label],
)
    requires few { count ≤ 64 }
    requires small { place < 2 ^ 33 }
    ensures { slots.new ≡ written slots.old (listed count (λ k. slot_of (slice_index codes.now (place + k)))) (listed count (wire labels.now.list)) }
{
    for k in 0..count {
        put(slots, slot_of(code_at(codes, place + k)), labels.list[k]);
    }
}

/// Puts the bits of a share at B of a word into the slots of the codes from `place` on, the lowest first.
pub(crate) fn put_bits(w: Width, codes: &[u32], place: u32, word: u64, slots: &mut [Label])
    ensures { slots.new ≡ written slots.old (listed (bits w) (λ k. slot_of (slice_index codes.now (place + k)))) (bit_slots w word) }
{
    for k in 0..w.bits() as usize {
        let share = Label {
            low: u64::from(bit_of(word, k)),
            high: 0,
        };
        put(slots, slot_of(code_at(codes, place as usize + k)), share);
    }
}
