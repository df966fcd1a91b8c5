//! Openings: each party sends its share, at Y the permute bits of its labels, and both have the word.
ghost use Rattle.std.specs.Prelude.{◌≡◌, ◌+◌, ◌%◌, ◌≤◌, ◌++◌, drop, length, slice_index, take};
ghost use Rattle.hy_bits.specs.Words.{bits, modulus};
ghost use Rattle.byte_queue.specs.Ring.{spare};
ghost use Rattle.share_core.specs.Arithmetic.{sum_of};
ghost use Rattle.share_core.specs.Boolean.{xor_of};
ghost use Rattle.share_core.specs.Bytes.{bytes, byte_count, number};
ghost use Rattle.share_core.specs.Garbled.{low_word, wire, word_of_bits};
ghost use Rattle.share_core.specs.Instructions.{frame_for, slot_of};
ghost use Rattle.party.specs.Steps.{bit_in, label_in};

use crate::framing::put_frame;
use crate::inputs::number_in;
use crate::operands::{labels_of_codes, word_at, word_of_codes};
use byte_queue::Queue;
use hy_bits::{Role, Width, add, truncate};
use share_core::{Instr, InstrKind, Label, Offset, byte_count, write_number};
use share_yao::low_bits;

/// The party's share of the word that is opened.
pub(crate) fn opened_share(
    role: Role,
    instr: &Instr,
    codes: &[u32],
    offset: Offset,
    slots: &[Label],
) -> u64
    ensures a { instr.now.kind ≡ InstrKind.OpenA → result ≡ (wire slots.now (slot_of instr.now.left)).low }
    ensures b { instr.now.kind ≡ InstrKind.OpenB → result ≡ word_of_bits (bits instr.now.width) (λ k. bit_in role slots.now (slice_index codes.now (instr.now.left + k))) }
    ensures y { instr.now.kind ≡ InstrKind.OpenY → result ≡ low_word instr.now.width (λ k. label_in role offset slots.now (slice_index codes.now (instr.now.left + k))) }
{
    match instr.kind {
        InstrKind::OpenA => word_at(slots, instr.left),
        InstrKind::OpenB => word_of_codes(instr.width, role, codes, slots, instr.left),
        _ => low_word_of_codes(instr.width, role, offset, codes, slots, instr.left),
    }
}

/// The permute bits of the labels of a word, as a word.
pub(crate) fn low_word_of_codes(
    w: Width,
    role: Role,
    offset: Offset,
    codes: &[u32],
    slots: &[Label],
    place: u32,
) -> u64
    ensures { result ≡ low_word w (λ k. label_in role offset slots.now (slice_index codes.now (place + k))) }
{
    let labels = labels_of_codes(w, role, offset, codes, slots, place as usize);
    low_bits(w, &labels)
}

/// Puts the frame of the party's share of a word.
pub(crate) fn open_send(instr: &Instr, share: u64, outbox: &mut Queue)
    requires { length (frame_for instr.now.kind (bytes (byte_count instr.now.width) (share % modulus instr.now.width))) ≤ spare outbox.old }
    ensures items { let w = instr.now.width in
        outbox.new.items ≡ outbox.old.items ++ frame_for instr.now.kind (bytes (byte_count w) (share % modulus w)) }
    ensures room { outbox.new.room ≡ outbox.old.room }
{
    let mut message = [0; 8];
    let message = &mut message[..byte_count(instr.width)];
    write_number(truncate(instr.width, share), message);
    put_frame(instr.kind, message, outbox);
}

/// The word that an opening gives, from the party's share and the other's in the inbox.
pub(crate) fn open_finish(instr: &Instr, share: u64, inbox: &Queue) -> u64
    requires { 5 + byte_count instr.now.width ≤ length inbox.now.items }
    ensures a { let w = instr.now.width in
        instr.now.kind ≡ InstrKind.OpenA → result ≡ sum_of (modulus w) share (number (take (byte_count w) (drop 5 inbox.now.items))) }
    ensures b { let w = instr.now.width in
        instr.now.kind ≡ InstrKind.OpenB → result ≡ xor_of (modulus w) share (number (take (byte_count w) (drop 5 inbox.now.items))) }
    ensures y { let w = instr.now.width in
        instr.now.kind ≡ InstrKind.OpenY → result ≡ xor_of (modulus w) share (number (take (byte_count w) (drop 5 inbox.now.items))) }
{
    let w = instr.width;
    let other = number_in(inbox, byte_count(w));
    match instr.kind {
        InstrKind::OpenA => add(w, truncate(w, share), truncate(w, other)),
        _ => truncate(w, share ^ other),
    }
}
