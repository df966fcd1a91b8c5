//! Inputs. At A the owner keeps a dealt word r and sends x - r, at B it keeps r and sends x xor r; the other party's share is what it
//! receives. At Y P0 keeps the zero labels that are dealt and sends the labels of its bits.
ghost use Rattle.std.specs.Prelude.{◌≡◌, ◌+◌, ◌*◌, ◌%◌, ◌≤◌, ◌++◌, [], drop, length, set, slice_index, take};
ghost use Rattle.hy_bits.specs.Words.{bits, modulus};
ghost use Rattle.hy_bits.specs.declared.turns.Role.TheVariants.{P0, P1};
ghost use Rattle.byte_queue.specs.Ring.{spare};
ghost use Rattle.share_core.specs.Arithmetic.{difference_of};
ghost use Rattle.share_core.specs.Boolean.{xor_of};
ghost use Rattle.share_core.specs.Bytes.{bytes, byte_count, number};
ghost use Rattle.share_core.specs.Garbled.{input_label, input_message_Y};
ghost use Rattle.share_core.specs.Instructions.{frame_for, slot_of};
ghost use Rattle.share_core.specs.Machine.{bit_slots, listed, word_slot, written};

use crate::framing::put_frame;
use crate::targets::{put_bits, put_labels, put_word};
use byte_queue::Queue;
use hy_bits::{Role, sub, truncate};
use share_core::{HEAD, Half, Instr, Label, Offset, byte_count, read_number, write_number};
use share_yao::{input_labels, input_send};

/// The word whose bytes are the payload at the front of the inbox.
pub(crate) fn number_in(inbox: &Queue, size: usize) -> u64
    requires few { size ≤ 8 }
    requires whole { 5 + size ≤ length inbox.now.items }
    ensures { result ≡ number (take size (drop 5 inbox.now.items)) }
{
    let mut buffer = [0; 8];
    let payload = &mut buffer[..size];
    inbox.copy(HEAD, payload);
    read_number(payload)
}

/// The owner's part of an input at A.
pub(crate) fn own_a(instr: &Instr, own: u64, half: &Half, slots: &mut [Label], outbox: &mut Queue)
    requires { length (frame_for instr.now.kind (bytes (byte_count instr.now.width) (difference_of (modulus instr.now.width) own (slice_index half.now.words 0)))) ≤ spare outbox.old }
    ensures items { let w = instr.now.width in
        outbox.new.items ≡ outbox.old.items ++ frame_for instr.now.kind (bytes (byte_count w) (difference_of (modulus w) own (slice_index half.now.words 0))) }
    ensures room { outbox.new.room ≡ outbox.old.room }
    ensures slots { slots.new ≡ set slots.old instr.now.target (word_slot (slice_index half.now.words 0 % modulus instr.now.width)) }
{
    let w = instr.width;
    let share = truncate(w, half.words[0]);
    let mut message = [0; 8];
    let message = &mut message[..byte_count(w)];
    write_number(sub(w, truncate(w, own), share), message);
    put_frame(instr.kind, message, outbox);
    put_word(slots, instr.target, share);
}

/// The other party's part of an input at A.
pub(crate) fn other_a(instr: &Instr, slots: &mut [Label], inbox: &Queue)
    requires { 5 + byte_count instr.now.width ≤ length inbox.now.items }
    ensures { let w = instr.now.width in
        slots.new ≡ set slots.old instr.now.target (word_slot (number (take (byte_count w) (drop 5 inbox.now.items)) % modulus w)) }
{
    let w = instr.width;
    put_word(
        slots,
        instr.target,
        truncate(w, number_in(inbox, byte_count(w))),
    );
}

/// The owner's part of an input at B.
pub(crate) fn own_b(
    instr: &Instr,
    codes: &[u32],
    own: u64,
    half: &Half,
    slots: &mut [Label],
    outbox: &mut Queue,
)
    requires { length (frame_for instr.now.kind (bytes (byte_count instr.now.width) (xor_of (modulus instr.now.width) own (slice_index half.now.words 0)))) ≤ spare outbox.old }
    ensures items { let w = instr.now.width in
        outbox.new.items ≡ outbox.old.items ++ frame_for instr.now.kind (bytes (byte_count w) (xor_of (modulus w) own (slice_index half.now.words 0))) }
    ensures room { outbox.new.room ≡ outbox.old.room }
    ensures slots { let w = instr.now.width in
        slots.new ≡ written slots.old (listed (bits w) (λ k. slot_of (slice_index codes.now (instr.now.target + k)))) (bit_slots w (slice_index half.now.words 0 % modulus w)) }
{
    let w = instr.width;
    let mask = half.words[0];
    let mut message = [0; 8];
    let message = &mut message[..byte_count(w)];
    write_number(truncate(w, own ^ mask), message);
    put_frame(instr.kind, message, outbox);
    put_bits(w, codes, instr.target, truncate(w, mask), slots);
}

/// The other party's part of an input at B.
pub(crate) fn other_b(instr: &Instr, codes: &[u32], slots: &mut [Label], inbox: &Queue)
    requires { 5 + byte_count instr.now.width ≤ length inbox.now.items }
    ensures { let w = instr.now.width in
        slots.new ≡ written slots.old (listed (bits w) (λ k. slot_of (slice_index codes.now (instr.now.target + k)))) (bit_slots w (number (take (byte_count w) (drop 5 inbox.now.items)) % modulus w)) }
{
    let w = instr.width;
    let share = truncate(w, number_in(inbox, byte_count(w)));
    put_bits(w, codes, instr.target, share, slots);
}

/// P0's part of its input at Y.
pub(crate) fn own_y(
    instr: &Instr,
    codes: &[u32],
    own: u64,
    offset: Offset,
    half: &Half,
    slots: &mut [Label],
    outbox: &mut Queue,
)
    requires { length (frame_for instr.now.kind (input_message_Y instr.now.width offset own half.now.words)) ≤ spare outbox.old }
    ensures items { outbox.new.items ≡ outbox.old.items ++ frame_for instr.now.kind (input_message_Y instr.now.width offset own half.now.words) }
    ensures room { outbox.new.room ≡ outbox.old.room }
    ensures slots { let w = instr.now.width in
        slots.new ≡ written slots.old (listed (bits w) (λ k. slot_of (slice_index codes.now (instr.now.target + k)))) (listed (bits w) (input_label P0 half.now.words [])) }
{
    let w = instr.width;
    let count = w.bits() as usize;
    let mut message = [0; 1024];
    let message = &mut message[..16 * count];
    input_send(w, own, offset, half, message);
    put_frame(instr.kind, message, outbox);
    let labels = input_labels(w, Role::P0, half, &[]);
    put_labels(count, codes, instr.target as usize, &labels, slots);
}

/// P1's part of an input of P0 at Y.
pub(crate) fn other_y(instr: &Instr, codes: &[u32], half: &Half, slots: &mut [Label], inbox: &Queue)
    requires { 5 + 16 * bits instr.now.width ≤ length inbox.now.items }
    ensures { let w = instr.now.width in
        let payload = take (16 * bits w) (drop 5 inbox.now.items) in
        slots.new ≡ written slots.old (listed (bits w) (λ k. slot_of (slice_index codes.now (instr.now.target + k)))) (listed (bits w) (input_label P1 half.now.words payload)) }
{
    let w = instr.width;
    let count = w.bits() as usize;
    let mut buffer = [0; 1024];
    let payload = &mut buffer[..16 * count];
    inbox.copy(HEAD, payload);
    let labels = input_labels(w, Role::P1, half, payload);
    put_labels(count, codes, instr.target as usize, &labels, slots);
}
