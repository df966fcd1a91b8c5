//! Conversions: P1's choice in oblivious transfers, P0's answer in labels or in words, and the carries of a sum at Y.
//!
//! | conversion | instructions |
//! |---|---|
//! | an input of P1 to Y | `choose`, `answer_labels`, then `put_wires` of the labels b |
//! | B to Y | the same, then `put_joined` |
//! | A to Y | the same, then `put_pair`, and `carries` |
//! | B to A | `choose`, `answer_words` |
ghost use Rattle.std.specs.Prelude.{◌≡◌, ◌+◌, ◌*◌, ◌%◌, ◌<◌, ◌≤◌, ◌++◌, ℕ, [], drop, length, set, slice_index, take};
ghost use Rattle.hy_bits.specs.Words.{bits, modulus};
ghost use Rattle.hy_bits.specs.declared.turns.Role.TheVariants.{P0, P1};
ghost use Rattle.byte_queue.specs.Ring.{spare};
ghost use Rattle.share_core.specs.Bytes.{byte_count};
ghost use Rattle.share_core.specs.Conversions.{answer_label, answer_message, answer_message_A, answer_sent, answer_sent_A, answer_share_A, choice_message, choice_read, own_label};
ghost use Rattle.share_core.specs.Garbled.{label_xor, wire};
ghost use Rattle.share_core.specs.Instructions.{frame_for, slot_of};
ghost use Rattle.share_core.specs.Machine.{listed, word_slot, written};
ghost use Rattle.share_convert.specs.Answers.{is_of_shares, own_share};

use crate::framing::put_frame;
use crate::operands::{code_at, slot_of};
use crate::targets::{put, put_labels, put_word};
use byte_queue::Queue;
use hy_bits::Width;
use share_convert::{
    Chosen, Wires, answer_a_finish, answer_a_send, answer_y_finish, answer_y_send, choose_finish,
    choose_send,
};
use share_core::{HEAD, Half, Instr, Label, Offset, byte_count};
use share_yao::{Labels, label_xor};

/// What the answer to a choice is made from.
fn chosen_of(bits: u64) -> Chosen
    ensures { result.bits ≡ bits }
{
    Chosen { bits, picks: 0 }
}

/// P1's choice for the word `x`: puts the word masked by the dealt one, and gives what P1 keeps.
pub(crate) fn choose_own(instr: &Instr, x: u64, half: &Half, outbox: &mut Queue) -> u64
    requires { length (frame_for instr.now.kind (choice_message instr.now.width x (slice_index half.now.words 0))) ≤ spare outbox.old }
    ensures items { outbox.new.items ≡ outbox.old.items ++ frame_for instr.now.kind (choice_message instr.now.width x (slice_index half.now.words 0)) }
    ensures room { outbox.new.room ≡ outbox.old.room }
    ensures chosen { result ≡ x % modulus instr.now.width }
{
    let w = instr.width;
    let mut message = [0; 8];
    let message = &mut message[..byte_count(w)];
    let chosen = choose_send(w, x, half.words[0], message);
    put_frame(instr.kind, message, outbox);
    chosen.bits
}

/// What P0 keeps of the choice in the inbox.
pub(crate) fn choose_other(instr: &Instr, inbox: &Queue) -> u64
    requires { 5 + byte_count instr.now.width ≤ length inbox.now.items }
    ensures { let w = instr.now.width in
        result ≡ choice_read w (take (byte_count w) (drop 5 inbox.now.items)) }
{
    let mut buffer = [0; 8];
    let payload = &mut buffer[..byte_count(instr.width)];
    inbox.copy(HEAD, payload);
    choose_finish(instr.width, payload).bits
}

/// P0's answer in labels: puts it, and gives P0's own labels. `own` is P0's share, and None for an input of P1.
pub(crate) fn answer_labels_own(
    instr: &Instr,
    own: Option<u64>,
    offset: Offset,
    chosen: u64,
    half: &Half,
    outbox: &mut Queue,
) -> Wires
    requires { length (frame_for instr.now.kind (answer_message (is_of_shares own) instr.now.width offset (own_share own) chosen half.now.words)) ≤ spare outbox.old }
    ensures items { outbox.new.items ≡ outbox.old.items ++ frame_for instr.now.kind (answer_message (is_of_shares own) instr.now.width offset (own_share own) chosen half.now.words) }
    ensures room { outbox.new.room ≡ outbox.old.room }
    ensures a { (k : ℕ) → k < bits instr.now.width →
        wire result.a.list k ≡ own_label P0 (is_of_shares own) half.now.words [] k }
    ensures b { (k : ℕ) → k < bits instr.now.width →
        wire result.b.list k ≡ answer_label P0 (is_of_shares own) instr.now.width 0 half.now.words [] k }
{
    let w = instr.width;
    let mut message = [0; 3072];
    let message = &mut message[..answer_length(w, own.is_some())];
    let wires = answer_y_send(w, chosen_of(chosen), own, offset, half, message);
    put_frame(instr.kind, message, outbox);
    wires
}

/// The number of bytes of an answer in labels, for shares or for an input.
fn answer_length(w: Width, shares: bool) -> usize
    ensures value { result ≡ answer_sent shares w }
    ensures few { result ≤ 3072 }
{
    let bits = w.bits() as usize;
    if shares { 48 * bits } else { 32 * bits }
}

/// P1's labels from the answer in the inbox, for shares or for an input.
pub(crate) fn answer_labels_other(
    instr: &Instr,
    shares: bool,
    chosen: u64,
    half: &Half,
    inbox: &Queue,
) -> Wires
    requires { 5 + answer_sent shares instr.now.width ≤ length inbox.now.items }
    ensures a { let w = instr.now.width in (k : ℕ) → k < bits w →
        wire result.a.list k ≡ own_label P1 shares half.now.words (take (answer_sent shares w) (drop 5 inbox.now.items)) k }
    ensures b { let w = instr.now.width in (k : ℕ) → k < bits w →
        wire result.b.list k ≡ answer_label P1 shares w chosen half.now.words (take (answer_sent shares w) (drop 5 inbox.now.items)) k }
{
    let w = instr.width;
    let mut buffer = [0; 3072];
    let payload = &mut buffer[..answer_length(w, shares)];
    inbox.copy(HEAD, payload);
    answer_y_finish(w, chosen_of(chosen), shares, half, payload)
}

/// Puts the labels of an input of P1.
pub(crate) fn put_wires(instr: &Instr, codes: &[u32], labels: &Labels, slots: &mut [Label])
    ensures { let w = instr.now.width in
        slots.new ≡ written slots.old (listed (bits w) (λ k. slot_of (slice_index codes.now (instr.now.target + k)))) (listed (bits w) (wire labels.now.list)) }
{
    put_labels(
        instr.width.bits() as usize,
        codes,
        instr.target as usize,
        labels,
        slots,
    );
}

/// Puts the labels of P0's share of a word at A, and after them those of P1's.
pub(crate) fn put_pair(instr: &Instr, codes: &[u32], wires: &Wires, slots: &mut [Label])
    ensures { let w = instr.now.width in
        slots.new ≡ written slots.old (listed (2 * bits w) (λ k. slot_of (slice_index codes.now (instr.now.target + k)))) (listed (bits w) (wire wires.now.a.list) ++ listed (bits w) (wire wires.now.b.list)) }
{
    let count = instr.width.bits() as usize;
    let target = instr.target as usize;
    put_labels(count, codes, target, &wires.a, slots);
    put_labels(count, codes, target + count, &wires.b, slots);
}

/// Puts the labels of a word at B, each the xor of those of P0's share and of P1's.
pub(crate) fn put_joined(instr: &Instr, codes: &[u32], wires: &Wires, slots: &mut [Label])
    ensures { let w = instr.now.width in
        slots.new ≡ written slots.old (listed (bits w) (λ k. slot_of (slice_index codes.now (instr.now.target + k)))) (listed (bits w) (λ k. label_xor (wire wires.now.a.list k) (wire wires.now.b.list k))) }
{
    for k in 0..instr.width.bits() as usize {
        let label = label_xor(wires.a.list[k], wires.b.list[k]);
        put(
            slots,
            slot_of(code_at(codes, instr.target as usize + k)),
            label,
        );
    }
}

/// P0's answer in words: puts it and P0's share.
pub(crate) fn answer_words_own(
    instr: &Instr,
    own: u64,
    chosen: u64,
    half: &Half,
    slots: &mut [Label],
    outbox: &mut Queue,
)
    requires { length (frame_for instr.now.kind (answer_message_A instr.now.width own chosen half.now.words)) ≤ spare outbox.old }
    ensures items { outbox.new.items ≡ outbox.old.items ++ frame_for instr.now.kind (answer_message_A instr.now.width own chosen half.now.words) }
    ensures room { outbox.new.room ≡ outbox.old.room }
    ensures slots { slots.new ≡ set slots.old instr.now.target (word_slot (answer_share_A P0 instr.now.width 0 half.now.words [])) }
{
    let w = instr.width;
    let mut message = [0; 1024];
    let message = &mut message[..words_length(w)];
    let share = answer_a_send(w, chosen_of(chosen), own, half, message);
    put_frame(instr.kind, message, outbox);
    put_word(slots, instr.target, share);
}

/// The number of bytes of an answer in words.
fn words_length(w: Width) -> usize
    ensures value { result ≡ answer_sent_A w }
    ensures few { result ≤ 1024 }
{
    match w {
        Width::W1 => 2,
        Width::W8 => 16,
        Width::W16 => 64,
        Width::W32 => 256,
        Width::W64 => 1024,
    }
}

/// P1's share at A from the answer in the inbox.
pub(crate) fn answer_words_other(
    instr: &Instr,
    chosen: u64,
    half: &Half,
    slots: &mut [Label],
    inbox: &Queue,
)
    requires { 5 + answer_sent_A instr.now.width ≤ length inbox.now.items }
    ensures { let w = instr.now.width in
        slots.new ≡ set slots.old instr.now.target (word_slot (answer_share_A P1 w chosen half.now.words (take (answer_sent_A w) (drop 5 inbox.now.items)))) }
{
    let w = instr.width;
    let mut buffer = [0; 1024];
    let payload = &mut buffer[..words_length(w)];
    inbox.copy(HEAD, payload);
    put_word(
        slots,
        instr.target,
        answer_a_finish(w, chosen_of(chosen), half, payload),
    );
}
