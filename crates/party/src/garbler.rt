//! P0, the garbler: the instructions for which it alone sends, and those for which P1 does.
ghost use Rattle.std.specs.Prelude.{◌≡◌, ◌+◌, ◌≤◌, ◌++◌, ℕ, true, false, List, [], drop, length, take};
ghost use Rattle.hy_bits.specs.declared.turns.Role.TheVariants.{P0, P1};
ghost use Rattle.byte_queue.specs.Ring.{spare};
ghost use Rattle.share_core.specs.declared.instr.Instr.{Instr};
ghost use Rattle.share_core.specs.declared.labels.Offset.{Offset};
ghost use Rattle.share_core.specs.Instructions.{frame_for, has_frame};
ghost use Rattle.share_core.specs.Levels.{is_level};
ghost use Rattle.share_core.specs.Machine.{chosen_after, rule, slots_after};
ghost use Rattle.share_core.specs.Sizes.{sent};
ghost use Rattle.party.specs.Steps.{view};

use crate::carries::carries_own;
use crate::conversions::{
    answer_labels_own, answer_words_own, choose_other, put_joined, put_pair, put_wires,
};
use crate::inputs::{other_a, other_b, own_a, own_b, own_y};
use crate::operands::{word_at, word_of_codes};
use byte_queue::Queue;
use hy_bits::Role;
use share_core::{Half, Instr, InstrKind, Label, Offset};

/// P0's part of an instruction for which it alone sends, other than a level: its inputs, its answers to P1's choices, and the carries of
/// a sum.
pub(crate) fn garbler_sends(
    instr: &Instr,
    codes: &[u32],
    offset: Offset,
    chosen: u64,
    own: u64,
    half: &Half,
    slots: &mut [Label],
    outbox: &mut Queue,
)
    requires sends { has_frame instr.now.kind P0 ≡ true }
    requires alone { has_frame instr.now.kind P1 ≡ false }
    requires single { is_level instr.now.kind ≡ false }
    requires room { let v = view P0 [] codes.now slots.old offset chosen own (λ k. half.now.words) in
        length (frame_for instr.now.kind (rule instr.now.kind instr.now v).message) ≤ spare outbox.old }
    ensures items { let v = view P0 [] codes.now slots.old offset chosen own (λ k. half.now.words) in
        outbox.new.items ≡ outbox.old.items ++ frame_for instr.now.kind (rule instr.now.kind instr.now v).message }
    ensures room { outbox.new.room ≡ outbox.old.room }
    ensures slots { let v = view P0 [] codes.now slots.old offset chosen own (λ k. half.now.words) in
        slots.new ≡ slots_after instr.now v [] }
{
    let w = instr.width;
    match instr.kind {
        InstrKind::InAP0 => own_a(instr, own, half, slots, outbox),
        InstrKind::InBP0 => own_b(instr, codes, own, half, slots, outbox),
        InstrKind::InYP0 => own_y(instr, codes, own, offset, half, slots, outbox),
        InstrKind::AnswerIn => {
            let wires = answer_labels_own(instr, None, offset, chosen, half, outbox);
            put_wires(instr, codes, &wires.b, slots);
        }
        InstrKind::AnswerSharesA => {
            let share = word_at(slots, instr.left);
            let wires = answer_labels_own(instr, Some(share), offset, chosen, half, outbox);
            put_pair(instr, codes, &wires, slots);
        }
        InstrKind::AnswerSharesB => {
            let share = word_of_codes(w, Role::P0, codes, slots, instr.left);
            let wires = answer_labels_own(instr, Some(share), offset, chosen, half, outbox);
            put_joined(instr, codes, &wires, slots);
        }
        InstrKind::AnswerToA => {
            let share = word_of_codes(w, Role::P0, codes, slots, instr.left);
            answer_words_own(instr, share, chosen, half, slots, outbox);
        }
        InstrKind::Carries => carries_own(instr, codes, offset, slots, outbox),
        _ => unreachable!(),
    }
}

/// P0's part of an instruction for which P1 alone sends, with P1's frame at the front of the inbox: P1's inputs, and its choices, of which
/// P0 keeps what it has read. It gives what the last choice has left.
pub(crate) fn garbler_receives(
    instr: &Instr,
    codes: &[u32],
    chosen: u64,
    slots: &mut [Label],
    inbox: &Queue,
) -> u64
    requires sends { has_frame instr.now.kind P1 ≡ true }
    requires alone { has_frame instr.now.kind P0 ≡ false }
    requires whole { 5 + sent instr.now.kind instr.now.width P1 ≤ length inbox.now.items }
    ensures slots { (offset : Offset) (gates : List Instr) (own : ℕ) (half : ℕ → List ℕ) →
        let v = view P0 gates codes.now slots.old offset chosen own half in
        slots.new ≡ slots_after instr.now v (take (sent instr.now.kind instr.now.width P1) (drop 5 inbox.now.items)) }
    ensures chosen { (offset : Offset) (gates : List Instr) (own : ℕ) (half : ℕ → List ℕ) →
        let v = view P0 gates codes.now slots.old offset chosen own half in
        result ≡ chosen_after instr.now.kind instr.now v (take (sent instr.now.kind instr.now.width P1) (drop 5 inbox.now.items)) }
{
    match instr.kind {
        InstrKind::InAP1 => {
            other_a(instr, slots, inbox);
            chosen
        }
        InstrKind::InBP1 => {
            other_b(instr, codes, slots, inbox);
            chosen
        }
        InstrKind::ChooseIn | InstrKind::ChooseA | InstrKind::ChooseB => choose_other(instr, inbox),
        _ => unreachable!(),
    }
}
