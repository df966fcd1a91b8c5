//! P1, the evaluator: the instructions for which it alone sends, and those for which P0 does.
ghost use Rattle.std.specs.Prelude.{◌≡◌, ◌+◌, ◌≤◌, ◌++◌, ℕ, true, false, List, [], drop, length, take};
ghost use Rattle.hy_bits.specs.declared.turns.Role.TheVariants.{P0, P1};
ghost use Rattle.byte_queue.specs.Ring.{spare};
ghost use Rattle.share_core.specs.Instructions.{frame_for, has_frame};
ghost use Rattle.share_core.specs.Levels.{is_level};
ghost use Rattle.share_core.specs.Machine.{chosen_after, rule, slots_after};
ghost use Rattle.share_core.specs.Sizes.{sent};
ghost use Rattle.party.specs.Steps.{view};

use crate::carries::carries_other;
use crate::conversions::{
    answer_labels_other, answer_words_other, choose_own, put_joined, put_pair, put_wires,
};
use crate::inputs::{other_a, other_b, other_y, own_a, own_b};
use crate::operands::{word_at, word_of_codes};
use byte_queue::Queue;
use hy_bits::Role;
use share_core::{Half, Instr, InstrKind, Label, Offset};

/// P1's part of an instruction for which it alone sends: its inputs, and its choices. It gives what the last choice has left.
pub(crate) fn evaluator_sends(
    instr: &Instr,
    codes: &[u32],
    offset: Offset,
    chosen: u64,
    own: u64,
    half: &Half,
    slots: &mut [Label],
    outbox: &mut Queue,
) -> u64
    requires sends { has_frame instr.now.kind P1 ≡ true }
    requires alone { has_frame instr.now.kind P0 ≡ false }
    requires room { let v = view P1 [] codes.now slots.old offset chosen own (λ k. half.now.words) in
        length (frame_for instr.now.kind (rule instr.now.kind instr.now v).message) ≤ spare outbox.old }
    ensures items { let v = view P1 [] codes.now slots.old offset chosen own (λ k. half.now.words) in
        outbox.new.items ≡ outbox.old.items ++ frame_for instr.now.kind (rule instr.now.kind instr.now v).message }
    ensures room { outbox.new.room ≡ outbox.old.room }
    ensures slots { let v = view P1 [] codes.now slots.old offset chosen own (λ k. half.now.words) in
        slots.new ≡ slots_after instr.now v [] }
    ensures chosen { let v = view P1 [] codes.now slots.old offset chosen own (λ k. half.now.words) in
        result ≡ chosen_after instr.now.kind instr.now v [] }
{
    match instr.kind {
        InstrKind::InAP1 => {
            own_a(instr, own, half, slots, outbox);
            chosen
        }
        InstrKind::InBP1 => {
            own_b(instr, codes, own, half, slots, outbox);
            chosen
        }
        InstrKind::ChooseIn => choose_own(instr, own, half, outbox),
        InstrKind::ChooseA => choose_own(instr, word_at(slots, instr.left), half, outbox),
        InstrKind::ChooseB => {
            let share = word_of_codes(instr.width, Role::P1, codes, slots, instr.left);
            choose_own(instr, share, half, outbox)
        }
        _ => unreachable!(),
    }
}

/// P1's part of an instruction for which P0 alone sends, other than a level, with P0's frame at the front of the inbox.
pub(crate) fn evaluator_receives(
    instr: &Instr,
    codes: &[u32],
    offset: Offset,
    chosen: u64,
    half: &Half,
    slots: &mut [Label],
    inbox: &Queue,
)
    requires sends { has_frame instr.now.kind P0 ≡ true }
    requires alone { has_frame instr.now.kind P1 ≡ false }
    requires single { is_level instr.now.kind ≡ false }
    requires whole { 5 + sent instr.now.kind instr.now.width P0 ≤ length inbox.now.items }
    ensures { (own : ℕ) →
        let v = view P1 [] codes.now slots.old offset chosen own (λ k. half.now.words) in
        slots.new ≡ slots_after instr.now v (take (sent instr.now.kind instr.now.width P0) (drop 5 inbox.now.items)) }
{
    match instr.kind {
        InstrKind::InAP0 => other_a(instr, slots, inbox),
        InstrKind::InBP0 => other_b(instr, codes, slots, inbox),
        InstrKind::InYP0 => other_y(instr, codes, half, slots, inbox),
        InstrKind::AnswerIn => {
            let wires = answer_labels_other(instr, false, chosen, half, inbox);
            put_wires(instr, codes, &wires.b, slots);
        }
        InstrKind::AnswerSharesA => {
            let wires = answer_labels_other(instr, true, chosen, half, inbox);
            put_pair(instr, codes, &wires, slots);
        }
        InstrKind::AnswerSharesB => {
            let wires = answer_labels_other(instr, true, chosen, half, inbox);
            put_joined(instr, codes, &wires, slots);
        }
        InstrKind::AnswerToA => answer_words_other(instr, chosen, half, slots, inbox),
        InstrKind::Carries => carries_other(instr, codes, offset, slots, inbox),
        _ => unreachable!(),
    }
}
