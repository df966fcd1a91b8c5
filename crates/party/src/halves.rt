//! The halves of an instruction, by who sends a frame for it: this party alone, the other alone, both, or nobody (see `local`). What a
//! party sends, and what it ends an instruction with, stands for each kind of instruction in the module of its group.
ghost use Rattle.std.specs.Prelude.{◌≡◌, ◌+◌, ◌≤◌, ◌<◌, ◌^◌, ◌++◌, ℕ, true, false, List, [], drop, length, take};
ghost use Rattle.byte_queue.specs.Ring.{spare};
ghost use Rattle.share_core.specs.Roles.{other};
ghost use Rattle.share_core.specs.Instructions.{frame_for, has_frame};
ghost use Rattle.share_core.specs.Levels.{gates_of, is_level};
ghost use Rattle.share_core.specs.Machine.{View, chosen_after, offset_after, opened, rule, slots_after};
ghost use Rattle.share_core.specs.declared.instr.Instr.{Instr};
ghost use Rattle.share_core.specs.declared.labels.Label.{Label};
ghost use Rattle.party.specs.Steps.{view, wanted};

use crate::evaluator::{evaluator_receives, evaluator_sends};
use crate::framing::put_head;
use crate::garbler::{garbler_receives, garbler_sends};
use crate::levels::{
    gates_of, level_garble, level_made, level_put, level_send, level_sent, message_length,
};
use crate::openings::{open_finish, open_send, opened_share};
use crate::operands::other;
use byte_queue::Queue;
use hy_bits::Role;
use share_core::{Halves, Instr, InstrKind, Label, Offset};

/// Whether such an instruction is a level.
pub(crate) fn is_level(kind: InstrKind) -> bool
    ensures { result ≡ is_level kind }
{
    match kind {
        InstrKind::LevelA | InstrKind::LevelB | InstrKind::LevelY => true,
        _ => false,
    }
}

/// The number of bytes of payload that the other party sends for an instruction.
pub(crate) fn wanted(role: Role, instr: &Instr, gates: &[Instr]) -> usize
    ensures value { result ≡ wanted gates.now role instr.now }
    ensures few { result < 2 ^ 44 }
{
    if is_level(instr.kind) {
        level_sent(other(role), gates_of(instr, gates))
    } else {
        instr.sent(other(role)) as usize
    }
}

/// The number of bytes of payload that this party sends for an instruction.
pub(crate) fn own_length(role: Role, instr: &Instr, gates: &[Instr]) -> usize
    ensures value { (v : View) → v.role ≡ role → v.gates ≡ gates.now → has_frame instr.now.kind role ≡ true →
        length (rule instr.now.kind instr.now v).message ≡ result }
    ensures few { result < 2 ^ 44 }
{
    if is_level(instr.kind) {
        message_length(role, gates_of(instr, gates))
    } else {
        instr.sent(role) as usize
    }
}

/// The offset after an instruction: P0 keeps the one that is dealt.
pub(crate) fn offset_after<H: Halves>(
    role: Role,
    instr: &Instr,
    offset: Offset,
    halves: &H,
) -> Offset
    ensures { (gates : List Instr) (codes : List ℕ) (slots : List Label) (chosen own : ℕ) →
        let v = view role gates codes slots offset chosen own (λ k. (H.meant halves.now role k).words) in
        result ≡ offset_after instr.now.kind v }
{
    match (instr.kind, role) {
        (InstrKind::Offset, Role::P0) => {
            let half = halves.half(Role::P0, 0);
            Offset {
                low: half.words[0],
                high: half.words[1],
            }
        }
        _ => offset,
    }
}

/// The send half where both send: the messages of a level at A or B, or the share of a word that is opened.
pub(crate) fn both_send<H: Halves>(
    role: Role,
    instr: &Instr,
    gates: &[Instr],
    codes: &[u32],
    offset: Offset,
    chosen: u64,
    own: u64,
    halves: &H,
    slots: &[Label],
    outbox: &mut Queue,
)
    requires own { has_frame instr.now.kind role ≡ true }
    requires other { has_frame instr.now.kind (other role) ≡ true }
    requires room { let v = view role gates.now codes.now slots.now offset chosen own (λ k. (H.meant halves.now role k).words) in
        length (frame_for instr.now.kind (rule instr.now.kind instr.now v).message) ≤ spare outbox.old }
    ensures items { let v = view role gates.now codes.now slots.now offset chosen own (λ k. (H.meant halves.now role k).words) in
        outbox.new.items ≡ outbox.old.items ++ frame_for instr.now.kind (rule instr.now.kind instr.now v).message }
    ensures room { outbox.new.room ≡ outbox.old.room }
{
    if is_level(instr.kind) {
        let gates = gates_of(instr, gates);
        put_head(instr.kind, message_length(role, gates), outbox);
        level_send(role, offset, slots, gates, halves, outbox);
    } else {
        open_send(
            instr,
            opened_share(role, instr, codes, offset, slots),
            outbox,
        );
    }
}

/// The receive half where both send: the shares of a level's gates, or the word that is opened.
pub(crate) fn both_receive<H: Halves>(
    role: Role,
    instr: &Instr,
    gates: &[Instr],
    codes: &[u32],
    offset: Offset,
    halves: &H,
    slots: &mut [Label],
    shares: &mut [Label],
    inbox: &Queue,
) -> u64
    requires own { has_frame instr.now.kind role ≡ true }
    requires other { has_frame instr.now.kind (other role) ≡ true }
    requires made { is_level instr.now.kind ≡ true → length (gates_of instr.now gates.now) ≤ length shares.old }
    requires whole { 5 + wanted gates.now role instr.now ≤ length inbox.now.items }
    ensures slots { (chosen own : ℕ) →
        let v = view role gates.now codes.now slots.old offset chosen own (λ k. (H.meant halves.now role k).words) in
        slots.new ≡ slots_after instr.now v (take (wanted gates.now role instr.now) (drop 5 inbox.now.items)) }
    ensures opened { (chosen own : ℕ) →
        let v = view role gates.now codes.now slots.old offset chosen own (λ k. (H.meant halves.now role k).words) in
        result ≡ opened instr.now.kind instr.now v (take (wanted gates.now role instr.now) (drop 5 inbox.now.items)) }
{
    if is_level(instr.kind) {
        let gates = gates_of(instr, gates);
        level_made(role, offset, slots, gates, halves, inbox, shares);
        level_put(gates, shares, slots);
        0
    } else {
        open_finish(
            instr,
            opened_share(role, instr, codes, offset, slots),
            inbox,
        )
    }
}

/// The one half where this party alone sends: it sends, and ends the instruction. It gives what the last choice has left.
pub(crate) fn own_half<H: Halves>(
    role: Role,
    instr: &Instr,
    gates: &[Instr],
    codes: &[u32],
    offset: Offset,
    chosen: u64,
    own: u64,
    halves: &H,
    slots: &mut [Label],
    shares: &mut [Label],
    outbox: &mut Queue,
) -> u64
    requires own { has_frame instr.now.kind role ≡ true }
    requires other { has_frame instr.now.kind (other role) ≡ false }
    requires made { is_level instr.now.kind ≡ true → length (gates_of instr.now gates.now) ≤ length shares.old }
    requires room { let v = view role gates.now codes.now slots.old offset chosen own (λ k. (H.meant halves.now role k).words) in
        length (frame_for instr.now.kind (rule instr.now.kind instr.now v).message) ≤ spare outbox.old }
    ensures items { let v = view role gates.now codes.now slots.old offset chosen own (λ k. (H.meant halves.now role k).words) in
        outbox.new.items ≡ outbox.old.items ++ frame_for instr.now.kind (rule instr.now.kind instr.now v).message }
    ensures room { outbox.new.room ≡ outbox.old.room }
    ensures slots { let v = view role gates.now codes.now slots.old offset chosen own (λ k. (H.meant halves.now role k).words) in
        slots.new ≡ slots_after instr.now v [] }
    ensures chosen { let v = view role gates.now codes.now slots.old offset chosen own (λ k. (H.meant halves.now role k).words) in
        result ≡ chosen_after instr.now.kind instr.now v [] }
{
    if is_level(instr.kind) {
        let gates = gates_of(instr, gates);
        put_head(instr.kind, message_length(Role::P0, gates), outbox);
        level_garble(offset, slots, gates, halves, outbox, shares);
        level_put(gates, shares, slots);
        return chosen;
    }
    let half = halves.half(role, 0);
    match role {
        Role::P0 => {
            garbler_sends(instr, codes, offset, chosen, own, &half, slots, outbox);
            chosen
        }
        Role::P1 => evaluator_sends(instr, codes, offset, chosen, own, &half, slots, outbox),
    }
}

/// The receive half where the other alone sends. It gives what the last choice has left.
pub(crate) fn other_half<H: Halves>(
    role: Role,
    instr: &Instr,
    gates: &[Instr],
    codes: &[u32],
    offset: Offset,
    chosen: u64,
    halves: &H,
    slots: &mut [Label],
    shares: &mut [Label],
    inbox: &Queue,
) -> u64
    requires own { has_frame instr.now.kind role ≡ false }
    requires other { has_frame instr.now.kind (other role) ≡ true }
    requires made { is_level instr.now.kind ≡ true → length (gates_of instr.now gates.now) ≤ length shares.old }
    requires whole { 5 + wanted gates.now role instr.now ≤ length inbox.now.items }
    ensures slots { (own : ℕ) →
        let v = view role gates.now codes.now slots.old offset chosen own (λ k. (H.meant halves.now role k).words) in
        slots.new ≡ slots_after instr.now v (take (wanted gates.now role instr.now) (drop 5 inbox.now.items)) }
    ensures chosen { (own : ℕ) →
        let v = view role gates.now codes.now slots.old offset chosen own (λ k. (H.meant halves.now role k).words) in
        result ≡ chosen_after instr.now.kind instr.now v (take (wanted gates.now role instr.now) (drop 5 inbox.now.items)) }
{
    if is_level(instr.kind) {
        let gates = gates_of(instr, gates);
        level_made(role, offset, slots, gates, halves, inbox, shares);
        level_put(gates, shares, slots);
        return chosen;
    }
    match role {
        Role::P0 => garbler_receives(instr, codes, chosen, slots, inbox),
        Role::P1 => {
            let half = halves.half(Role::P1, 0);
            evaluator_receives(instr, codes, offset, chosen, &half, slots, inbox);
            chosen
        }
    }
}
