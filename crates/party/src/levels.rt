//! Levels: all gates of one depth at once. Their messages are put gate by gate, and their shares are all made before any is put into its
//! slot.
ghost use Rattle.std.specs.Prelude.{◌≡◌, ◌+◌, ◌*◌, ◌≤◌, ◌<◌, ◌^◌, ◌++◌, ℕ, List, [], drop, length, map, set, take};
ghost use Rattle.hy_bits.specs.declared.turns.Role.TheVariants.{P0, P1};
ghost use Rattle.byte_queue.specs.Ring.{spare};
ghost use Rattle.share_core.specs.declared.instr.Instr.{Instr};
ghost use Rattle.share_core.specs.Roles.{other};
ghost use Rattle.share_core.specs.Sizes.{sent};
ghost use Rattle.share_core.specs.Levels.{gates_of, level_message, level_sent, level_shares, summed};
ghost use Rattle.share_core.specs.Machine.{gate_message, gate_share, written};
ghost use Rattle.party.specs.Steps.{view};
ghost use Rattle.party.specs.Gates.{gate_sent};

use crate::gate_rules::{gate_finish, gate_garble, gate_send, gate_sent};
use crate::operands::other;
use crate::targets::put;
use byte_queue::Queue;
use hy_bits::Role;
use share_core::{HEAD, Halves, Instr, InstrKind, Label, Offset};

/// The gates of a level.
pub(crate) fn gates_of<'a>(level: &Instr, gates: &'a [Instr]) -> &'a [Instr]
    ensures gates { result.now ≡ gates_of level.now gates.now }
    ensures few { length result.now < 2 ^ 32 }
    ensures count { length result.now ≤ level.now.right }
{
    let left = (level.left as usize).min(gates.len());
    let rest = &gates[left..];
    &rest[..(level.right as usize).min(rest.len())]
}

/// The number of bytes of the message of these gates.
pub(crate) fn message_length(role: Role, gates: &[Instr]) -> usize
    requires { length gates.now < 2 ^ 32 }
    ensures value { result ≡ summed (λ gate. gate_sent gate.kind gate.width role) gates.now }
    ensures few { result < 2 ^ 44 }
{
    let mut total = 0;
    for gate in gates {
        total += gate_sent(gate, role);
    }
    total
}

/// The number of bytes that the role sends for a gate; the gates of one bit are most of a level, so they come without a call.
fn gate_size(gate: &Instr, role: Role) -> u32
    ensures value { result ≡ sent gate.now.kind gate.now.width role }
    ensures few { result ≤ 3072 }
{
    match (gate.kind, role) {
        (InstrKind::AndB, _) => 1,
        (InstrKind::AndY, Role::P0) => 32,
        (InstrKind::AndY, Role::P1) => 0,
        _ => gate.sent(role),
    }
}

/// The number of bytes that the role sends for the gates of a level.
pub(crate) fn level_sent(role: Role, gates: &[Instr]) -> usize
    requires { length gates.now < 2 ^ 32 }
    ensures value { result ≡ level_sent role gates.now }
    ensures few { result < 2 ^ 44 }
{
    let mut total = 0;
    for gate in gates {
        total += gate_size(gate, role) as usize;
    }
    total
}

/// Puts the messages of a level's gates.
pub(crate) fn level_send<H: Halves>(
    role: Role,
    offset: Offset,
    slots: &[Label],
    gates: &[Instr],
    halves: &H,
    outbox: &mut Queue,
)
    requires few { length gates.now < 2 ^ 32 }
    requires room { summed (λ gate. gate_sent gate.kind gate.width role) gates.now ≤ spare outbox.old }
    ensures items { (all : List Instr) (codes : List ℕ) (chosen own : ℕ) →
        let v = view role all codes slots.now offset chosen own (λ k. (H.meant halves.now role k).words) in
        outbox.new.items ≡ outbox.old.items ++ level_message (λ k gate. gate_message v k gate gate.kind) 0 gates.now }
    ensures room { outbox.new.room ≡ outbox.old.room }
{
    for (number, gate) in gates.iter().enumerate() {
        gate_send(role, offset, slots, gate, number as u32, halves, outbox);
    }
}

/// Makes the shares of a level's gates from the other's frame at the front of the inbox.
pub(crate) fn level_made<H: Halves>(
    role: Role,
    offset: Offset,
    slots: &[Label],
    gates: &[Instr],
    halves: &H,
    inbox: &Queue,
    shares: &mut [Label],
)
    requires few { length gates.now < 2 ^ 32 }
    requires room { length gates.now ≤ length shares.old }
    requires whole { 5 + level_sent (other role) gates.now ≤ length inbox.now.items }
    ensures { (all : List Instr) (codes : List ℕ) (chosen own : ℕ) →
        let v = view role all codes slots.now offset chosen own (λ k. (H.meant halves.now role k).words) in
        let payload = take (level_sent (other role) gates.now) (drop 5 inbox.now.items) in
        take (length gates.now) shares.new ≡ level_shares (λ gate. sent gate.kind gate.width (other role)) (λ k gate piece. gate_share v k gate piece gate.kind) 0 gates.now payload }
{
    let mut at = HEAD;
    for (number, gate) in gates.iter().enumerate() {
        let size = gate_size(gate, other(role)) as usize;
        shares[number] = gate_read(
            role,
            offset,
            slots,
            gate,
            number as u32,
            halves,
            inbox,
            at,
            size,
        );
        at += size;
    }
}

/// The party's new share of a gate, from the other's message for it, which stands in the inbox from place `at` on.
fn gate_read<H: Halves>(
    role: Role,
    offset: Offset,
    slots: &[Label],
    gate: &Instr,
    number: u32,
    halves: &H,
    inbox: &Queue,
    at: usize,
    size: usize,
) -> Label
    requires size { size ≡ sent gate.now.kind gate.now.width (other role) }
    requires whole { at + size ≤ length inbox.now.items }
    ensures { (all : List Instr) (codes : List ℕ) (chosen own : ℕ) →
        let v = view role all codes slots.now offset chosen own (λ k. (H.meant halves.now role k).words) in
        let piece = take (sent gate.now.kind gate.now.width (other role)) (drop at inbox.now.items) in
        result ≡ gate_share v number gate.now piece gate.now.kind }
{
    if size > 32 {
        return Label::ZERO;
    }
    let mut buffer = [0; 32];
    let piece = &mut buffer[..size];
    inbox.copy(at, piece);
    gate_finish(role, offset, slots, gate, number, halves, piece)
}

/// Garbles the gates of a level: puts P0's messages, and makes its shares.
pub(crate) fn level_garble<H: Halves>(
    offset: Offset,
    slots: &[Label],
    gates: &[Instr],
    halves: &H,
    outbox: &mut Queue,
    shares: &mut [Label],
)
    requires few { length gates.now < 2 ^ 32 }
    requires made { length gates.now ≤ length shares.old }
    requires room { summed (λ gate. gate_sent gate.kind gate.width P0) gates.now ≤ spare outbox.old }
    ensures items { (all : List Instr) (codes : List ℕ) (chosen own : ℕ) →
        let v = view P0 all codes slots.now offset chosen own (λ k. (H.meant halves.now P0 k).words) in
        outbox.new.items ≡ outbox.old.items ++ level_message (λ k gate. gate_message v k gate gate.kind) 0 gates.now }
    ensures room { outbox.new.room ≡ outbox.old.room }
    ensures shares { (all : List Instr) (codes : List ℕ) (chosen own : ℕ) →
        let v = view P0 all codes slots.now offset chosen own (λ k. (H.meant halves.now P0 k).words) in
        take (length gates.now) shares.new ≡ level_shares (λ gate. sent gate.kind gate.width P1) (λ k gate piece. gate_share v k gate piece gate.kind) 0 gates.now [] }
{
    for (number, gate) in gates.iter().enumerate() {
        shares[number] = gate_garble(offset, slots, gate, number as u32, halves, outbox);
    }
}

/// Puts the shares of a level's gates into their slots.
pub(crate) fn level_put(gates: &[Instr], shares: &[Label], slots: &mut [Label])
    requires { length gates.now ≤ length shares.now }
    ensures { slots.new ≡ written slots.old (map (λ gate. gate.target) gates.now) (take (length gates.now) shares.now) }
{
    for (number, gate) in gates.iter().enumerate() {
        put(slots, gate.target as usize, shares[number]);
    }
}
