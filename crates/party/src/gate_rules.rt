//! One gate of a level: what the party sends for it, and its new share. P0 garbles an And at Y and P1 evaluates it; products at A and Ands
//! at B take a triple each.
ghost use Rattle.std.specs.Prelude.{◌≡◌, ◌+◌, ◌*◌, ◌≤◌, ◌++◌, ℕ, List, [], length, replicate};
ghost use Rattle.hy_bits.specs.Bits.{bit};
ghost use Rattle.hy_bits.specs.declared.turns.Role.TheVariants.{P0, P1};
ghost use Rattle.byte_queue.specs.Ring.{spare};
ghost use Rattle.share_core.specs.declared.instr.Instr.{Instr};
ghost use Rattle.share_core.specs.Bytes.{byte_count};
ghost use Rattle.share_core.specs.Roles.{other};
ghost use Rattle.share_core.specs.Sizes.{sent};
ghost use Rattle.share_core.specs.Boolean.{message_B, share_B};
ghost use Rattle.share_core.specs.Garbled.{and_rows, and_share_Y, wire};
ghost use Rattle.share_core.specs.Instructions.{message_A, share_A, slot_of};
ghost use Rattle.share_core.specs.Machine.{gate_message, gate_share, word_slot};
ghost use Rattle.party.specs.Steps.{bit_in, label_in, view};
ghost use Rattle.party.specs.Gates.{gate_sent};

use crate::operands::{bit_at, label_at, word_at};
use byte_queue::Queue;
use hy_bits::Role;
use share_core::{Half, Halves, Instr, InstrKind, Label, Offset, byte_count};
use share_yao::{evaluate, garble};

/// The number of bytes that the role sends for a gate of a level.
pub(crate) fn gate_sent(gate: &Instr, role: Role) -> usize
    ensures value { result ≡ gate_sent gate.now.kind gate.now.width role }
    ensures few { result ≤ 32 }
{
    match (gate.kind, role) {
        (InstrKind::MulA, _) => 2 * byte_count(gate.width),
        (InstrKind::AndB, _) => 1,
        (InstrKind::AndY, Role::P0) => 32,
        _ => 0,
    }
}

/// Puts the party's message for a gate.
pub(crate) fn gate_send<H: Halves>(
    role: Role,
    offset: Offset,
    slots: &[Label],
    gate: &Instr,
    number: u32,
    halves: &H,
    outbox: &mut Queue,
)
    requires { gate_sent gate.now.kind gate.now.width role ≤ spare outbox.old }
    ensures items { (gates : List Instr) (codes : List ℕ) (chosen own : ℕ) →
        let v = view role gates codes slots.now offset chosen own (λ k. (H.meant halves.now role k).words) in
        outbox.new.items ≡ outbox.old.items ++ gate_message v number gate.now gate.now.kind }
    ensures room { outbox.new.room ≡ outbox.old.room }
{
    match (gate.kind, role) {
        (InstrKind::MulA, _) => product_send(role, slots, gate, &halves.half(role, number), outbox),
        (InstrKind::AndB, _) => and_send(role, slots, gate, &halves.half(role, number), outbox),
        (InstrKind::AndY, Role::P0) => {
            let _zero = garble_send(offset, slots, gate, outbox);
        }
        _ => {}
    }
}

fn product_send(role: Role, slots: &[Label], gate: &Instr, half: &Half, outbox: &mut Queue)
    requires kind { gate.now.kind ≡ InstrKind.MulA }
    requires room { 2 * byte_count gate.now.width ≤ spare outbox.old }
    ensures items { let x = (wire slots.now (slot_of gate.now.left)).low in
        let y = (wire slots.now (slot_of gate.now.right)).low in
        outbox.new.items ≡ outbox.old.items ++ message_A InstrKind.MulA gate.now.width role x y half.now.words }
    ensures room { outbox.new.room ≡ outbox.old.room }
{
    let mut message = [0; 16];
    let message = &mut message[..2 * byte_count(gate.width)];
    let x = word_at(slots, gate.left);
    let y = word_at(slots, gate.right);
    share_arith::instr_send(gate, role, x, y, half, message);
    outbox.put(message);
}

fn and_send(role: Role, slots: &[Label], gate: &Instr, half: &Half, outbox: &mut Queue)
    requires kind { gate.now.kind ≡ InstrKind.AndB }
    requires room { 1 ≤ spare outbox.old }
    ensures items { let x = bit (bit_in role slots.now gate.now.left) in
        let y = bit (bit_in role slots.now gate.now.right) in
        outbox.new.items ≡ outbox.old.items ++ message_B InstrKind.AndB gate.now.width role x y half.now.words }
    ensures room { outbox.new.room ≡ outbox.old.room }
{
    let mut message = [0; 1];
    let x = u64::from(bit_at(role, slots, gate.left));
    let y = u64::from(bit_at(role, slots, gate.right));
    share_bool::instr_send(gate, role, x, y, half, &mut message);
    outbox.put(message.as_slice());
}

/// Garbles an And: puts P0's rows, and gives the zero label of the result.
fn garble_send(offset: Offset, slots: &[Label], gate: &Instr, outbox: &mut Queue) -> Label
    requires { 32 ≤ spare outbox.old }
    ensures items { let a = label_in P0 offset slots.now gate.now.left in
        let b = label_in P0 offset slots.now gate.now.right in
        outbox.new.items ≡ outbox.old.items ++ and_rows offset gate.now.number a b }
    ensures room { outbox.new.room ≡ outbox.old.room }
    ensures share { let a = label_in P0 offset slots.now gate.now.left in
        let b = label_in P0 offset slots.now gate.now.right in
        result ≡ and_share_Y P0 offset gate.now.number a b [] }
{
    let a = label_at(Role::P0, offset, slots, gate.left);
    let b = label_at(Role::P0, offset, slots, gate.right);
    let mut rows = [0; 32];
    let zero = garble(u64::from(gate.number), a, b, offset, &mut rows);
    outbox.put(rows.as_slice());
    zero
}

/// The party's new share of a gate, from the other's message for it.
pub(crate) fn gate_finish<H: Halves>(
    role: Role,
    offset: Offset,
    slots: &[Label],
    gate: &Instr,
    number: u32,
    halves: &H,
    piece: &[u8],
) -> Label
    requires { length piece.now ≡ sent gate.now.kind gate.now.width (other role) }
    ensures { (gates : List Instr) (codes : List ℕ) (chosen own : ℕ) →
        let v = view role gates codes slots.now offset chosen own (λ k. (H.meant halves.now role k).words) in
        result ≡ gate_share v number gate.now piece.now gate.now.kind }
{
    match (gate.kind, role) {
        (InstrKind::MulA, _) => product_finish(
            role,
            slots,
            gate,
            &halves.half(role, number),
            piece,
        ),
        (InstrKind::AndB, _) => and_finish(role, slots, gate, &halves.half(role, number), piece),
        (InstrKind::AndY, Role::P0) => garbled(offset, slots, gate),
        (InstrKind::AndY, Role::P1) => evaluated(offset, slots, gate, piece),
        _ => Label::ZERO,
    }
}

fn product_finish(role: Role, slots: &[Label], gate: &Instr, half: &Half, piece: &[u8]) -> Label
    requires kind { gate.now.kind ≡ InstrKind.MulA }
    requires sent { length piece.now ≡ 2 * byte_count gate.now.width }
    ensures { let x = (wire slots.now (slot_of gate.now.left)).low in
        let y = (wire slots.now (slot_of gate.now.right)).low in
        result ≡ word_slot (share_A InstrKind.MulA gate.now.width role 0 x y half.now.words piece.now) }
{
    let x = word_at(slots, gate.left);
    let y = word_at(slots, gate.right);
    Label {
        low: share_arith::instr_finish(gate, role, x, y, half, piece),
        high: 0,
    }
}

fn and_finish(role: Role, slots: &[Label], gate: &Instr, half: &Half, piece: &[u8]) -> Label
    requires kind { gate.now.kind ≡ InstrKind.AndB }
    requires sent { length piece.now ≡ 1 }
    ensures { let x = bit (bit_in role slots.now gate.now.left) in
        let y = bit (bit_in role slots.now gate.now.right) in
        result ≡ word_slot (share_B InstrKind.AndB gate.now.width role x y half.now.words piece.now) }
{
    let x = u64::from(bit_at(role, slots, gate.left));
    let y = u64::from(bit_at(role, slots, gate.right));
    Label {
        low: share_bool::instr_finish(gate, role, x, y, half, piece),
        high: 0,
    }
}

/// The zero label of an And's result.
fn garbled(offset: Offset, slots: &[Label], gate: &Instr) -> Label
    ensures { let a = label_in P0 offset slots.now gate.now.left in
        let b = label_in P0 offset slots.now gate.now.right in
        result ≡ and_share_Y P0 offset gate.now.number a b [] }
{
    let a = label_at(Role::P0, offset, slots, gate.left);
    let b = label_at(Role::P0, offset, slots, gate.right);
    garble(u64::from(gate.number), a, b, offset, &mut [0; 32])
}

/// P1's label of an And's result, by P0's rows.
fn evaluated(offset: Offset, slots: &[Label], gate: &Instr, rows: &[u8]) -> Label
    requires { length rows.now ≡ 32 }
    ensures { let a = label_in P1 offset slots.now gate.now.left in
        let b = label_in P1 offset slots.now gate.now.right in
        result ≡ and_share_Y P1 offset gate.now.number a b rows.now }
{
    let a = label_at(Role::P1, offset, slots, gate.left);
    let b = label_at(Role::P1, offset, slots, gate.right);
    evaluate(u64::from(gate.number), a, b, rows)
}

/// Garbles one gate of a level: puts P0's message for it, and gives its share, for which nothing is received.
pub(crate) fn gate_garble<H: Halves>(
    offset: Offset,
    slots: &[Label],
    gate: &Instr,
    number: u32,
    halves: &H,
    outbox: &mut Queue,
) -> Label
    requires { gate_sent gate.now.kind gate.now.width P0 ≤ spare outbox.old }
    ensures items { (gates : List Instr) (codes : List ℕ) (chosen own : ℕ) →
        let v = view P0 gates codes slots.now offset chosen own (λ k. (H.meant halves.now P0 k).words) in
        outbox.new.items ≡ outbox.old.items ++ gate_message v number gate.now gate.now.kind }
    ensures room { outbox.new.room ≡ outbox.old.room }
    ensures share { (gates : List Instr) (codes : List ℕ) (chosen own : ℕ) →
        let v = view P0 gates codes slots.now offset chosen own (λ k. (H.meant halves.now P0 k).words) in
        result ≡ gate_share v number gate.now [] gate.now.kind }
{
    match gate.kind {
        InstrKind::AndY => garble_send(offset, slots, gate, outbox),
        InstrKind::MulA => {
            gate_send(Role::P0, offset, slots, gate, number, halves, outbox);
            gate_alone(offset, slots, gate, number, halves)
        }
        InstrKind::AndB => {
            gate_send(Role::P0, offset, slots, gate, number, halves, outbox);
            gate_alone(offset, slots, gate, number, halves)
        }
        _ => Label::ZERO,
    }
}

/// P0's share of a gate for which nothing is received, as if zeros were.
fn gate_alone<H: Halves>(
    offset: Offset,
    slots: &[Label],
    gate: &Instr,
    number: u32,
    halves: &H,
) -> Label
    requires { sent gate.now.kind gate.now.width P1 ≤ 16 }
    ensures { (gates : List Instr) (codes : List ℕ) (chosen own : ℕ) →
        let v = view P0 gates codes slots.now offset chosen own (λ k. (H.meant halves.now P0 k).words) in
        result ≡ gate_share v number gate.now (replicate (sent gate.now.kind gate.now.width P1) 0) gate.now.kind }
{
    let zeros = [0; 16];
    let piece = &zeros[..gate.sent(Role::P1) as usize];
    gate_finish(Role::P0, offset, slots, gate, number, halves, piece)
}
