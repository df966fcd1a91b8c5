ghost use Rattle.std.specs.Prelude.{◌≡◌, List, ℕ, length, slice_index};
ghost use Rattle.hy_bits.specs.Words.{modulus, IsWord};
ghost use Rattle.share_core.specs.Roles.{other};
ghost use Rattle.share_core.specs.Instructions.{local_A, message_A, sent_A, share_A};

use crate::arith::{Triple, finish_product, send_product};
use crate::words::{difference, negation, product, sum};
use hy_bits::{Role, truncate};
use share_core::{Half, Instr, InstrKind, byte_count, read_number, write_number};

/// The number of bytes that the role sends for an instruction at A, or for one gate of a level.
pub fn instr_sent(instr: &Instr, role: Role) -> usize
    ensures { result ≡ sent_A instr.now.kind instr.now.width role }
{
    let word = byte_count(instr.width);
    match (instr.kind, role) {
        (InstrKind::InAP0, Role::P0) | (InstrKind::InAP1, Role::P1) => word,
        (InstrKind::MulA, _) => 2 * word,
        (InstrKind::OpenA, _) => word,
        _ => 0,
    }
}

/// Writes what the role sends for an instruction at A, or for one gate of a level, from its shares of the operands. An
/// input's `x` is its owner's word.
pub fn instr_send(instr: &Instr, role: Role, x: u64, y: u64, half: &Half, out: &mut [u8])
    requires { length out.old ≡ sent_A instr.now.kind instr.now.width role }
    ensures { out.new ≡ message_A instr.now.kind instr.now.width role x y half.now.words }
{
    let w = instr.width;
    match (instr.kind, role) {
        (InstrKind::InAP0, Role::P0) | (InstrKind::InAP1, Role::P1) => {
            write_number(difference(w, x, half.words[0]), out)
        }
        (InstrKind::MulA, _) => send_product(w, x, y, triple_of(half), out),
        (InstrKind::OpenA, _) => write_number(truncate(w, x), out),
        _ => {}
    }
}

/// The role's new share of an instruction at A, or of one gate of a level, from what the other sent. Of an opening it is the
/// word that the two shares stand for.
pub fn instr_finish(instr: &Instr, role: Role, x: u64, y: u64, half: &Half, inbox: &[u8]) -> u64
    requires { length inbox.now ≡ sent_A instr.now.kind instr.now.width (other role) }
    ensures { let i = instr.now in
        result ≡ share_A i.kind i.width role i.value x y half.now.words inbox.now }
{
    let w = instr.width;
    match (instr.kind, role) {
        (InstrKind::InAP0, Role::P0) | (InstrKind::InAP1, Role::P1) => truncate(w, half.words[0]),
        (InstrKind::InAP0, Role::P1) | (InstrKind::InAP1, Role::P0) => truncate(
            w,
            read_number(inbox),
        ),
        (InstrKind::MulA, _) => finish_product(w, role, x, y, triple_of(half), inbox),
        (InstrKind::OpenA, _) => sum(w, x, read_number(inbox)),
        _ => local_share(instr, role, x, y),
    }
}

/// The role's new share of an instruction at A for which nothing is sent, from its shares `x` and `y` of the operands. A constant of a
/// sum or a difference is P0's alone.
pub fn local_share(instr: &Instr, role: Role, x: u64, y: u64) -> u64
    ensures { result ≡ local_A instr.now.kind instr.now.width role instr.now.value x y }
{
    let w = instr.width;
    let constant = match role {
        Role::P0 => instr.value,
        Role::P1 => 0,
    };
    match instr.kind {
        InstrKind::AddA => sum(w, x, y),
        InstrKind::AddLeft => sum(w, constant, y),
        InstrKind::AddRight => sum(w, x, constant),
        InstrKind::SubA => difference(w, x, y),
        InstrKind::SubLeft => difference(w, constant, y),
        InstrKind::SubRight => difference(w, x, constant),
        InstrKind::MulLeft => product(w, instr.value, y),
        InstrKind::MulRight => product(w, x, instr.value),
        InstrKind::NegA => negation(w, x),
        InstrKind::TruncA => truncate(w, x),
        InstrKind::Known => truncate(w, constant),
        _ => 0,
    }
}

/// The triple of a product's half: a, b and c, in this order.
fn triple_of(half: &Half) -> Triple
    ensures a { result.a ≡ slice_index half.now.words 0 }
    ensures b { result.b ≡ slice_index half.now.words 1 }
    ensures c { result.c ≡ slice_index half.now.words 2 }
{
    Triple {
        a: half.words[0],
        b: half.words[1],
        c: half.words[2],
    }
}
