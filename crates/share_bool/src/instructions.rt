ghost use Rattle.std.specs.Prelude.{◌≡◌, List, ℕ, length, slice_index};
ghost use Rattle.share_core.specs.Roles.{other};
ghost use Rattle.share_core.specs.Boolean.{code_share, message_B, odd, sent_B, share_B};

use crate::bits::{is_odd, xor};
use crate::boole::{BitTriple, finish_and, send_and};
use hy_bits::{Role, truncate};
use share_core::{Half, Instr, InstrKind, byte_count, read_number, write_number};

/// The number of bytes that the role sends for an instruction at B, or for one gate of a level.
pub fn instr_sent(instr: &Instr, role: Role) -> usize
    ensures { result ≡ sent_B instr.now.kind instr.now.width role }
{
    let word = byte_count(instr.width);
    match (instr.kind, role) {
        (InstrKind::InBP0, Role::P0) | (InstrKind::InBP1, Role::P1) => word,
        (InstrKind::AndB, _) => 1,
        (InstrKind::OpenB, _) => word,
        _ => 0,
    }
}

/// Writes what the role sends for an instruction at B, or for one gate of a level, from its shares of the operands: words
/// whose bits are shares, lowest first. A gate's operands are their lowest bits, and an input's `x` is its owner's word.
pub fn instr_send(instr: &Instr, role: Role, x: u64, y: u64, half: &Half, out: &mut [u8])
    requires { length out.old ≡ sent_B instr.now.kind instr.now.width role }
    ensures { out.new ≡ message_B instr.now.kind instr.now.width role x y half.now.words }
{
    let w = instr.width;
    match (instr.kind, role) {
        (InstrKind::InBP0, Role::P0) | (InstrKind::InBP1, Role::P1) => {
            write_number(xor(w, x, half.words[0]), out)
        }
        (InstrKind::AndB, _) => send_and(is_odd(x), is_odd(y), triple_of(half), out),
        (InstrKind::OpenB, _) => write_number(truncate(w, x), out),
        _ => {}
    }
}

/// The role's new share of an instruction at B, or of one gate of a level, from what the other sent; of a word its bits'
/// shares, lowest first, of a gate 0 or 1. Of an opening it is the word that the two shares stand for.
pub fn instr_finish(instr: &Instr, role: Role, x: u64, y: u64, half: &Half, inbox: &[u8]) -> u64
    requires { length inbox.now ≡ sent_B instr.now.kind instr.now.width (other role) }
    ensures { result ≡ share_B instr.now.kind instr.now.width role x y half.now.words inbox.now }
{
    let w = instr.width;
    match (instr.kind, role) {
        (InstrKind::InBP0, Role::P0) | (InstrKind::InBP1, Role::P1) => truncate(w, half.words[0]),
        (InstrKind::InBP0, Role::P1) | (InstrKind::InBP1, Role::P0) => truncate(
            w,
            read_number(inbox),
        ),
        (InstrKind::AndB, _) => u64::from(finish_and(
            role,
            is_odd(x),
            is_odd(y),
            triple_of(half),
            inbox,
        )),
        (InstrKind::XorB, _) => u64::from(is_odd(x) ^ is_odd(y)),
        (InstrKind::OpenB, _) => xor(w, x, read_number(inbox)),
        _ => 0,
    }
}

/// The role's share of the bit that a code over slots means, from its share in the code's slot. Codes 0 and 1 are the
/// constants, whose slot isn't looked at; slot s has the code 2 * s + 2, and an odd code is the complement of the code below
/// it. P0 alone complements.
pub fn code_share(role: Role, code: u32, share: bool) -> bool
    ensures { result ≡ code_share role code share }
{
    let named = code >= 2 && share;
    match role {
        Role::P0 => named ^ (code % 2 == 1),
        Role::P1 => named,
    }
}

/// The triple of an And's half: a, b and c, in this order.
fn triple_of(half: &Half) -> BitTriple
    ensures a { result.a ≡ odd (slice_index half.now.words 0) }
    ensures b { result.b ≡ odd (slice_index half.now.words 1) }
    ensures c { result.c ≡ odd (slice_index half.now.words 2) }
{
    BitTriple {
        a: is_odd(half.words[0]),
        b: is_odd(half.words[1]),
        c: is_odd(half.words[2]),
    }
}
