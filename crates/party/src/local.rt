//! Instructions for which nothing is sent: sums, differences and products with a constant at A, free XORs, and the permute bits of a word
//! at Y as its shares at B.
ghost use Rattle.std.specs.Prelude.{◌≡◌, ℕ, false, List, [], set};
ghost use Rattle.hy_bits.specs.declared.turns.Role.TheVariants.{P0, P1};
ghost use Rattle.share_core.specs.declared.instr.Instr.{Instr};
ghost use Rattle.share_core.specs.Instructions.{has_frame};
ghost use Rattle.hy_bits.specs.Bits.{bit, xor};
ghost use Rattle.share_core.specs.Garbled.{label_xor};
ghost use Rattle.share_core.specs.Machine.{slots_after, word_slot};
ghost use Rattle.party.specs.Steps.{bit_in, label_in, view};

use crate::openings::low_word_of_codes;
use crate::operands::{bit_at, label_at, word_at};
use crate::targets::{put, put_bits, put_word};
use hy_bits::Role;
use share_arith::local_share;
use share_core::{Instr, InstrKind, Label, Offset};
use share_yao::label_xor;

/// The party's shares after an instruction for which nobody sends.
pub(crate) fn local(role: Role, instr: &Instr, codes: &[u32], offset: Offset, slots: &mut [Label])
    requires first { has_frame instr.now.kind P0 ≡ false }
    requires second { has_frame instr.now.kind P1 ≡ false }
    ensures { (gates : List Instr) (chosen own : ℕ) (half : ℕ → List ℕ) →
        slots.new ≡ slots_after instr.now (view role gates codes.now slots.old offset chosen own half) [] }
{
    match instr.kind {
        InstrKind::Offset | InstrKind::MulA | InstrKind::AndB | InstrKind::AndY => {}
        InstrKind::XorB => xor_bits(role, instr, slots),
        InstrKind::XorY => xor_labels(role, instr, offset, slots),
        InstrKind::Y2B => {
            let w = instr.width;
            let word = low_word_of_codes(w, role, offset, codes, slots, instr.left);
            put_bits(w, codes, instr.target, word, slots);
        }
        _ => {
            let x = word_at(slots, instr.left);
            let y = word_at(slots, instr.right);
            put_word(slots, instr.target, local_share(instr, role, x, y));
        }
    }
}

/// A free XOR at B.
fn xor_bits(role: Role, instr: &Instr, slots: &mut [Label])
    ensures { let x = bit_in role slots.old instr.now.left in
        let y = bit_in role slots.old instr.now.right in
        slots.new ≡ set slots.old instr.now.target (word_slot (bit (xor x y))) }
{
    let x = bit_at(role, slots, instr.left);
    let y = bit_at(role, slots, instr.right);
    put_word(slots, instr.target, u64::from(x ^ y));
}

/// A free XOR at Y.
fn xor_labels(role: Role, instr: &Instr, offset: Offset, slots: &mut [Label])
    ensures { let a = label_in role offset slots.old instr.now.left in
        let b = label_in role offset slots.old instr.now.right in
        slots.new ≡ set slots.old instr.now.target (label_xor a b) }
{
    let a = label_at(role, offset, slots, instr.left);
    let b = label_at(role, offset, slots, instr.right);
    put(slots, instr.target as usize, label_xor(a, b));
}
