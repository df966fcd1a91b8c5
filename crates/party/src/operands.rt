//! The shares that an instruction reads. What stands in no slot or place is read as zeros.
ghost use Rattle.std.specs.Prelude.{◌≡◌, ◌+◌, ◌<◌, ◌^◌, ℕ, slice_index};
ghost use Rattle.hy_bits.specs.Words.{bits};
ghost use Rattle.share_core.specs.Garbled.{wire, word_of_bits};
ghost use Rattle.share_core.specs.Instructions.{slot_of};
ghost use Rattle.share_core.specs.Roles.{other};
ghost use Rattle.party.specs.Steps.{bit_in, label_in};

use hy_bits::{Role, Width};
use share_bool::code_share;
use share_core::{Label, Offset};
use share_yao::{Labels, code_label, low_bit};

/// The other party.
pub(crate) fn other(role: Role) -> Role
    ensures { result ≡ other role }
{
    match role {
        Role::P0 => Role::P1,
        Role::P1 => Role::P0,
    }
}

/// The slot that a code names.
pub(crate) fn slot_of(code: u32) -> usize
    ensures { result ≡ slot_of code }
{
    (code / 2).saturating_sub(1) as usize
}

/// The code in a place.
pub(crate) fn code_at(codes: &[u32], at: usize) -> u32
    ensures { result ≡ slice_index codes.now at }
{
    match codes.get(at) {
        Some(code) => *code,
        None => 0,
    }
}

/// What stands in the slot that a code names.
fn held(slots: &[Label], code: u32) -> Label
    ensures { result ≡ wire slots.now (slot_of code) }
{
    match slots.get(slot_of(code)) {
        Some(label) => *label,
        None => Label::ZERO,
    }
}

/// The party's share at A of the word in a code's slot.
pub(crate) fn word_at(slots: &[Label], code: u32) -> u64
    ensures { result ≡ (wire slots.now (slot_of code)).low }
{
    held(slots, code).low
}

/// The party's share at B of the bit that a code means.
pub(crate) fn bit_at(role: Role, slots: &[Label], code: u32) -> bool
    ensures { result ≡ bit_in role slots.now code }
{
    code_share(role, code, low_bit(held(slots, code)))
}

/// The party's label of the bit that a code means.
pub(crate) fn label_at(role: Role, offset: Offset, slots: &[Label], code: u32) -> Label
    ensures { result ≡ label_in role offset slots.now code }
{
    code_label(role, offset, code, held(slots, code))
}

/// The party's share at B of the word whose codes stand from `place` on, the lowest bit's first.
pub(crate) fn word_of_codes(w: Width, role: Role, codes: &[u32], slots: &[Label], place: u32) -> u64
    ensures { result ≡ word_of_bits (bits w) (λ k. bit_in role slots.now (slice_index codes.now (place + k))) }
{
    let mut word = 0;
    for k in 0..w.bits() as usize {
        let code = code_at(codes, place as usize + k);
        word += u64::from(bit_at(role, slots, code)) << k;
    }
    word
}

/// The party's labels of the word whose codes stand from `place` on, the lowest bit's first.
pub(crate) fn labels_of_codes(
    w: Width,
    role: Role,
    offset: Offset,
    codes: &[u32],
    slots: &[Label],
    place: usize,
) -> Labels
    requires { place < 2 ^ 33 }
    ensures { (k : ℕ) → k < bits w →
        wire result.list k ≡ label_in role offset slots.now (slice_index codes.now (place + k)) }
{
    let mut labels = Labels::zero();
    for k in 0..w.bits() as usize {
        let code = code_at(codes, place + k);
        labels.set(k, label_at(role, offset, slots, code));
    }
    labels
}
