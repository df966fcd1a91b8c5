ghost use Rattle.std.specs.Prelude.{◌≡◌, ◌*◌, ◌%◌, ◌≤◌, ℕ, if◌then◌else◌, [], ◌∷◌, length, map, slice_index};
ghost use Rattle.hy_bits.specs.Words.{bits, modulus};
ghost use Rattle.hy_bits.specs.declared.turns.Role.TheVariants.{P0, P1};
ghost use Rattle.share_core.specs.Boolean.{dealt_B};
ghost use Rattle.share_core.specs.declared.instr.InstrKind.TheVariants.{AndB, MulA};
ghost use Rattle.share_core.specs.Dealing.{choice_after, dealt, dealt_masks, dealt_masks_A, drawn};
ghost use Rattle.share_core.specs.Garbled.{offset_of, offset_words};
ghost use Rattle.share_core.specs.Instructions.{dealt_A, half_of};
ghost use Rattle.dealer.specs.Drawing.{offset_after};

use crate::masks::{cut, label_masks, word_masks};
use hy_bits::{Role, Width, mul, sub, truncate};
use share_bool::BitTriple;
use share_core::{Half, Instr, InstrKind, Offset};

/// The number of words that are drawn for `instr`, or for it as one gate of a level.
pub fn words_of(instr: &Instr) -> u32
    ensures value { result ≡ drawn instr.now.kind instr.now.width }
    ensures few { result ≤ 512 }
{
    let bits = instr.width.bits();
    match instr.kind {
        InstrKind::Offset => 2,
        InstrKind::InAP0 | InstrKind::InAP1 | InstrKind::InBP0 | InstrKind::InBP1 => 1,
        InstrKind::ChooseIn | InstrKind::ChooseA | InstrKind::ChooseB => 1,
        InstrKind::InYP0 => 2 * bits,
        InstrKind::AnswerIn => 6 * bits,
        InstrKind::AnswerSharesA | InstrKind::AnswerSharesB => 8 * bits,
        InstrKind::AnswerToA => 3 * bits,
        InstrKind::MulA => 5,
        InstrKind::AndB => 1,
        _ => 0,
    }
}

/// The half that `role` has of the words `words` that were drawn for `instr`, or for it as one gate of a level, `chosen` being the
/// word of P1's last choice.
pub fn half_of(instr: &Instr, role: Role, chosen: u64, words: &[u64]) -> Half
    requires { length words.now ≡ drawn instr.now.kind instr.now.width }
    ensures { let i = instr.now in
        result.words ≡ half_of (dealt i.kind i.width role chosen words.now) }
{
    match role {
        Role::P0 => first_half(instr.kind, instr.width, words),
        Role::P1 => second_half(instr.kind, instr.width, chosen, words),
    }
}

/// P0's half.
fn first_half(kind: InstrKind, w: Width, words: &[u64]) -> Half
    requires { length words.now ≡ drawn kind w }
    ensures { (chosen : ℕ) → result.words ≡ half_of (dealt kind w P0 chosen words.now) }
{
    match kind {
        InstrKind::Offset => offset_half(words),
        InstrKind::InAP0 => word_with(w, words),
        InstrKind::InBP0 => word_with(w, words),
        InstrKind::InYP0 | InstrKind::AnswerIn => half_with(words),
        InstrKind::AnswerSharesA | InstrKind::AnswerSharesB => half_with(words),
        InstrKind::AnswerToA => cut_half(w, words),
        InstrKind::MulA => triple_half(w, Role::P0, words),
        InstrKind::AndB => bit_triple_half(w, Role::P0, words),
        _ => half_with(&[]),
    }
}

/// P1's half.
fn second_half(kind: InstrKind, w: Width, chosen: u64, words: &[u64]) -> Half
    requires { length words.now ≡ drawn kind w }
    ensures { result.words ≡ half_of (dealt kind w P1 chosen words.now) }
{
    match kind {
        InstrKind::InAP1 => word_with(w, words),
        InstrKind::InBP1 => word_with(w, words),
        InstrKind::ChooseIn => word_with(w, words),
        InstrKind::ChooseA => word_with(w, words),
        InstrKind::ChooseB => word_with(w, words),
        InstrKind::AnswerIn => label_half(w, false, chosen, words),
        InstrKind::AnswerSharesA | InstrKind::AnswerSharesB => label_half(w, true, chosen, words),
        InstrKind::AnswerToA => word_half(w, chosen, words),
        InstrKind::MulA => triple_half(w, Role::P1, words),
        InstrKind::AndB => bit_triple_half(w, Role::P1, words),
        _ => half_with(&[]),
    }
}

/// P0's half of the offset: its two words.
fn offset_half(words: &[u64]) -> Half
    requires { length words.now ≡ 2 }
    ensures { result.words ≡ half_of (offset_words (offset_of words.now)) }
{
    let offset = offset_of(words);
    half_with(&[offset.low, offset.high])
}

/// The run's free-XOR offset of two words: the lowest bit of the first is set.
fn offset_of(words: &[u64]) -> Offset
    requires { length words.now ≡ 2 }
    ensures { result ≡ offset_of words.now }
{
    Offset {
        low: words[0] / 2 * 2 + 1,
        high: words[1],
    }
}

/// The run's offset after an instruction: a dealt one is new, every other instruction leaves it.
pub(crate) fn offset_after(instr: &Instr, offset: Offset, words: &[u64]) -> Offset
    requires { length words.now ≡ drawn instr.now.kind instr.now.width }
    ensures { result ≡ offset_after instr.now.kind words.now offset }
{
    match instr.kind {
        InstrKind::Offset => offset_of(words),
        _ => offset,
    }
}

/// The word of P1's last choice after an instruction: a choice has a new one, every other leaves it.
pub(crate) fn choice_after(instr: &Instr, chosen: u64, words: &[u64]) -> u64
    requires { length words.now ≡ drawn instr.now.kind instr.now.width }
    ensures { result ≡ choice_after instr.now.kind instr.now.width chosen words.now }
{
    match instr.kind {
        InstrKind::ChooseIn | InstrKind::ChooseA | InstrKind::ChooseB => {
            truncate(instr.width, words[0])
        }
        _ => chosen,
    }
}

/// The half that has these words from place 0 on, and zeros after them.
fn half_with(words: &[u64]) -> Half
    requires { length words.now ≤ 512 }
    ensures { result.words ≡ half_of words.now }
{
    let mut half = Half { words: [0; 512] };
    let (place, _) = half.words.split_at_mut(words.len());
    place.copy_from_slice(words);
    half
}

/// The half that has one drawn word, cut to the width.
fn word_with(w: Width, words: &[u64]) -> Half
    requires { length words.now ≡ 1 }
    ensures { result.words ≡ half_of ((slice_index words.now 0 % modulus w) ∷ []) }
{
    half_with(&[truncate(w, words[0])])
}

/// P0's half of an answer at A: the words, cut to the width.
fn cut_half(w: Width, words: &[u64]) -> Half
    requires { length words.now ≡ 3 * bits w }
    ensures { result.words ≡ half_of (map (λ u. u % modulus w) words.now) }
{
    let mut buffer = [0; 192];
    let place = &mut buffer[..words.len()];
    cut(w, words, place);
    half_with(place)
}

/// P1's half of an answer at Y: its masks.
fn label_half(w: Width, shares: bool, chosen: u64, words: &[u64]) -> Half
    requires { length words.now ≡ (if shares then 8 else 6) * bits w }
    ensures { result.words ≡ half_of (dealt_masks shares w chosen words.now) }
{
    let mut buffer = [0; 128];
    let place = &mut buffer[..2 * w.bits() as usize];
    label_masks(w, shares, chosen, words, place);
    half_with(place)
}

/// P1's half of an answer at A: its masks.
fn word_half(w: Width, chosen: u64, words: &[u64]) -> Half
    requires { length words.now ≡ 3 * bits w }
    ensures { result.words ≡ half_of (dealt_masks_A w chosen words.now) }
{
    let mut buffer = [0; 64];
    let place = &mut buffer[..w.bits() as usize];
    word_masks(w, chosen, words, place);
    half_with(place)
}

/// The role's a, b and c of a product, of the words a, b and P0's halves of a, b and c: P1 has what P0 has not.
fn triple_half(w: Width, role: Role, words: &[u64]) -> Half
    requires { length words.now ≡ 5 }
    ensures { result.words ≡ half_of (dealt_A MulA w role words.now) }
{
    let first_a = truncate(w, words[2]);
    let first_b = truncate(w, words[3]);
    let first_c = truncate(w, words[4]);
    match role {
        Role::P0 => half_with(&[first_a, first_b, first_c]),
        Role::P1 => {
            let a = truncate(w, words[0]);
            let b = truncate(w, words[1]);
            let c = mul(w, a, b);
            half_with(&[sub(w, a, first_a), sub(w, b, first_b), sub(w, c, first_c)])
        }
    }
}

/// The role's a, b and c of an And, each as 0 or 1, of the bits of one word.
fn bit_triple_half(w: Width, role: Role, words: &[u64]) -> Half
    requires { length words.now ≡ 1 }
    ensures { result.words ≡ half_of (dealt_B AndB w role words.now) }
{
    let triple = BitTriple::dealt(role, words[0]);
    half_with(&[
        u64::from(triple.a),
        u64::from(triple.b),
        u64::from(triple.c),
    ])
}
