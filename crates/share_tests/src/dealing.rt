use crate::instruction::instruction;
use dealer::Dealer;
use hy_bits::Width;
use rand_chacha::ChaCha20Rng;
use rand_core::SeedableRng;
use share_core::{Half, InstrKind, Offset};
use std::alloc::Global;
use std::test::Fail;

/// Instructions that are dealt for one after another, each at a width.
const KINDS: [(InstrKind, Width); 16] = [
    (InstrKind::Offset, Width::W1),
    (InstrKind::MulA, Width::W16),
    (InstrKind::AndB, Width::W1),
    (InstrKind::InAP0, Width::W32),
    (InstrKind::InAP1, Width::W8),
    (InstrKind::InBP0, Width::W64),
    (InstrKind::InBP1, Width::W1),
    (InstrKind::InYP0, Width::W1),
    (InstrKind::ChooseIn, Width::W8),
    (InstrKind::AnswerIn, Width::W1),
    (InstrKind::ChooseA, Width::W1),
    (InstrKind::AnswerSharesA, Width::W1),
    (InstrKind::ChooseB, Width::W8),
    (InstrKind::AnswerToA, Width::W8),
    (InstrKind::AddA, Width::W8),
    (InstrKind::AnswerSharesB, Width::W1),
];

/// What is dealt for each of them from the key of zeros: the words of P0's half, then those of P1's, in hexadecimal digits and
/// without the zeros after the last one. Computed by an implementation of ChaCha20 in Python.
const DEALT: &str = "\
Offset: 903df1a0ade0b877 28bd8653e56a5d40 |
MulA: 41da 2477 436a | 90e3 1231 e69e
AndB: | 1 1 1
InAP0: bee7079f |
InAP1: | 98
InBP0: 6965e348a0290fcb |
InBP1: |
InYP0: 434ee69c7621b729 d539d874b03371d5 |
ChooseIn: | 31
AnswerIn: 6f4d794b1f0ae1ac e16c2663e6a0092d 75a0681908d17eae c662d37b998e718e 5db3a0a93446c3b0 f5d7b1f68372701 | 5db3a0a93446c3b0 f5d7b1f68372701
ChooseA: |
AnswerSharesA: c094cfc913d3d273 f248a2406271f35f 6b56b3d758a02013 abfd23eaada20d5 732785fb20b1b8c5 a4915cb4349763c3 2e0d84f883cbd42d 3fac62101358b1ed | 732785fb20b1b8c5 a4915cb4349763c3
ChooseB: | 1f
AnswerToA: e8 e5 fb e5 ca 4e 16 86 ed e0 b9 1e 19 5c 87 7c aa f2 c0 79 c1 ee e2 26 | fb 4e ed 1e 87 aa 79 e2
AddA: |
AnswerSharesB: 2e733861b7777170 c00f41a14db7aaed a26e9998c06ea55 e5003e5dcf37e3cb 7990bdbfe0f23b3 9841fe0b0ec7d087 5ffb615add5867ea e1ef1bf381f92dec | 5ffb615add5867ea e1ef1bf381f92dec
";

/// The words up to the last that isn't 0.
fn trimmed(words: &[u64]) -> &[u64] {
    match words {
        [before @ .., 0] => trimmed(before),
        _ => words,
    }
}

/// The words of a half in print.
fn printed(alloc: Global, half: &Half) -> Result<String, Fail> {
    let mut text = String::new(alloc);
    for word in trimmed(&half.words) {
        text.push_str(&format!(in alloc; " {word:x}")?)?;
    }
    Ok(text)
}

#[test]
fn the_words_are_those_of_the_keystream(rt: HostRuntime) -> Result<(), Fail> {
    let mut dealer = Dealer::new(ChaCha20Rng::from_seed([0; 32]));
    for word in [
        0x903d_f1a0_ade0_b876,
        0x28bd_8653_e56a_5d40,
        0x1aed_8da0_b819_d2bd,
        0xc70d_778b_ccef_36a8,
        0x8d48_5751_7c59_41da,
        0x374a_d8b8_3fe0_2477,
    ] {
        assert_eq!(rt; dealer.draw(), word);
    }
    Ok(())
}

#[test]
fn the_halves_of_each_kind_are_those_of_another_program(rt: HostRuntime) -> Result<(), Fail> {
    let alloc = rt.alloc();
    let mut dealer = Dealer::new(ChaCha20Rng::from_seed([0; 32]));
    let mut text = String::new(alloc);
    for (kind, width) in KINDS {
        let (first, second) = dealer.next(&instruction(kind, width));
        let first = printed(alloc, &first)?;
        let second = printed(alloc, &second)?;
        text.push_str(&format!(in alloc; "{kind:?}:{first} |{second}\n")?)?;
    }
    assert_eq!(rt; text.as_str(), DEALT);
    assert_eq!(rt;
        dealer.offset,
        Offset {
            low: 0x903d_f1a0_ade0_b877,
            high: 0x28bd_8653_e56a_5d40,
        }
    );
    Ok(())
}
