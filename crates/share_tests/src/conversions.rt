ghost use Rattle.std.specs.Prelude.{◌<◌};

use hy_bits::Width;
use share_convert::{
    Chosen, Labels, Wires, answer_a_finish, answer_a_send, answer_y_finish, answer_y_send,
    carry_finish, carry_send, choose_finish, choose_send, low_bits,
};
use share_core::{Half, Label, Offset, frame};
use share_yao::YaoDealt;
use std::test::Fail;

const OFFSET: Offset = Offset {
    low: 0x8000_0000_0000_0001,
    high: 5,
};

/// P0's words in the tests: multiples of one odd number.
fn first_half() -> Half {
    let mut half = Half { words: [0; 512] };
    for place in 0..512 {
        half.words[place] = (place as u64 + 1).wrapping_mul(0x9e37_79b9_7f4a_7c15);
    }
    half
}

/// The label in two places of a half.
fn label(half: &Half, place: usize) -> Label
    requires { place < 511 }
{
    Label {
        low: half.words[place],
        high: half.words[place + 1],
    }
}

/// P1's masks of an answer of shares at width 8: for each bit r0 or r1, as the word picks.
fn second_half(picks: u64) -> Half {
    let first = first_half();
    let mut half = Half { words: [0; 512] };
    for i in 0..8 {
        let place = if (picks >> i) % 2 == 1 {
            8 * i + 6
        } else {
            8 * i + 4
        };
        half.words[2 * i] = first.words[place];
        half.words[2 * i + 1] = first.words[place + 1];
    }
    half
}

#[test]
fn a_word_at_b_goes_to_a_by_the_worked_messages(rt: HostRuntime) -> Result<(), Fail> {
    // 6 as 5 ^ 3 at width 8, with zeros dealt
    let zeros = Half { words: [0; 512] };
    let mut choice = [0];
    let second = choose_send(Width::W8, 3, 0, &mut choice);
    let mut sent = [0; 6];
    frame(4, &choice, &mut sent);
    assert_eq!(rt; sent.as_slice(), [4, 1, 0, 0, 0, 3].as_slice());
    let first = choose_finish(Width::W8, &choice);
    let mut answer = [0; 16];
    assert_eq!(rt; answer_a_send(Width::W8, first, 5, &zeros, &mut answer), 0);
    let mut framed = [0; 21];
    frame(5, &answer, &mut framed);
    let expected = [
        5, 0x10, 0, 0, 0, 1, 0, 0, 2, 4, 0, 0, 8, 0, 0x10, 0, 0x20, 0, 0x40, 0, 0x80,
    ];
    assert_eq!(rt; framed.as_slice(), expected.as_slice());
    assert_eq!(rt; answer_a_finish(Width::W8, second, &zeros, &answer), 6);
    Ok(())
}

/// Computed by another program, in Python.
const SHARES_ANSWER: [u8; 48] = [
    0x14, 0x7c, 0x4a, 0x7f, 0xb9, 0x79, 0x37, 0x1e, 0x2f, 0xf8, 0x94, 0xfe, 0x72, 0xf3, 0x6e, 0x3c,
    0xac, 0x10, 0xd6, 0x06, 0x3e, 0x39, 0x22, 0x89, 0xfc, 0x10, 0x7a, 0x07, 0x2e, 0x2b, 0x66, 0x89,
    0x57, 0x18, 0xab, 0x01, 0xb3, 0x0d, 0xb3, 0x4d, 0x2f, 0x18, 0x97, 0x06, 0xbd, 0x3c, 0x91, 0xcd,
];

const INPUT_ANSWER: [u8; 32] = [
    0x2a, 0x08, 0x95, 0x02, 0x95, 0x14, 0x91, 0x44, 0x7e, 0x08, 0xbd, 0x03, 0x97, 0x15, 0xb3, 0x44,
    0x7d, 0x10, 0x3e, 0x03, 0x26, 0x19, 0x22, 0x09, 0x51, 0x10, 0x2a, 0x05, 0x2a, 0x29, 0x22, 0x89,
];

#[test]
fn the_answers_of_one_bit_are_those_of_another_program(rt: HostRuntime) -> Result<(), Fail> {
    let half = first_half();
    let ones = Chosen { bits: 1, picks: 0 };
    let mut shares = [0; 48];
    let wires = answer_y_send(Width::W1, ones, Some(1), OFFSET, &half, &mut shares);
    assert_eq!(rt; shares.as_slice(), SHARES_ANSWER.as_slice());
    assert_eq!(rt; wires.b.list[0], label(&half, 2));
    let zeros = Chosen { bits: 0, picks: 0 };
    let mut input = [0; 32];
    let wires = answer_y_send(Width::W1, zeros, None, OFFSET, &half, &mut input);
    assert_eq!(rt; input.as_slice(), INPUT_ANSWER.as_slice());
    assert_eq!(rt; wires.b.list[0], label(&half, 0));
    Ok(())
}

/// The lowest bits of the two parties' labels of a word at width 8, from B and from A.
#[derive(Clone, Copy)]
struct Low {
    joined: u64,
    added: u64,
}

/// Converts the words x0 and x1 to labels, and takes their lowest bits.
fn converted(x0: u64, x1: u64, c: u64) -> Low {
    let mut choice = [0];
    let second_choice = choose_send(Width::W8, x1, c, &mut choice);
    let first_choice = choose_finish(Width::W8, &choice);
    let mut answer = [0; 384];
    let half = first_half();
    let first = answer_y_send(
        Width::W8,
        first_choice,
        Some(x0),
        OFFSET,
        &half,
        &mut answer,
    );
    let second = answer_y_finish(Width::W8, second_choice, true, &second_half(c), &answer);
    let joined = low_bits(Width::W8, &first.a)
        ^ low_bits(Width::W8, &first.b)
        ^ low_bits(Width::W8, &second.a)
        ^ low_bits(Width::W8, &second.b);
    Low {
        joined,
        added: joined ^ carries(&first, &second),
    }
}

/// The xor of the lowest bits of the two parties' carries into each place.
fn carries(first: &Wires, second: &Wires) -> u64 {
    let dealt = YaoDealt { offset: OFFSET };
    let mut first_list = Labels::zero();
    let mut second_list = Labels::zero();
    for i in 0..7 {
        let number = i as u64;
        let mut rows = [0; 32];
        let a = first.a.list[i];
        let b = first.b.list[i];
        let carry = first_list.list[i];
        let next = carry_send(number, a, b, carry, dealt, &mut rows);
        first_list.set(i + 1, next);
        let a = second.a.list[i];
        let b = second.b.list[i];
        let carry = second_list.list[i];
        let next = carry_finish(number, a, b, carry, &rows);
        second_list.set(i + 1, next);
    }
    low_bits(Width::W8, &first_list) ^ low_bits(Width::W8, &second_list)
}

#[test]
fn labels_of_shares_stand_for_their_xor_and_for_their_sum(rt: HostRuntime) -> Result<(), Fail> {
    let cases = [
        (5, 3, 0, 6, 8),
        (200, 100, 0xa5, 172, 44),
        (255, 1, 0xff, 254, 0),
        (0x55, 0xaa, 0x0f, 255, 255),
    ];
    for (x0, x1, c, joined, added) in cases {
        let low = converted(x0, x1, c);
        assert_eq!(rt; low.joined, joined);
        assert_eq!(rt; low.added, added);
    }
    Ok(())
}
