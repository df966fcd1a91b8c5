use hy_bits::{Role, Width};
use share_core::{Half, Label, Offset, Sharing, Side, run_both};
use share_yao::{
    Yao, YaoDealt, YaoOp, code_label, evaluate, garble, input_labels, input_send, label_xor,
    low_bits, open_send, opened,
};
use std::process::Abort;
use std::test::Fail;

/// The two rows of a gate, and the labels of its result: P0's, and P1's for each pair of bits.
struct Row {
    gate: u64,
    a: Label,
    b: Label,
    offset: Offset,
    rows: [u8; 32],
    zero: Label,
    one: Label,
}

/// Computed by Python's hashlib.
const ROWS: [Row; 2] = [
    Row {
        gate: 0,
        a: Label { low: 0, high: 0 },
        b: Label { low: 0, high: 0 },
        offset: Offset { low: 1, high: 0 },
        rows: [
            0xaf, 0x7d, 0x38, 0xcd, 0x9a, 0xbb, 0x77, 0x07, 0x62, 0x17, 0xdd, 0x95, 0x9d, 0xeb,
            0xb0, 0xa5, 0x7c, 0x0d, 0xe5, 0x0a, 0x52, 0x67, 0x03, 0x6e, 0xf3, 0x21, 0x8e, 0xd6,
            0x3c, 0x69, 0x3e, 0xd3,
        ],
        zero: Label {
            low: 0xaef2_9a21_68e5_c218,
            high: 0x6a21_a112_5573_9f6f,
        },
        one: Label {
            low: 0xaef2_9a21_68e5_c219,
            high: 0x6a21_a112_5573_9f6f,
        },
    },
    Row {
        gate: 7,
        a: Label {
            low: 0x0123_4567_89ab_cdef,
            high: 0xfedc_ba98_7654_3210,
        },
        b: Label {
            low: 0x1111_1111_1111_1110,
            high: 0x2222_2222_2222_2222,
        },
        offset: Offset {
            low: 0x8000_0000_0000_0001,
            high: 0xdead_beef_dead_beef,
        },
        rows: [
            0x2e, 0xbc, 0x84, 0xbe, 0x62, 0x93, 0xc6, 0x5b, 0xd2, 0x87, 0xb9, 0x0f, 0x41, 0x8d,
            0xfd, 0x19, 0x4a, 0xa6, 0x6f, 0x8a, 0xc4, 0xaa, 0x13, 0x84, 0xab, 0xcc, 0xaa, 0xca,
            0x7f, 0x31, 0xb0, 0x8d,
        ],
        zero: Label {
            low: 0xbc66_f8f1_708e_1c1c,
            high: 0x763b_4f09_6101_a503,
        },
        one: Label {
            low: 0x3c66_f8f1_708e_1c1d,
            high: 0xa896_f1e6_bfac_1bec,
        },
    },
];

const BITS: [bool; 2] = [false, true];

/// The label of the bit on the wire with this zero label.
fn label(zero: Label, offset: Offset, bit: bool) -> Label {
    if bit {
        Label {
            low: zero.low ^ offset.low,
            high: zero.high ^ offset.high,
        }
    } else {
        zero
    }
}

/// The shares of the result of one operation on the bits x and y.
fn shares(rt: &impl Abort, row: &Row, op: YaoOp, x: bool, y: bool) -> (Label, Label) {
    let mut rows = [0; 32];
    let count = Yao::sent(op, Role::P0);
    assert!(rt; count <= 32);
    assert_eq!(rt; Yao::sent(op, Role::P1), 0);
    let first = Side {
        x: row.a,
        y: row.b,
        dealt: YaoDealt { offset: row.offset },
    };
    let second = Side {
        x: label(row.a, row.offset, x),
        y: label(row.b, row.offset, y),
        dealt: YaoDealt {
            offset: Offset::NONE,
        },
    };
    run_both::<Yao>(op, first, second, &mut rows[..count], &mut [])
}

#[test]
fn the_rows_and_the_labels_of_an_and_are_those_of_another_program(
    rt: HostRuntime,
) -> Result<(), Fail> {
    for row in &ROWS {
        let mut rows = [0; 32];
        let zero = garble(row.gate, row.a, row.b, row.offset, &mut rows);
        assert_eq!(rt; rows.as_slice(), row.rows.as_slice());
        assert_eq!(rt; zero, row.zero);
        for x in BITS {
            for y in BITS {
                let a = label(row.a, row.offset, x);
                let b = label(row.b, row.offset, y);
                let expected = if x && y { row.one } else { row.zero };
                assert_eq!(rt; evaluate(row.gate, a, b, &rows), expected);
            }
        }
    }
    Ok(())
}

#[test]
fn the_two_labels_of_each_operation_stand_for_its_value(rt: HostRuntime) -> Result<(), Fail> {
    for row in &ROWS {
        for x in BITS {
            for y in BITS {
                let both = shares(&rt, row, YaoOp::And(row.gate), x, y);
                assert_eq!(rt; both.1, label(both.0, row.offset, x && y));
                assert_eq!(rt; both.0, row.zero);
                let either = shares(&rt, row, YaoOp::Xor, x, y);
                assert_eq!(rt; either.1, label(either.0, row.offset, x != y));
            }
        }
    }
    Ok(())
}

#[test]
fn a_word_is_shared_and_opened_bit_by_bit(rt: HostRuntime) -> Result<(), Fail> {
    // the word 6 of 8 bits, with the zero labels (1, 2), (3, 4) and so on
    let mut half = Half { words: [0; 512] };
    for place in 0..16 {
        half.words[place] = place as u64 + 1;
    }
    let mut sent = [0; 128];
    let offset = Offset {
        low: 0x101,
        high: 0,
    };
    input_send(Width::W8, 6, offset, &half, &mut sent);
    assert_eq!(rt; &sent[..9], [1, 0, 0, 0, 0, 0, 0, 0, 2].as_slice());
    assert_eq!(rt; &sent[16..25], [2, 1, 0, 0, 0, 0, 0, 0, 4].as_slice());
    let first = input_labels(Width::W8, Role::P0, &half, &[]);
    let second = input_labels(Width::W8, Role::P1, &half, &sent);
    assert_eq!(rt; low_bits(Width::W8, &first), 0xff);
    assert_eq!(rt; low_bits(Width::W8, &second), 0xf9);
    let mut opening = [0];
    open_send(Width::W8, &first, &mut opening);
    assert_eq!(rt; opened(Width::W8, &second, &opening), 6);
    Ok(())
}

#[test]
fn constants_and_complements_take_the_offset_of_the_first_party(
    rt: HostRuntime,
) -> Result<(), Fail> {
    // the codes of false, true, slot 3, and its complement
    let held = Label { low: 2, high: 3 };
    let offset = Offset { low: 5, high: 9 };
    let cases = [
        (0, Label::ZERO, Label::ZERO),
        (1, Label { low: 5, high: 9 }, Label::ZERO),
        (8, held, held),
        (9, Label { low: 7, high: 10 }, held),
    ];
    for (code, first, second) in cases {
        assert_eq!(rt; code_label(Role::P0, offset, code, held), first);
        assert_eq!(rt; code_label(Role::P1, Offset::NONE, code, held), second);
    }
    Ok(())
}
