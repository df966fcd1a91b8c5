use crate::instruction::instruction;
use hy_bits::{Role, Width};
use share_bool::{BitTriple, BoolOp, Boole, code_share, instr_finish, instr_send, instr_sent};
use share_core::{Half, InstrKind, Sharing, Side, run_both};
use std::process::Abort;
use std::test::Fail;

/// The bit that the shares of the result of one operation stand for, the arguments being shared as x and as y, and the
/// triple being dealt by the word.
fn value(rt: &impl Abort, op: BoolOp, x: (bool, bool), y: (bool, bool), drawn: u64) -> bool {
    let count = Boole::sent(op, Role::P0);
    assert_eq!(rt; count, Boole::sent(op, Role::P1));
    assert!(rt; count <= 1);
    let mut from_first = [0; 1];
    let mut from_second = [0; 1];
    let first = Side {
        x: x.0,
        y: y.0,
        dealt: BitTriple::dealt(Role::P0, drawn),
    };
    let second = Side {
        x: x.1,
        y: y.1,
        dealt: BitTriple::dealt(Role::P1, drawn),
    };
    let shares = run_both::<Boole>(
        op,
        first,
        second,
        &mut from_first[..count],
        &mut from_second[..count],
    );
    shares.0 ^ shares.1
}

#[test]
fn the_two_shares_of_each_operation_xor_to_its_value(rt: HostRuntime) -> Result<(), Fail> {
    // a pair and the bits that it shares, for every way to share two bits and some drawn words
    let bits = [false, true];
    for drawn in [0, 3, 0b10110, 0b01111, 31] {
        for mask in bits {
            for x in bits {
                for y in bits {
                    let pairs = ((mask, mask ^ x), (y ^ mask, mask));
                    assert_eq!(rt; value(&rt, BoolOp::And, pairs.0, pairs.1, drawn), x && y);
                    assert_eq!(rt; value(&rt, BoolOp::Xor, pairs.0, pairs.1, drawn), x != y);
                }
            }
        }
    }
    Ok(())
}

#[test]
fn an_owner_shares_a_word_and_an_opening_gives_it_back(rt: HostRuntime) -> Result<(), Fail> {
    // 6 with the dealt word 0x105 at width 8: the other gets 6 ^ 5 = 3
    let input = instruction(InstrKind::InBP1, Width::W8);
    let opening = instruction(InstrKind::OpenB, Width::W8);
    let mut half = Half { words: [0; 512] };
    half.words[0] = 0x105;
    let nothing = Half { words: [0; 512] };
    let mut sent = [0];
    assert_eq!(rt; instr_sent(&input, Role::P0), 0);
    instr_send(&input, Role::P1, 6, 0, &half, &mut sent);
    assert_eq!(rt; sent[0], 3);
    assert_eq!(rt; instr_finish(&input, Role::P0, 0, 0, &nothing, &sent), 3);
    assert_eq!(rt; instr_finish(&input, Role::P1, 6, 0, &half, &[]), 5);
    instr_send(&opening, Role::P0, 3, 0, &nothing, &mut sent);
    assert_eq!(rt; sent[0], 3);
    assert_eq!(rt; instr_finish(&opening, Role::P1, 5, 0, &nothing, &sent), 6);
    Ok(())
}

#[test]
fn an_and_sends_two_bits_and_reads_no_others(rt: HostRuntime) -> Result<(), Fail> {
    // e and f are 1 and 0 with P0, 0 and 1 with P1; P1 alone adds e && f
    let gate = instruction(InstrKind::AndB, Width::W1);
    let zeros = Half { words: [0; 512] };
    let mut first = [0];
    let mut second = [0];
    instr_send(&gate, Role::P0, 1, 0, &zeros, &mut first);
    instr_send(&gate, Role::P1, 0, 1, &zeros, &mut second);
    assert_eq!(rt; (first[0], second[0]), (1, 2));
    for pad in [0, 0xfc] {
        assert_eq!(rt;
            instr_finish(&gate, Role::P0, 1, 0, &zeros, &[second[0] + pad]),
            0
        );
        assert_eq!(rt;
            instr_finish(&gate, Role::P1, 0, 1, &zeros, &[first[0] + pad]),
            1
        );
    }
    Ok(())
}

#[test]
fn constants_and_complements_are_flipped_by_the_first_party(rt: HostRuntime) -> Result<(), Fail> {
    // the codes of false, true, slot 3, and its complement
    for (code, first, second) in [
        (0, false, false),
        (1, true, false),
        (8, true, true),
        (9, false, true),
    ] {
        assert_eq!(rt; code_share(Role::P0, code, true), first);
        assert_eq!(rt; code_share(Role::P1, code, true), second);
    }
    Ok(())
}
