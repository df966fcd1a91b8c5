use crate::instruction::instruction;
use hy_bits::{Role, Width, truncate};
use share_arith::{Arith, ArithOp, Triple, add, instr_finish, instr_send, opened, share};
use share_core::{Half, InstrKind, Sharing, Side, frame, run_both};
use std::process::Abort;
use std::test::Fail;

const NOTHING: Triple = Triple { a: 0, b: 0, c: 0 };

/// The word that the shares of the result of one operation stand for, the arguments being shared as x and as y.
fn value(
    rt: &impl Abort,
    op: ArithOp,
    x: (u64, u64),
    y: (u64, u64),
    dealt: (Triple, Triple),
    w: Width,
) -> u64 {
    let count = Arith::sent(op, Role::P0);
    assert_eq!(rt; count, Arith::sent(op, Role::P1));
    assert!(rt; count <= 16);
    let mut from_first = [0; 16];
    let mut from_second = [0; 16];
    let first = Side {
        x: x.0,
        y: y.0,
        dealt: dealt.0,
    };
    let second = Side {
        x: x.1,
        y: y.1,
        dealt: dealt.1,
    };
    let shares = run_both::<Arith>(
        op,
        first,
        second,
        &mut from_first[..count],
        &mut from_second[..count],
    );
    opened(w, truncate(w, shares.0), truncate(w, shares.1))
}

#[test]
fn the_two_shares_of_each_operation_add_up_to_its_value(rt: HostRuntime) -> Result<(), Fail> {
    // 6 = 200 + 62 and 7 = 9 + 254 modulo 256; 35 * 3 = 105 is dealt as (30, 1, 100) and (5, 2, 5)
    let dealt = (
        Triple {
            a: 30,
            b: 1,
            c: 100,
        },
        Triple { a: 5, b: 2, c: 5 },
    );
    let cases = [
        (ArithOp::Add(Width::W8), 13),
        (ArithOp::Sub(Width::W8), 255),
        (ArithOp::Neg(Width::W8), 250),
        (ArithOp::Mul(Width::W8), 42),
        (ArithOp::Trunc(Width::W8, Width::W8), 6),
    ];
    for (op, expected) in cases {
        assert_eq!(rt;
            value(&rt, op, (200, 62), (9, 254), dealt, Width::W8),
            expected,
            "{op:?}"
        );
    }
    Ok(())
}

#[test]
fn products_and_cuts_wrap_at_every_width(rt: HostRuntime) -> Result<(), Fail> {
    let nothing = (NOTHING, NOTHING);
    let cases = [
        (Width::W8, 0xff, 5),
        (Width::W16, 0xffff, 5),
        (Width::W32, 0xffff_ffff, 5),
        (Width::W64, 0xffff_ffff_ffff_ffff, 0x1_0000_0005),
    ];
    for (w, minus_one, cut) in cases {
        let square = value(
            &rt,
            ArithOp::Mul(w),
            (minus_one, 0),
            (0, minus_one),
            nothing,
            w,
        );
        assert_eq!(rt; square, 1, "{w:?}");
        let word = (0x1_0000_0000, 5);
        assert_eq!(rt;
            value(&rt, ArithOp::Trunc(Width::W64, w), word, (0, 0), nothing, w),
            cut
        );
    }
    Ok(())
}

#[test]
fn the_frames_of_a_product_with_nothing_dealt_are_its_shares(rt: HostRuntime) -> Result<(), Fail> {
    // 6 as (6, 0) by 7 as (0, 7)
    let product = instruction(InstrKind::MulA, Width::W8);
    let zeros = Half { words: [0; 512] };
    let mut first = [0; 2];
    let mut second = [0; 2];
    instr_send(&product, Role::P0, 6, 0, &zeros, &mut first);
    instr_send(&product, Role::P1, 0, 7, &zeros, &mut second);
    let mut frames = [[0; 7], [0; 7]];
    frame(6, &first, &mut frames[0]);
    frame(6, &second, &mut frames[1]);
    assert_eq!(rt; frames[0].as_slice(), [6, 2, 0, 0, 0, 6, 0].as_slice());
    assert_eq!(rt; frames[1].as_slice(), [6, 2, 0, 0, 0, 0, 7].as_slice());
    assert_eq!(rt; instr_finish(&product, Role::P0, 6, 0, &zeros, &second), 0);
    assert_eq!(rt; instr_finish(&product, Role::P1, 0, 7, &zeros, &first), 42);
    Ok(())
}

#[test]
fn an_owner_shares_a_word_and_an_opening_gives_it_back(rt: HostRuntime) -> Result<(), Fail> {
    // 9 with the dealt word 250 at width 8: the other gets 9 - 250 = 15
    assert_eq!(rt; share(Width::W8, 9, 250), (250, 15));
    assert_eq!(rt; opened(Width::W8, 250, 15), 9);
    assert_eq!(rt; add(Width::W8, 250, 15), 9);
    Ok(())
}
