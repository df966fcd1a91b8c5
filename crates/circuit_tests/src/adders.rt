ghost use Rattle.std.specs.Prelude.{◌≡◌, ◌+◌, ◌*◌, ◌≤◌, ◌<◌, length, IfOk};
ghost use Rattle.hy_bits.specs.Words.{bits, IsWord};
ghost use Rattle.gate_net.specs.Circuit.{Stands};
ghost use Rattle.gate_net.specs.Spelled.{AllStand};

use crate::words::{WORDS, number_of, two_words};
use adder_blocks::{choose, difference, equal, less_s, less_u, negative, shift, sum};
use gate_net::{Form, GateFault, Lit, Net};
use hy_bits::{Op, Width};
use std::alloc::Global;
use std::test::Fail;

#[test]
fn the_compact_sum_has_31_ands_at_32(rt: HostRuntime) -> Result<(), Fail> {
    let (mut net, a, b) = two_words(rt.alloc(), 32)?;
    let _out = sum(rt.alloc(), &mut net, Form::Compact, &a, &b)?;
    assert_eq!(rt; net.ands(), 31);
    Ok(())
}

#[test]
fn the_shallow_sum_has_depth_7_at_64(rt: HostRuntime) -> Result<(), Fail> {
    let (mut net, a, b) = two_words(rt.alloc(), 64)?;
    let out = sum(rt.alloc(), &mut net, Form::Shallow, &a, &b)?;
    net.set_outs(out);
    assert!(rt; net.depth(rt.alloc())? <= 7);
    Ok(())
}

#[test]
fn constants_are_shifted_without_gates(rt: HostRuntime) -> Result<(), Fail> {
    let mut net = Net::new(rt.alloc(), 0, 1 << 10);
    let word = [Lit::TRUE, Lit::FALSE, Lit::FALSE, Lit::TRUE];
    let rows = [
        (Op::Shl, [Lit::FALSE, Lit::TRUE, Lit::FALSE, Lit::FALSE]),
        (Op::ShrU, [Lit::FALSE, Lit::FALSE, Lit::TRUE, Lit::FALSE]),
        (Op::ShrS, [Lit::FALSE, Lit::FALSE, Lit::TRUE, Lit::TRUE]),
    ];
    for (op, wanted) in rows {
        let out = shift(rt.alloc(), &mut net, Form::Compact, op, &word, &[Lit::TRUE])?;
        assert_eq!(rt; out.as_slice(), wanted.as_slice());
    }
    let far = [Lit::FALSE, Lit::FALSE, Lit::TRUE];
    let out = shift(rt.alloc(), &mut net, Form::Shallow, Op::ShrS, &word, &far)?;
    assert_eq!(rt; out.as_slice(), [Lit::TRUE; 4].as_slice());
    assert_eq!(rt; net.ands(), 0);
    Ok(())
}

/// The block of a comparison.
fn comparison(
    alloc: Global,
    net: &mut Net,
    form: Form,
    op: Op,
    a: &[Lit],
    b: &[Lit],
) -> Result<Lit, GateFault>
    requires first { AllStand net.old a.now }
    requires second { AllStand net.old b.now }
    requires same_length { length a.now ≡ length b.now }
    requires some { 0 < length a.now }
    ensures ins { net.new.ins ≡ net.old.ins }
    ensures stands { IfOk result (Stands net.new) }
{
    match op {
        Op::LtU => less_u(alloc, net, form, a, b),
        Op::LtS => less_s(alloc, net, form, a, b),
        _ => equal(alloc, net, form, a, b),
    }
}

/// The block of an operation. That of `Sel` chooses by the lowest literal of `b`.
fn block(
    alloc: Global,
    net: &mut Net,
    form: Form,
    op: Op,
    a: &[Lit],
    b: &[Lit],
) -> Result<Vec<Lit>, GateFault>
    requires first { AllStand net.old a.now }
    requires second { AllStand net.old b.now }
    requires same_length { length a.now ≡ length b.now }
    requires some { 0 < length a.now }
    requires width { length a.now ≤ 64 }
    ensures ins { net.new.ins ≡ net.old.ins }
    ensures stands { IfOk result (λ r. AllStand net.new r.items) }
    ensures few { IfOk result (λ r. length r.items ≤ 64) }
{
    match op {
        Op::Add => sum(alloc, net, form, a, b),
        Op::Sub => difference(alloc, net, form, a, b),
        Op::Neg => negative(alloc, net, form, a),
        Op::Sel => choose(alloc, net, form, b[0], a, b),
        Op::Shl | Op::ShrU | Op::ShrS => shift(alloc, net, form, op, a, b),
        _ => {
            let only = comparison(alloc, net, form, op, a, b)?;
            let out = vec![in alloc; only; 1]?;
            Ok(out)
        }
    }
}

/// The operation's value as `hy_bits` has it.
fn wanted(op: Op, width: Width, a: u64, b: u64) -> u64
    requires first { IsWord width a }
    requires second { IsWord width b }
{
    match op {
        Op::Add => hy_bits::add(width, a, b),
        Op::Sub => hy_bits::sub(width, a, b),
        Op::Neg => hy_bits::neg(width, a),
        Op::Sel => if b % 2 == 1 { a } else { b },
        Op::LtU => u64::from(hy_bits::lt_u(width, a, b)),
        Op::LtS => u64::from(hy_bits::lt_s(width, a, b)),
        Op::Eq => u64::from(hy_bits::eq(width, a, b)),
        Op::Shl => hy_bits::shl(width, a, b),
        Op::ShrS => hy_bits::shr_s(width, a, b),
        _ => hy_bits::shr_u(width, a, b),
    }
}

/// How many pairs of words the block answers otherwise than the operation.
fn misses(alloc: Global, form: Form, op: Op, width: Width) -> Result<u32, GateFault> {
    let (mut net, first, second) = two_words(alloc, width.bits())?;
    let out = block(alloc, &mut net, form, op, &first, &second)?;
    let mut misses: u32 = 0;
    for x in WORDS {
        for y in WORDS {
            let a = hy_bits::truncate(width, x);
            let b = hy_bits::truncate(width, y);
            let answer = number_of(alloc, &net, &out, width, a, b)?;
            if answer != wanted(op, width, a, b) {
                misses = misses.saturating_add(1);
            }
        }
    }
    Ok(misses)
}

#[test]
fn each_block_gives_its_operation(rt: HostRuntime) -> Result<(), Fail> {
    let ops = [
        Op::Add,
        Op::Sub,
        Op::Neg,
        Op::Sel,
        Op::LtU,
        Op::LtS,
        Op::Eq,
        Op::Shl,
        Op::ShrU,
        Op::ShrS,
    ];
    for op in ops {
        for width in [Width::W1, Width::W8, Width::W64] {
            assert_eq!(rt; misses(rt.alloc(), Form::Compact, op, width)?, 0);
            assert_eq!(rt; misses(rt.alloc(), Form::Shallow, op, width)?, 0);
        }
    }
    Ok(())
}

// Of a tree by halves over all places but the top one: an And for each place, one for each composition with the lowest places,
// and two for each other composition.
#[test]
fn shallow_sums_and_differences_have_few_ands(rt: HostRuntime) -> Result<(), Fail> {
    for (width, ands) in [(8, 19), (16, 57), (32, 151), (64, 373)] {
        assert!(rt; 0 < width && width <= 64);
        for op in [Op::Add, Op::Sub, Op::Neg] {
            let (mut net, a, b) = two_words(rt.alloc(), width)?;
            let _out = block(rt.alloc(), &mut net, Form::Shallow, op, &a, &b)?;
            assert!(rt; net.ands() <= ands, "{op:?} at {width}");
        }
    }
    Ok(())
}

#[test]
fn a_shallow_comparison_at_32_is_one_tree(rt: HostRuntime) -> Result<(), Fail> {
    for op in [Op::LtU, Op::LtS] {
        let (mut net, a, b) = two_words(rt.alloc(), 32)?;
        let less = comparison(rt.alloc(), &mut net, Form::Shallow, op, &a, &b)?;
        assert!(rt; net.ands() <= 94, "{op:?}");
        net.set_outs(vec![in rt.alloc(); less; 1]?);
        assert!(rt; net.depth(rt.alloc())? <= 6, "{op:?}");
    }
    Ok(())
}
