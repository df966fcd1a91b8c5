ghost use Rattle.std.specs.Prelude.{◌≡◌, ◌+◌, ◌*◌, ◌≤◌, ◌<◌, length, IfOk};
ghost use Rattle.hy_bits.specs.Words.{bits, IsWord};
ghost use Rattle.gate_net.specs.Spelled.{AllStand};

use crate::words::{WORDS, number_of, two_words};
use gate_net::{Form, GateFault};
use hy_bits::Width;
use mul_blocks::product;
use std::alloc::Global;
use std::test::Fail;

/// How many pairs of words the product's circuit answers otherwise than `hy_bits`.
fn misses(alloc: Global, form: Form, width: Width) -> Result<u32, GateFault> {
    let (mut net, first, second) = two_words(alloc, width.bits())?;
    let out = product(alloc, &mut net, form, &first, &second)?;
    let mut misses: u32 = 0;
    for x in WORDS {
        for y in WORDS {
            let a = hy_bits::truncate(width, x);
            let b = hy_bits::truncate(width, y);
            let answer = number_of(alloc, &net, &out, width, a, b)?;
            if answer != hy_bits::mul(width, a, b) {
                misses = misses.saturating_add(1);
            }
        }
    }
    Ok(misses)
}

#[test]
fn products_are_those_of_words(rt: HostRuntime) -> Result<(), Fail> {
    for width in [Width::W1, Width::W8, Width::W16, Width::W32, Width::W64] {
        assert_eq!(rt; misses(rt.alloc(), Form::Compact, width)?, 0);
        assert_eq!(rt; misses(rt.alloc(), Form::Shallow, width)?, 0);
    }
    Ok(())
}

#[test]
fn six_by_seven_is_42_with_57_ands_at_most(rt: HostRuntime) -> Result<(), Fail> {
    let (mut net, a, b) = two_words(rt.alloc(), 8)?;
    let out = product(rt.alloc(), &mut net, Form::Compact, &a, &b)?;
    assert!(rt; net.ands() <= 57);
    assert_eq!(rt; number_of(rt.alloc(), &net, &out, Width::W8, 6, 7)?, 42);
    Ok(())
}

#[test]
fn the_shallow_product_has_its_depth(rt: HostRuntime) -> Result<(), Fail> {
    for (width, depth) in [(8, 9), (16, 12), (32, 15), (64, 18)] {
        assert!(rt; width <= 64);
        let (mut net, a, b) = two_words(rt.alloc(), width)?;
        let out = product(rt.alloc(), &mut net, Form::Shallow, &a, &b)?;
        net.set_outs(out);
        assert!(rt; net.depth(rt.alloc())? <= depth);
    }
    Ok(())
}
