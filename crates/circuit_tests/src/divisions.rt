ghost use Rattle.std.specs.Prelude.{◌≡◌, ◌+◌, ◌*◌, ◌≤◌, ◌<◌, length, IfOk};
ghost use Rattle.hy_bits.specs.Words.{bits, IsWord};
ghost use Rattle.gate_net.specs.Spelled.{AllStand};

use crate::words::{WORDS, number_of, two_words};
use div_blocks::divide;
use gate_net::{Form, GateFault};
use hy_bits::Width;
use std::alloc::Global;
use std::test::Fail;

/// Quotient and remainder of words by their circuit.
fn divided(
    alloc: Global,
    form: Form,
    signed: bool,
    width: Width,
    pair: (u64, u64),
) -> Result<(u64, u64), GateFault>
    requires first { IsWord width pair.0 }
    requires second { IsWord width pair.1 }
{
    let (mut net, first, second) = two_words(alloc, width.bits())?;
    let (quotient, remainder) = divide(alloc, &mut net, form, signed, &first, &second)?;
    let (a, b) = pair;
    let found = number_of(alloc, &net, &quotient, width, a, b)?;
    let left = number_of(alloc, &net, &remainder, width, a, b)?;
    Ok((found, left))
}

/// How many pairs of words the circuit of quotient and remainder answers otherwise than `hy_bits`.
fn misses(alloc: Global, form: Form, signed: bool, width: Width) -> Result<u32, GateFault> {
    let (mut net, first, second) = two_words(alloc, width.bits())?;
    let (quotient, remainder) = divide(alloc, &mut net, form, signed, &first, &second)?;
    let mut misses: u32 = 0;
    for x in WORDS {
        for y in WORDS {
            let a = hy_bits::truncate(width, x);
            let b = hy_bits::truncate(width, y);
            let found = (
                number_of(alloc, &net, &quotient, width, a, b)?,
                number_of(alloc, &net, &remainder, width, a, b)?,
            );
            let wanted = if signed {
                (hy_bits::div_s(width, a, b), hy_bits::rem_s(width, a, b))
            } else {
                (hy_bits::div_u(width, a, b), hy_bits::rem_u(width, a, b))
            };
            if found != wanted {
                misses = misses.saturating_add(1);
            }
        }
    }
    Ok(misses)
}

#[test]
fn quotients_and_remainders_are_those_of_words(rt: HostRuntime) -> Result<(), Fail> {
    for width in [Width::W1, Width::W8, Width::W16, Width::W32, Width::W64] {
        assert_eq!(rt; misses(rt.alloc(), Form::Compact, false, width)?, 0);
        assert_eq!(rt; misses(rt.alloc(), Form::Compact, true, width)?, 0);
    }
    Ok(())
}

#[test]
fn minus_seven_by_two_is_minus_three_and_minus_one(rt: HostRuntime) -> Result<(), Fail> {
    let width = Width::W32;
    let wanted = (hy_bits::neg(width, 3), hy_bits::neg(width, 1));
    let pair = (hy_bits::neg(width, 7), 2);
    for form in [Form::Compact, Form::Shallow] {
        assert_eq!(rt; divided(rt.alloc(), form, true, width, pair)?, wanted);
    }
    Ok(())
}

#[test]
fn the_unsigned_divider_has_1119_ands_at_most_at_32(rt: HostRuntime) -> Result<(), Fail> {
    let (mut net, a, b) = two_words(rt.alloc(), 32)?;
    let _out = divide(rt.alloc(), &mut net, Form::Compact, false, &a, &b)?;
    assert!(rt; net.ands() <= 1119);
    Ok(())
}
