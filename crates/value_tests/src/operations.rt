//! The operations against the answers of a C compiler, and each other function once.
mod c_values;

use c_values::{EXTENSIONS, SHIFTS, VALUES};
use hy_bits::{
    Field, Inputs, Op, Port, Role, Scalar, Shape, Text, Turns, Width, bits_of, extend, truncate,
    word_of,
};
use sqlite_items::{Boxed, Items};
use std::alloc::Global;
use std::test::Fail;

/// The width of a number of bits, in decimal.
fn width_of(bits: &str) -> Result<Width, Fail> {
    match bits {
        "1" => Ok(Width::W1),
        "8" => Ok(Width::W8),
        "16" => Ok(Width::W16),
        "32" => Ok(Width::W32),
        "64" => Ok(Width::W64),
        _ => Err("a width".into()),
    }
}

/// The width that a line begins with, and the numbers after it, which are in hexadecimal.
fn row(alloc: Global, line: &str) -> Result<(Width, Vec<u64>), Fail> {
    let Some((bits, words)) = line.split_once(' ') else {
        return Err("a width and words".into());
    };
    let mut numbers = Vec::new(alloc);
    for word in words.split(' ') {
        numbers.push(u64::from_str_radix(word, 16)?)?;
    }
    Ok((width_of(bits)?, numbers))
}

/// What the operations on two words give, in the order of `VALUES`.
fn values(w: Width, a: u64, b: u64) -> [u64; 15] {
    let a = truncate(w, a);
    let b = truncate(w, b);
    [
        Op::Add.value(w, w, a, b, 0),
        Op::Sub.value(w, w, a, b, 0),
        Op::Mul.value(w, w, a, b, 0),
        Op::DivU.value(w, w, a, b, 0),
        Op::DivS.value(w, w, a, b, 0),
        Op::RemU.value(w, w, a, b, 0),
        Op::RemS.value(w, w, a, b, 0),
        Op::And.value(w, w, a, b, 0),
        Op::Or.value(w, w, a, b, 0),
        Op::Xor.value(w, w, a, b, 0),
        Op::LtU.value(Width::W1, w, a, b, 0),
        Op::LtS.value(Width::W1, w, a, b, 0),
        Op::Eq.value(Width::W1, w, a, b, 0),
        Op::Neg.value(w, w, a, 0, 0),
        Op::Not.value(w, w, a, 0, 0),
    ]
}

#[test]
fn operations_are_those_of_c(rt: HostRuntime) -> Result<(), Fail> {
    for line in VALUES.lines() {
        let (w, numbers) = row(rt.alloc(), line)?;
        let [a, b, expected @ ..] = numbers.as_slice() else {
            return Err("two words".into());
        };
        assert_eq!(rt; values(w, *a, *b).as_slice(), expected, "{line}");
    }
    assert_eq!(rt; VALUES.lines().count(), 68);
    Ok(())
}

#[test]
fn shifts_are_those_of_c(rt: HostRuntime) -> Result<(), Fail> {
    for line in SHIFTS.lines() {
        let (w, numbers) = row(rt.alloc(), line)?;
        let [a, count, expected @ ..] = numbers.as_slice() else {
            return Err("a word and a count".into());
        };
        let a = truncate(w, *a);
        let shifted = [
            Op::Shl.value(w, Width::W64, a, *count, 0),
            Op::ShrU.value(w, Width::W64, a, *count, 0),
            Op::ShrS.value(w, Width::W64, a, *count, 0),
        ];
        assert_eq!(rt; shifted.as_slice(), expected, "{line}");
    }
    assert_eq!(rt; SHIFTS.lines().count(), 63);
    Ok(())
}

#[test]
fn conversions_are_those_of_c(rt: HostRuntime) -> Result<(), Fail> {
    for line in EXTENSIONS.lines() {
        let Some((from, rest)) = line.split_once(' ') else {
            return Err("a width".into());
        };
        let from = width_of(from)?;
        let (to, numbers) = row(rt.alloc(), rest)?;
        let &[reading, a, expected] = numbers.as_slice() else {
            return Err("a reading and two words".into());
        };
        let signed = reading == 1;
        assert_eq!(rt;
            extend(from, to, signed, truncate(from, a)),
            expected,
            "{line}"
        );
    }
    assert_eq!(rt; EXTENSIONS.lines().count(), 22);
    Ok(())
}

// Of C's `c ? x : y` and of its conversions to a narrower unsigned type.
#[test]
fn selections_and_truncations_are_those_of_c(rt: HostRuntime) {
    let (w8, w64, bit) = (Width::W8, Width::W64, Width::W1);
    assert_eq!(rt; Op::Sel.value(w8, bit, 1, 0x95, 0x6f), 0x95);
    assert_eq!(rt; Op::Sel.value(w8, bit, 0, 0x95, 0x6f), 0x6f);
    assert_eq!(rt; Op::Sel.value(bit, bit, 1, 0, 1), 0);
    assert_eq!(rt; Op::Sel.value(w64, bit, 0, 0, u64::MAX), u64::MAX);
    for (to, expected) in [
        (bit, 1),
        (w8, 0x95),
        (Width::W16, 0x7c95),
        (Width::W32, 0x7f4a7c95),
        (w64, 0x9e3779b97f4a7c95),
    ] {
        assert_eq!(rt;
            Op::Trunc.value(to, w64, 0x9e3779b97f4a7c95, 0, 0),
            expected,
            "{to:?}"
        );
    }
}

#[test]
fn bits_are_written_and_read_lowest_first(rt: HostRuntime) {
    let mut bits = [false; 8];
    bits_of(Width::W8, 0x2d, &mut bits);
    assert_eq!(rt; bits, [true, false, true, true, false, true, false, false]);
    assert_eq!(rt; word_of(&bits[..4]), 0xd);
    assert_eq!(rt; word_of(&[]), 0);
}

#[test]
fn turns_and_inputs_give_back_what_they_were_made_of(rt: HostRuntime) -> Result<(), Fail> {
    let roles = [Role::P1, Role::P0].to_vec(rt.alloc())?;
    let turns = Turns::new(roles);
    assert_eq!(rt; turns.roles(), [Role::P1, Role::P0].as_slice());

    let mut inputs = Inputs::new([7, 8].to_vec(rt.alloc())?);
    inputs.push(9)?;
    assert_eq!(rt; inputs.words(), [7, 8, 9].as_slice());
    assert_eq!(rt; inputs.into_words().as_slice(), [7, 8, 9].as_slice());

    Ok(())
}

#[test]
fn a_port_is_copied_with_ample_memory(rt: HostRuntime) -> Result<(), Fail> {
    let field = Field {
        name: Text::copy_of(rt.alloc(), b"samples")?,
        shape: Shape::Array(3, Boxed::new(rt.alloc(), Shape::Scalar(Scalar::S16))?),
    };
    let port = Port {
        role: Role::P1,
        name: Text::copy_of(rt.alloc(), b"INPUT_B_x")?,
        shape: Shape::Struct(Items::from_vec(vec![in rt.alloc(); field]?)),
    };
    let copy = port.copy(rt.alloc())?;
    assert!(rt; copy.name.is(b"INPUT_B_x"));
    Ok(())
}

// 8w(1+k), 8w^2 + 8w(1+k), 8w^2(1+k), 4w and the count's 4 for each bit, by hand.
#[test]
fn sizes_of_circuits(rt: HostRuntime) {
    let (w1, w8, w16, w32, w64) = (Width::W1, Width::W8, Width::W16, Width::W32, Width::W64);
    for (op, w, x, y, expected) in [
        (Op::Add, w64, w64, w64, 3584),
        (Op::Neg, w1, w1, w1, 8),
        (Op::Mul, w32, w32, w32, 9728),
        (Op::DivS, w16, w16, w16, 10240),
        (Op::Sel, w32, w1, w32, 128),
        (Op::ShrS, w8, w8, w64, 512),
        (Op::LtU, w1, w32, w32, 1536),
        (Op::Eq, w1, w64, w64, 256),
        (Op::SignExt, w64, w8, w1, 0),
    ] {
        assert_eq!(rt; op.size(w, x, y), expected, "{op:?}");
    }
}
