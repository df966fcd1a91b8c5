use crate::rows::{bytes_of, parts};
use crate::table::{EDGES, FAULTS, PATHS, ROWS};
use hy_bits::{Field, Inputs, Memory, Port, Role, Scalar, Shape, Text};
use json_values::{InputFault, inputs_of, own_inputs, text_of};
use sqlite_items::{Boxed, Items};
use std::alloc::Global;
use std::process::Abort;
use std::test::Fail;

/// One port of this shape.
fn ports(alloc: Global, role: Role, name: &[u8], shape: Shape) -> Result<Vec<Port>, Memory> {
    let name = Text::copy_of(alloc, name)?;
    let port = Port { role, name, shape };
    Ok(vec![in alloc; port]?)
}

/// Words in print.
fn printed_words(alloc: Global, words: &[u64]) -> Result<String, Fail> {
    let mut all = String::new(alloc);
    for (index, word) in words.iter().enumerate() {
        if index > 0 {
            all.push_str(" ")?;
        }
        let word = format!(in alloc; "{word}")?;
        all.push_str(word.as_str())?;
    }
    Ok(all)
}

/// An answer in print: the words, or the fault with its file and its path.
fn printed(alloc: Global, answer: Result<Inputs, InputFault>) -> Result<String, Fail> {
    match answer {
        Ok(inputs) => printed_words(alloc, inputs.words()),
        Err(InputFault { fault, file, name }) => {
            let name = str::from_utf8(name.as_bytes())?;
            Ok(format!(in alloc; "{fault:?} {file:?} {name}")?)
        }
    }
}

/// Compares the answer with what a row wants.
fn assert_row(
    rt: &impl Abort,
    alloc: Global,
    answer: Result<Inputs, InputFault>,
    want: &str,
    row: &str,
) -> Result<(), Fail> {
    let found = printed(alloc, answer)?;
    let want = bytes_of(alloc, want)?;
    assert_eq!(rt; found.as_bytes(), want.as_slice(), "{row}");
    Ok(())
}

#[test]
fn the_first_fault_of_a_text_is_told(rt: HostRuntime) -> Result<(), Fail> {
    let alloc = rt.alloc();
    let ports = ports(alloc, Role::P0, b"INPUT_A_x", Shape::Scalar(Scalar::U8))?;
    let mut count = 0u32;
    for row in FAULTS.lines() {
        let (text, want) = parts(row)?;
        let text = bytes_of(alloc, text)?;
        let answer = inputs_of(alloc, text.as_slice(), b"{}", ports.as_slice());
        assert_row(&rt, alloc, answer, want, row)?;
        count = count.saturating_add(1);
    }
    assert_eq!(rt; count, ROWS[0]);
    Ok(())
}

/// Both parties have a port; the first of B stands before that of A.
fn two_ports(alloc: Global) -> Result<Vec<Port>, Memory> {
    let mut both = ports(alloc, Role::P1, b"INPUT_B_y", Shape::Scalar(Scalar::S8))?;
    let name = Text::copy_of(alloc, b"INPUT_A_x")?;
    let shape = Shape::Scalar(Scalar::U8);
    let role = Role::P0;
    both.push(Port { role, name, shape })?;
    Ok(both)
}

#[test]
fn all_of_a_comes_before_any_of_b(rt: HostRuntime) -> Result<(), Fail> {
    let alloc = rt.alloc();
    let ports = two_ports(alloc)?;
    let a = "{\"INPUT_A_x\":255,\"INPUT_A_x\":7}";
    let b = "{\"INPUT_B_\\u0079\":-1}";
    let extra = "{\"INPUT_A_x\":7,\"INPUT_B_y\":1}";
    for (a, b, want) in [
        (a, b, "255 7"),
        (extra, "[", "Extra P0 INPUT_B_y"),
        (a, "{}", "Missing P1 INPUT_B_y"),
    ] {
        let answer = inputs_of(alloc, a.as_bytes(), b.as_bytes(), ports.as_slice());
        assert_row(&rt, alloc, answer, want, b)?;
    }
    Ok(())
}

/// The scalar of this name.
fn scalar_named(name: &str) -> Result<Scalar, Fail> {
    for scalar in [
        Scalar::B1,
        Scalar::S8,
        Scalar::U8,
        Scalar::S16,
        Scalar::U16,
        Scalar::S32,
        Scalar::U32,
        Scalar::S64,
        Scalar::U64,
    ] {
        if name_of(scalar) == name {
            return Ok(scalar);
        }
    }
    Err("a scalar".into())
}

fn name_of(scalar: Scalar) -> &'static str {
    match scalar {
        Scalar::B1 => "B1",
        Scalar::S8 => "S8",
        Scalar::U8 => "U8",
        Scalar::S16 => "S16",
        Scalar::U16 => "U16",
        Scalar::S32 => "S32",
        Scalar::U32 => "U32",
        Scalar::S64 => "S64",
        Scalar::U64 => "U64",
    }
}

#[test]
fn a_scalar_holds_its_numbers_to_both_ends(rt: HostRuntime) -> Result<(), Fail> {
    let alloc = rt.alloc();
    let mut count = 0u32;
    for row in EDGES.lines() {
        let (text, want) = parts(row)?;
        let (name, number) = text.split_once(' ').ok_or("a scalar and a number")?;
        let ports = ports(alloc, Role::P1, b"y", Shape::Scalar(scalar_named(name)?))?;
        let text = format!(in alloc; "{{\"y\":{number}}}")?;
        let answer = own_inputs(alloc, text.as_bytes(), Role::P1, ports.as_slice());
        assert_row(&rt, alloc, answer, want, row)?;
        count = count.saturating_add(1);
    }
    assert_eq!(rt; count, ROWS[1]);
    Ok(())
}

fn field(alloc: Global, name: &str, shape: Shape) -> Result<Field, Memory> {
    let name = Text::copy_of(alloc, name.as_bytes())?;
    Ok(Field { name, shape })
}

/// A struct with two members.
fn pair(alloc: Global, first: Field, second: Field) -> Result<Shape, Memory> {
    Ok(Shape::Struct(Items::from_vec(vec![in alloc; first, second]?)))
}

/// An array of two elements.
fn twice(alloc: Global, element: Shape) -> Result<Shape, Memory> {
    Ok(Shape::Array(2, Boxed::new(alloc, element)?))
}

/// `struct { int8_t z; struct { uint64_t n[2]; bool b; } a[2]; }`.
fn nested(alloc: Global) -> Result<Shape, Memory> {
    let numbers = field(alloc, "n", twice(alloc, Shape::Scalar(Scalar::U64))?)?;
    let flag = field(alloc, "b", Shape::Scalar(Scalar::B1))?;
    let number = field(alloc, "z", Shape::Scalar(Scalar::S8))?;
    let inner = twice(alloc, pair(alloc, numbers, flag)?)?;
    pair(alloc, number, field(alloc, "a", inner)?)
}

/// The words of `NESTED`.
const WORDS: [u64; 7] = [0xff, 0, u64::MAX, 1, 1, 2, 0];

/// Members stand in the order of their names, words in the order of the fields.
const NESTED: &str =
    "{\"a\":[{\"b\":1,\"n\":[0,18446744073709551615]},{\"b\":0,\"n\":[1,2]}],\"z\":-1}";

#[test]
fn a_value_is_printed_and_read_back(rt: HostRuntime) -> Result<(), Fail> {
    let alloc = rt.alloc();
    let shape = nested(alloc)?;
    let text = text_of(alloc, &shape, WORDS.as_slice())?.to_string(alloc)?;
    assert_eq!(rt; text.as_str(), NESTED);
    Ok(())
}

#[test]
fn a_printed_value_is_read_and_no_cut_one(rt: HostRuntime) -> Result<(), Fail> {
    let alloc = rt.alloc();
    let ports = ports(alloc, Role::P0, b"INPUT_A_p", nested(alloc)?)?;
    let text = format!(in alloc; "{{\"INPUT_A_p\":{NESTED}}}")?;
    let want = printed_words(alloc, WORDS.as_slice())?;
    let answer = inputs_of(alloc, text.as_bytes(), b"{}", ports.as_slice());
    assert_row(&rt, alloc, answer, want.as_str(), NESTED)?;
    for end in 0..text.len() {
        let cut = &text.as_bytes()[..end];
        let answer = own_inputs(alloc, cut, Role::P0, ports.as_slice());
        assert_row(&rt, alloc, answer, "Json P0 ", "a cut text")?;
    }
    Ok(())
}

#[test]
fn a_path_leads_to_the_place(rt: HostRuntime) -> Result<(), Fail> {
    let alloc = rt.alloc();
    let ports = ports(alloc, Role::P0, b"INPUT_A_p", nested(alloc)?)?;
    let mut count = 0u32;
    for row in PATHS.lines() {
        let (value, want) = parts(row)?;
        let text = format!(in alloc; "{{\"INPUT_A_p\":{value}}}")?;
        let answer = own_inputs(alloc, text.as_bytes(), Role::P0, ports.as_slice());
        assert_row(&rt, alloc, answer, want, row)?;
        count = count.saturating_add(1);
    }
    assert_eq!(rt; count, ROWS[2]);
    Ok(())
}

/// The number of elements of a long array.
const LONG: u32 = 0x1_0000;

#[test]
fn a_long_array_is_read(rt: HostRuntime) -> Result<(), Fail> {
    let alloc = rt.alloc();
    let element = Boxed::new(alloc, Shape::Scalar(Scalar::S16))?;
    let ports = ports(alloc, Role::P0, b"x", Shape::Array(LONG, element))?;
    let mut text = String::from_str(alloc, "{\"x\":[-1")?;
    for _ in 1..LONG {
        text.push_str(",-2")?;
    }
    text.push_str("]}")?;
    match own_inputs(alloc, text.as_bytes(), Role::P0, ports.as_slice()) {
        Ok(inputs) => {
            assert_eq!(rt; inputs.words().len(), LONG as usize);
            assert_eq!(rt; inputs.words().last().copied(), Some(0xfffe));
        }
        Err(fault) => assert!(rt; false, "{fault:?}"),
    }
    Ok(())
}
