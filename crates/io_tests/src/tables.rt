use crate::rows::parts;
use crate::table::{ROWS, TABLES};
use choice_core::Table;
use cost_table::{TableFault, table_of};
use std::alloc::{AllocError, Global};
use std::test::Fail;

const A2B: &str = "{\"1\":7,\"8\":56,\"16\":112,\"32\":224,\"64\":448}";

/// A text whose objects but `a2b` are those of the first table; the last part goes on behind `y_and`'s colon.
fn text(alloc: Global, a2b: &str, b_and: &str, rest: &str) -> Result<String, AllocError> {
    let muls = "\"a_mul\":{\"8\":10,\"16\":12,\"32\":16,\"64\":24}";
    let a2y = "\"a2y\":{\"1\":6,\"8\":48,\"16\":96,\"32\":192,\"64\":384}";
    let b2a = "\"b2a\":{\"1\":5,\"8\":40,\"16\":80,\"32\":160,\"64\":320}";
    let b2y = "\"b2y\":{\"1\":3,\"8\":24,\"16\":48,\"32\":96,\"64\":192}";
    let y2a = "\"y2a\":{\"1\":5,\"8\":40,\"16\":80,\"32\":160,\"64\":320}";
    let y2b = "\"y2b\":{\"1\":0,\"8\":0,\"16\":0,\"32\":0,\"64\":0}";
    format!(in alloc;
        "{{{muls},\"a2b\":{a2b},{a2y},{b2a},{b2y},{y2a},{y2b},\"b_and\":{b_and},\"b_level\":40,\"y_and\":{rest}"
    )
}

/// An answer in print: Ok, or the fault with its name.
fn printed(alloc: Global, answer: Result<Table, TableFault>) -> Result<String, Fail> {
    let (kind, name) = match &answer {
        Ok(_) => ("Ok", b"".as_slice()),
        Err(TableFault::Json) => ("Json", b"".as_slice()),
        Err(TableFault::Missing(name)) => ("Missing", name.as_bytes()),
        Err(TableFault::Extra(name)) => ("Extra", name.as_bytes()),
        Err(TableFault::NotWhole(name)) => ("NotWhole", name.as_bytes()),
        Err(TableFault::TooLarge(name)) => ("TooLarge", name.as_bytes()),
        Err(TableFault::Memory) => ("Memory", b"".as_slice()),
    };
    let name = str::from_utf8(name)?;
    Ok(format!(in alloc; "{kind} {name}")?)
}

/// The object `a2b` that a row names.
fn object_named(name: &str) -> &'static str {
    match name {
        "whole" => A2B,
        "no_32" => "{\"1\":7,\"8\":56,\"16\":112,\"64\":448}",
        "with_7" => "{\"1\":7,\"7\":0,\"8\":56,\"16\":112,\"32\":224,\"64\":448}",
        _ => "7",
    }
}

/// The text of a row.
fn text_of_row(alloc: Global, row: &str) -> Result<String, Fail> {
    let (a2b, numbers) = row.split_once(' ').ok_or("an object and numbers")?;
    let (b_and, rest) = numbers.split_once(' ').ok_or("two numbers")?;
    Ok(text(alloc, object_named(a2b), b_and, rest)?)
}

#[test]
fn the_first_fault_of_a_table_is_told(rt: HostRuntime) -> Result<(), Fail> {
    let alloc = rt.alloc();
    let mut count = 0u32;
    for row in TABLES.lines() {
        let (text, want) = parts(row)?;
        let text = text_of_row(alloc, text)?;
        let found = printed(alloc, table_of(alloc, text.as_bytes()))?;
        assert_eq!(rt; found.as_str(), want, "{row}");
        count = count.saturating_add(1);
    }
    assert_eq!(rt; count, ROWS[3]);
    Ok(())
}

#[test]
fn a_table_has_the_numbers_of_its_text(rt: HostRuntime) -> Result<(), Fail> {
    let alloc = rt.alloc();
    let text = text(alloc, A2B, "2", "3}")?;
    let table = Table {
        a_mul: [10, 12, 16, 24],
        a2b: [7, 56, 112, 224, 448],
        a2y: [6, 48, 96, 192, 384],
        b2a: [5, 40, 80, 160, 320],
        b2y: [3, 24, 48, 96, 192],
        y2a: [5, 40, 80, 160, 320],
        y2b: [0, 0, 0, 0, 0],
        b_and: 2,
        b_level: 40,
        y_and: 3,
    };
    let answer = table_of(alloc, text.as_bytes());
    assert!(rt; matches!(&answer, Ok(found) if *found == table));
    Ok(())
}

/// Whether the answer is that the text is no JSON.
fn is_no_json(answer: Result<Table, TableFault>) -> bool {
    matches!(&answer, Err(TableFault::Json))
}

#[test]
fn no_cut_text_is_a_table(rt: HostRuntime) -> Result<(), Fail> {
    let alloc = rt.alloc();
    let text = text(alloc, A2B, "2", "3}")?;
    for cut in 0..text.len() {
        assert!(rt; is_no_json(table_of(alloc, &text.as_bytes()[..cut])));
    }
    assert!(rt; is_no_json(table_of(alloc, b"[1]")));
    assert!(rt; is_no_json(table_of(alloc, b"{\"a_mul\xff\":1}")));
    Ok(())
}
