//! How deeply a program may be nested, and how long it may be.

use crate::source::{Source, printed_text, same, tokens_of};
use c_syntax::parse;
use c_tree::{BlockItem, Expr, ExternalDeclaration, Program, Statement};
use std::alloc::Global;
use std::test::Fail;

/// How often what is repeated stands before the middle at most, and the fault where it stands there once more; the
/// parts of a text are its front, what is repeated before the middle, the middle, what is repeated after it, and the
/// rest. They stand between `@`, the number first and the fault last.
const NESTED_PARTS: &str = "198 @ return @ ( @ a @ ) @ ; @ Deep 201
198 @ @ ( @ a @ ) @ ++ ; @ Deep 200
197 @ ++ @ ( @ a @ ) @ ; @ Deep 200
198 @ return @ - @ a @ @ ; @ Deep 201
198 @ return @ ( int ) @ a @ @ ; @ Deep 597
198 @ return @ a ? b : @ c @ @ ; @ Deep 796
198 @ return @ a ? @ b @ : c @ ; @ Deep 400
198 @ return @ a [ @ a @ ] @ ; @ Deep 400
198 @ return @ f ( @ a @ ) @ ; @ Deep 400
199 @ int a = @ ( @ 1 @ ) @ ; @ Deep 204
199 @ int a [ @ ( @ 1 @ ) @ ] ; @ Deep 204
199 @ enum { a = @ ( @ 1 @ ) @ } ; @ Deep 205
198 @ if ( @ ( @ a @ ) @ ) ; @ Deep 202
199 @ int a = @ { @ 1 @ } @ ; @ Deep 203
199 @ @ struct { @ int a ; @ } x ; @ @ Deep 400
199 @ @ { @ @ } @ @ Deep 200
198 @ @ if ( a ) @ ; @ @ @ Deep 797
198 @ @ if ( a ) ; else @ ; @ @ @ Deep 1193
198 @ @ #1 while ( a ) @ ; @ @ @ Deep 996
198 @ @ do @ ; @ while ( a ) ; @ @ Deep 200
198 @ @ for ( ; ; ) @ ; @ @ @ Deep 996
198 @ @ switch ( a ) { case 1 : @ ; @ } @ @ Deep 1593";

/// The same of whole programs.
const NESTED_PROGRAMS: &str = "200 @ int a = @ { @ 1 @ } @ ; @ Deep 204
200 @ int a [ @ ( @ 1 @ ) @ ] ; @ Deep 205
200 @ @ struct { @ int a ; @ } x ; @ @ Deep 402
200 @ void f ( ) @ { @ @ } @ @ Deep 205
200 @ void f ( int a [ @ ( @ 1 @ ) @ ] ) { } @ Deep 208";

/// A text, so often, with a space after each.
fn repeated(alloc: Global, text: &str, count: u32) -> Result<String, Fail> {
    let mut all = String::new(alloc);
    for _ in 0..count {
        all.push_str(text)?;
        all.push_str(" ")?;
    }
    Ok(all)
}

/// The fault of a text in which parts are repeated so often, or that it is parsed.
fn nested(
    alloc: Global,
    around: (&str, &str),
    [front, open, middle, close, following]: [&str; 5],
    count: u32,
) -> Result<String, Fail> {
    let open = repeated(alloc, open, count)?;
    let close = repeated(alloc, close, count)?;
    let words = format!(in alloc; "{front} {open} {middle} {close} {following}")?;
    Source::new(alloc, around, words.as_str())?.verdict(alloc)
}

/// A line of such a table.
#[derive(Clone, Copy)]
struct Row<'a> {
    count: u32,
    parts: [&'a str; 5],
    fault: &'a str,
}

/// The row that a line is.
fn row_of(line: &str) -> Result<Row<'_>, Fail> {
    let (count, rest) = line.split_once('@').ok_or("a number")?;
    let (front, rest) = rest.split_once('@').ok_or("a front")?;
    let (open, rest) = rest.split_once('@').ok_or("what is repeated")?;
    let (middle, rest) = rest.split_once('@').ok_or("a middle")?;
    let (close, rest) = rest.split_once('@').ok_or("what is repeated")?;
    let (following, fault) = rest.split_once('@').ok_or("a fault")?;
    Ok(Row {
        count: u32::from_str_radix(count.trim(), 10)?,
        parts: [front, open, middle, close, following],
        fault: fault.trim(),
    })
}

/// That a line of such a table is parsed at the limit, and has its fault above it.
fn limit_holds(alloc: Global, line: &str, around: (&str, &str)) -> Result<(), Fail> {
    let row = row_of(line)?;
    let fitting = nested(alloc, around, row.parts, row.count)?;
    same(alloc, line, fitting.as_str(), "parsed")?;
    let deep = nested(alloc, around, row.parts, row.count.saturating_add(1))?;
    same(alloc, line, deep.as_str(), row.fault)
}

/// That each line of a table is at its limit.
fn limits_hold(alloc: Global, table: &str, around: (&str, &str)) -> Result<(), Fail> {
    for line in table.lines() {
        limit_holds(alloc, line, around)?;
    }
    Ok(())
}

#[test]
fn nesting_goes_to_200(rt: HostRuntime) -> Result<(), Fail> {
    limits_hold(rt.alloc(), NESTED_PARTS, ("int f ( ) {", "}"))?;
    limits_hold(rt.alloc(), NESTED_PROGRAMS, ("", ""))
}

/// Texts that are faulty and too deep, as the tables above: how often what is repeated stands before the middle, the parts
/// of the text, and the fault.
const FAULTY_PARTS: &str = "199 @ return @ ( @ ; @ ) @ ; @ Expected 201
199 @ return @ ( @ goto @ ) @ ; @ Construct 201 goto
198 @ return @ ( @ a b @ ) @ ; @ Expected 201
199 @ return @ ( @ a b @ ) @ ; @ Deep 201
199 @ @ { @ ) @ } @ @ Expected 200
199 @ @ { @ : ) @ } @ @ Construct 200 :
199 @ return @ - @ ; @ @ @ Expected 201
199 @ @ if ( a ) @ } @ @ @ Expected 797";

/// That a line of that table has its fault.
fn fault_holds(alloc: Global, line: &str) -> Result<(), Fail> {
    let row = row_of(line)?;
    let found = nested(alloc, ("int f ( ) {", "}"), row.parts, row.count)?;
    same(alloc, line, found.as_str(), row.fault)
}

#[test]
fn what_is_faulty_and_too_deep_is_faulty(rt: HostRuntime) -> Result<(), Fail> {
    for line in FAULTY_PARTS.lines() {
        fault_holds(rt.alloc(), line)?;
    }
    Ok(())
}

/// A text whose function gives back a name in so many pairs of brackets.
fn bracketed(alloc: Global, count: u32) -> Result<String, Fail> {
    let open = repeated(alloc, "(", count)?;
    let close = repeated(alloc, ")", count)?;
    Ok(format!(in alloc; "int f(int a) {{ return\n{open}a {close}; }}")?)
}

/// A text that uses a macro of 1000 marks so often.
fn with_uses(alloc: Global, count: u32) -> Result<String, Fail> {
    let list = repeated(alloc, ";", 1000)?;
    let uses = repeated(alloc, "M", count)?;
    Ok(format!(in alloc; "#define M {list}\n{uses}")?)
}

/// That a text has a fault.
fn text_has(alloc: Global, text: &str, fault: &str) -> Result<(), Fail> {
    let found = printed_text(alloc, text)?;
    same(alloc, fault, found.as_str(), fault)
}

/// That a text is parsed.
fn is_parsed(alloc: Global, text: &str) -> Result<(), Fail> {
    let tokens = tokens_of(alloc, text)?;
    match parse(alloc, &tokens) {
        Ok(_) => Ok(()),
        Err(_) => Err("a text that is parsed".into()),
    }
}

#[test]
fn long_texts_are_parsed_or_faulty(rt: HostRuntime) -> Result<(), Fail> {
    let alloc = rt.alloc();
    is_parsed(alloc, bracketed(alloc, 198)?.as_str())?;
    text_has(alloc, bracketed(alloc, 199)?.as_str(), "Deep 2:399")?;
    text_has(alloc, with_uses(alloc, 1047)?.as_str(), "Expected 2:1")
}

/// How many operands the sum has that the first function of a program gives back.
fn operands_of(program: &Program) -> Option<usize> {
    let [ExternalDeclaration::Function(function), ..] = program.items() else {
        return None;
    };
    let BlockItem::Statement(Statement::Return(_, value)) = function.get().body.parts.get(0)? else {
        return None;
    };
    match value.get() {
        Some(Expr::BinaryChain(_, others)) => others.len().checked_add(1),
        _ => None,
    }
}

/// The number of the operands of a sum that is the whole of a text of 2^20 tokens.
fn operands_in(alloc: Global, text: &str) -> Result<Option<usize>, Fail> {
    let tokens = tokens_of(alloc, text)?;
    if tokens.as_slice().len() != 1 << 20 {
        return Err("2^20 tokens".into());
    }
    match parse(alloc, &tokens) {
        Ok(program) => Ok(operands_of(&program)),
        Err(_) => Ok(None),
    }
}

#[test]
fn a_sum_of_2_to_the_20_tokens_is_parsed(rt: HostRuntime) -> Result<(), Fail> {
    let alloc = rt.alloc();
    let others = repeated(alloc, "+ a", 524_283)?;
    let text = format!(in alloc; "int f() {{ return a {others}; }}")?;
    let found = operands_in(alloc, text.as_str())?;
    assert_eq!(rt; found, Some(524_284));
    Ok(())
}
