//! The longest expression at a place of a text.

use crate::source::{placed_fault, same, tokens_of};
use c_expr::expression;
use std::alloc::Global;
use std::test::Fail;

/// What is taken from a token on, by hand: a text, the number of the token from 0 on and its nesting; and the number of the
/// token after the expression, or the fault with its line and its column.
const ROWS: [(&str, u32, u32, &str); 30] = [
    ("a + b;", 0, 0, "3"),
    ("x = a * (b - 1) + c;", 2, 2, "11"),
    ("a ? b : c ? d : e;", 0, 0, "9"),
    ("(int) a + 1", 0, 0, "6"),
    ("a[0] = 1", 0, 0, "4"),
    ("a = b", 0, 0, "1"),
    ("a, b", 0, 0, "1"),
    ("a)", 0, 0, "1"),
    ("5 (a)", 0, 0, "1"),
    ("(a) (b)", 0, 0, "3"),
    ("f (a) (b)", 0, 0, "4"),
    ("a . b (c)", 0, 0, "3"),
    ("a", 0, 200, "1"),
    ("- (a)", 0, 198, "4"),
    ("- (a)", 0, 199, "Deep 1:4"),
    ("- a", 0, 200, "Deep 1:3"),
    ("(a;", 0, 200, "Deep 1:2"),
    ("(;", 0, 200, "Expected 1:2"),
    ("a + ;", 0, 0, "Expected 1:5"),
    ("a . 1", 0, 0, "Expected 1:5"),
    ("f(a, )", 0, 0, "Expected 1:6"),
    ("f (int) a", 0, 0, "Expected 1:4"),
    ("a ? b;", 0, 0, "Expected 1:6"),
    ("a + - ( )", 0, 0, "Expected 1:9"),
    ("5 + ( 7 ( a", 0, 0, "Expected 1:9"),
    ("a + [1]", 0, 0, "Expected 1:5"),
    ("a + , b", 0, 0, "Construct 1:5 ,"),
    ("a ? b = c : d", 0, 0, "Construct 1:7 ="),
    ("a + \"s\"", 0, 0, "Construct 1:5 \""),
    ("goto e;", 0, 0, "Construct 1:1 goto"),
];

/// The number of a pair, whose other part is let go.
fn number<T: Drop>(pair: (T, u32)) -> u32 {
    pair.1
}

/// What is taken of a text, in print.
fn taken(alloc: Global, text: &str, at: u32, nesting: u32) -> Result<String, Fail> {
    let tokens = tokens_of(alloc, text)?;
    if at as usize >= tokens.as_slice().len() || nesting > 200 {
        return Err("a token of the text".into());
    }
    match expression(alloc, &tokens, at, nesting) {
        Ok(found) => {
            let following = number(found);
            Ok(format!(in alloc; "{following}")?)
        }
        Err(fault) => placed_fault(alloc, &fault),
    }
}

/// That a row's text gives what the row says.
fn row_holds(alloc: Global, row: (&str, u32, u32, &str)) -> Result<(), Fail> {
    let (text, at, nesting, want) = row;
    let found = taken(alloc, text, at, nesting)?;
    same(alloc, text, found.as_str(), want)
}

#[test]
fn expressions_go_as_far_as_they_can(rt: HostRuntime) -> Result<(), Fail> {
    for row in ROWS {
        row_holds(rt.alloc(), row)?;
    }
    Ok(())
}
