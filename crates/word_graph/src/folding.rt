//! Folding: what is known of a term without the inputs.
ghost use Rattle.std.specs.Prelude.{◌≡◌, true};
ghost use Rattle.word_graph.specs.Term.{width_at};
ghost use Rattle.word_graph.specs.Shape.{FitsAfter, IsGraph, constant_at, has_constants_only};
ghost use Rattle.word_graph.specs.Folding.{complement_at, constant_term, constant_value, folded, folded_and, folded_comparison, folded_difference, folded_or, folded_product, folded_selection, folded_shift, folded_xor, is_number, is_twice, ones, one_that_is, other_than, reduced};

use crate::entry::{Entry, Term, arity};
use hy_bits::{Op, Width};

/// What a term folds to: a node that stands, named by its place, or a term of which a node is to be found or made.
#[derive(Clone, Copy, PartialEq, Eq, Debug)]
pub enum Outcome {
    Known(u32),
    Makes(Term),
}

/// The word of the node at a place, where it is a constant.
pub fn constant_at(entries: &[Entry], place: u32) -> Option<u64>
    ensures { result ≡ constant_at entries.now place }
{
    match entries.get(place as usize) {
        Some(entry) => match entry.op {
            Op::Const => Some(entry.number),
            _ => None,
        },
        None => None,
    }
}

/// Whether the node at a place is the constant `number`.
fn is_number(entries: &[Entry], place: u32, number: u64) -> bool
    ensures { result ≡ is_number entries.now place number }
{
    match constant_at(entries, place) {
        Some(word) => word == number,
        None => false,
    }
}

/// Whether the term takes arguments, and all that it takes are constants.
fn has_constants_only(entries: &[Entry], term: &Term) -> bool
    ensures { result ≡ has_constants_only entries.now term.now }
{
    let count = arity(term.op);
    let [x, y, z] = term.args;
    let first = constant_at(entries, x).is_some();
    let second = constant_at(entries, y).is_some();
    let third = constant_at(entries, z).is_some();
    match count {
        0 => false,
        1 => first,
        2 => first && second,
        _ => first && second && third,
    }
}

/// The word of all ones.
pub fn ones(width: Width) -> u64
    ensures { result ≡ ones width }
{
    u64::MAX >> (64 - width.bits())
}

/// The term of the constant `number`.
fn constant_term(width: Width, number: u64) -> Term
    ensures { result ≡ constant_term width number }
{
    Term {
        op: Op::Const,
        width,
        args: [0; 3],
        number,
    }
}

/// Where one of two arguments is the constant `number`: the other one.
fn other_than(entries: &[Entry], term: &Term, number: u64) -> Option<u32>
    ensures { result ≡ other_than entries.now term.now number }
{
    let [x, y, _] = term.args;
    if is_number(entries, y, number) {
        Some(x)
    } else if is_number(entries, x, number) {
        Some(y)
    } else {
        None
    }
}

/// Where one of two arguments is the constant `number`: that one.
fn one_that_is(entries: &[Entry], term: &Term, number: u64) -> Option<u32>
    ensures { result ≡ one_that_is entries.now term.now number }
{
    let [x, y, _] = term.args;
    if is_number(entries, y, number) {
        Some(y)
    } else if is_number(entries, x, number) {
        Some(x)
    } else {
        None
    }
}

/// Whether both arguments are one node.
fn is_twice(term: &Term) -> bool
    ensures { result ≡ is_twice term.now }
{
    term.args[0] == term.args[1]
}

/// The complement of a node. That of a complement is what it is over.
fn complement_at(entries: &[Entry], width: Width, place: u32) -> Outcome
    ensures { result ≡ complement_at entries.now width place }
{
    let term = Term {
        op: Op::Not,
        width,
        args: [place, 0, 0],
        number: 0,
    };
    match entries.get(place as usize) {
        Some(entry) => match entry.op {
            Op::Not => Outcome::Known(entry.args[0]),
            _ => Outcome::Makes(term),
        },
        None => Outcome::Makes(term),
    }
}

/// `x - 0` and `x - x`.
fn folded_difference(entries: &[Entry], term: &Term) -> Outcome
    ensures { result ≡ folded_difference entries.now term.now }
{
    let [x, y, _] = term.args;
    if is_number(entries, y, 0) {
        Outcome::Known(x)
    } else if is_twice(term) {
        let nothing = constant_term(term.width, 0);
        Outcome::Makes(nothing)
    } else {
        Outcome::Makes(*term)
    }
}

/// Products with 0 and 1.
fn folded_product(entries: &[Entry], term: &Term) -> Outcome
    ensures { result ≡ folded_product entries.now term.now }
{
    if let Some(zero) = one_that_is(entries, term, 0) {
        Outcome::Known(zero)
    } else if let Some(other) = other_than(entries, term, 1) {
        Outcome::Known(other)
    } else {
        Outcome::Makes(*term)
    }
}

/// `x & x`, and an And with 0 or all ones.
fn folded_and(entries: &[Entry], term: &Term) -> Outcome
    ensures { result ≡ folded_and entries.now term.now }
{
    if is_twice(term) {
        Outcome::Known(term.args[0])
    } else if let Some(zero) = one_that_is(entries, term, 0) {
        Outcome::Known(zero)
    } else if let Some(other) = other_than(entries, term, ones(term.width)) {
        Outcome::Known(other)
    } else {
        Outcome::Makes(*term)
    }
}

/// `x | x`, and an Or with 0 or all ones.
fn folded_or(entries: &[Entry], term: &Term) -> Outcome
    ensures { result ≡ folded_or entries.now term.now }
{
    if is_twice(term) {
        Outcome::Known(term.args[0])
    } else if let Some(other) = other_than(entries, term, 0) {
        Outcome::Known(other)
    } else if let Some(all) = one_that_is(entries, term, ones(term.width)) {
        Outcome::Known(all)
    } else {
        Outcome::Makes(*term)
    }
}

/// `x ^ x`, and an Xor with 0 or all ones. The last is a complement.
fn folded_xor(entries: &[Entry], term: &Term) -> Outcome
    ensures { result ≡ folded_xor entries.now term.now }
{
    if is_twice(term) {
        Outcome::Makes(constant_term(term.width, 0))
    } else if let Some(other) = other_than(entries, term, 0) {
        Outcome::Known(other)
    } else if let Some(other) = other_than(entries, term, ones(term.width)) {
        complement_at(entries, term.width, other)
    } else {
        Outcome::Makes(*term)
    }
}

/// A shift by 0.
fn folded_shift(entries: &[Entry], term: &Term) -> Outcome
    ensures { result ≡ folded_shift entries.now term.now }
{
    if is_number(entries, term.args[1], 0) {
        Outcome::Known(term.args[0])
    } else {
        Outcome::Makes(*term)
    }
}

/// A comparison of a node with itself, whose answer is `bit`.
fn folded_comparison(term: &Term, bit: u64) -> Outcome
    ensures { result ≡ folded_comparison term.now bit }
{
    if is_twice(term) {
        Outcome::Makes(constant_term(term.width, bit))
    } else {
        Outcome::Makes(*term)
    }
}

/// A selection by a constant, between equal branches, and of the bits 1 and 0.
fn folded_selection(entries: &[Entry], term: &Term) -> Outcome
    ensures { result ≡ folded_selection entries.now term.now }
{
    let [condition, a, b] = term.args;
    if let Some(bit) = constant_at(entries, condition) {
        Outcome::Known(if bit == 1 { a } else { b })
    } else if a == b {
        Outcome::Known(a)
    } else if term.width.bits() == 1 && is_number(entries, a, 1) && is_number(entries, b, 0) {
        Outcome::Known(condition)
    } else {
        Outcome::Makes(*term)
    }
}

/// What a term folds to, not all of whose arguments are constants.
fn folded(entries: &[Entry], term: &Term) -> Outcome
    ensures { result ≡ folded entries.now term.now.op term.now }
{
    match term.op {
        Op::Add => match other_than(entries, term, 0) {
            Some(other) => Outcome::Known(other),
            None => Outcome::Makes(*term),
        },
        Op::Sub => folded_difference(entries, term),
        Op::Mul => folded_product(entries, term),
        Op::And => folded_and(entries, term),
        Op::Or => folded_or(entries, term),
        Op::Xor => folded_xor(entries, term),
        Op::Not => complement_at(entries, term.width, term.args[0]),
        Op::Shl | Op::ShrU | Op::ShrS => folded_shift(entries, term),
        Op::LtU | Op::LtS => folded_comparison(term, 0),
        Op::Eq => folded_comparison(term, 1),
        Op::Sel => folded_selection(entries, term),
        _ => Outcome::Makes(*term),
    }
}

/// The operation's value where all arguments that the term takes are constants.
fn constant_value(entries: &[Entry], term: &Term) -> u64
    requires graph { IsGraph entries.now }
    requires fits { FitsAfter entries.now term.now }
    requires constants { has_constants_only entries.now term.now ≡ true }
    ensures { result ≡ constant_value entries.now term.now }
{
    let [x, y, z] = term.args;
    let from = width_at(entries, x);
    let a = constant_at(entries, x).unwrap_or(0);
    let b = constant_at(entries, y).unwrap_or(0);
    let c = constant_at(entries, z).unwrap_or(0);
    term.op.value(term.width, from, a, b, c)
}

/// The width of the node at a place.
pub fn width_at(entries: &[Entry], place: u32) -> Width
    ensures { result ≡ width_at entries.now place }
{
    match entries.get(place as usize) {
        Some(entry) => entry.width,
        None => Width::W1,
    }
}

/// What a term over the nodes of a graph folds to.
pub fn reduced(entries: &[Entry], term: &Term) -> Outcome
    requires graph { IsGraph entries.now }
    requires fits { FitsAfter entries.now term.now }
    ensures { result ≡ reduced entries.now term.now }
{
    if has_constants_only(entries, term) {
        Outcome::Makes(constant_term(term.width, constant_value(entries, term)))
    } else {
        folded(entries, term)
    }
}
