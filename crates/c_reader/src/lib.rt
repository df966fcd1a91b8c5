//! Readers of tokens, by the first token at each place: a cursor over a list, the combinators that parsers are made of, and
//! the faults of syntax.
//!
//! A reader takes the tree at the front of a list of tokens, or tells the first token that doesn't fit, or the first that
//! is nested too deeply. A [`Cursor`] holds the tokens that are left, and each function that reads takes them from it as its
//! reader says. An `Err` leaves the cursor at the token that doesn't fit or is nested too deeply. Want of memory is the one
//! fault of which the contracts don't say when it comes.
//!
//! # Guarantees
//!
//! | call | guarantee | clause | definitions to read, in order |
//! |---|---|---|---|
//! | [`Cursor`] | the tokens of two slices are shown and taken in order, and a token that doesn't fit or is nested too deeply is left | `src/cursor.rt`, `src/tokens.rt` | `specs/Reading.antt`, `specs/Tokens.antt`, `specs/Outcome.antt` |
//! | [`is_kind`], [`is_mark`], [`is_word`], [`found_of`], [`found_in`] | what a token is, and what a table has for it | `src/tables.rt` | `specs/Tokens.antt` |
//! | [`many`], [`many_after`], [`separated_by`], [`more_after`], [`only`] | lists of parts are read as the combinators say | `src/lists.rt` | `specs/Reading.antt`, `specs/Lists.antt`, `specs/Closures.antt` |
//! | [`fault_after`] | a faulty token names a construct that is left out just where the rules say so, by what is read where other tokens stand in its place | `src/probe.rt` | `specs/Samples.antt`, `specs/Faults.antt`, `specs/Alone.antt`, `specs/Closures.antt` |
//!
//! Crates above can import `proofs/Reader.antt`, which says what it is that a reader reads a language: what is read is
//! spelled; before a fault stands the beginning of a tree; what is spelled is read; and no answer depends on what
//! stands after the first token that is left. The other files have a law for each combinator.
#![tactic(auto)]

mod cursor;
mod faults;
mod lists;
mod probe;
mod samples;
mod tables;
mod tokens;
mod unread;

pub use cursor::Cursor;
pub use faults::SyntaxFault;
pub use lists::{many, many_after, more_after, only, separated_by};
pub use probe::{LEVELS, fault_after};
pub use samples::{Sample, end};
pub use tables::{found_in, found_of, is_kind, is_mark, is_word};
pub use unread::Unread;
