//! How external declarations and programs are read from tokens (C11 6.9): the program of a list of tokens, or
//! the first token with which no program begins.
//!
//! # Guarantees
//!
//! | call | guarantee | clause | definitions to read, in order |
//! |---|---|---|---|
//! | [`parse`] | a list of tokens that a program spells, not nested too deeply, gives that program; another gives its first fault: the first token with which no program begins, or before it the first that is nested too deeply | `src/parser.rt` | those of `c_tree`, `specs/Programs.antt`, `specs/Outcome.antt`, `Faults.antt` and `Firsts.antt` of `c_reader` |
//! | [`one_program`] | a list of tokens spells one program at most | `src/laws.rt` | those of `c_tree`, `specs/Programs.antt` |
//! | [`programs_nest_alike`] | programs that begin with the same tokens nest these alike, so a fault other than `Deep` shows that no token before its place is too deep | `src/laws.rt` | `specs/Programs.antt`, `Firsts.antt` of `c_reader` |
//!
//! The readers stand as definitions, by the first token at each place, in `specs/Items.antt` and in the crates below. No clause
//! of a public call names them.
#![tactic(auto)]

mod items;
mod laws;
mod parser;

pub use c_reader::SyntaxFault;
pub use laws::{one_program, programs_nest_alike};
pub use parser::parse;
