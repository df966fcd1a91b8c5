//! The readers of expressions and of the specifiers of types (C11 6.5, 6.7.2) at every level of nesting, and the longest
//! expression at a place of a list of tokens.
//!
//! # Guarantees
//!
//! | call | guarantee | clause | definitions to read, in order |
//! |---|---|---|---|
//! | [`expression`] | the longest run of tokens with which some expression begins is read, where it is an expression, and elsewhere the first fault is told | `src/run.rt` | `Spelled.antt` of `c_grammar`, `Faults.antt` and `Firsts.antt` of `c_reader`, `specs/Runs.antt` |
//! | [`unary`], [`expr`], [`specs`], [`tag`], [`dimensions`] | what stands at the front of a list is read as its reader says | `src/nesting.rt` | `Tokens.antt`, `Expressions.antt`, `Types.antt` and `Levels.antt` of `c_grammar` |
#![tactic(auto)]

mod nesting;
mod run;
mod sizes;
mod types;

pub use nesting::{dimensions, expr, specs, tag, unary};
pub use run::expression;
