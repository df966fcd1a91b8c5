//! The run of a typed program on input words: its outcome by evaluation, from left to right, over objects that are lists of cells.
//!
//! # Guarantees
//!
//! | call | guarantee | clause | definitions to read, in order |
//! |---|---|---|---|
//! | [`plain`], [`run`] | the outcome of a program's run is C's: the bound, the words of the result, and the first undefined operation with its place; only memory can be wanting | `src/program.rt` | of c_meaning: `specs/Operations.antt`, `specs/State.antt`, `specs/Expressions.antt`, `specs/ExpressionFolds.antt`, `specs/Statements.antt`, `specs/StatementFolds.antt`, `specs/Programs.antt` |
#![tactic(auto)]

mod answers;
mod calls;
mod effects;
mod entry;
mod expressions;
mod program;
mod statements;

pub use program::{plain, run};
