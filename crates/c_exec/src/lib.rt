//! Expressions and statements of a typed program as words of a graph, under guards, for all inputs.
//!
//! # Guarantees
//!
//! For all inputs that fit, and from any state that the words show, each call follows the meaning of its part: where its guard is 0 nothing changes,
//! and where it is 1 the words after it show the state after the part, or that a loop passed its bound. It tells how the graph grows, and ends at
//! the limit only where the graph is full (read of exec_state `specs/Seen.antt`, `specs/Follow.antt`, `specs/Leave.antt`; of exec_values
//! `specs/Views.antt`; of exec_steps `specs/Running.antt`, `specs/Ways.antt`).
//!
//! - `evaluate`: the value of a conversion, of a cast, of a unary operator on integers, of `!` and of `&&` (`src/expressions.rt`). Any other expression is
//!   answered with want of memory.
//! - `execute_statement`: blocks of statements, and the empty statement (`src/statements.rt`). Any other statement is answered with want of memory.
#![tactic(auto)]

mod expressions;
mod statements;
mod world;

pub use expressions::evaluate;
pub use statements::execute_statement;
pub use world::World;
