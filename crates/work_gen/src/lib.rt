//! The generated work of a number: a program, the inputs of both parties, and a cost table.
//!
//! # Guarantees
//!
//! - `work` gives the four texts of a number from 1 to `WORK_LIMIT` (`src/making.rt`; read `specs/Source.antt`, `specs/Texts.antt`, then
//!   `specs/Costs.antt`).
#![tactic(auto)]

mod making;
mod points;
mod texts;

pub use making::work;
pub use texts::{WORK_LIMIT, Work};
