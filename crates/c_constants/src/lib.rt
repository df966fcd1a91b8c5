//! Constant expressions, and loops whose heads alone tell the numbers of their turns.
//!
//! # Guarantees
//!
//! | call | guarantee | clause | definitions to read, in order |
//! |---|---|---|---|
//! | [`constant_word`] | the word of a constant expression, where its run is defined | `src/constants.rt` | of c_meaning: `specs/Operations.antt`, `specs/Constants.antt` |
//! | [`counting_object`], [`counted`] | the object that the step of a `for` counts by, and the number of turns that the head alone gives | `src/counting.rt` | of c_meaning: `specs/Counting.antt`, `specs/StatementRules.antt`; `specs/Counted.antt` |
#![tactic(auto)]

mod constants;
mod counting;

pub use constants::constant_word;
pub use counting::{Count, counted, counting_object};
