//! Values of C as words of a graph, and what the operators of expressions make of them.
//!
//! # Guarantees
//!
//! Each call gives a value that stands, which for all inputs that fit stands for what C's operation makes of any values that its operands stand
//! for; it makes nodes of its region alone, and ends at the limit only where the graph is full (read `specs/Views.antt`, `specs/Makes.antt`; of
//! exec_state `specs/Seen.antt`; of c_meaning `specs/Operations.antt`, `specs/Expressions.antt`).
//!
//! - `convert_value`, `sign_value`, `negate_value`, `operate_values`, `compare_values`, `equal_values`: the operators. `truth_of`: whether a value is
//!   unequal to 0. `null_pointer`: a null pointer. `word_of`, `pointer_of`: the word or the pointer of a value (`src/operations.rt`).
//! - `choose_values`: one of two values by a truth (`src/choosing.rt`).
//!
//! Laws that the crates above can import: `proofs/GrowingLaws.antt`, on what values and pictures keep while a graph grows by nodes of one region or
//! of several (`specs/Growing.antt`); `proofs/ValueLaws.antt`, on values that words stand for.
#![tactic(auto)]

mod choosing;
mod operations;
mod values;

pub use choosing::choose_values;
pub use operations::{
    compare_values, convert_value, equal_values, negate_value, null_pointer, operate_values,
    pointer_of, sign_value, truth_of, word_of,
};
pub use values::{Cut, Located, WordValue};
