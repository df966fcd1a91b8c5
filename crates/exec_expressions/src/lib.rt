//! Operations of C on integers as nodes of a graph: what expressions compute, for all inputs at once.
//!
//! A value of an integer type is a node of the type's width, which holds its word for each list of inputs.
//!
//! # Guarantees
//!
//! Each call gives a node that stands, whose value for all inputs that fit is that of C's operation, makes no more nodes and gates than it
//! tells, also after an `Err`, and ends at the limit only where the graph is full (read `specs/Choices.antt`; of word_nodes
//! `specs/Nodes.antt`; of c_meaning `specs/Operations.antt` and `specs/Sizes.antt`).
//!
//! - `operate`: arithmetic and shifts. `compare`: comparisons, as truths. `apply_sign`: unary `+`, `-` and `~` (`src/operators.rt`).
//! - `convert`: conversions between integer types. `truth`: whether a word is unequal to 0, and `of_truth`: a truth as an `int`
//!   (`src/conversions.rt`).
//! - `move_pointer`: a pointer with its index moved by a word (`src/pointers.rt`; read `specs/Pointers.antt`; of c_place `specs/Aims.antt`).
#![tactic(auto)]

mod conversions;
mod nodes;
mod operators;
mod pointers;

pub use conversions::{convert, of_truth, truth};
pub use operators::{apply_sign, compare, operate};
pub use pointers::move_pointer;
