//! The widths of the words in the cells of a type without pointers (C11 6.2.5).
//!
//! # Guarantees
//!
//! | call | guarantee | clause | definitions to read, in order |
//! |---|---|---|---|
//! | [`widths_of`] | the width of each cell of a type, in their order, structs by their members | `src/widths.rt` | `specs/Widths.antt`; of c_meaning: `Types.antt` |
//!
//! `proofs/CountLaws.antt` has the laws that the crates above can import: in a typed program a type has as many widths as cells.
#![tactic(auto)]

mod widths;

pub use widths::widths_of;
