//! Functions and programs (C11 6.9): the parts of the typed program, or the first rule of types that is broken, in the order of the text.
//!
//! # Guarantees
//!
//! | call | guarantee | clause | definitions to read, in order |
//! |---|---|---|---|
//! | [`program_parts`] | the typed parts of a program with their sizes, or the first rule of types that it breaks, and where | `src/programs.rt` | those of c_expressions, c_objects and c_bodies, then `specs/Parameters.antt`, `specs/Programs.antt` |
#![tactic(auto)]

mod functions;
mod parameters;
mod programs;

pub use programs::program_parts;
