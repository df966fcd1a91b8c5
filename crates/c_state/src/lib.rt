//! Objects, pointers and values of the run of a typed program, and what operators make of them.
//!
//! An object is a list of cells with a number of its life. A pointer names an object, the elements of a row in it, the index of one of them,
//! and the life that it was made in. A value is the list of its cells: most have one, and take no memory.
//!
//! # Guarantees
//!
//! | call | guarantee | clause | definitions to read, in order |
//! |---|---|---|---|
//! | [`State`] | lives begin and end, cells are written, and the first undefined operation stays, as the meaning of programs says | `src/state.rt` | `specs/State.antt` of c_meaning, `specs/Views.antt` |
//! | [`element_of`], [`reading`], [`offset_by`] | what a pointer designates, and by how many elements it is moved | `src/pointers.rt` | `specs/State.antt` of c_meaning |
//! | [`read_at`], [`zeros`], [`struct_size`] | what is read from an element, and the value where there is none | `src/world.rt` | `specs/Expressions.antt` of c_meaning |
//! | [`combined`], [`signed_by`], [`converted`], [`moved_from`], [`part_at`], [`row_at`] and the other operations | their values, and the kind and place of what is undefined | `src/operations.rt` | `specs/Operations.antt` and `specs/Expressions.antt` of c_meaning |
#![tactic(auto)]

mod operations;
mod pointers;
mod spots;
mod state;
mod world;

pub use operations::{
    address_in, combined, converted, converted_where, holds, integers_combined, moved_from,
    of_address, of_truth, of_word, part_at, row_at, signed_by, word_in,
};
pub use pointers::{Address, element_of, offset_by, reading};
pub use spots::Spot;
pub use state::{State, Stored, Value};
pub use world::{World, read_at, struct_size, zeros};
