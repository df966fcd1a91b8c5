//! The shapes of inputs and results, and the cells of objects: a type's shape and the types of its cells, with each struct by its members
//! (C11 6.2.5p20).
//!
//! # Guarantees
//!
//! | call | guarantee | clause | definitions to read, in order |
//! |---|---|---|---|
//! | [`shape_of`] | the shape of a type without pointers, by the structs that stand before it | `src/shapes.rt` | of c_meaning: `specs/Types.antt` |
//! | [`scalars_of`] | the type of each cell of a type, by the structs that stand before it | `src/scalars.rt` | of c_meaning: `specs/Types.antt` |
#![tactic(auto)]

mod scalars;
mod shapes;

pub use scalars::scalars_of;
pub use shapes::shape_of;
