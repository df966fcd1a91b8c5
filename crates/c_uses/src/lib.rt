//! The objects that lvalues name, those that statements assign to by their names, and those whose addresses are taken.
//!
//! # Guarantees
//!
//! | call | guarantee | clause | definitions to read, in order |
//! |---|---|---|---|
//! | [`named_object`], [`assigned_object`] | the object that an lvalue names, and that an expression statement assigns to by its name | `src/names.rt` | of c_meaning: `specs/Constants.antt`, `specs/Uses.antt`; `specs/Names.antt` |
//! | [`mark_assigned`], [`mark_assigned_in`], [`mark_numbers`] | the objects that a block or a statement assigns to by their names, or that stand in a list, are marked, and no others | `src/uses.rt` | of c_meaning: `specs/Uses.antt` |
//! | [`mark_taken`], [`mark_taken_in`] | the objects whose addresses a block or an expression takes are marked, and no others | `src/taken.rt`, `src/addresses.rt` | of c_meaning: `specs/Uses.antt` |
#![tactic(auto)]

mod addresses;
mod names;
mod taken;
mod uses;

pub use addresses::mark_taken_in;
pub use names::{assigned_object, named_object};
pub use taken::mark_taken;
pub use uses::{mark_assigned, mark_assigned_in, mark_numbers};
