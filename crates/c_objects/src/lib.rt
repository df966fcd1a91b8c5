//! Declarations of objects and their initializers (C11 6.7, 6.7.9): what they declare, with each initializer as the parts that it gives an object
//! in the order of its cells; or the first rule that is broken.
//!
//! # Guarantees
//!
//! | call | guarantee | clause | definitions to read, in order |
//! |---|---|---|---|
//! | [`object_specs`] | the type of a declaration's objects, or how a rule is broken and where | `src/objects.rt` | those of c_expressions, then `specs/Objects.antt` |
//! | [`declarator`] | the object that a declarator declares, with what it begins with, or the first rule that is broken, and where | `src/objects.rt` | `specs/Initializers.antt`, `specs/Objects.antt` |
//! | [`declarators`] | those of a list, one after another | `src/objects.rt` | the same |
//! | [`dimensioned`], [`pointed`], [`pointer_form`], [`free_name`], [`new_object`], [`count_more`] | the parts of a declarator that a parameter has too | `src/dimensions.rt`, `src/objects.rt` | `specs/Objects.antt` |
#![tactic(auto)]

mod dimensions;
mod filling;
mod initializers;
mod objects;
mod values;

pub use dimensions::{dimensioned, pointed, pointer_form};
pub use initializers::Storage;
pub use objects::{count_more, declarator, declarators, free_name, new_object, object_specs};
