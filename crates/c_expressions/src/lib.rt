//! The typing of whole expressions and of the specifiers of types (C11 6.5, 6.7.2): a walk over the tree from left to right, from the parts to
//! the whole.
//!
//! # Guarantees
//!
//! | call | guarantee | clause | definitions to read, in order |
//! |---|---|---|---|
//! | [`expression`], [`value_of`], [`specifiers`], [`tag`], [`dimensions`] | the typed expression, its value, or the type, with what is declared after it; or the first rule that is broken, and where | `src/expressions.rt`, `src/specifiers.rt` | of c_typing: `specs/Walks.antt`, `specs/Values.antt`, `specs/Expressions.antt`, `specs/Specifiers.antt`; `specs/Typing.antt` |
//! | [`expr_place`], [`specs_place`] | the place of a part's first token | `src/places.rt` | `specs/Typing.antt` |
#![tactic(auto)]

mod expressions;
mod places;
mod types;

pub use expressions::{expression, value_of};
pub use places::{expr_place, specs_place};
pub use types::{dimensions, specifiers, tag};
