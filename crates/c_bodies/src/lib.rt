//! Statements and blocks, typed as whole trees (C11 6.8): a walk from left to right, from the parts to the whole, with the bounds of loops and the
//! objects that they count by; or the first rule that is broken.
//!
//! # Guarantees
//!
//! | call | guarantee | clause | definitions to read, in order |
//! |---|---|---|---|
//! | [`block`] | the typed block of a function's body, or the first rule that is broken, and where | `src/statements.rt` | those of c_heads, then `specs/Statements.antt` |
#![tactic(auto)]

mod context;
mod ends;
mod statements;

pub use context::Around;
pub use statements::block;
