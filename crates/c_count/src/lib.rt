//! How many tokens a part of a tree has, as the sizes of a program count them.
//!
//! Each call goes through its part once, from the leaves up, so that a statement's own tokens are counted without going
//! through the statements that it holds. A count goes up to 2^32 - 1; the tokens of a program are fewer than 2^32.
//!
//! # Guarantees
//!
//! | call | guarantee | clause | definitions to read, in order |
//! |---|---|---|---|
//! | [`expr_tokens`], [`specs_tokens`], [`tag_tokens`], [`dimensions_tokens`] | the number of the tokens that an expression, specifiers, a tag or dimensions want | `src/expressions.rt` | those of `c_tree`, `specs/Counts.antt` |
//! | [`simple_tokens`], [`init_tokens`], [`declarator_tokens`], [`declaration_tokens`] | the number of the tokens that the expression of an expression statement, an initializer, a declarator or a declaration wants | `src/declarations.rt` | those of `c_tree`, `specs/Counts.antt` |
#![tactic(auto)]

mod counts;
mod declarations;
mod expressions;

pub use declarations::{declaration_tokens, declarator_tokens, init_tokens, simple_tokens};
pub use expressions::{dimensions_tokens, expr_tokens, specs_tokens, tag_tokens};
