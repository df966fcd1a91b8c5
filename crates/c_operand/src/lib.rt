//! The readers of expressions (C11 6.5) over readers of what is nested in them: the rules by the first token at each place.
//!
//! # Guarantees
//!
//! | call | guarantee | clause | definitions to read, in order |
//! |---|---|---|---|
//! | [`Grammar::unary`], [`Grammar::expr`] | what stands next is read as the definitions of `c_grammar` say, where the three function values read what is nested | `src/expressions.rt` | `Tokens.antt`, `Expressions.antt` and `Levels.antt` of `c_grammar`, `specs/Nested.antt` |
#![tactic(auto)]

mod expressions;
mod grammar;

pub use grammar::Grammar;
