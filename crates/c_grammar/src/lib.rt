//! How expressions and the specifiers of types are read from tokens (C11 6.5, 6.7.2), as definitions, and that a list of
//! tokens spells one of them at most.
//!
//! The trees are those of `c_tree`, which says of each tree which tokens it wants. The readers stand by the first token at
//! each place, made of the combinators of `c_reader`. That they read the grammar, all of it and nothing else, is proved of
//! them at every level of nesting; from that follow the laws here. The code of the readers of one token, and of the words
//! of a type, stands here too; what is made of these stands in the crates above.
//!
//! # Guarantees
//!
//! | call | guarantee | clause | definitions to read, in order |
//! |---|---|---|---|
//! | [`one_expression`], [`one_type`] | a list of tokens spells one expression, and one type, at most | `src/laws.rt` | those of `c_tree` |
//! | [`expressions_nest_alike`] | expressions that begin with the same tokens nest these alike | `src/laws.rt` | `specs/Spelled.antt`, `Firsts.antt` of `c_reader` |
//! | [`starts_expr`], [`starts_type`], [`sees_expr`], [`sees_type`], [`is_suffix`], [`sees_operator`], [`sees_prefix`], [`sees_type_word`] | what begins with a token | `src/tables.rt`, `src/tokens.rt` | `specs/Tokens.antt` |
//! | [`literal_at`], [`operator_at`], [`prefix_at`], [`no_expr`], [`no_specs`] | a token is taken as its reader says | `src/tokens.rt` | `specs/Tokens.antt`, `specs/Levels.antt` |
//! | [`type_words`] | the words that spell a type are taken as long as they agree | `src/spelling.rt` | `specs/Types.antt` |
//!
//! Crates above can import `all_read` of `proofs/Levels.antt`: the readers of each level are readers of its trees.
#![tactic(auto)]

mod counts;
mod laws;
mod spelling;
mod tables;
mod tokens;

pub use laws::{expressions_nest_alike, one_expression, one_type};
pub use spelling::type_words;
pub use tables::{BINARY_LEVELS, is_suffix, starts_expr, starts_type};
pub use tokens::{
    literal_at, no_expr, no_specs, operator_at, prefix_at, sees_expr, sees_operator, sees_prefix,
    sees_type, sees_type_word,
};
