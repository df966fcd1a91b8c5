//! What statements have that is no statement (C11 6.8): expression statements, conditions, the heads of loops with their bounds and the objects that
//! they count by, the labels of a `switch`, scopes, and the numbers of their own tokens; typed, or with the first rule that is broken.
//!
//! # Guarantees
//!
//! | call | guarantee | clause | definitions to read, in order |
//! |---|---|---|---|
//! | [`effect_of`] | an expression statement, or the first rule that is broken, and where | `src/effects.rt` | those of c_expressions, then `specs/Effects.antt` |
//! | [`condition_of`], [`controlling_of`], [`controlling_where`], [`first_of`], [`step_where`] | the parts of the heads of statements, the same | `src/heads.rt` | those of c_objects, then `specs/Loops.antt` |
//! | [`step_number`], [`counter_of`], [`bounded`] | the object that a `for` counts by with the number of its turns, and the bound of a loop | `src/loops.rt` | those of c_constants, then `specs/Loops.antt` |
//! | [`labels_of`], [`Labelled`] | the labels of a section of a `switch`, each a constant that stands once, or the first that isn't, and where | `src/labels.rt` | `specs/Labels.antt` |
//! | [`open`], [`close`], [`tag_alone`] | scopes within scopes, and what a tag that stands alone declares | `src/scopes.rt`, `src/tags.rt` | `specs/Scopes.antt` |
//! | [`expr_tokens`], [`simple_tokens`], [`declaration_tokens`], [`tag_tokens`], [`if_tokens`], [`switch_tokens`], [`while_tokens`], [`do_tokens`], [`for_tokens`], [`return_tokens`] | the tokens that a statement has of its own | `src/tokens.rt` | those of c_count, then `specs/Tokens.antt` |
#![tactic(auto)]

mod assigned;
mod context;
mod effects;
mod heads;
mod labels;
mod loops;
mod scopes;
mod tags;
mod tokens;

pub use context::Body;
pub use effects::effect_of;
pub use heads::{condition_of, controlling_of, controlling_where, first_of, step_where};
pub use labels::{Ended, Labelled, labels_of};
pub use loops::{bounded, counter_of, step_number};
pub use scopes::{close, open};
pub use tags::tag_alone;
pub use tokens::{
    declaration_tokens, do_tokens, expr_tokens, for_tokens, if_tokens, return_tokens,
    simple_tokens, switch_tokens, tag_tokens, while_tokens,
};
