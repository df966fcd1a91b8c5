//! How statements and blocks are read from tokens (C11 6.8).
//!
//! The readers stand as definitions, by the first token at each place: `specs/Starts.antt`, `specs/Statements.antt`,
//! `specs/Loops.antt`, `specs/Blocks.antt` and `specs/Levels.antt`. That they read the grammar, all of it and nothing else, is
//! proved of them at every level of nesting.
//!
//! # Guarantees
//!
//! | call | guarantee | clause | definitions to read, in order |
//! |---|---|---|---|
//! | [`block`] | the block that stands at the front of a list is read as its reader says | `src/nesting.rt` | `specs/Starts.antt`, `specs/Statements.antt`, `specs/Loops.antt`, `specs/Blocks.antt`, `specs/Levels.antt` |
//! | [`kept`] | a part that was read is given back where a mark stands after it | `src/plain.rt` | `specs/Parts.antt` |
//! | [`starts_item`] | whether an external declaration begins with a token | `src/starts.rt` | `specs/Starts.antt` |
//!
//! Crates above can import `proofs/Stating.antt`: the readers of statements and blocks read just the trees of the grammar,
//! where what stands after them stops them. `proofs/ByTree.antt` and `proofs/Steps.antt` have the laws of the combinators for
//! trees of which each has its own condition on what may stand after it.
#![tactic(auto)]

mod blocks;
mod branches;
mod inner;
mod loops;
mod nesting;
mod plain;
mod starts;

pub use nesting::block;
pub use plain::kept;
pub use starts::starts_item;
