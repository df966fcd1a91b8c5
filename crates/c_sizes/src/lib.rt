//! The sizes of a typed program's runs: the statements that are visited, the nodes of its graph and the gates of their circuits.
//!
//! # Guarantees
//!
//! | call | guarantee | clause | definitions to read, in order |
//! |---|---|---|---|
//! | [`program_size`] | the sizes of a program's runs, where 2^63 stands for more; only memory can be wanting | `src/program.rt` | of c_meaning: `specs/Uses.antt`, `specs/Sizes.antt`, `specs/SizeFolds.antt`; `specs/Totals.antt` |
#![tactic(auto)]

mod expressions;
mod measure;
mod program;
mod statements;
mod totals;

pub use program::program_size;
pub use totals::Totals;
