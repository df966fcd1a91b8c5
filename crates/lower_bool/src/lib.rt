//! The Boolean circuit of a module of a graph, in either form.
//!
//! # Guarantees
//!
//! Each clause stands in `src/lowering.rt`.
//!
//! - `raw` gives a circuit over the bits of the words that a module takes, whose outputs are the bits of the words that it gives, for all
//!   inputs that fit the graph. It has no more gates than the sizes of the module's nodes add up to, and the limit comes only where these add
//!   up to more than the budget (read `Meaning.antt` and `Size.antt` of word_graph, then `specs/Parts.antt`).
//! - Where each operation of the module has a stated number of And gates, the compact circuit has at most their sum; where each has a
//!   stated depth, the shallow one is no deeper than the greatest sum of them along a path (read `Sizes.antt` of hy_bits, then
//!   `specs/Stated.antt`).
//! - `lower` gives such a circuit that is reduced, besides (read `Paths.antt` of gate_net).
//!
//! A law that the crates above can import: `length-nodes` of `proofs/WalkLaws.antt` says how many bits the words of some nodes have.
#![tactic(auto)]

mod arithmetic;
mod call;
mod comparison;
mod logic;
mod lowering;
mod nodes;
mod operation;
mod rows;
mod wires;

pub use lowering::{lower, raw};
