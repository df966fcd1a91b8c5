//! Bundles assembled from graphs of words: the cut into modules, the circuits of each, and the least assignment.
//!
//! # Guarantees
//!
//! - `assemble` gives a bundle of an outline: for every list of choices that its modules allow and for all inputs that fit, it computes what the
//!   outline's graph computes; its circuits are reduced and keep the stated numbers; its choices are the least ones, with a tree that shows
//!   it; it has the layers that were asked for, but where that problem is beyond the search (`src/assembling.rt`; read
//!   `specs/Outlines.antt`, `Means.antt` of `bundle_core`, `Least.antt` of `choice_core`, then `specs/Layers.antt`).
//! - `GateLimit` comes only where the sizes of the graph's nodes add up to more than 2^22 (the same file).
#![tactic(auto)]

mod assembling;
mod choosing;
mod drafts;
mod layers;
mod outlines;

pub use assembling::assemble;
pub use module_circuits::AssemblyFault;
pub use outlines::Outline;
