//! Bundles: a program as a graph of words that is cut into modules, the circuits of each module in every sharing, and a choice among these.
//!
//! # Guarantees
//!
//! - A `Draft` and a `Bundle` are valid at every moment: each rule of validity is a field of `IsDraft` or `IsBundle`, and speaks of the parts
//!   that stand before it in a bundle's text alone (`src/parts.rt`; read `specs/Names.antt`, `specs/Parts.antt`, `specs/Whole.antt`).
//! - `Draft::of`, `Draft::parts`, `Draft::into_parts`, `Bundle::of`, `Bundle::draft`, `Bundle::parts`, `Bundle::choices`, `Bundle::cost`,
//!   `Bundle::tree` and `Bundle::into_draft` make these of their parts and tell them, without memory (`src/parts.rt`; read
//!   `specs/Parts.antt`, `specs/Whole.antt`).
//! - `Bundle::meaning` gives what the chosen circuits compute for all choices that the modules allow and all inputs that fit, module by
//!   module (`src/meaning.rt`; read `specs/Meaning.antt`).
//! - `Draft::problem` and `Bundle::problem` give what each choice costs: own costs counted in the circuits, and a fan for each list of modules
//!   that use the same words, by producer and then in lexicographic order; all costs together are below 2^63, and the other conditions
//!   of a problem hold too (`src/problem.rt`; read `specs/Costs.antt`).
//!
//! Definitions for the crates above: `specs/Means.antt` says when a bundle means a program, for every list of choices, and when its
//! circuits are made with care (`specs/Stated.antt` has the numbers that are stated of them).
//!
//! Laws that the crates above can import:
//!
//! | lemmas | on |
//! |---|---|
//! | `proofs/MeaningLaws.antt` | words that fit their nodes (`specs/Room.antt`) before and after each module; one module more of a bundle's words; what stands in a draft |
//! | `proofs/ListOrder.antt` | lists in lexicographic order: ascending lists of the same members are equal |
//! | `proofs/FanLaws.antt` | fans word by word and in any order of the words |
//! | `proofs/ProblemLaws.antt`, `proofs/CostLaws.antt` | producers stand before consumers, words are handed on once, costs are below 2^63 |
#![tactic(auto)]

mod fans;
mod meaning;
mod own;
mod parts;
mod problem;

pub use parts::{Bundle, Draft, Parts, Variant};
