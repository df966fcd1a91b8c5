//! The dealt words of a run: which words of the source are those of an instruction, and the halves that both parties have of words that
//! are kept until both have ended the instruction. No call takes memory.
//!
//! # Guarantees
//!
//! - `DealtAt` are the halves of one instruction, made of kept words when they are used (`src/views.rt`; read `specs/Views.antt`).
//! - `words_drawn` counts the words of an instruction (`src/views.rt`; read the same).
#![tactic(auto)]

mod views;

pub use views::{DealtAt, choice_after, words_drawn};
