//! The least list of choices of a problem, with a tree that certifies it.
//!
//! `best` searches best first over prefixes of choices. The prefixes that were made stand in one
//! arena, a tree by numbers; those that aren't split yet wait. Each prefix keeps the least lower bound of
//! those that wait at it or below it. So the first of the least bound, in the lexicographic order of lists
//! of choices, is found by going down from the empty prefix to the first child that has
//! that bound. It is split, and the bounds above it are brought up to date, until what is found is a
//! complete list. What was split are then exactly the prefixes that aren't pruned for that list.
//!
//! # Guarantees
//!
//! - `best` gives the least list and a tree that closes for it, in which no branch stands at a prefix that closes; it gives up only
//!   where more than 2^18 incomplete prefixes don't close for the least list, and then there are more than nine modules
//!   (`src/searches.rt`; read `choice_core`'s `specs/Problems.antt`, `specs/Bound.antt` and `specs/Least.antt`, then `specs/Answers.antt`).
//! - `many_open_means_many_modules`: nine modules never have so many such prefixes (`src/laws.rt`; read `specs/Answers.antt`).
#![tactic(auto)]

mod arenas;
mod faults;
mod finding;
mod laws;
mod lifting;
mod searches;
mod splitting;
mod trees;

pub use faults::SearchFault;
pub use laws::many_open_means_many_modules;
pub use searches::best;
