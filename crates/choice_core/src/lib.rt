//! What a choice of circuits costs, and a bound for each prefix of choices that never falls.
//!
//! A problem has modules, each with its own cost by choice, and fans: the words that one module makes
//! and others use, with the price of converting them.
//!
//! # Guarantees
//!
//! - `cost` is what a list of choices costs (`src/bounds.rt`; read `specs/Choices.antt`, then `specs/Problems.antt`).
//! - `bound` is at most what each list costs that begins with the prefix; it is the cost of a whole list, and a longer prefix has
//!   no lesser one: `bound_lies_below`, `bound_ends_at_cost`, `bound_never_falls` (`src/bounds.rt`; read `specs/Bound.antt`).
//! - `rise`, and `rise_by` with what `look_ahead` found, tell by how much one more choice raises a bound, and `shallow_bound`
//!   the bound with S in place of C (`src/rising.rt`; read `specs/Ahead.antt`, then `specs/Growing.antt`).
//! - `least_is_one`: a problem has one least list, of those that cost least the lexicographically first (`src/bounds.rt`; read
//!   `specs/Least.antt`).
//! - `closing_tree_shows_least`: a tree that closes for a list is a certificate that the list is the least one, whoever made the tree
//!   (`src/bounds.rt`; read `specs/Least.antt`).
//! - `Problem::of` keeps the costs that it is given, and beside them an index of the fans by module, which no clause depends on;
//!   `own`, `fans`, `touching_count`, `touching_fan` and `following` read them (`src/problems.rt`; read `specs/Problems.antt`).
//!
//! Lemmas for the crates above: the laws in `proofs/Laws.antt`, limits in `proofs/Limits.antt`, sums and lists of allowed choices in
//! `proofs/Sums.antt`, what holds of a problem made by `Problem::of` in `proofs/Parts.antt`.
#![tactic(auto)]

mod bounds;
mod problems;
mod rising;
mod sharings;
mod trees;

pub use bounds::{
    bound, bound_ends_at_cost, bound_lies_below, bound_never_falls, closing_tree_shows_least, cost,
    least_is_one,
};
pub use problems::{Costs, Fan, Problem, Table};
pub use rising::{Ahead, look_ahead, rise, rise_by, shallow_bound};
pub use sharings::{Choice, Sharing};
pub use trees::{Tree, TreeNode};
