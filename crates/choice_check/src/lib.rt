//! A checker of the trees that certify a least list of choices.
//!
//! `check` walks once through a tree's nodes in preorder. The caller's buffer has the path to the
//! node, which with the allowed choices says all prefixes that are still to come; so it takes no
//! memory. A tree that passes shows that the choices are the least ones, whoever made it.
//!
//! # Guarantees
//!
//! - `check` says yes exactly where the tree closes for the choices, which are then the least ones, and else names the first fault
//!   in preorder (`src/checks.rt`; read `choice_core`'s `specs/Problems.antt`, `specs/Bound.antt` and `specs/Least.antt`, then
//!   `specs/Faults.antt`).
#![tactic(auto)]

mod checks;
mod closing;
mod faults;
mod paths;
mod walks;

pub use checks::check;
pub use faults::TreeFault;
