//! The numbers of a plan: how many frames and bytes its instructions send, in how many rounds, and the most of words and bytes in a
//! stretch of instructions between two at which a party receives.
//!
//! # Guarantees
//!
//! - `figures_of` gives these numbers exactly, for every list of instructions and gates, or wants memory (`src/figures.rt`; read
//!   `specs/Figures.antt`, then `specs/Sizes.antt`, `specs/Dealing.antt` and `specs/Levels.antt` of share_core).
//! - `gates_of` gives the gates of a level, and `is_level` tells whether an instruction is one (`src/sizes.rt`; read `specs/Levels.antt` of
//!   share_core).
//!
//! A number that 64 bits don't hold is answered as want of memory: no plan in memory has one.
#![tactic(auto)]

mod figures;
mod sizes;
mod stretches;

pub use figures::{Figures, figures_of};
pub use sizes::{gates_of, is_level};
