//! Quotients and remainders as Boolean circuits: the restoring divider. Lists of literals have the lowest bit first.
//!
//! # Guarantees
//!
//! - `divide` gives quotient and remainder by either reading, for all inputs and every length, with at most the stated number of And
//!   gates, and within the stated number of gates also where it ends in an Err (`src/division.rt`; read `specs/Division.antt` for the
//!   answers; `Spelled.antt` and `Growth.antt` of gate_net, and `Sizes.antt` of hy_bits, for the gates).
#![tactic(auto)]

mod division;
mod rows;
mod signs;

pub use division::divide;
