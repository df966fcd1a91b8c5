//! Sums, comparisons, selections and shifts as Boolean circuits, with few ANDs or with few ANDs on every path: ripple adders and prefix
//! adders. Lists of literals have the lowest bit first.
//!
//! # Guarantees
//!
//! Each answer is right for all inputs and every length from 1 on, and a call stays within the stated number of gates also where it ends in
//! an Err (`Spelled.antt` and `Growth.antt` of gate_net say over which words and gates, `Sizes.antt` of hy_bits says how many).
//!
//! - `sum`, `difference` and `negative`: modulo two to the length; one And less than places in the compact form, and one and the logarithm
//!   of the length deep in the shallow one (`src/sums.rt`; read `Words.antt` of hy_bits).
//! - `less_u`, `less_s` and `equal`: the comparisons of the two readings, and equality; as many Ands as places, one less for equality, at
//!   the depth of a sum, one less for equality (`src/compare.rt`; read `Words.antt` of hy_bits).
//! - `choose`: the one word or the other, with an And for each place, one deep (`src/selection.rt`).
//! - `shift`: up, down, and down with the sign, by any count (`src/shifts.rt`; read `specs/Shifts.antt`).
//! - `full_adder`: the sum bit and the carry of three bits, with one And (`src/adder.rt`; read `specs/Steps.antt`).
#![tactic(auto)]

mod adder;
mod compare;
mod lookahead;
mod selection;
mod shifts;
mod sums;

pub use adder::full_adder;
pub use compare::{equal, less_s, less_u};
pub use selection::choose;
pub use shifts::shift;
pub use sums::{difference, negative, sum};
