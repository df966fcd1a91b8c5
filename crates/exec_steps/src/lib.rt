//! Steps of a run that is executed as words of a graph: what each production makes of values, truths and ways to leave a statement.
//!
//! # Guarantees
//!
//! Each call turns what follows a meaning into what follows the meaning of its production, for all inputs that fit; it makes nodes of its region
//! alone, and ends at the limit only where the graph is full (read `specs/Running.antt`, `specs/Ways.antt`; of exec_state `specs/Seen.antt`,
//! `specs/Follow.antt`, `specs/Leave.antt`; of c_meaning `specs/Expressions.antt`).
//!
//! - `converted`, `signed`, `negated`, `tested`: operators on one value (`src/unary.rt`). `operated`, `compared`, `equated`: operators on two
//!   (`src/binary.rt`). `both`, `either`, `none`, `truth_value`: truths (`src/truths.rt`).
//! - `ways_then`, `ways_either`, `never`: the guards of the ways to leave two statements, one after another or of which one runs (`src/ways.rt`).
//!
//! Laws that the crates above can import: `proofs/StepLaws.antt`, on steps and on runs that go on; `proofs/WayLaws.antt`, on statements in order and
//! turns of loops, one more at a time.
#![tactic(auto)]

mod binary;
mod running;
mod truths;
mod unary;
mod ways;

pub use binary::{compared, equated, operated};
pub use running::Running;
pub use truths::{both, either, none, truth_value};
pub use unary::{converted, negated, signed, tested};
pub use ways::{Ways, never, ways_either, ways_then};
