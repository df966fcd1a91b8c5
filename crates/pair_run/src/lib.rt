//! Two parties in one process: each step is a half of an instruction of one party, in any order of turns. Only `PairRun::new` takes memory.
//!
//! # Guarantees
//!
//! All clauses stand in `src/runs.rt`.
//!
//! - `PairRun::new` gives both parties before the first instruction of the bundle's plan, each with its own words of the inputs, or wants memory
//!   (read `Begins` in `specs/Runs.antt`, then `specs/Planned.antt` of share_plan and `specs/Plans.antt` of hybrid_plan).
//! - `PairRun::step` leaves the other party as it was, whichever party steps (read `party_of` in `specs/Runs.antt`).
//! - `PairRun::finish` answers the bytes of the plan's figures and the SHA-256 digests of what was fed (read `specs/Fed.antt` of
//!   frame_digests).
//! - `PairRun::kept` is the number of the words that are kept.
//!
//! Not proved: that a step is a step of the protocol (`Stands` in `specs/Runs.antt` says what that means), so that a party is always ready where
//! it can move. Each step tests at run time that it is.
//!
//! | lemmas | on |
//! |---|---|
//! | `proofs/SafeLaws.antt` | a frame that waits stands whole, there is room for the next one, and for the next instruction's words |
#![tactic(auto)]

mod halves;
mod inputs;
mod owners;
mod pairs;
mod runs;

pub use runs::{Opened, PairRun};
