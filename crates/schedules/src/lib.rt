//! Two parties that go through one list of instructions, each as far as it can: the order of their turns doesn't matter. Nothing is
//! known of an instruction but who sends a frame for it, which, and what a party has afterwards.
//!
//! # Guarantees
//!
//! - `schedule_law`: of any protocol, for every list of steps, the frames that were sent are the first ones of the plain order, those that wait
//!   stand between two receive halves of their sender, somebody can move unless both parties have ended, and there are no more moves than
//!   halves of instructions. Every list of turns leads both to the end, which is that of the plain order: what each party has, all frames
//!   sent and taken, and as many moves as halves (`src/law.rt`; read `specs/Turns.antt`, whose last definitions are the claims).
//!
//! Laws that the crates above can import:
//!
//! | lemmas | on |
//! |---|---|
//! | `proofs/PlainOrder.antt` | the frames of the plain order: later ones only append, and each stands at its place |
//! | `proofs/Standing.antt` | both parties stand as in the plain order, from the start on and after every step |
//! | `proofs/Counting.antt` | how many moves were done, that there are no more than halves, and that somebody can move before the end |
//! | `proofs/Schedules.antt` | the claims, of any protocol |
#![tactic(auto)]

mod law;

pub use law::{Protocol, schedule_law};
