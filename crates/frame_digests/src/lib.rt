//! The SHA-256 digests of what two parties send: of the frames of each, and of all frames in the order in which they are sent (FIPS
//! 180-4). No call takes memory.
//!
//! # Guarantees
//!
//! - `Digests::new` has been fed nothing; `Digests::note` feeds the bytes of an outbox from a place on, to the digest of their sender and to that
//!   of all frames; `Digests::ends` gives the three digests of what was fed (`src/digests.rt`; read `specs/Fed.antt`).
#![tactic(auto)]

mod digests;

pub use digests::Digests;
