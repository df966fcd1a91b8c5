//! What bundles mean whose circuits compute their modules' words.
//!
//! `specs/Circuits.antt` says what holds of the circuits of a module. Laws that the crates above can import:
//!
//! | lemma | says |
//! |---|---|
//! | `means-of` of `proofs/Meaning.antt` | where the circuits of every module compute its words, the bundle computes what its graph does: for every list of choices that its modules allow, and for all inputs that fit |
#![tactic(auto)]
