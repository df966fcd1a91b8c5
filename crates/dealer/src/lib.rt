//! The dealer of correlated randomness: it draws words from a source and deals each instruction of a plan its two halves, as Beaver
//! triples, masks of oblivious transfers and labels. No call takes memory.
//!
//! A level is dealt gate by gate: for the level itself nothing is drawn.
//!
//! # Guarantees
//!
//! - `Dealer::next` gives both roles' halves of the next words of the source, and draws exactly these (`src/dealer.rt`; read
//!   `specs/Drawing.antt`, then `specs/Dealing.antt` of share_core, whose `machine_law` says that the halves agree).
//! - `words_of` is how many words an instruction draws, `Dealer::draw` the next word, and `half_of` a role's half of words that the
//!   caller keeps: `next` gives what it gives for both roles (`src/halves.rt`, `src/dealer.rt`; read the same).
//! - `Dealer::new` is a dealer that has dealt nothing (`src/dealer.rt`).
//! - `drawing_law`: words drawn in two goes are those drawn in one (`src/drawing.rt`; read `specs/Drawing.antt`).
//!
//! | definitions | of |
//! |---|---|
//! | `specs/Drawing.antt` | words drawn in order from a source, and what the dealer keeps |
//!
//! | lemmas | on |
//! |---|---|
//! | `proofs/StreamLaws.antt` | words drawn in two goes, what is left of the source, and how many they are |
#![tactic(auto)]

mod dealer;
mod drawing;
mod halves;
mod masks;

pub use dealer::Dealer;
pub use drawing::drawing_law;
pub use halves::{half_of, words_of};
