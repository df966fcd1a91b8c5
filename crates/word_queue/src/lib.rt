//! A queue of words in a ring that is reserved once: words are put at its end and taken from its front, and no word is ever moved to
//! make room.
//!
//! # Guarantees
//!
//! A queue is seen as the list of its words, beside the number of words that there is room for, which never changes
//! (`specs/Ring.antt`).
//!
//! - `WordQueue::new` gives an empty queue; only memory can be wanting.
//! - `WordQueue::put` appends words, and `WordQueue::take` drops words from the front; neither takes memory.
//! - `WordQueue::word` and `WordQueue::copy` read words at a place, `WordQueue::len` counts those that stand, and `WordQueue::spare` tells for how
//!   many more there is room.
//!
//! All clauses stand in `src/queue.rt`.
#![tactic(auto)]

mod pieces;
mod queue;

pub use queue::WordQueue;
