//! A queue of bytes in a ring that is reserved once: bytes are put at its end and taken from its front, and no byte is ever moved to
//! make room.
//!
//! # Guarantees
//!
//! A queue is seen as the list of its bytes, beside the number of bytes that there is room for, which never changes
//! (`specs/Ring.antt`).
//!
//! - `Queue::new` gives an empty queue; only memory can be wanting.
//! - `Queue::put` appends bytes, and `Queue::take` drops bytes from the front; neither takes memory.
//! - `Queue::byte` and `Queue::copy` read bytes at a place, `Queue::len` counts those that stand, and `Queue::spare` tells for how
//!   many more there is room.
//!
//! All clauses stand in `src/queue.rt`.
#![tactic(auto)]

mod pieces;
mod queue;

pub use queue::Queue;
