//! Objects and pointers as words of a graph: what C's objects hold at a point of a program, for all inputs.
//!
//! An object that is no pointer is a list of nodes, one for each of its cells. A pointer is a list of guarded targets: for each list of
//! inputs it is null, or exactly one target is there, which names an element of an object by an index of 64 bits.
//!
//! # Guarantees
//!
//! - `Cells::of` gives the cells of a board (`src/cells.rt`).
//! - `Cells::load` gives the words that a pointer's element holds, for all inputs that fit, and zeros where the pointer is null or points
//!   outside; `Cells::store` writes words to it where a guard holds, and changes nothing else. Both tell how many nodes they make, also after an
//!   `Err`, and end at the limit only where the graph is full (`src/loading.rt`, `src/storing.rt`; read `specs/Aims.antt`,
//!   `specs/Boards.antt`, `specs/Accesses.antt`; of c_meaning `State.antt`; of word_nodes `Nodes.antt`).
//! - `Cells::pointer` lends the pointer that an object is; `Cells::set_pointer` gives it another where a guard holds, and changes no other object
//!   (`src/pointing.rt`; read `specs/Aims.antt`, `specs/Boards.antt`; of c_meaning `State.antt`).
//! - `choose` gives one of two pointers by a truth, for all inputs that fit; its targets have the places of the two, each once where each of the
//!   two names each once (`src/choosing.rt`; read `specs/Aims.antt`). Both tell how many nodes they make, also after an `Err`, and end at the
//!   limit only where the graph is full.
//! - `part_pointer` gives a pointer to a part of what a pointer points to, as a member or a row, for all inputs that fit, and null where that is
//!   null or points outside, within its numbers of nodes and gates (`src/parts.rt`; read `specs/Aims.antt`, `specs/Parts.antt`; of c_meaning
//!   `State.antt`).
//! - `same` tells whether two pointers are equal, for all inputs that fit, within its numbers of nodes and gates (`src/equality.rt`; read
//!   `specs/Aims.antt`; of c_meaning `State.antt`).
#![tactic(auto)]

mod cells;
mod choosing;
mod equality;
mod loading;
mod parts;
mod pointing;
mod selecting;
mod storing;
mod targets;

pub use cells::{Board, Cells, Held, Zeros};
pub use choosing::choose;
pub use equality::same;
pub use parts::{Part, part_pointer};
pub use targets::{Place, Target, Targets};
