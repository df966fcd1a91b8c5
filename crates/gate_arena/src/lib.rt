//! An arena of gates: a circuit whose gates can be added, replaced and walked by their uses.
//!
//! # Guarantees
//!
//! - `Arena::of` holds a net's inputs, gates, outputs and budget, with the net's values (`src/arena.rt`; read `specs/Wiring.antt`,
//!   `specs/Values.antt`).
//! - `Arena::add` makes a gate, and everything keeps its value (`src/arena.rt`; read `specs/Values.antt`).
//! - `Arena::replace` moves every use of a variable to a literal that doesn't depend on it; where the two have the same values, everything
//!   keeps its value (`src/arena.rt`; read `specs/Change.antt`, `specs/Paths.antt`, `specs/Values.antt`).
//! - `Arena::uses` walks the input places that hold a variable, each once (`src/arena.rt`; read `specs/Wiring.antt`).
//! - `Arena::net` gives the gates that reach an output, in the order in which a depth-first walk ends them, with the outputs' values
//!   (`src/arena.rt`; read `specs/Order.antt`, `specs/Values.antt`).
//! - `Arena::ins`, `Arena::nodes`, `Arena::outs` and `Arena::gate` tell the parts, and `Arena::has_values` what is true of every arena
//!   (`src/arena.rt`; read `specs/Wiring.antt`, `specs/Paths.antt`).
//!
//! Laws that the crates above can import:
//!
//! | lemma | says |
//! |---|---|
//! | `proofs/ReachLaws.antt`, `IsReachedOrder-walk` | the order of `net()` has exactly the places of the gates that reach an output, each once |
//! | `proofs/NormalLaws.antt`, `IsReduced-ordered` | the net is reduced where no gate that reaches an output has a constant, one variable twice, a complement in an Xor, or an equal (`specs/Normal.antt`) |
//! | `proofs/CountLaws.antt`, `counts-ordered` | the net has no more gates and no more And gates than the arena |
//! | `proofs/LevelLaws.antt` | a wire has one level at most (`specs/Levels.antt`), `add` keeps it, and `replace` by a literal of no greater level raises none |
//! | `proofs/NetLevelLaws.antt` | the arena of a net has its levels, and an output has in `net()` the level that it has in the arena |
//! | `proofs/RankLaws.antt` | a rank that falls along inputs says what a wire doesn't depend on; a circuit in order has one, and `add` and `replace` keep it (`specs/Paths.antt`) |
//! | `proofs/ValueLaws.antt`, `KeepsValues-then` | changes that keep values compose |
//! | `proofs/CallerLaws.antt` | what a caller knows of a gate's inputs |
#![tactic(auto)]

mod arena;
mod outs;
mod walk;
mod wires;

pub use arena::Arena;
