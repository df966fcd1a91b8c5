//! Boolean circuits as lists of And and Xor gates over numbered wires.
//!
//! # Guarantees
//!
//! - `Net::and` and `Net::xor` give the literal of an And and of an exclusive or, for all inputs: they fold and share, old literals keep
//!   value and level, and the limit comes exactly where the budget is reached and a new gate is wanted (`src/netlist.rt`; read
//!   `specs/Literal.antt`, `specs/Circuit.antt`, `specs/Meaning.antt`, `specs/Answer.antt`, `specs/Growth.antt`).
//! - `Net::new`, `Net::of`, `Net::ins`, `Net::gates`, `Net::outs`, `Net::budget`, `Net::set_outs` and `Net::with_budget` make a net of
//!   its four parts, tell them and change one (`src/netlist.rt`; read `specs/Circuit.antt`, `specs/Shape.antt`).
//! - `Net::value` gives the bit of every variable (`src/netlist.rt`; read `specs/Meaning.antt`).
//! - `Net::ands`, `Net::levels` and `Net::depth` count And gates: all of them, the most on a path to each variable, and the most on a path
//!   to an output (`src/netlist.rt`; read `specs/Meaning.antt`).
//! - `Lit::of_variable`, `Lit::complement`, `Lit::is_complement`, `Lit::plain`, `Gate::ordered_and` and `Gate::ordered_xor` make literals and
//!   gates and tell their form (`src/literal.rt`; read `specs/Literal.antt`).
//!
//! `specs/Paths.antt` says which circuits are reduced, and `specs/Spelled.antt` which words lists of literals spell. Laws that the
//! crates above can import:
//!
//! | lemmas | on |
//! |---|---|
//! | `proofs/MeaningLaws.antt` | values and levels of complements, constants, inputs and gates |
//! | `proofs/GrowthLaws.antt` | growth composes by adding, and old literals keep value and level; a stop after growth is one from the start |
//! | `proofs/ListLaws.antt` | lists of literals while a net grows: their bits, levels and numbers |
//! | `proofs/SpelledLaws.antt` | runs of inputs and constants carry the input bits and themselves, at level 0 |
#![tactic(auto)]

mod literal;
mod netlist;

pub use literal::{Gate, Lit};
pub use netlist::{Form, GATE_LIMIT, GateFault, Net, VARIABLE_LIMIT};
