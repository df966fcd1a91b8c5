//! Circuits over words: lists of sums, differences, products, negatives and cuts, as the arithmetic sharing computes them.
//!
//! # Guarantees
//!
//! - `ring_of` gives the circuit of a module of the arithmetic class: one gate for each node, the module's values for all inputs, and its
//!   outputs by their variables (`src/part.rt`; read `specs/Part.antt`, then `specs/Ring.antt`).
//! - `RingNet::new`, `RingNet::ins`, `RingNet::gates` and `RingNet::outs` make a circuit of its parts and tell them
//!   (`src/ring.rt`; read `specs/Ring.antt`).
//! - `RingNet::value` gives the word of every variable (`src/ring.rt`; read `specs/Ring.antt`).
//! - `RingNet::products` counts the products of two variables of a width, and `RingNet::depths` the most on a path to each variable, itself
//!   counted, in one pass (`src/ring.rt`; read `specs/Ring.antt`).
//! - `RingNet::has_depths` says of every circuit that its depths are the most products on paths, and the only list that follows the
//!   recursion of that one pass (`src/ring.rt`; read `specs/Paths.antt`).
#![tactic(auto)]

mod part;
mod ring;

pub use part::ring_of;
pub use ring::{RingArg, RingGate, RingNet};
