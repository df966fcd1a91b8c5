//! Products as Boolean circuits: rows added one after another, with few ANDs, or a carry-save tree and a prefix adder, with few ANDs on
//! every path. Lists of literals have the lowest bit first.
//!
//! # Guarantees
//!
//! - `product` gives the product of two words modulo two to their length, for all inputs and every length, with at most the stated And
//!   gates in the compact form and the stated depth in the shallow one, and within the stated number of gates also where it ends in an
//!   Err (`src/products.rt`; read `Words.antt` of hy_bits for the answer; `Spelled.antt` and `Growth.antt` of gate_net, and `Sizes.antt`
//!   of hy_bits, for the gates).
#![tactic(auto)]

mod carry_save;
mod products;
mod rows;

pub use products::product;
