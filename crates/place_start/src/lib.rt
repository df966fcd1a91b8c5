//! The objects of a program at the begin of `mpc_main`, as words of a graph (C11 5.1.2.2.1, 6.7.9p10).
//!
//! # Guarantees
//!
//! - `start` gives the cells of all objects of a typed program, for all inputs: words that an object of file scope begins with, the inputs in
//!   the parameters of `mpc_main` and in the arrays that they point to, and 0 or null elsewhere. It tells the layout of the objects, which
//!   inputs fit, and how many nodes it makes, also after an `Err`, and ends at the limit only where the graph is full (`src/starting.rt`; read
//!   `specs/Starts.antt`; of c_place `Boards.antt`; of c_meaning `Programs.antt`).
#![tactic(auto)]

mod arguments;
mod starting;

pub use arguments::Argument;
pub use starting::start;
