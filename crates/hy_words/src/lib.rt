//! The request of the program's words.
//!
//! # Guarantees
//!
//! - `request` gives the command that the words name with its values, exactly where the words are of that command
//!   (`src/words.rt`; read `specs/Commands.antt`, `specs/Words.antt`, `specs/Readings.antt`, then `specs/Request.antt`).
#![tactic(auto)]

mod command;
mod fault;
mod matches;
mod readings;
mod requests;
mod words;

pub use fault::WordsFault;
pub use requests::{Exec, Request};
pub use words::request;
