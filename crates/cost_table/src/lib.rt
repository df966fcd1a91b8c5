//! The text of a cost table: one JSON object with the 37 numbers of a table.
//!
//! [`table_of`] answers the table, or the first fault. What a text says as JSON is `serde_json`'s
//! meaning of it; what the value says as a table stands in `specs/Tables.antt`.
//!
//! # Guarantees
//!
//! - `table_of` gives the 37 numbers of a text, or the first fault with the name of its member (`src/tables.rt`; read
//!   `specs/Tables.antt`, then `specs/Names.antt`).
#![tactic(auto)]

mod extras;
mod fault;
mod names;
mod numbers;
mod tables;

pub use fault::TableFault;
pub use tables::table_of;
