//! The statuses and the printed lines of faults of sources and inputs.
//!
//! # Guarantees
//!
//! | call | guarantee | clause | definitions to read, in order |
//! |---|---|---|---|
//! | [`source_fault`] | the status and the line of the fault of a source | `src/source.rt` | `specs/Faults.antt` |
//! | [`input_fault`] | the status and the line of the fault of an input | `src/input.rt` | `specs/Faults.antt` |
#![tactic(auto)]

mod input;
mod source;
mod text;

pub use input::input_fault;
pub use source::source_fault;
pub use text::text_of_bytes;
