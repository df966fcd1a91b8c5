//! How commands read their files and end: with a status and one printed line.
//!
//! # Guarantees
//!
//! | call | guarantee | clause | definitions to read, in order |
//! |---|---|---|---|
//! | [`read_file`] | all the bytes of a file, or the line of a fault whose cause is told: its count of failed reads rose, or it is longer than it may be | `src/reading.rt` | `specs/Lines.antt`, `specs/Reading.antt` |
//! | [`conclude`] | the line of an outcome is printed whole and its status answered; where the sink failed, some first bytes stand; where memory ran out, nothing is printed | `src/printing.rt` | `specs/Ends.antt` |
//! | [`words_fault`], [`file_fault`], [`too_long`] | the lines of faults of words and files | `src/lines.rt` | `specs/Lines.antt` |
//! | [`quoted`] | a text as JSON writes it | `src/lines.rt` | |
#![tactic(auto)]

mod lines;
mod printing;
mod reading;
mod status;

pub use lines::{file_fault, quoted, too_long, words_fault};
pub use printing::conclude;
pub use reading::read_file;
pub use status::{Line, Status, Stop};
