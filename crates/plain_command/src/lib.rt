//! The command `plain`: a program of C, run on two parties' inputs without circuits.
//!
//! # Guarantees
//!
//! | call | guarantee | clause | definitions to read, in order |
//! |---|---|---|---|
//! | [`plain_with`] | the run of the source's program on the inputs is C's, and its line has the words of the result, whether a loop passed its bound, and the first undefined operation; every other ending has its cause; a job of the form ends well or wants memory | `src/command.rt` | `specs/Lines.antt`, `specs/Endings.antt`, then `specs/Reading.antt` and `specs/Ends.antt` of command_io, `specs/Front.antt` of c_front, `specs/Faults.antt` of fault_lines, `both_words` of json_values, `outcome` of c_meaning |
#![tactic(auto)]

mod answer;
mod command;
mod line;

pub use command::{Plain, plain_with};
