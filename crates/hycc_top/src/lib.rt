//! The commands of hycc, from the words of the command line to the printed line.
//!
//! [`hycc`] reads the words and does what they ask. `plain` runs a program of C on two parties' inputs, by [`plain_command::plain_with`];
//! [`exec_with`] splits two parties' numbers into shares, sums them share by share as the source says, and opens the sum. What is promised of the
//! second stands in `specs/`: the form of a source and its sum in C, the form of an input, the printed lines, and what each status means.
//!
//! # Guarantees
//!
//! - `hycc` does what the words ask and prints one line: for `plain` that of [`plain_command::plain_with`], for `exec` with status 0 the C sum of the
//!   source for the inputs; each other status has its stated cause; no file is changed (`src/command.rt`; read `specs/Request.antt`, then what
//!   plain_command names, and `specs/Source.antt`, `specs/Input.antt`, `specs/Lines.antt`, `specs/Endings.antt`).
//! - `exec_with` does one run over any files, any sink and any words of the dealer, with the same promise (`src/exec.rt`; read the
//!   same).
#![tactic(auto)]

mod command;
mod exec;
mod input;
mod line;
mod outcome;
mod runner;
mod shares;
mod source;

pub use command::hycc;
pub use command_io::Status;
pub use exec::{Exec, exec_with};
pub use source::{Sum, Term};
