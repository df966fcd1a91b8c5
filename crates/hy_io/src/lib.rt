//! What stands outside the program: files by name, and a sink that takes bytes.
//!
//! Every layer above works over the traits [`Files`] and [`Sink`], whose contracts say what an object holds, where it
//! tells, and count its faults, so that a fault can be answered only where the outside had one. [`MemFiles`] and
//! [`MemSink`] hold everything in memory and fail where they are told to; [`RealFiles`] and [`RealSink`] are the
//! operating system's files and standard output, of which nothing is known.
//!
//! # Guarantees
//!
//! - `Files::read` gives the first bytes of what is held and changes nothing; `Files::write` leaves exactly the bytes, or after a
//!   fault some first ones or what was there, and all other names stay; a fault comes only where its count rose (`src/outside.rt`; read
//!   `specs/Outside.antt`).
//! - `Sink::write` appends some first bytes of what it is given, or faults, and its count of faults rises (`src/outside.rt`; read
//!   `specs/Outside.antt`).
//! - `MemFiles` and `MemSink` fail exactly at the calls that they were told to (`src/mem_files.rt`, `src/mem_sink.rt`; read
//!   `specs/Disk.antt` and `specs/Tape.antt`).
#![tactic(auto)]

mod counts;
mod file;
mod mem_files;
mod mem_sink;
mod outside;
mod real;

pub use mem_files::MemFiles;
pub use mem_sink::MemSink;
pub use outside::{Failed, FileError, Files, Sink};
pub use real::{RealFiles, RealSink};
