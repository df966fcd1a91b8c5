//! A list of instructions under way: how one is put after the others with the shares that it makes, the conversions of words from one
//! sharing to another, and the gates of a circuit depth by depth (ABY, NDSS 2015).
//!
//! # Guarantees
//!
//! - `Script::new`, `Script::put`, `Script::make_word`, `Script::make_bits`, `Script::add_shares`, `Script::add_code`, `Script::add_gate` and
//!   `Script::garble` change a list as they are defined, or want memory; `Script::instrs`, `Script::gates`, `Script::codes`, `Script::shares`
//!   and `Script::garbled` tell its parts (`src/script.rt`; read `specs/Script.antt`).
//! - `convert` puts a conversion: A2Y, A2B, B2A, B2Y, Y2A or Y2B (`src/conversions.rt`; read `specs/Conversions.antt`).
//! - `net_instrs` and `ring_instrs` give the gates of a circuit of bits or of words as instructions, `lit_code` and `variable_code` the codes of
//!   literals and variables (`src/gates.rt`; read `specs/Gates.antt`).
//! - `add_by_depth` puts gates by depth, one level for all gates of a depth that need a message, in time that grows with the numbers of
//!   gates and of depths (`src/levels.rt`; read `specs/Levels.antt`).
//! - `instr`, `share_code`, `count`, `sum` and `empty_lists` serve the crates above (`src/conversions.rt`, `src/script.rt`, `src/levels.rt`).
//!
//! A number that 32 bits don't hold is answered as want of memory: shares or codes of such a number would take more than there is.
//!
//! Laws that the crates above can import: `proofs/ListLaws.antt` has loops as folds over the elements so far, and over the numbers below a number;
//! `proofs/BucketLaws.antt` has the places of gates by depth.
#![tactic(auto)]

mod conversions;
mod gates;
mod levels;
mod script;

pub use conversions::{convert, instr};
pub use gates::{lit_code, net_instrs, ring_instrs, variable_code};
pub use levels::{add_by_depth, empty_lists};
pub use script::{Script, count, share_code, sum};
