//! Boolean shares of bits, the sharing B, after GMW (STOC 1987) and ABY (NDSS 2015): two bits stand for the bit that they xor
//! to. No call takes memory.
//!
//! # Guarantees
//!
//! - `Boole` is a secret-sharing scheme: the two shares after an And or an Xor stand for its value. An And takes a Beaver triple of
//!   bits, an Xor sends nothing (`src/boole.rt`; read `src/sharing.rt` of share_core, then `specs/Operations.antt`).
//! - `BitTriple::dealt` is a role's half of the triple that one drawn word deals (`src/boole.rt`; read `specs/Boolean.antt` of
//!   share_core).
//! - `instr_send` and `instr_finish` do one party's part of an instruction of a plan at B, or of one gate of a level: inputs and
//!   openings of words, whose bits are shared one by one, and gates; `instr_sent` is how many bytes it sends
//!   (`src/instructions.rt`; read `specs/Boolean.antt` of share_core, whose `boolean_law` says what the shares stand for).
//! - `code_share` is a party's share of the bit that a code over slots means, a constant or a complement among them
//!   (`src/instructions.rt`; read the same).
//!
//! | definitions | of |
//! |---|---|
//! | `specs/Operations.antt` | the operations: their values, messages and new shares, and which triples agree |
//! | `specs/Law.antt` | the laws of the sharing, with their proofs by cases |
#![tactic(auto)]

mod bits;
mod boole;
mod instructions;

pub use boole::{BitTriple, BoolOp, Boole};
pub use instructions::{code_share, instr_finish, instr_send, instr_sent};
