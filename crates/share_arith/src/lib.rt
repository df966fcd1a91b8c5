//! Arithmetic shares of words, the sharing A, after ABY (NDSS 2015): two numbers stand for the word that they add up to,
//! modulo two to the width. No call takes memory.
//!
//! Shares and dealt numbers may be any numbers; what is sent and what a party ends with are words.
//!
//! # Guarantees
//!
//! - `Arith` is a secret-sharing scheme: the two shares after an operation stand for its value. Sums, differences, negation and cuts
//!   to a narrower width send nothing; a product takes a Beaver triple (`src/arith.rt`; read `src/sharing.rt` of share_core, then
//!   `specs/Operations.antt`).
//! - `local_share` is a party's share after an instruction for which nothing is sent (`src/instructions.rt`; read `specs/Instructions.antt`
//!   of share_core).
//! - `instr_send` and `instr_finish` do one party's part of an instruction of a plan at A, or of one gate of a level: inputs,
//!   operations with constants and openings among them; `instr_sent` is how many bytes it sends (`src/instructions.rt`; read
//!   `specs/Instructions.antt` of share_core, whose `instr_law` says what the shares stand for).
//! - `share` splits a word by a dealt one, `opened` gives back the word that two shares stand for, and `add` one party's share of a sum
//!   (`src/words.rt`; read `specs/Arithmetic.antt` of share_core).
//!
//! | definitions | of |
//! |---|---|
//! | `specs/Operations.antt` | the operations: their values, messages and new shares, and which triples agree |
//! | `specs/Law.antt` | the laws of the sharing, with their proofs by cases |
//!
//! `proofs/Laws.antt` has what callers of `share`, `opened` and `add` need: shares that are added share by share stand for
//! the sum.
#![tactic(auto)]

mod arith;
mod instructions;
mod words;

pub use arith::{Arith, ArithOp, Triple};
pub use instructions::{instr_finish, instr_send, instr_sent, local_share};
pub use words::{add, opened, share};
