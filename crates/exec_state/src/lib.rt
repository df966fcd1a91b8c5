//! What it means that words stand for a run of a program on given inputs: for all guards under which its parts are executed.
//!
//! # Guarantees
//!
//! This crate has definitions and their laws alone.
//!
//! | read | for |
//! |---|---|
//! | `specs/Seen.antt` | what of values and states is seen in words: no lives, and nothing unset |
//! | `specs/Follow.antt` | an expression's value and the objects after it follow its meaning |
//! | `specs/Operands.antt` | operands of `&&` and `||` and steps of a chain that are left |
//! | `specs/Leave.antt` | a statement is left by guards, one for each way to end, as its meaning says |
//!
//! Laws that the crates above can import: `proofs/FollowLaws.antt` (expressions, one after another and under conditions),
//! `proofs/OperandLaws.antt` (operands of `&&` and `||`, arguments, steps of a chain), `proofs/LeaveLaws.antt` (statements in order, conditions), `proofs/LoopLaws.antt`
//! (turns of loops), `proofs/SeenLaws.antt`, `proofs/AccessLaws.antt` (reads and writes), `proofs/CallLaws.antt` (arguments, results of calls).
#![tactic(auto)]
