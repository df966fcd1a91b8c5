//! The law of typed programs: where the typing of a program passes, its parts keep the rules of typed programs but those of ports.
//!
//! # Guarantees
//!
//! The crate has no calls. Its lemmas are for the proofs of crates that type a program:
//!
//! | lemma | guarantee | file | definitions to read, in order |
//! |---|---|---|---|
//! | `program-typed` | where `typing_of` of a spelled program gives parts, their structs, objects, functions, sizes and names keep the rules of typed programs; what is left are the ports | `proofs/Whole.antt` | `specs/Programs.antt` |
//! | `function-passing`, `external-passing` | after each external declaration the environment is well formed, and its functions keep the rules in each program that has no less declared | `proofs/Functions.antt`, `proofs/Externals.antt` | `IsGood` in `proofs/Functions.antt` |
//! | `head-keeps` | the parameters of a function are objects that are integers, pointers or structs | `proofs/Parameters.antt` | |
#![tactic(auto)]
