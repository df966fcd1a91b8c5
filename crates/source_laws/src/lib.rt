//! The law of whole source expressions and specifiers: where their typing passes, it passes with what keeps the rules of typed programs.
//!
//! # Guarantees
//!
//! The crate has no calls. Its lemmas are for the proofs of crates that type a program:
//!
//! | lemma | guarantee | file | definitions to read, in order |
//! |---|---|---|---|
//! | `expr-typed` | where the walk of a spelled expression passes in a well-formed environment, the environment after it is well formed and has no less declared, and the typed tree keeps the rules of typed programs there, with the type that the walk tells | `proofs/Sources.antt` | `specs/Spelled.antt` |
//! | `specs-typed`, `tag-typed` | the same of specifiers, structs and enums, with types of structs that stand | `proofs/Sources.antt` | `specs/Spelled.antt` |
//! | `dimension-typed` | the same of dimensions, with numbers of elements that an array may have | `proofs/Sources.antt` | `specs/Spelled.antt` |
#![tactic(auto)]
