//! The law of statements as whole trees: where their typing passes, they keep the rules of typed programs.
//!
//! # Guarantees
//!
//! The crate has no calls. Its lemmas are for the proofs of crates that type a program:
//!
//! | lemma | guarantee | file | definitions to read, in order |
//! |---|---|---|---|
//! | `block-typed`, `statement-typed` | where the walk of a spelled block or statement passes in a well-formed environment, the environment after it is well formed and has no less declared, and the typed tree keeps the rules of typed programs,, in each scope that a program may end with | `proofs/Trees.antt` | `specs/Statements.antt`, and `specs/Final.antt` of statement_laws |
//! | `counter-few` | the number of turns that the head of a loop gives is few | `proofs/Bounds.antt` | |
//! | `block-jumps-are` | each jump of a typed block leaves a loop or a `switch` that stands around it | `proofs/Jumps.antt` | `specs/Jumping.antt` |
//! | `labels-keep` | the labels of a `switch` are words of its type, and none stands twice | `proofs/Labelling.antt` | `LabelsAre` in `specs/Statements.antt` |
#![tactic(auto)]
