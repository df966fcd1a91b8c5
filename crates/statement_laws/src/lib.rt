//! Laws of typed statements: what stands in blocks, in each scope that a program may end with, statements that are made of parts that keep the rules
//! of typed programs, and loops that count.
//!
//! # Guarantees
//!
//! The crate has no calls. Its lemmas are for the proofs of crates that type a program:
//!
//! | lemma | guarantee | file | definitions to read, in order |
//! |---|---|---|---|
//! | `scoped-keeps` | after a walk in a scope of its own the environment is well formed, with the names of the scope around it | `proofs/Scoping.antt` | |
//! | `declarators-last`, `first-lasts` | declarators, and what a `for` begins with, keep the rules in a scope that grows | `proofs/Lasting.antt` | |
//! | `while-iteration`, `if-selection`, `switch-selection`, `block-made`, .. | a statement keeps the rules where its parts do | `proofs/Nodes.antt` | `specs/Final.antt` |
//! | `step-stepped` | where the step of a loop changes an object by its name, the declaration that the name stands for is that of the object | `proofs/Steps.antt` | `specs/Final.antt` |
//! | `counter-fits` | where a loop is given a counter, its head alone gives the object the number of turns, and nothing else changes the object | `proofs/Counters.antt` | `specs/Final.antt` |
#![tactic(auto)]
