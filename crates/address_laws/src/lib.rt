//! The law of addresses: the objects whose addresses a typed function takes are those whose names the scan of the function marks.
//!
//! # Guarantees
//!
//! The crate has no calls. Its lemmas are for the proofs of crates that type a program:
//!
//! | lemma | guarantee | file | definitions to read, in order |
//! |---|---|---|---|
//! | `expr-traced`, `specs-traced`, `dimension-traced`, `tag-traced` | where an expression or specifiers are walked and scanned side by side, they declare the same names, and what the walk takes the address of is marked | `proofs/Sources.antt` | `specs/Following.antt`, `specs/Taking.antt` |
#![tactic(auto)]
