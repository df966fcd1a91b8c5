//! The law of constant expressions: the word of a typed expression is one of its type.
//!
//! # Guarantees
//!
//! The crate has no calls. Its lemmas are for the proofs of crates that type a program:
//!
//! | lemma | guarantee | file | definitions to read, in order |
//! |---|---|---|---|
//! | `word-of-constant` | where an expression keeps the rules of typed programs and its constant is a word, the expression is of an integer type, and the word is one of that type | `proofs/Typed.antt` | `specs/Words.antt` |
//! | `operated-lt`, `signed-lt`, `converted-lt` | an operation, a sign and a conversion of any two words give a word of the type of their result | `proofs/Bounds.antt` | |
#![tactic(auto)]
