//! Laws of the walk that types source expressions: each production, on walks of its parts that keep the rules of typed programs, keeps them.
//!
//! # Guarantees
//!
//! The crate has no calls. Its lemmas are for the proofs of crates that type a program:
//!
//! | lemma | guarantee | file | definitions to read, in order |
//! |---|---|---|---|
//! | `combine-passing`, `choose-passing`, `assigned-passing`, `calls-passing` | where the typing of a binary operator, of `?:`, of an assigned value or of a call passes, it passes with what is typed | `proofs/Joined.antt`, `proofs/Calls.antt` | `specs/Keeping.antt` |
//! | `value-kept`, `typing-kept` | what is typed in a well-formed environment is typed where more is declared | `proofs/Weakened.antt` | `specs/Keeping.antt` |
//! | `name-keeps`, `literal-keeps`, `call-keeps`, `postfix-keeps`, `unary-keeps`, `cast-keeps`, `chain-keeps`, `conditional-keeps` | an expression whose parts are walked with what is typed, in environments that stay well formed and only grow, is so itself | `proofs/Walked.antt` | `specs/Keeping.antt` |
#![tactic(auto)]
