//! Laws of expression statements and conditions: where their typing passes, it passes with what keeps the rules of typed programs.
//!
//! # Guarantees
//!
//! The crate has no calls. Its lemmas are for the proofs of crates that type a program:
//!
//! | lemma | guarantee | file | definitions to read, in order |
//! |---|---|---|---|
//! | `effect-keeps` | where the typing of an assignment, a step or a call passes in a well-formed environment, the environment after it is well formed and has no less declared, and the effect keeps the rules of typed programs there | `proofs/Effects.antt` | `specs/Simple.antt` |
//! | `condition-keeps`, `controlling-where-keeps`, `step-where-keeps` | the same of conditions and of the steps of loops | `proofs/Conditions.antt` | `specs/Simple.antt` |
//! | `effect-lasts`, `condition-lasts`, `assignable-lasts` | what keeps the rules does so where more is declared | `proofs/Lasting.antt` | `specs/Simple.antt` |
#![tactic(auto)]
