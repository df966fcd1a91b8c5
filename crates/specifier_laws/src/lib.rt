//! Laws of the walk that types specifiers, structs, enums and dimensions: what they declare keeps environments well formed.
//!
//! # Guarantees
//!
//! The crate has no calls. Its lemmas are for the proofs of crates that type a program:
//!
//! | lemma | guarantee | file | definitions to read, in order |
//! |---|---|---|---|
//! | `struct-closed` | an environment with the struct of members that fill it is well formed | `proofs/Closing.antt` | `specs/Declared.antt` |
//! | `add-passing`, `members-kept` | a member more fills what the members so far leave, and they stay so where more is declared | `proofs/Filling.antt` | `specs/Declared.antt` |
//! | `entity-well`, `tag-well`, `put-well` | an environment with one name or one tag more is well formed | `proofs/Declaring.antt` | |
//! | `words-keep`, `type-name-keeps`, `struct-keeps`, `enum-keeps`, `member-declaration-keeps`, `declarator-keeps`, `enumerator-keeps`, `size-keeps` | specifiers, bodies and dimensions whose parts are walked by the rules keep environments well formed, and name types of structs that stand | `proofs/Bodies.antt` | `specs/Declared.antt` |
#![tactic(auto)]
