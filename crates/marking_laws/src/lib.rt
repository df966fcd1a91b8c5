//! The law of addresses for statements and functions: the objects whose addresses a typed function takes are those whose names the scan of the function
//! marks.
//!
//! # Guarantees
//!
//! The crate has no calls. Its lemmas are for the proofs of crates that type a program:
//!
//! | lemma | guarantee | file | definitions to read, in order |
//! |---|---|---|---|
//! | `declarator-traced` | where a declarator is walked and scanned side by side, both declare its name, and what its initializer takes the address of is marked | `proofs/Objects.antt` | `specs/Following.antt` of address_laws, `specs/Taking.antt` |
//! | `body-traced` | the same of statements and blocks | `proofs/Trees.antt` | `specs/Following.antt` of address_laws, `specs/Taking.antt` |
//! | `whole-marked` | what a function declares and doesn't mark is an automatic object whose address the typed function doesn't take | `proofs/Functions.antt` | `specs/Marks.antt` |
//! | `typedef-declares`, `tag-declares`, `objects-declare`, `result-declares` | after each external declaration names are bound to declarations that stand, and each object has one of them | `proofs/Declared.antt` | `specs/Marks.antt` |
#![tactic(auto)]
