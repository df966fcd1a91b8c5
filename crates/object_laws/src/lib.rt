//! Laws of declared objects: where the typing of a declaration passes, its initializers fill their objects, and the environment stays well formed.
//!
//! # Guarantees
//!
//! The crate has no calls. Its lemmas are for the proofs of crates that type a program:
//!
//! | lemma | guarantee | file | definitions to read, in order |
//! |---|---|---|---|
//! | `initial-keeps` | the parts of an initializer fill its object from the first cell on, and those of an object of file scope have words of their types | `proofs/Initial.antt` | `specs/Filling.antt` |
//! | `object-passing` | where a declared object passes, the environment is well formed, its cells are counted, and the object is filled | `proofs/New.antt` | `specs/Declaring.antt` |
//! | `declarator-passing`, `specs-passing`, `where-passing` | the same of whole declarators, of the specifiers before them, and of dimensions | `proofs/Declarations.antt` | `specs/Declaring.antt` |
//! | `shaped-place` | a type with few cells, whose arrays have elements, is one of objects | `proofs/Shaped.antt` | `specs/Declaring.antt` |
#![tactic(auto)]
