//! Laws from the typing of source expressions to the rules that a typed program keeps.
//!
//! # Guarantees
//!
//! The crate has no calls. Its lemmas are for the proofs of crates that type a program:
//!
//! | lemma | guarantee | file | definitions to read, in order |
//! |---|---|---|---|
//! | `grown-expr`, `grown-lvalue` | what is typed in a scope is typed, with the same type, in a scope with more structs, objects and functions at the end | `proofs/Kept.antt` | `specs/Scopes.antt` |
//! | `value-typed` | the value of a typed place or value is typed | `proofs/Valued.antt` | `specs/Values.antt` |
//! | `chain-typed`, `disjunction-typed`, `conjunction-typed` | operands on the left of an operator, with one more, are typed | `proofs/Forms.antt` | `specs/Values.antt` |
//! | `integers-chosen`, `pointers-chosen`, `call-typed` | a choice or a call of typed parts is typed | `proofs/Forms.antt` | `specs/Values.antt` |
//! | `address-passing`, `indirection-passing`, `not-passing`, `sign-passing` | where the typing of a unary operator passes, it passes with what is typed | `proofs/Unary.antt` | `specs/Values.antt`, `specs/Passing.antt` |
//! | `subscript-passing`, `cast-passing`, `member-passing`, `arrow-passing` | the same of subscripts, casts and members | `proofs/Postfix.antt` | `specs/Values.antt`, `specs/Passing.antt` |
//! | `name-passing` | the same of names | `proofs/Environments.antt` | `specs/Environments.antt` |
//! | `members-plain` | the members of structs that fit are of types without pointers | `proofs/Structs.antt` | `specs/Passing.antt` |
#![tactic(auto)]
