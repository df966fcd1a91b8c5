//! Laws of the tables of operators, choices and assignments: what they give keeps the rules that a typed program keeps.
//!
//! # Guarantees
//!
//! The crate has no calls. Its lemmas are for the proofs of crates that type a program:
//!
//! | lemma | guarantee | file | definitions to read, in order |
//! |---|---|---|---|
//! | `combination-fits` | the conversions and the operation of a binary operator fit what stands on its left and on its right, and the result has the type that typing tells | `proofs/Tables.antt` | `CombinationFits` there |
//! | `choice-fits` | the conversions and the branches of `?:` fit its second and third operand, and the result has the type that typing tells | `proofs/Choices.antt` | `ChoiceFits` there |
//! | `assigned-fits` | what is assigned to an object of a type, by its conversion, is assignable to it | `proofs/Assigning.antt` | `Becomes` there |
//! | `sign-fits`, `cast-gives`, `change-fits` | the operand of a sign has the promoted type, a cast is to an integer type, and a change of a place fits the place and the value | `proofs/Changes.antt` | `SignFits`, `ChangeFits` there |
//! | `same-type-is` | types that compare as the same are the same | `proofs/CTypes.antt` | |
#![tactic(auto)]
