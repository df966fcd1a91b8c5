//! How expression statements, declarations with their initializers and parameters are read from tokens (C11 6.5.16, 6.7, 6.8.3,
//! 6.9.1), and that a list of tokens spells one of each at most.
//!
//! The trees are those of `c_tree`, which says of each tree which tokens it wants, and the readers those of `c_expr` and what
//! stands here. They stand as definitions, by the first token at each place. That they read the grammar, all of it and nothing
//! else, is proved of them at every level of nesting; from that follow the laws here. The methods of [`Rules`] read what the
//! definitions say.
//!
//! # Guarantees
//!
//! | call | guarantee | clause | definitions to read, in order |
//! |---|---|---|---|
//! | [`one_simple_statement`], [`one_declaration`], [`one_parameter_list`] | a list of tokens spells one expression statement, one declaration and one list of parameters at most | `src/laws.rt` | those of `c_tree` |
//! | [`Rules`] | what stands at the front of a list is read as its reader says | `src/declaration.rt`, `src/simple_statement.rt`, `src/parameter_list.rt` | `specs/Marks.antt`, `specs/ExpressionStatements.antt`, `specs/Declarations.antt`, `specs/Bare.antt`, `specs/Parameters.antt` |
//! | [`bare_tag`] | a type that is a tag alone gives its tag, and another comes back | `src/bare.rt` | `specs/Bare.antt` |
//! | [`is_step`] | whether a token is `++` or `--` | `src/tables.rt` | `specs/Marks.antt` |
//!
//! Crates above can import `simple_reads`, `objects_reads` and `parameters_reads` of the proofs of `ExpressionStatements`,
//! `Declarations` and `Parameters`: the readers read just the trees of the grammar, where what stands after them stops them.
//! `proofs/Declarations.antt` has the same of the declaration of a type that was read before, and of one whose first name was;
//! `proofs/Baring.antt` says which types `tag_of` and `void_of` find; and `proofs/Sizing.antt` that the readers answer alike for
//! all numbers of tokens that a list may have.
#![tactic(auto)]

mod bare;
mod declaration;
mod laws;
mod parameter_list;
mod rules;
mod simple_statement;
mod tables;

pub use bare::bare_tag;
pub use laws::{one_declaration, one_parameter_list, one_simple_statement};
pub use rules::Rules;
pub use tables::is_step;
