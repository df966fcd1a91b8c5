//! The tokens of a source text (C11 6.4) with their places, and the trees of programs as they are written (C11 6.5 to 6.9).
//!
//! A tree has a struct or a variant for each production of the grammar, with its parts in their order. What its tokens
//! are is a function of the tree: the pieces that it wants, one for each token, with their nesting.
//!
//! # Guarantees
//!
//! | call | guarantee | clause | definitions to read, in order |
//! |---|---|---|---|
//! | [`Token::copy_at`] | a copy differs from its token in the place alone | `src/token.rt` | none |
//! | [`Tokens`] | a list of tokens ends with its only end, has fewer than 2^32 tokens, and its names, numbers and bounds are in their ranges | `src/token.rt` | `specs/Names.antt`, `specs/TokenLists.antt` |
//! | [`Program`] | a program is of the grammar, its names, numbers and bounds are in their ranges, and its tokens are fewer than 2^32 | `src/program.rt` | `specs/Pieces.antt`, `specs/Operators.antt`, `specs/Expressions.antt`, `specs/Types.antt`, `specs/Declarations.antt`, `specs/Statements.antt`, `specs/Programs.antt` |
//!
//! `specs/Folds.antt` and `specs/StatementFolds.antt` apply the productions to whole trees. Crates above can import from
//! `proofs/` what a tree wants and whether it is of the grammar, by its parts, and trees by their outermost layer.
#![tactic(auto)]

mod brackets;
mod expressions;
mod places;
mod program;
mod programs;
mod spelled;
mod statements;
mod token;

pub use expressions::{
    BinaryOperator, Dimension, Enumerator, Expr, Identifier, Literal, Operand, Specifiers,
    StructDeclaration, StructDeclarator, Suffix, TagSpecifier, TrailingComma, TypeSpecifier,
    TypeWord, UnaryOperator,
};
pub use program::Program;
pub use programs::{
    ExternalDeclaration, Function, FunctionSpecifiers, Parameter, Parameters, StaticSpecifier,
};
pub use spelled::{SpelledType, spelled_type};
pub use statements::{
    AssignmentOperator, Block, BlockItem, Declaration, ExpressionStatement, First, InitDeclarator,
    Initialization, Initializer, Iteration, Label, LabelledSection, LoopBound, Pointer, Selection,
    Statement, Step,
};
pub use token::{Place, Token, TokenKind, Tokens};
