//! Typed programs, what they mean and how large their runs are.
//!
//! A typed program is a tree of C's grammar in which names are numbers of objects, members and functions, each conversion is
//! written out, and each loop has the bound of its turns. What it means is a function of its input words: evaluation goes from
//! left to right over objects that are lists of cells, and tells the first operation that C11 leaves undefined. Every operation
//! has a value all the same. A run in which a loop's condition still holds after the bound of its turns is past its bound.
//!
//! # Guarantees
//!
//! | call | guarantee | clause | definitions to read, in order |
//! |---|---|---|---|
//! | [`Typed::new`], [`Typed::parts`] | a typed program keeps the rules of C's types, node by node, and has the sizes of its runs | `src/typed.rt` | `specs/TypeRules.antt`, `specs/Rules.antt`, `specs/Counting.antt`, `specs/StatementRules.antt`, `specs/Sizes.antt`, `specs/SizeFolds.antt` |
//! | [`operate`], [`undefined`], [`compare`], [`apply_sign`], [`undefined_unary`], [`convert`], [`word_of`] | operations on integers have C's words, or where C leaves them undefined the stated ones, and tell how they are undefined | `src/arithmetic.rt` | `specs/Operations.antt` |
//!
//! What a program means is stated, and stands in no clause of this crate:
//!
//! | file | what it defines |
//! |---|---|
//! | `specs/State.antt` | objects as cells with lives, pointers, and the state of a run |
//! | `specs/Expressions.antt`, `specs/ExpressionFolds.antt` | the value of an expression and what an lvalue designates: a rule a production, and the rules over whole trees |
//! | `specs/Statements.antt`, `specs/StatementFolds.antt` | what a statement does and how it ends |
//! | `specs/Programs.antt` | the outcome of a program's run on input words |
//! | `specs/Types.antt` | the cells and shapes of types |
//! | `specs/Constants.antt` | the words of constant expressions |
//! | `specs/Uses.antt` | the objects that a function assigns to, and those of which it takes the address |
#![tactic(auto)]

mod arithmetic;
mod expressions;
mod operators;
mod programs;
mod statements;
mod typed;
mod types;
mod values;

pub use arithmetic::{apply_sign, compare, convert, operate, undefined, undefined_unary, word_of};
pub use expressions::{ChainStep, LogicalOperand, Lvalue, TypedExpr};
pub use operators::{
    ArithmeticOperator, ArithmeticSign, Comparison, Conversion, Direction, Equality,
    IntegerOperation, Operation, ShiftOperator, Written,
};
pub use programs::TypedFunction;
pub use statements::{
    Controlling, Counter, Part, TypedBlock, TypedDeclarator, TypedEffect, TypedFirst, TypedItem,
    TypedIteration, TypedLabel, TypedSection, TypedSelection, TypedStatement, TypedStep,
};
pub use typed::{Typed, TypedParts};
pub use types::{CType, Member, Object, Qualifier, StructType, ValueKind};
pub use values::{Bound, Cell, Ending, Pointer, Run, Undefined, UndefinedAt};
