//! What C's rules of types make of operators, assignments and casts (C11 6.3 and 6.5): the conversions that a typed program writes out and the
//! operation on what is converted, or the rule that is broken.
//!
//! An operator sees of an operand only whether it is an integer, a null pointer constant, a pointer or a struct. So each rule is a
//! function of such plain values, and stands in `specs/` as one line a case.
//!
//! # Guarantees
//!
//! | call | guarantee | clause | definitions to read, in order |
//! |---|---|---|---|
//! | [`promoted`], [`usual`], [`conversion_between`] | the integer promotions and the usual arithmetic conversions | `src/scalars.rt` | `specs/Scalars.antt` |
//! | [`same_type`], [`cells`], [`kind`], [`copy`] | whether two types are the same, the cells of a type, what kind of value it has | `src/types.rt` | `specs/CTypes.antt` |
//! | [`combined`], [`changed`], [`chosen`], [`assigned`], [`signed`], [`is_condition`], [`cast`] | the conversions and the operation of each operator, or how a rule is broken | `src/operators.rt`, `src/assignments.rt` | `specs/Operators.antt` |
#![tactic(auto)]

mod assignments;
mod fault;
mod operands;
mod operators;
mod scalars;
mod types;

pub use assignments::{Promotion, assigned, cast, is_condition, signed};
pub use fault::{TypeFault, TypeKind};
pub use operands::{Operand, Pointees};
pub use operators::{
    Branches, Change, Combination, Operator, changed, chosen, combined, operator_in, operator_of,
};
pub use scalars::{conversion_between, promoted, usual};
pub use types::{MAX_CELLS, cells, copy, kind, same_type};
