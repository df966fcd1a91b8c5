//! The rules of expressions and of the specifiers of types (C11 6.5, 6.7.2), a production each, on parts that are typed: the typed
//! expression or the type, or the first rule that is broken.
//!
//! A walk over a program's text goes from left to right and from the parts to the whole, and changes what is declared. So a rule is a function of
//! what the parts are and of what is declared, and gives what the whole is and what is declared after it, or breaks at a place. A crate
//! above walks the trees; the order of its walks is the order in which faults are found.
//!
//! # Guarantees
//!
//! | call | guarantee | clause | definitions to read, in order |
//! |---|---|---|---|
//! | [`name_typing`], [`literal_typing`], [`calls`], [`subscript`], [`member_typing`], [`arrow_typing`], [`address_typing`], [`indirection_typing`], [`not_typing`], [`sign_typing`], [`cast_from`], [`combine`], [`choose`] | an expression's type with its conversions, by its parts, or how a rule is broken and where | `src/names.rt`, `src/calling.rt`, `src/postfix.rt`, `src/unary.rt`, `src/chains.rt`, `src/conditional.rt` | `specs/Walks.antt`, `specs/Values.antt`, `specs/Expressions.antt` |
//! | [`assigned_to`] | a value made one of an object's type, or how it doesn't fit | `src/names.rt` | `specs/Values.antt`, `specs/Expressions.antt` |
//! | [`value`], [`scalar`], [`kind_operand`], [`converted`] | an expression in a value's place, what it is to an operator, and a conversion written out | `src/values.rt` | `specs/Values.antt` |
//! | [`type_name_typing`], [`qualified`], [`object_type`], [`struct_reference`], [`enum_reference`], [`struct_alone`], [`enum_tag`], [`open_struct`], [`add_member`], [`close_struct`], [`int_constant`], [`next_word`], [`dimension`], [`array_of`] | the type that specifiers name, what they declare, or how a rule is broken and where | `src/specifiers.rt`, `src/tags.rt`, `src/structs.rt` | `specs/Walks.antt`, `specs/Specifiers.antt` |
//!
//! Crates above can import `proofs/WalkLaws.antt`.
#![tactic(auto)]

mod calling;
mod chains;
mod conditional;
mod environment;
mod names;
mod postfix;
mod specifiers;
mod structs;
mod tags;
mod unary;
mod values;

pub use calling::{calls, is_recursive};
pub use chains::{Form, Left, combine};
pub use conditional::choose;
pub use environment::{Entity, Environment, QualifiedType, Tag};
pub use names::{assigned_to, entity, literal_typing, name_typing};
pub use postfix::{arrow_typing, member_typing, subscript};
pub use specifiers::{
    array_of, dimension, int_constant, next_word, object_type, qualified, spelled, type_name_typing,
};
pub use structs::{Members, add_member};
pub use tags::{
    close_struct, declare_entity, enum_reference, enum_tag, is_free, open_struct, struct_alone,
    struct_reference,
};
pub use unary::{address_typing, cast_from, indirection_typing, not_typing, sign_typing};
pub use values::{TypedValue, Typing, converted, kind_operand, scalar, value};
