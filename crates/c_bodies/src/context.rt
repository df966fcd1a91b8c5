//! What stands around a statement, and parts of statements that are typed.

use c_heads::Labelled;
use c_meaning::{Controlling, TypedExpr, TypedFirst, TypedItem, TypedSection, TypedStep};
use hy_bits::Scalar;
use sqlite_items::Items;

/// What stands around a statement: whether `break` and `continue` may leave something.
#[derive(Clone, Copy, Debug, PartialEq, Eq)]
pub struct Around {
    pub breaks: bool,
    pub continues: bool,
}

/// The items of a block so far, and the number of its own tokens.
#[derive(Drop)]
pub struct ItemList {
    pub tokens: u32,
    pub items: Items<TypedItem>,
}

/// The sections of a `switch` so far, and its labels.
#[derive(Drop)]
pub struct Sections {
    pub labelled: Labelled,
    pub sections: Items<TypedSection>,
}

/// The head of a `for`, and the number of the declaration of what its step changes.
#[derive(Drop)]
pub struct ForHead {
    pub first: TypedFirst,
    pub condition: Option<Controlling>,
    pub number: Option<u32>,
    pub step: Option<TypedStep>,
}

/// What a `switch` is on, promoted to the type.
#[derive(Drop)]
pub struct Switched {
    pub scalar: Scalar,
    pub value: TypedExpr,
}
