use crate::expressions::{Lvalue, TypedExpr};
use crate::operators::{Direction, IntegerOperation, Written};
use crate::types::ValueKind;
use c_tree::Place;
use hy_bits::Scalar;
use sqlite_items::{Boxed, Items};

/// The expression of an expression statement (C11 6.8.3), at the place of its operator.
#[derive(Drop)]
pub enum TypedEffect {
    /// `=`, of a value of the kind.
    Assignment {
        place: Place,
        target: Lvalue,
        kind: ValueKind,
        value: TypedExpr,
    },
    /// An integer of the type `scalar` that is changed by an operation.
    Compound {
        written: Written,
        place: Place,
        target: Lvalue,
        scalar: Scalar,
        operation: IntegerOperation,
        value: TypedExpr,
    },
    /// A pointer that is moved by an integer of the type `scalar`.
    Advance {
        written: Written,
        place: Place,
        target: Lvalue,
        direction: Direction,
        scalar: Scalar,
        value: TypedExpr,
    },
    Call(TypedExpr),
}

/// An expression that is stored from a cell of a declared object on. `value` is `None` where that cell begins at zero.
#[derive(Drop)]
pub struct Part {
    pub cell: u32,
    pub kind: ValueKind,
    pub value: Option<TypedExpr>,
}

/// A declared object without static storage, with its initializer's parts in the order of cells, if it has one.
#[derive(Drop)]
pub struct TypedDeclarator {
    pub object: u32,
    pub start: Option<Items<Part>>,
}

/// A controlling expression, and the number of its tokens.
#[derive(Drop)]
pub struct Controlling {
    pub tokens: u32,
    pub value: TypedExpr,
}

/// The first part of a `for`.
#[derive(Drop)]
pub enum TypedFirst {
    Nothing,
    Objects(Items<TypedDeclarator>),
    Effect(TypedEffect),
}

/// The last part of the head of a `for`, and the number of its tokens.
#[derive(Drop)]
pub struct TypedStep {
    pub tokens: u32,
    pub effect: TypedEffect,
}

/// The object that a loop counts by, and the number of turns that it counts.
#[derive(Clone, Copy, Debug, PartialEq, Eq)]
pub struct Counter {
    pub object: u32,
    pub turns: u32,
}

/// A label of a `switch` (C11 6.8.1): a word of the type of what is switched on.
#[derive(Clone, Copy, Debug, PartialEq, Eq)]
pub enum TypedLabel {
    Case(u64),
    Default,
}

/// A statement (C11 6.8). `tokens` is the number of tokens of its own: those that no statement in it and no controlling
/// expression or step of a loop has.
#[cycle(typed_statements)]
#[derive(Drop)]
pub enum TypedStatement {
    Block(Boxed<TypedBlock>),
    Empty,
    Effect {
        tokens: u32,
        effect: Boxed<TypedEffect>,
    },
    Break,
    Continue,
    /// `return`, with a value of the kind, which is `Void` where there is none.
    Return {
        tokens: u32,
        kind: ValueKind,
        value: Boxed<Option<TypedExpr>>,
    },
    Selection(Boxed<TypedSelection>),
    Iteration(Boxed<TypedIteration>),
}

/// A selection statement (C11 6.8.4).
#[cycle(typed_statements)]
#[derive(Drop)]
pub enum TypedSelection {
    If {
        tokens: u32,
        condition: TypedExpr,
        then: TypedStatement,
        otherwise: Option<TypedStatement>,
    },
    /// What is switched on has the type `scalar`.
    Switch {
        tokens: u32,
        scalar: Scalar,
        value: TypedExpr,
        sections: Items<TypedSection>,
    },
}

/// An iteration statement (C11 6.8.5) with the bound of its turns.
#[cycle(typed_statements)]
#[derive(Drop)]
pub enum TypedIteration {
    While {
        tokens: u32,
        bound: u32,
        condition: Controlling,
        body: TypedStatement,
    },
    Do {
        tokens: u32,
        bound: u32,
        body: TypedStatement,
        condition: Controlling,
    },
    For {
        tokens: u32,
        bound: u32,
        counter: Option<Counter>,
        first: TypedFirst,
        condition: Option<Controlling>,
        step: Option<TypedStep>,
        body: TypedStatement,
    },
}

/// Labels of a `switch`, and the statements after them.
#[cycle(typed_statements)]
#[derive(Drop)]
pub struct TypedSection {
    pub labels: Items<TypedLabel>,
    pub statements: Items<TypedStatement>,
}

/// A compound statement (C11 6.8.2).
#[cycle(typed_statements)]
#[derive(Drop)]
pub struct TypedBlock {
    pub tokens: u32,
    pub items: Items<TypedItem>,
}

/// An item of a block.
#[cycle(typed_statements)]
#[derive(Drop)]
pub enum TypedItem {
    Statement(TypedStatement),
    Object(Boxed<TypedDeclarator>),
}
