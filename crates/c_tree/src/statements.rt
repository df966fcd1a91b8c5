use crate::expressions::{Dimension, Expr, Identifier, Specifiers, TagSpecifier, TrailingComma};
use crate::token::Place;
use sqlite_items::{Boxed, Items};

/// An assignment operator: `=`, or a binary operator and `=` (C11 6.5.16).
#[derive(Clone, Copy, Debug, PartialEq, Eq)]
pub enum AssignmentOperator {
    Plain,
    Multiply,
    Divide,
    Remainder,
    Add,
    Subtract,
    ShiftLeft,
    ShiftRight,
    And,
    Xor,
    Or,
}

/// `++` or `--`.
#[derive(Clone, Copy, Debug, PartialEq, Eq)]
pub enum Step {
    Increment,
    Decrement,
}

/// The expression of an expression statement (C11 6.8.3): what assigns to one place, or a call whose value isn't used. The
/// place is that of the operator.
#[derive(Drop)]
pub enum ExpressionStatement {
    Assignment {
        target: Expr,
        place: Place,
        operator: AssignmentOperator,
        value: Expr,
    },
    PostfixStep {
        operand: Expr,
        place: Place,
        step: Step,
    },
    PrefixStep {
        place: Place,
        step: Step,
        operand: Expr,
    },
    Call(Expr),
}

/// The `*` of a pointer's declaration, and the place of the `const` after it.
#[derive(Drop)]
pub struct Pointer {
    pub place: Place,
    pub constant: Option<Place>,
}

/// An initializer (C11 6.7.9): an expression, or a list in braces, one at least.
#[derive(Drop)]
pub enum Initializer {
    Expression(Expr),
    List {
        place: Place,
        parts: Items<Initializer>,
        comma: TrailingComma,
    },
}

/// An initializer after the place of its `=`.
#[derive(Drop)]
pub struct Initialization {
    pub place: Place,
    pub value: Initializer,
}

/// A declarator and its initializer, if there is one (C11 6.7).
#[derive(Drop)]
pub struct InitDeclarator {
    pub pointer: Option<Pointer>,
    pub name: Identifier,
    pub dimensions: Items<Dimension>,
    pub start: Option<Initialization>,
}

/// A declaration of objects of one type (C11 6.7), one at least.
#[derive(Drop)]
pub struct Declaration {
    pub specs: Specifiers,
    pub declarators: Items<InitDeclarator>,
}

/// The number of a `#pragma bound` line.
#[derive(Clone, Copy, Debug)]
pub struct LoopBound {
    pub place: Place,
    pub number: u64,
}

/// The first part of a `for`.
#[derive(Drop)]
pub enum First {
    Nothing,
    Declaration(Declaration),
    Expression(ExpressionStatement),
}

/// A label of a `switch` at its place (C11 6.8.1).
#[derive(Drop)]
pub enum Label {
    Case(Place, Expr),
    Default(Place),
}

/// A statement (C11 6.8). The place is that of its first token. What is wide is boxed, so that a long list of statements
/// takes little.
#[cycle(statements)]
#[derive(Drop)]
pub enum Statement {
    Block(Boxed<Block>),
    Empty(Place),
    Expression(Boxed<ExpressionStatement>),
    Break(Place),
    Continue(Place),
    Return(Place, Boxed<Option<Expr>>),
    Selection(Boxed<Selection>),
    Iteration(Boxed<Iteration>),
}

/// A selection statement (C11 6.8.4). The place is that of its keyword.
#[cycle(statements)]
#[derive(Drop)]
pub enum Selection {
    If {
        place: Place,
        condition: Expr,
        then: Statement,
        otherwise: Option<Statement>,
    },
    Switch {
        place: Place,
        value: Expr,
        sections: Items<LabelledSection>,
    },
}

/// An iteration statement (C11 6.8.5), with the bound before it, if there is one. The place is that of its keyword.
#[cycle(statements)]
#[derive(Drop)]
pub enum Iteration {
    While {
        bound: Option<LoopBound>,
        place: Place,
        condition: Expr,
        body: Statement,
    },
    Do {
        bound: Option<LoopBound>,
        place: Place,
        body: Statement,
        condition: Expr,
    },
    For {
        bound: Option<LoopBound>,
        place: Place,
        first: First,
        condition: Option<Expr>,
        step: Option<ExpressionStatement>,
        body: Statement,
    },
}

/// Labels of a `switch`, one at least, and the statements after them, one at least.
#[cycle(statements)]
#[derive(Drop)]
pub struct LabelledSection {
    pub labels: Items<Label>,
    pub statements: Items<Statement>,
}

/// A compound statement (C11 6.8.2): what stands between braces, of which the first stands at the place.
#[cycle(statements)]
#[derive(Drop)]
pub struct Block {
    pub place: Place,
    pub parts: Items<BlockItem>,
}

/// An item of a block.
#[cycle(statements)]
#[derive(Drop)]
pub enum BlockItem {
    Statement(Statement),
    Declaration(Boxed<Declaration>),
    TagSpecifier(Boxed<TagSpecifier>),
}
