use crate::operators::{ArithmeticSign, Conversion, Operation};
use crate::types::ValueKind;
use c_tree::Place;
use hy_bits::Scalar;
use sqlite_items::{Boxed, Items};

/// An expression in a value's place (C11 6.5), with each conversion written out. The place is that of the operator, or of the
/// name.
#[cycle(typed)]
#[derive(Drop)]
pub enum TypedExpr {
    /// A literal or an enumerator: a word of its type.
    Constant {
        place: Place,
        scalar: Scalar,
        word: u64,
    },
    /// The value that an lvalue designates (C11 6.3.2.1).
    Load {
        kind: ValueKind,
        from: Boxed<Lvalue>,
    },
    /// An array as a pointer to its first element (C11 6.3.2.1): the cells of one element, and the number of elements.
    Decay {
        cells: u32,
        length: u32,
        from: Boxed<Lvalue>,
    },
    /// `&`.
    Address {
        place: Place,
        of: Boxed<Lvalue>,
    },
    Converted {
        conversion: Conversion,
        operand: Boxed<TypedExpr>,
    },
    /// A cast of an integer; `place` is that of its opening bracket.
    Cast {
        place: Place,
        from: Scalar,
        to: Scalar,
        operand: Boxed<TypedExpr>,
    },
    /// `+`, `-` or `~` on an integer of the promoted type `scalar`.
    Unary {
        place: Place,
        operator: ArithmeticSign,
        scalar: Scalar,
        operand: Boxed<TypedExpr>,
    },
    /// `!` on a value of the kind.
    Not {
        place: Place,
        kind: ValueKind,
        operand: Boxed<TypedExpr>,
    },
    /// The operands of binary operators of one level, from the left: the first, and the others with their operators.
    Chain {
        first: Boxed<TypedExpr>,
        steps: Items<ChainStep>,
    },
    /// Operands of `&&` from the left, at least two.
    LogicalAnd {
        first: Boxed<TypedExpr>,
        rest: Items<LogicalOperand>,
    },
    /// Operands of `||` from the left, at least two.
    LogicalOr {
        first: Boxed<TypedExpr>,
        rest: Items<LogicalOperand>,
    },
    /// `?:`, at the place of its `?`, with a value of the kind.
    Conditional {
        condition: Boxed<TypedExpr>,
        place: Place,
        kind: ValueKind,
        second: Boxed<TypedExpr>,
        third: Boxed<TypedExpr>,
    },
    /// A call of the function of the number, at the place of the name, with a value of the kind.
    Call {
        place: Place,
        function: u32,
        kind: ValueKind,
        arguments: Items<TypedExpr>,
    },
}

/// An operator of a chain at its place, with its right operand. `left` is the conversion of what stands on the left.
#[cycle(typed)]
#[derive(Drop)]
pub struct ChainStep {
    pub left: Option<Conversion>,
    pub place: Place,
    pub operation: Operation,
    pub right: TypedExpr,
}

/// An operand of `&&` or `||` after its operator, which stands at the place.
#[cycle(typed)]
#[derive(Drop)]
pub struct LogicalOperand {
    pub place: Place,
    pub operand: TypedExpr,
}

/// An expression that designates an object or a part of one (C11 6.3.2.1). The place is that of the name or of its last
/// operator; `cells` is the number of cells of what it designates, and `offset` that of a member's first cell in its struct.
#[cycle(typed)]
#[derive(Drop)]
pub enum Lvalue {
    Object {
        place: Place,
        object: u32,
        cells: u32,
    },
    /// Unary `*`.
    Indirection {
        place: Place,
        pointer: Boxed<TypedExpr>,
    },
    /// `e[i]`, where `i` has the type `scalar`.
    Subscript {
        place: Place,
        pointer: Boxed<TypedExpr>,
        scalar: Scalar,
        index: Boxed<TypedExpr>,
    },
    /// `.`.
    Member {
        place: Place,
        of: Boxed<Lvalue>,
        member: u32,
        offset: u32,
        cells: u32,
    },
    /// `->`.
    Arrow {
        place: Place,
        pointer: Boxed<TypedExpr>,
        member: u32,
        offset: u32,
        cells: u32,
    },
}
