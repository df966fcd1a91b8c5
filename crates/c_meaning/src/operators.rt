use hy_bits::Scalar;

/// A binary operator whose operands and result have one type after the usual arithmetic conversions (C11 6.5.5, 6.5.6, 6.5.10 to
/// 6.5.12).
#[derive(Clone, Copy, Debug, PartialEq, Eq)]
pub enum ArithmeticOperator {
    Multiply,
    Divide,
    Remainder,
    Add,
    Subtract,
    And,
    Xor,
    Or,
}

/// `<<` or `>>` (C11 6.5.7).
#[derive(Clone, Copy, Debug, PartialEq, Eq)]
pub enum ShiftOperator {
    Left,
    Right,
}

/// A relational or an equality operator (C11 6.5.8, 6.5.9).
#[derive(Clone, Copy, Debug, PartialEq, Eq)]
pub enum Comparison {
    Less,
    Greater,
    LessOrEqual,
    GreaterOrEqual,
    Equal,
    Unequal,
}

/// `==` or `!=` (C11 6.5.9).
#[derive(Clone, Copy, Debug, PartialEq, Eq)]
pub enum Equality {
    Equal,
    Unequal,
}

/// Whether an integer is added to a pointer or subtracted from it (C11 6.5.6).
#[derive(Clone, Copy, Debug, PartialEq, Eq)]
pub enum Direction {
    Forward,
    Backward,
}

/// An operation on two integers, with the type of its left operand, which is that of its result. A shift's right operand has
/// a type of its own.
#[derive(Clone, Copy, Debug, PartialEq, Eq)]
pub enum IntegerOperation {
    Arithmetic(ArithmeticOperator, Scalar),
    Shift {
        operator: ShiftOperator,
        scalar: Scalar,
        count: Scalar,
    },
}

/// What a binary operator does with its operands.
#[derive(Clone, Copy, Debug, PartialEq, Eq)]
pub enum Operation {
    Integer(IntegerOperation),
    /// A comparison of integers of a type.
    Comparison(Comparison, Scalar),
    /// A pointer and, on the right, an integer of a type.
    Offset {
        direction: Direction,
        scalar: Scalar,
    },
    /// An integer of a type, and a pointer on the right.
    OffsetOnLeft(Scalar),
    /// A comparison of pointers.
    Pointers(Equality),
}

/// A unary operator on an integer of its promoted type (C11 6.5.3.3).
#[derive(Clone, Copy, Debug, PartialEq, Eq)]
pub enum ArithmeticSign {
    Plus,
    Minus,
    Complement,
}

/// A conversion that isn't written (C11 6.3): of an integer, or of a null pointer constant to a null pointer.
#[derive(Clone, Copy, Debug, PartialEq, Eq)]
pub enum Conversion {
    Integer { from: Scalar, to: Scalar },
    NullPointer,
}

/// How an assignment with an operator is written: `x op= e`, `x++` and `x--`, or `++x` and `--x`.
#[derive(Clone, Copy, Debug, PartialEq, Eq)]
pub enum Written {
    Assignment,
    Postfix,
    Prefix,
}
