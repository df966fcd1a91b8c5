ghost use Rattle.std.specs.Prelude.{◌≡◌};
ghost use Rattle.c_conversions.specs.Operators as spec;

use hy_bits::Scalar;

/// What a value is to an operator.
#[derive(Clone, Copy, Debug, PartialEq, Eq)]
pub enum Operand {
    Void,
    /// An integer that is no null pointer constant.
    Integer(Scalar),
    /// An integer constant expression of value 0 (C11 6.3.2.3p3).
    NullConstant(Scalar),
    Pointer,
    /// The struct of this number.
    Struct(u32),
}

/// Whether two pointers may stand beside an operator. For other values it says nothing.
#[derive(Clone, Copy, Debug, PartialEq, Eq)]
pub enum Pointees {
    Compatible,
    Incompatible,
}

/// What stands on the left and on the right of an operator.
#[derive(Clone, Copy, Debug, PartialEq, Eq)]
pub enum Sides {
    Integers(Scalar, Scalar),
    PointerAndInteger(Scalar),
    PointerAndNull(Scalar),
    IntegerAndPointer(Scalar),
    NullAndPointer(Scalar),
    Pointers,
    Others,
}

/// What two operands are, taken together.
pub fn sides_of(left: Operand, right: Operand) -> Sides
    ensures { result ≡ spec.sides_of left right }
{
    match (left, right) {
        (
            Operand::Integer(a) | Operand::NullConstant(a),
            Operand::Integer(b) | Operand::NullConstant(b),
        ) => Sides::Integers(a, b),
        (Operand::Pointer, Operand::Integer(b)) => Sides::PointerAndInteger(b),
        (Operand::Pointer, Operand::NullConstant(b)) => Sides::PointerAndNull(b),
        (Operand::Integer(a), Operand::Pointer) => Sides::IntegerAndPointer(a),
        (Operand::NullConstant(a), Operand::Pointer) => Sides::NullAndPointer(a),
        (Operand::Pointer, Operand::Pointer) => Sides::Pointers,
        _ => Sides::Others,
    }
}
