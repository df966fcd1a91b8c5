//! Operators on two operands.

ghost use Rattle.std.specs.Prelude.{◌≡◌};
ghost use Rattle.c_conversions.specs.Operators as spec;

use crate::fault::TypeKind;
use crate::operands::{Operand, Pointees, Sides, sides_of};
use crate::scalars::{conversion_between, promoted, usual};
use c_meaning::{
    ArithmeticOperator, Comparison, Conversion, Direction, Equality, IntegerOperation, Operation,
    ShiftOperator, ValueKind,
};
use c_tree::{AssignmentOperator, BinaryOperator};
use hy_bits::Scalar;

/// A binary operator but `&&` and `||` (C11 6.5.5 to 6.5.12).
#[derive(Clone, Copy, Debug, PartialEq, Eq)]
pub enum Operator {
    Arithmetic(ArithmeticOperator),
    Shift(ShiftOperator),
    Comparison(Comparison),
}

/// What a binary operator does: the conversions of its operands, and the operation on what they give.
#[derive(Clone, Copy, Debug, PartialEq, Eq)]
pub struct Combination {
    pub left: Option<Conversion>,
    pub operation: Operation,
    pub right: Option<Conversion>,
}

/// What `x op= e` does: an operation on the place's integer and on `e`, after the conversion of `e`, or a move of the place's
/// pointer by an integer of the type.
#[derive(Clone, Copy, Debug, PartialEq, Eq)]
pub enum Change {
    Integer(IntegerOperation, Option<Conversion>),
    Advance(Direction, Scalar),
}

/// What `?:` gives: the kind of its value, and the conversions of its second and third operand.
#[derive(Clone, Copy, Debug, PartialEq, Eq)]
pub struct Branches {
    pub kind: ValueKind,
    pub second: Option<Conversion>,
    pub third: Option<Conversion>,
}

/// The operator that a binary operator is: none for `&&` and `||`.
pub fn operator_of(operator: BinaryOperator) -> Option<Operator>
    ensures { result ≡ spec.operator_of operator }
{
    let found = match operator {
        BinaryOperator::LogicalOr | BinaryOperator::LogicalAnd => return None,
        BinaryOperator::Or => Operator::Arithmetic(ArithmeticOperator::Or),
        BinaryOperator::Xor => Operator::Arithmetic(ArithmeticOperator::Xor),
        BinaryOperator::And => Operator::Arithmetic(ArithmeticOperator::And),
        BinaryOperator::Equal => Operator::Comparison(Comparison::Equal),
        BinaryOperator::Unequal => Operator::Comparison(Comparison::Unequal),
        BinaryOperator::Less => Operator::Comparison(Comparison::Less),
        BinaryOperator::Greater => Operator::Comparison(Comparison::Greater),
        BinaryOperator::LessOrEqual => Operator::Comparison(Comparison::LessOrEqual),
        BinaryOperator::GreaterOrEqual => Operator::Comparison(Comparison::GreaterOrEqual),
        BinaryOperator::ShiftLeft => Operator::Shift(ShiftOperator::Left),
        BinaryOperator::ShiftRight => Operator::Shift(ShiftOperator::Right),
        BinaryOperator::Add => Operator::Arithmetic(ArithmeticOperator::Add),
        BinaryOperator::Subtract => Operator::Arithmetic(ArithmeticOperator::Subtract),
        BinaryOperator::Multiply => Operator::Arithmetic(ArithmeticOperator::Multiply),
        BinaryOperator::Divide => Operator::Arithmetic(ArithmeticOperator::Divide),
        BinaryOperator::Remainder => Operator::Arithmetic(ArithmeticOperator::Remainder),
    };
    Some(found)
}

/// The operator in an assignment operator: none for `=`.
pub fn operator_in(operator: AssignmentOperator) -> Option<Operator>
    ensures { result ≡ spec.operator_in operator }
{
    let found = match operator {
        AssignmentOperator::Plain => return None,
        AssignmentOperator::Multiply => Operator::Arithmetic(ArithmeticOperator::Multiply),
        AssignmentOperator::Divide => Operator::Arithmetic(ArithmeticOperator::Divide),
        AssignmentOperator::Remainder => Operator::Arithmetic(ArithmeticOperator::Remainder),
        AssignmentOperator::Add => Operator::Arithmetic(ArithmeticOperator::Add),
        AssignmentOperator::Subtract => Operator::Arithmetic(ArithmeticOperator::Subtract),
        AssignmentOperator::ShiftLeft => Operator::Shift(ShiftOperator::Left),
        AssignmentOperator::ShiftRight => Operator::Shift(ShiftOperator::Right),
        AssignmentOperator::And => Operator::Arithmetic(ArithmeticOperator::And),
        AssignmentOperator::Xor => Operator::Arithmetic(ArithmeticOperator::Xor),
        AssignmentOperator::Or => Operator::Arithmetic(ArithmeticOperator::Or),
    };
    Some(found)
}

/// An operator on integers of these types.
fn on_integers(operator: Operator, a: Scalar, b: Scalar) -> Combination
    ensures { result ≡ spec.on_integers operator a b }
{
    let (left, right, operation) = match operator {
        Operator::Arithmetic(operator) => {
            let scalar = usual(a, b);
            let operation = IntegerOperation::Arithmetic(operator, scalar);
            (scalar, scalar, Operation::Integer(operation))
        }
        Operator::Shift(operator) => {
            let scalar = promoted(a);
            let count = promoted(b);
            let operation = IntegerOperation::Shift {
                operator,
                scalar,
                count,
            };
            (scalar, count, Operation::Integer(operation))
        }
        Operator::Comparison(operator) => {
            let scalar = usual(a, b);
            (scalar, scalar, Operation::Comparison(operator, scalar))
        }
    };
    Combination {
        left: conversion_between(a, left),
        operation,
        right: conversion_between(b, right),
    }
}

/// An operation without conversions.
fn as_they_are(operation: Operation) -> Combination
    ensures { result ≡ spec.as_they_are operation }
{
    Combination {
        left: None,
        operation,
        right: None,
    }
}

/// `+` or `-` with a pointer (C11 6.5.6).
fn with_sum(operator: ArithmeticOperator, sides: Sides) -> Result<Combination, TypeKind>
    ensures { result ≡ spec.with_sum operator sides }
{
    let operation = match (operator, sides) {
        (
            ArithmeticOperator::Add,
            Sides::PointerAndInteger(scalar) | Sides::PointerAndNull(scalar),
        ) => Operation::Offset {
            direction: Direction::Forward,
            scalar,
        },
        (
            ArithmeticOperator::Add,
            Sides::IntegerAndPointer(scalar) | Sides::NullAndPointer(scalar),
        ) => Operation::OffsetOnLeft(scalar),
        (
            ArithmeticOperator::Subtract,
            Sides::PointerAndInteger(scalar) | Sides::PointerAndNull(scalar),
        ) => Operation::Offset {
            direction: Direction::Backward,
            scalar,
        },
        (ArithmeticOperator::Subtract, Sides::Pointers) => return Err(TypeKind::PointerForm),
        _ => return Err(TypeKind::Mismatch),
    };
    Ok(as_they_are(operation))
}

/// `==` or `!=` with a pointer (C11 6.5.9).
fn with_equality(
    equality: Equality,
    sides: Sides,
    pointees: Pointees,
) -> Result<Combination, TypeKind>
    ensures { result ≡ spec.with_equality equality sides pointees }
{
    let (left, right) = match (sides, pointees) {
        (Sides::Pointers, Pointees::Compatible) => (None, None),
        (Sides::PointerAndNull(_), _) => (None, Some(Conversion::NullPointer)),
        (Sides::NullAndPointer(_), _) => (Some(Conversion::NullPointer), None),
        _ => return Err(TypeKind::Mismatch),
    };
    Ok(Combination {
        left,
        operation: Operation::Pointers(equality),
        right,
    })
}

/// A comparison with a pointer (C11 6.5.8, 6.5.9). Pointers have no order.
fn with_comparison(
    operator: Comparison,
    sides: Sides,
    pointees: Pointees,
) -> Result<Combination, TypeKind>
    ensures { result ≡ spec.with_comparison operator sides pointees }
{
    match operator {
        Comparison::Equal => with_equality(Equality::Equal, sides, pointees),
        Comparison::Unequal => with_equality(Equality::Unequal, sides, pointees),
        _ if sides == Sides::Pointers => Err(TypeKind::PointerForm),
        _ => Err(TypeKind::Mismatch),
    }
}

/// What a binary operator does with these operands. `pointees` says whether they are pointers to one type.
///
/// # Errors
///
/// How a rule of the operator is broken.
pub fn combined(
    operator: Operator,
    left: Operand,
    right: Operand,
    pointees: Pointees,
) -> Result<Combination, TypeKind>
    ensures { result ≡ spec.combined operator left right pointees }
{
    match (operator, sides_of(left, right)) {
        (_, Sides::Integers(a, b)) => Ok(on_integers(operator, a, b)),
        (Operator::Arithmetic(operator), sides) => with_sum(operator, sides),
        (Operator::Shift(_), _) => Err(TypeKind::Mismatch),
        (Operator::Comparison(operator), sides) => with_comparison(operator, sides, pointees),
    }
}

/// What `x op= e` does with integers of these types. No comparison assigns.
fn changed_integer(operator: Operator, a: Scalar, b: Scalar) -> Result<Change, TypeKind>
    ensures { result ≡ spec.changed_integer operator a b }
{
    match operator {
        Operator::Arithmetic(operator) => {
            let scalar = usual(a, b);
            let operation = IntegerOperation::Arithmetic(operator, scalar);
            Ok(Change::Integer(operation, conversion_between(b, scalar)))
        }
        Operator::Shift(operator) => {
            let count = promoted(b);
            let operation = IntegerOperation::Shift {
                operator,
                scalar: promoted(a),
                count,
            };
            Ok(Change::Integer(operation, conversion_between(b, count)))
        }
        Operator::Comparison(_) => Err(TypeKind::Mismatch),
    }
}

/// What `x op= e` does with the value of the place on the left and that of `e` (C11 6.5.16.2).
///
/// # Errors
///
/// How a rule of the operator is broken.
pub fn changed(operator: Operator, target: Operand, value: Operand) -> Result<Change, TypeKind>
    ensures { result ≡ spec.changed operator target value }
{
    match (operator, sides_of(target, value)) {
        (_, Sides::Integers(a, b)) => changed_integer(operator, a, b),
        (
            Operator::Arithmetic(ArithmeticOperator::Add),
            Sides::PointerAndInteger(scalar) | Sides::PointerAndNull(scalar),
        ) => Ok(Change::Advance(Direction::Forward, scalar)),
        (
            Operator::Arithmetic(ArithmeticOperator::Subtract),
            Sides::PointerAndInteger(scalar) | Sides::PointerAndNull(scalar),
        ) => Ok(Change::Advance(Direction::Backward, scalar)),
        (Operator::Arithmetic(ArithmeticOperator::Subtract), Sides::Pointers) => {
            Err(TypeKind::PointerForm)
        }
        _ => Err(TypeKind::Mismatch),
    }
}

/// What `?:` gives, with a second and a third operand (C11 6.5.15). `pointees` says whether they are pointers to one type.
///
/// # Errors
///
/// `Mismatch`: they are neither two integers nor two pointers, of which one may be a null pointer constant.
pub fn chosen(second: Operand, third: Operand, pointees: Pointees) -> Result<Branches, TypeKind>
    ensures { result ≡ spec.chosen second third pointees }
{
    let (second, third) = match (sides_of(second, third), pointees) {
        (Sides::Integers(a, b), _) => {
            let scalar = usual(a, b);
            return Ok(Branches {
                kind: ValueKind::Integer(scalar),
                second: conversion_between(a, scalar),
                third: conversion_between(b, scalar),
            });
        }
        (Sides::Pointers, Pointees::Compatible) => (None, None),
        (Sides::PointerAndNull(_), _) => (None, Some(Conversion::NullPointer)),
        (Sides::NullAndPointer(_), _) => (Some(Conversion::NullPointer), None),
        _ => return Err(TypeKind::Mismatch),
    };
    Ok(Branches {
        kind: ValueKind::Pointer,
        second,
        third,
    })
}
