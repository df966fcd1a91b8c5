//! Assignments, operators on one operand, casts and conditions.

ghost use Rattle.std.specs.Prelude.{◌≡◌};
ghost use Rattle.c_conversions.specs.Operators as spec;

use crate::fault::TypeKind;
use crate::operands::{Operand, Pointees};
use crate::scalars::{conversion_between, promoted, same_scalar};
use c_meaning::{Conversion, ValueKind};
use hy_bits::Scalar;

/// The conversion of an integer to its promoted type, and this type.
#[derive(Clone, Copy, Debug, PartialEq, Eq)]
pub struct Promotion {
    pub conversion: Option<Conversion>,
    pub scalar: Scalar,
}

/// How a pointer doesn't fit an integer of the type, where no operator asks for a conversion.
fn pointer_as(scalar: Scalar) -> TypeKind
    ensures { result ≡ spec.pointer_as scalar }
{
    if same_scalar(scalar, Scalar::B1) {
        TypeKind::PointerForm
    } else {
        TypeKind::Mismatch
    }
}

/// The conversion of a value that is assigned to an object of the kind, or is an initializer, an argument or a result (C11
/// 6.5.16.1p1). `pointees` says whether the object may hold a value that is a pointer.
///
/// # Errors
///
/// How the value doesn't fit.
pub fn assigned(
    target: ValueKind,
    value: Operand,
    pointees: Pointees,
) -> Result<Option<Conversion>, TypeKind>
    ensures { result ≡ spec.assigned target value pointees }
{
    match (target, value) {
        (ValueKind::Integer(to), Operand::Integer(from) | Operand::NullConstant(from)) => {
            Ok(conversion_between(from, to))
        }
        (ValueKind::Integer(to), Operand::Pointer) => Err(pointer_as(to)),
        (ValueKind::Pointer, Operand::Pointer) if pointees == Pointees::Compatible => Ok(None),
        (ValueKind::Pointer, Operand::NullConstant(_)) => Ok(Some(Conversion::NullPointer)),
        (ValueKind::Struct(target), Operand::Struct(number)) if target == number => Ok(None),
        _ => Err(TypeKind::Mismatch),
    }
}

/// The promotion of the operand of a unary `+`, `-` or `~` (C11 6.5.3.3).
///
/// # Errors
///
/// `Mismatch`: it is no integer.
pub fn signed(operand: Operand) -> Result<Promotion, TypeKind>
    ensures { result ≡ spec.signed operand }
{
    match operand {
        Operand::Integer(scalar) | Operand::NullConstant(scalar) => {
            let to = promoted(scalar);
            Ok(Promotion {
                conversion: conversion_between(scalar, to),
                scalar: to,
            })
        }
        _ => Err(TypeKind::Mismatch),
    }
}

/// Whether a value can be a condition: an integer or a pointer.
pub fn is_condition(operand: Operand) -> bool
    ensures { result ≡ spec.is_condition operand }
{
    matches!(
        operand,
        Operand::Integer(_) | Operand::NullConstant(_) | Operand::Pointer
    )
}

/// The type of the integer that a cast of the operand to a type with values of the kind gives (C11 6.5.4).
///
/// # Errors
///
/// `PointerForm`: the operand is a pointer. `Mismatch`: one of them is no integer otherwise.
pub fn cast(target: ValueKind, operand: Operand) -> Result<Scalar, TypeKind>
    ensures { result ≡ spec.cast target operand }
{
    match (operand, target) {
        (Operand::Pointer, _) => Err(TypeKind::PointerForm),
        (Operand::Integer(_) | Operand::NullConstant(_), ValueKind::Integer(to)) => Ok(to),
        _ => Err(TypeKind::Mismatch),
    }
}
