//! Unary operators and casts (C11 6.5.3, 6.5.4), on operands that are walked.

ghost use Rattle.std.specs.Prelude.{◌≡◌};
ghost use Rattle.c_meaning.specs.Rules as rules;
ghost use Rattle.c_typing.specs.Walks.{Tells};
ghost use Rattle.c_typing.specs.Expressions as spec;

use crate::environment::Environment;
use crate::postfix::pointee_of;
use crate::values::{TypedValue, Typing, converted, kind_operand, scalar};
use c_conversions::{TypeFault, TypeKind, cast, kind, signed};
use c_meaning::{ArithmeticSign, CType, Lvalue, TypedExpr, ValueKind};
use c_tree::Place;
use hy_bits::Scalar;
use sqlite_items::Boxed;
use std::alloc::Global;

/// Whether a value of the kind can be a condition: an integer or a pointer.
pub fn is_scalar_kind(kind: ValueKind) -> bool
    ensures { result ≡ rules.is_scalar_kind kind }
{
    matches!(kind, ValueKind::Integer(_) | ValueKind::Pointer)
}

/// An expression as a value of the type.
fn gives(expr: TypedExpr, ctype: CType) -> Typing
    ensures { result ≡ spec.value_gives expr ctype }
{
    Typing::Gives(TypedValue { expr, ctype })
}

/// `&`.
///
/// # Errors
///
/// `Mismatch` at the place: the operand is no lvalue. `PointerForm` there: it is a pointer; or memory ran out.
pub fn address_typing(
    alloc: Global,
    env: &Environment,
    place: Place,
    operand: Typing,
) -> Result<Typing, TypeFault>
    ensures { Tells result env.now (spec.address_typing place operand env.now) }
{
    let Typing::Designates {
        lvalue,
        ctype,
        qualifier,
    } = operand
    else {
        return Err(TypeFault::new(TypeKind::Mismatch, place));
    };
    if kind(&ctype) == ValueKind::Pointer {
        return Err(TypeFault::new(TypeKind::PointerForm, place));
    }
    let of = Boxed::new(alloc, lvalue)?;
    let to = Boxed::new(alloc, ctype)?;
    Ok(gives(
        TypedExpr::Address { place, of },
        CType::Pointer(qualifier, to),
    ))
}

/// Unary `*`.
///
/// # Errors
///
/// `Mismatch` at the place: the operand is no pointer; or memory ran out.
pub fn indirection_typing(
    alloc: Global,
    env: &Environment,
    place: Place,
    pointer: TypedValue,
) -> Result<Typing, TypeFault>
    ensures { Tells result env.now (spec.indirection_typing place pointer env.now) }
{
    let Some(to) = pointee_of(pointer.ctype) else {
        return Err(TypeFault::new(TypeKind::Mismatch, place));
    };
    Ok(Typing::Designates {
        lvalue: Lvalue::Indirection {
            place,
            pointer: Boxed::new(alloc, pointer.expr)?,
        },
        ctype: to.ctype,
        qualifier: to.qualifier,
    })
}

/// `!`.
///
/// # Errors
///
/// `Mismatch` at the place: the operand is neither an integer nor a pointer; or memory ran out.
pub fn not_typing(
    alloc: Global,
    env: &Environment,
    place: Place,
    value: TypedValue,
) -> Result<Typing, TypeFault>
    ensures { Tells result env.now (spec.not_typing place value env.now) }
{
    let kind = kind(&value.ctype);
    if !is_scalar_kind(kind) {
        return Err(TypeFault::new(TypeKind::Mismatch, place));
    }
    let expr = TypedExpr::Not {
        place,
        kind,
        operand: Boxed::new(alloc, value.expr)?,
    };
    Ok(gives(expr, CType::Int(Scalar::S32)))
}

/// Unary `+`, `-` or `~`.
///
/// # Errors
///
/// `Mismatch` at the place: the operand is no integer; or memory ran out.
pub fn sign_typing(
    alloc: Global,
    env: &Environment,
    place: Place,
    operator: ArithmeticSign,
    value: TypedValue,
) -> Result<Typing, TypeFault>
    ensures { Tells result env.now (spec.sign_typing place operator value env.now) }
{
    match signed(kind_operand(kind(&value.ctype))) {
        Ok(promotion) => {
            let operand = converted(alloc, promotion.conversion, value.expr)?;
            let expr = TypedExpr::Unary {
                place,
                operator,
                scalar: promotion.scalar,
                operand: Boxed::new(alloc, operand)?,
            };
            Ok(gives(expr, CType::Int(promotion.scalar)))
        }
        Err(kind) => Err(TypeFault::new(kind, place)),
    }
}

/// A cast to the type `target`.
///
/// # Errors
///
/// `PointerForm` at the place: the operand is a pointer. `Mismatch` there: one of the two is no integer otherwise; or memory ran out.
pub fn cast_from(
    alloc: Global,
    env: &Environment,
    place: Place,
    target: &CType,
    value: TypedValue,
) -> Result<Typing, TypeFault>
    ensures { Tells result env.now (spec.cast_from place target.now value env.now) }
{
    match cast(kind(target), kind_operand(kind(&value.ctype))) {
        Err(kind) => Err(TypeFault::new(kind, place)),
        Ok(to) => {
            let Some(from) = scalar(&value.ctype) else {
                return Err(TypeFault::new(TypeKind::Mismatch, place));
            };
            let operand = Boxed::new(alloc, value.expr)?;
            let expr = TypedExpr::Cast {
                place,
                from,
                to,
                operand,
            };
            Ok(gives(expr, CType::Int(to)))
        }
    }
}
