//! `?:` (C11 6.5.15), on operands that are walked.

ghost use Rattle.std.specs.Prelude.{◌≡◌, IfOk};
ghost use Rattle.c_typing.specs.Walks.{Tells};
ghost use Rattle.c_typing.specs.Values as values;
ghost use Rattle.c_typing.specs.Expressions as spec;

use crate::environment::Environment;
use crate::unary::is_scalar_kind;
use crate::values::{TypedValue, Typing, converted, operand_beside, pointees};
use c_conversions::{Branches, TypeFault, TypeKind, chosen, kind};
use c_meaning::{CType, Qualifier, TypedExpr, ValueKind};
use c_tree::Place;
use hy_bits::Memory;
use sqlite_items::Boxed;
use std::alloc::Global;

/// `const` where either is.
fn either_qualifier(a: Qualifier, b: Qualifier) -> Qualifier
    ensures { result ≡ values.either_qualifier a b }
{
    match a {
        Qualifier::Unqualified => b,
        Qualifier::Const => Qualifier::Const,
    }
}

/// The type of what `?:` gives.
fn chosen_type(kind: ValueKind, second: CType, third: CType) -> CType
    ensures { result ≡ values.chosen_ctype kind second third }
{
    match (kind, second, third) {
        (ValueKind::Integer(scalar), _, _) => CType::Int(scalar),
        (_, CType::Pointer(qualifier, to), CType::Pointer(other, _)) => {
            CType::Pointer(either_qualifier(qualifier, other), to)
        }
        (_, CType::Pointer(qualifier, to), _) => CType::Pointer(qualifier, to),
        (_, _, third) => third,
    }
}

/// `?:` with the conversions of its operands.
fn branches_of(
    alloc: Global,
    place: Place,
    condition: TypedValue,
    second: TypedValue,
    third: TypedValue,
    branches: Branches,
) -> Result<Typing, Memory>
    ensures { IfOk result (λ typing. typing ≡ spec.branches_of place condition second third branches) }
{
    let a = converted(alloc, branches.second, second.expr)?;
    let b = converted(alloc, branches.third, third.expr)?;
    let expr = TypedExpr::Conditional {
        condition: Boxed::new(alloc, condition.expr)?,
        place,
        kind: branches.kind,
        second: Boxed::new(alloc, a)?,
        third: Boxed::new(alloc, b)?,
    };
    let ctype = chosen_type(branches.kind, second.ctype, third.ctype);
    Ok(Typing::Gives(TypedValue { expr, ctype }))
}

/// `?:` of three values.
///
/// # Errors
///
/// `Mismatch` at the place: the condition is neither an integer nor a pointer, or the other two have no type together; or memory ran out.
pub fn choose(
    alloc: Global,
    env: &Environment,
    place: Place,
    condition: TypedValue,
    second: TypedValue,
    third: TypedValue,
) -> Result<Typing, TypeFault>
    ensures { Tells result env.now (spec.choose place condition second third env.now) }
{
    if !is_scalar_kind(kind(&condition.ctype)) {
        return Err(TypeFault::new(TypeKind::Mismatch, place));
    }
    let a = operand_beside(kind(&third.ctype), &second);
    let b = operand_beside(kind(&second.ctype), &third);
    match chosen(a, b, pointees(&second.ctype, &third.ctype)) {
        Ok(branches) => Ok(branches_of(alloc, place, condition, second, third, branches)?),
        Err(kind) => Err(TypeFault::new(kind, place)),
    }
}
