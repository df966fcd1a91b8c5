//! Names, literals and what is assigned.

ghost use Rattle.std.specs.Prelude.{◌≡◌, IfOk};
ghost use Rattle.std.specs.Option.{option_copied};
ghost use Rattle.c_typing.specs.Walks.{Tells};
ghost use Rattle.c_typing.specs.Expressions as spec;

use crate::environment::{Entity, Environment};
use crate::values::{TypedValue, Typing, admits, converted, operand_beside};
use c_conversions::{TypeFault, TypeKind, assigned, copy, kind};
use c_meaning::{CType, Lvalue, Object, TypedExpr};
use c_tree::{Identifier, Literal, Place};
use hy_bits::{Memory, Scalar};
use std::alloc::Global;

/// What a name stands for.
pub fn entity(env: &Environment, name: &[u8]) -> Option<Entity>
    ensures { result ≡ spec.entity_of env.now name.now }
{
    let number = env.names.found(name)?;
    match env.entities.get(number as usize) {
        Some(entity) => Some(*entity),
        None => None,
    }
}

/// An integer of the type, as a value.
pub fn constant(place: Place, scalar: Scalar, word: u64) -> Typing
    ensures { result ≡ spec.value_gives (TypedExpr.Constant place scalar word) (CType.Int scalar) }
{
    Typing::Gives(TypedValue {
        expr: TypedExpr::Constant {
            place,
            scalar,
            word,
        },
        ctype: CType::Int(scalar),
    })
}

/// A literal (C11 6.4.4).
pub fn literal_typing(place: Place, literal: Literal) -> Typing
    ensures { result ≡ spec.literal_typing place literal }
{
    match literal {
        Literal::Integer(scalar, word) | Literal::Character(scalar, word) => {
            constant(place, scalar, word)
        }
        Literal::True => constant(place, Scalar::S32, 1),
        Literal::False => constant(place, Scalar::S32, 0),
    }
}

/// An object that is named.
fn object_typing(
    alloc: Global,
    place: Place,
    number: u32,
    object: &Object,
) -> Result<Typing, Memory>
    ensures { IfOk result (λ typing. typing ≡ spec.object_typing place number object.now) }
{
    Ok(Typing::Designates {
        lvalue: Lvalue::Object {
            place,
            object: number,
            cells: object.cells,
        },
        ctype: copy(alloc, &object.ctype)?,
        qualifier: object.qualifier,
    })
}

/// A name as an expression (C11 6.5.1).
///
/// # Errors
///
/// The first rule that is broken, or memory ran out.
pub fn name_typing(alloc: Global, env: &Environment, name: &Identifier) -> Result<Typing, TypeFault>
    ensures { Tells result env.now (spec.name_typing name.now env.now) }
{
    let place = name.place;
    match entity(env, name.text.as_bytes()) {
        Some(Entity::Object(number)) => match env.objects.get(number as usize) {
            Some(object) => Ok(object_typing(alloc, place, number, object)?),
            None => Err(TypeFault::new(TypeKind::Unknown, place)),
        },
        Some(Entity::Enumerator(word)) => Ok(constant(place, Scalar::S32, word)),
        Some(_) => Err(TypeFault::new(TypeKind::Mismatch, place)),
        None => Err(TypeFault::new(TypeKind::Unknown, place)),
    }
}

/// A value made one of an object's type, as an assignment does.
///
/// # Errors
///
/// How the value doesn't fit, at the place, or memory ran out.
pub fn assigned_to(
    alloc: Global,
    env: &Environment,
    place: Place,
    target: &CType,
    value: TypedValue,
) -> Result<TypedExpr, TypeFault>
    ensures { Tells result env.now (spec.assigned_to place target.now value env.now) }
{
    let wanted = kind(target);
    let operand = operand_beside(wanted, &value);
    match assigned(wanted, operand, admits(target, &value.ctype)) {
        Ok(conversion) => Ok(converted(alloc, conversion, value.expr)?),
        Err(kind) => Err(TypeFault::new(kind, place)),
    }
}
