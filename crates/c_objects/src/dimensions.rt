//! The dimensions of declarators, and pointers (C11 6.7.6.1, 6.7.6.2).

ghost use Rattle.std.specs.Prelude.{◌≡◌, IfOk};
ghost use Rattle.c_typing.specs.Walks.{Tells};
ghost use Rattle.c_objects.specs.Objects as spec;

use c_conversions::{TypeFault, TypeKind};
use c_expressions::dimensions;
use c_meaning::{CType, Qualifier};
use c_tree::{Dimension, Place, Pointer};
use c_typing::{Environment, QualifiedType, array_of};
use hy_bits::Memory;
use sqlite_items::Boxed;
use std::alloc::Global;

/// The type with all dimensions over an element's type.
fn all_dimensioned(
    alloc: Global,
    env: &mut Environment,
    list: &[Dimension],
    ctype: CType,
) -> Result<CType, TypeFault>
    ensures { Tells result env.new (spec.dimensioned list.now ctype env.old) }
{
    let counts = dimensions(alloc, env, list)?;
    Ok(array_of(alloc, counts, ctype)?)
}

/// The type with dimensions over an element's type, where the first, if it is empty, has the number of elements `count`.
fn dimensioned_from(
    alloc: Global,
    env: &mut Environment,
    count: u32,
    list: &[Dimension],
    ctype: CType,
) -> Result<CType, TypeFault>
    ensures { Tells result env.new (spec.dimensioned_from count list.now ctype env.old) }
{
    match list {
        [] => Ok(ctype),
        [first, rest @ ..] => match first.size {
            Some(_) => all_dimensioned(alloc, env, list, ctype),
            None => {
                let element = all_dimensioned(alloc, env, rest, ctype)?;
                Ok(CType::Array(count, Boxed::new(alloc, element)?))
            }
        },
    }
}

/// The type with dimensions over an element's type. `empty` is how many elements an empty first dimension has, if one may stand.
///
/// # Errors
///
/// `Mismatch` at the bracket of an empty dimension, where none may stand; otherwise the first rule of the dimensions that is broken, at its place, or
/// memory ran out.
pub fn dimensioned(
    alloc: Global,
    env: &mut Environment,
    empty: Option<u32>,
    list: &[Dimension],
    ctype: CType,
) -> Result<CType, TypeFault>
    ensures { Tells result env.new (spec.dimensioned_where empty list.now ctype env.old) }
{
    match empty {
        None => all_dimensioned(alloc, env, list, ctype),
        Some(count) => dimensioned_from(alloc, env, count, list, ctype),
    }
}

/// The type of a declarator over the type that its specifiers name, with its own qualifier.
///
/// # Errors
///
/// Memory ran out.
pub fn pointed(
    alloc: Global,
    pointer: &Option<Pointer>,
    ctype: CType,
    qualifier: Qualifier,
) -> Result<QualifiedType, Memory>
    ensures { IfOk result (λ found. found ≡ spec.pointed pointer.now ctype qualifier) }
{
    let Some(pointer) = pointer else {
        return Ok(QualifiedType { ctype, qualifier });
    };
    let own = match pointer.constant {
        Some(_) => Qualifier::Const,
        None => Qualifier::Unqualified,
    };
    Ok(QualifiedType {
        ctype: CType::Pointer(qualifier, Boxed::new(alloc, ctype)?),
        qualifier: own,
    })
}

/// That a declarator isn't an array of pointers.
///
/// # Errors
///
/// `PointerForm` at the `*`: it is.
pub fn pointer_form(
    env: &Environment,
    pointer: &Option<Pointer>,
    list: &[Dimension],
) -> Result<(), TypeFault>
    ensures { Tells result env.now (spec.pointer_form pointer.now list.now env.now) }
{
    match (pointer, list) {
        (Some(pointer), [_, ..]) => Err(TypeFault::new(TypeKind::PointerForm, pointer.place)),
        _ => Ok(()),
    }
}
