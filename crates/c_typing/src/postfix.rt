//! Subscripts and members (C11 6.5.2.1, 6.5.2.3).

ghost use Rattle.std.specs.Prelude.{◌≡◌, IfOk, Some, slice_get};
ghost use Rattle.c_typing.specs.Walks.{Tells};
ghost use Rattle.c_typing.specs.Values as values;
ghost use Rattle.c_typing.specs.Expressions as spec;

use crate::environment::Environment;
use crate::values::{TypedValue, Typing, scalar, value};
use c_conversions::{TypeFault, TypeKind, copy, kind};
use c_meaning::{CType, Lvalue, Member, Qualifier, ValueKind};
use c_tree::{Identifier, Place};
use hy_bits::Memory;
use sqlite_items::Boxed;
use std::alloc::Global;

/// What a pointer points to, with its qualifier.
#[derive(Drop)]
pub struct Pointee {
    pub qualifier: Qualifier,
    pub ctype: CType,
}

/// A member of a struct with its number.
#[derive(Drop)]
pub struct NumberedMember {
    pub number: u32,
    pub offset: u32,
    pub cells: u32,
    pub ctype: CType,
}

/// What a pointer of the type points to.
pub fn pointee_of(ctype: CType) -> Option<Pointee>
    ensures { result ≡ values.pointee_of ctype }
{
    match ctype {
        CType::Pointer(qualifier, to) => Some(Pointee {
            qualifier,
            ctype: to.into_inner(),
        }),
        _ => None,
    }
}

/// The number of the struct that a type is.
fn struct_number(ctype: &CType) -> Option<u32>
    ensures { result ≡ values.struct_number ctype.now }
{
    match kind(ctype) {
        ValueKind::Struct(number) => Some(number),
        _ => None,
    }
}

/// A member with its number.
fn numbered(alloc: Global, number: u32, member: &Member) -> Result<NumberedMember, Memory>
    ensures { IfOk result (λ found. Some found ≡ spec.numbered number (Some member.now)) }
{
    Ok(NumberedMember {
        number,
        offset: member.offset,
        cells: member.cells,
        ctype: copy(alloc, &member.ctype)?,
    })
}

/// The number of the member of a struct with the name.
fn member_number(env: &Environment, number: u32, name: &[u8]) -> Option<u32>
    ensures { result ≡ spec.found_in name.now (slice_get env.now.member_names number) }
{
    let names = env.member_names.get(number as usize)?;
    names.found(name)
}

/// The member of a struct with the name.
fn member(
    alloc: Global,
    env: &Environment,
    number: u32,
    name: &[u8],
) -> Result<Option<NumberedMember>, Memory>
    ensures { IfOk result (λ found. found ≡ spec.member_of env.now number name.now) }
{
    let Some(structure) = env.structs.get(number as usize) else {
        return Ok(None);
    };
    let Some(at) = member_number(env, number, name) else {
        return Ok(None);
    };
    match structure.members.get(at as usize) {
        Some(member) => Ok(Some(numbered(alloc, at, member)?)),
        None => Ok(None),
    }
}

/// `e[i]`, of values.
///
/// # Errors
///
/// `Mismatch` at the place: `pointer` is no pointer or `index` no integer; or memory ran out.
pub fn subscript(
    alloc: Global,
    env: &Environment,
    place: Place,
    pointer: TypedValue,
    index: TypedValue,
) -> Result<Typing, TypeFault>
    ensures { Tells result env.now (spec.subscript place pointer index env.now) }
{
    let (Some(to), Some(scalar)) = (pointee_of(pointer.ctype), scalar(&index.ctype)) else {
        return Err(TypeFault::new(TypeKind::Mismatch, place));
    };
    Ok(Typing::Designates {
        lvalue: Lvalue::Subscript {
            place,
            pointer: Boxed::new(alloc, pointer.expr)?,
            scalar,
            index: Boxed::new(alloc, index.expr)?,
        },
        ctype: to.ctype,
        qualifier: to.qualifier,
    })
}

/// `.` and a member.
///
/// # Errors
///
/// `Mismatch` at the place: what stands before is no lvalue of a struct. `Unknown` at the name: the struct has no such member; or memory
/// ran out.
pub fn member_typing(
    alloc: Global,
    env: &Environment,
    place: Place,
    name: &Identifier,
    base: Typing,
) -> Result<Typing, TypeFault>
    ensures { Tells result env.now (spec.member_typing place name.now base env.now) }
{
    let Typing::Designates {
        lvalue,
        ctype,
        qualifier,
    } = base
    else {
        return Err(TypeFault::new(TypeKind::Mismatch, place));
    };
    let Some(number) = struct_number(&ctype) else {
        return Err(TypeFault::new(TypeKind::Mismatch, place));
    };
    let Some(found) = member(alloc, env, number, name.text.as_bytes())? else {
        return Err(TypeFault::new(TypeKind::Unknown, name.place));
    };
    Ok(Typing::Designates {
        lvalue: Lvalue::Member {
            place,
            of: Boxed::new(alloc, lvalue)?,
            member: found.number,
            offset: found.offset,
            cells: found.cells,
        },
        ctype: found.ctype,
        qualifier,
    })
}

/// `->` and a member.
///
/// # Errors
///
/// `Mismatch` at the place: what stands before is no pointer to a struct. `Unknown` at the name: the struct has no such member; or
/// memory ran out.
pub fn arrow_typing(
    alloc: Global,
    env: &Environment,
    place: Place,
    name: &Identifier,
    base: Typing,
) -> Result<Typing, TypeFault>
    ensures { Tells result env.now (spec.arrow_typing place name.now base env.now) }
{
    let pointer = value(alloc, env.structs.as_slice(), base)?;
    let Some(to) = pointee_of(pointer.ctype) else {
        return Err(TypeFault::new(TypeKind::Mismatch, place));
    };
    let Some(number) = struct_number(&to.ctype) else {
        return Err(TypeFault::new(TypeKind::Mismatch, place));
    };
    let Some(found) = member(alloc, env, number, name.text.as_bytes())? else {
        return Err(TypeFault::new(TypeKind::Unknown, name.place));
    };
    Ok(Typing::Designates {
        lvalue: Lvalue::Arrow {
            place,
            pointer: Boxed::new(alloc, pointer.expr)?,
            member: found.number,
            offset: found.offset,
            cells: found.cells,
        },
        ctype: found.ctype,
        qualifier: to.qualifier,
    })
}
