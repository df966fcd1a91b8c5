//! Declarations of names and tags, and the tags of structs and enums (C11 6.7.2.3).

ghost use Rattle.std.specs.Prelude.{◌≡◌, OnOk, IfOk, length};
ghost use Rattle.c_typing.specs.Walks.{Tells};
ghost use Rattle.c_typing.specs.Specifiers as spec;

use crate::environment::{Entity, Environment, Tag};
use crate::structs::Members;
use c_conversions::{TypeFault, TypeKind};
use c_meaning::{CType, StructType};
use c_tree::{Identifier, Place};
use hy_bits::{Memory, Scalar, Text};
use std::alloc::Global;

/// Whether a name isn't declared yet in the innermost scope.
pub fn is_free(env: &Environment, name: &[u8]) -> bool
    ensures { result ≡ spec.is_free env.now name.now }
{
    env.names.found_here(name).is_none()
}

/// Declares what a name stands for in the innermost scope. It takes time linear in the name.
///
/// # Errors
///
/// Memory ran out.
pub fn declare_entity(
    alloc: Global,
    env: &mut Environment,
    name: &[u8],
    entity: Entity,
) -> Result<(), Memory>
    ensures { OnOk result (env.new ≡ spec.with_entity name.now entity env.old) }
{
    let number = u32::try_from(env.entities.len()).map_err(|_| Memory)?;
    env.names.declare(alloc, name, number)?;
    env.entities.push(entity)?;
    Ok(())
}

/// Declares what a tag stands for in the innermost scope. It takes time linear in the name.
///
/// # Errors
///
/// Memory ran out.
fn declare_tag(alloc: Global, env: &mut Environment, name: &[u8], tag: Tag) -> Result<(), Memory>
    ensures { OnOk result (env.new ≡ spec.with_tag name.now tag env.old) }
{
    let number = u32::try_from(env.tags.len()).map_err(|_| Memory)?;
    env.tag_names.declare(alloc, name, number)?;
    env.tags.push(tag)?;
    Ok(())
}

/// What a number of a tag stands for.
fn tag_at(env: &Environment, number: Option<u32>) -> Option<Tag>
    ensures { result ≡ spec.tag_at env.now.tags number }
{
    match env.tags.get(number? as usize) {
        Some(tag) => Some(*tag),
        None => None,
    }
}

/// `struct` and a tag, where no body stands: the struct has to be complete.
///
/// # Errors
///
/// `Unknown` at the tag: there is none, or the struct isn't complete. `Mismatch` at the place: the tag is of an enum.
pub fn struct_reference(
    env: &Environment,
    place: Place,
    name: &Identifier,
) -> Result<CType, TypeFault>
    ensures { Tells result env.now (spec.struct_reference place name.now env.now) }
{
    match tag_at(env, env.tag_names.found(name.text.as_bytes())) {
        Some(Tag::Complete(number)) => Ok(CType::Struct(number)),
        Some(Tag::Enum) => Err(TypeFault::new(TypeKind::Mismatch, place)),
        _ => Err(TypeFault::new(TypeKind::Unknown, name.place)),
    }
}

/// `enum` and a tag, where no body stands.
///
/// # Errors
///
/// `Unknown` at the tag: there is none. `Mismatch` at the place: the tag is of a struct.
pub fn enum_reference(
    env: &Environment,
    place: Place,
    name: &Identifier,
) -> Result<CType, TypeFault>
    ensures { Tells result env.now (spec.enum_reference place name.now env.now) }
{
    match tag_at(env, env.tag_names.found(name.text.as_bytes())) {
        Some(Tag::Enum) => Ok(CType::Int(Scalar::S32)),
        Some(_) => Err(TypeFault::new(TypeKind::Mismatch, place)),
        None => Err(TypeFault::new(TypeKind::Unknown, name.place)),
    }
}

/// `struct` and a tag alone, which declares the tag.
///
/// # Errors
///
/// `Twice` at the tag: it is of an enum of the same scope; or memory ran out.
pub fn struct_alone(
    alloc: Global,
    env: &mut Environment,
    name: &Identifier,
) -> Result<(), TypeFault>
    ensures { Tells result env.new (spec.struct_alone name.now env.old) }
{
    match tag_at(env, env.tag_names.found_here(name.text.as_bytes())) {
        None => Ok(declare_tag(alloc, env, name.text.as_bytes(), Tag::Declared)?),
        Some(Tag::Enum) => Err(TypeFault::new(TypeKind::Twice, name.place)),
        Some(_) => Ok(()),
    }
}

/// The tag of an enum with a body.
///
/// # Errors
///
/// `Twice` at the tag: its scope has it already; or memory ran out.
pub fn enum_tag(alloc: Global, env: &mut Environment, name: &Identifier) -> Result<(), TypeFault>
    ensures { Tells result env.new (spec.enum_tag name.now env.old) }
{
    if env.tag_names.found_here(name.text.as_bytes()).is_some() {
        return Err(TypeFault::new(TypeKind::Twice, name.place));
    }
    Ok(declare_tag(alloc, env, name.text.as_bytes(), Tag::Enum)?)
}

/// Begins the body of a struct with a tag, whose number it gives.
///
/// # Errors
///
/// `Twice` at the tag: its scope has it already with a body, or as an enum's; or memory ran out.
pub fn open_struct(
    alloc: Global,
    env: &mut Environment,
    name: &Identifier,
) -> Result<u32, TypeFault>
    ensures { Tells result env.new (spec.open_struct name.now env.old) }
{
    let Some(number) = env.tag_names.found_here(name.text.as_bytes()) else {
        let number = u32::try_from(env.tags.len()).map_err(|_| Memory)?;
        declare_tag(alloc, env, name.text.as_bytes(), Tag::Open)?;
        return Ok(number);
    };
    match tag_at(env, Some(number)) {
        Some(Tag::Declared) => {
            env.tags.set(number as usize, Tag::Open);
            Ok(number)
        }
        _ => Err(TypeFault::new(TypeKind::Twice, name.place)),
    }
}

/// Ends the body of a struct, whose name is empty where it has no tag. `opened` is the number of its tag.
///
/// # Errors
///
/// Memory ran out.
pub fn close_struct(
    alloc: Global,
    env: &mut Environment,
    name: &[u8],
    opened: Option<u32>,
    members: Members,
) -> Result<CType, Memory>
    ensures closed { OnOk result (env.new ≡ spec.close_struct name.now opened members env.old) }
    ensures number { IfOk result (λ ctype. ctype ≡ CType.Struct (length env.old.structs)) }
{
    let number = u32::try_from(env.structs.len()).map_err(|_| Memory)?;
    let Members {
        names,
        members,
        cells,
    } = members;
    env.structs.push(StructType {
        name: Text::copy_of(alloc, name)?,
        members,
        cells,
    })?;
    env.member_names.push(names)?;
    complete(env, opened, number);
    Ok(CType::Struct(number))
}

/// Completes the tag of a struct, if it has one.
fn complete(env: &mut Environment, opened: Option<u32>, number: u32)
    ensures { env.new ≡ spec.completed opened number env.old }
{
    let Some(opened) = opened else {
        return;
    };
    if (opened as usize) < env.tags.len() {
        env.tags.set(opened as usize, Tag::Complete(number));
    }
}
