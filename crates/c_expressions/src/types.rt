//! Specifiers of types, with the structs and enums that they declare (C11 6.7.2).

ghost use Rattle.std.specs.Prelude.{◌≡◌, map};
ghost use Rattle.c_typing.specs.Walks.{Tells, along, each};
ghost use Rattle.c_expressions.specs.Typing as spec;

use crate::expressions::value_of;
use crate::places::{expr_place, specs_place};
use c_conversions::{TypeFault, TypeKind, copy};
use c_meaning::{CType, Qualifier};
use c_tree::{
    Dimension, Enumerator, Expr, Identifier, Specifiers, StructDeclaration, StructDeclarator,
    TagSpecifier, TypeSpecifier, spelled_type,
};
use c_typing::{
    Entity, Environment, Members, QualifiedType, add_member, array_of, close_struct,
    declare_entity, dimension, enum_reference, enum_tag, int_constant, is_free, next_word,
    object_type, open_struct, qualified, spelled, struct_reference, type_name_typing,
};
use hy_bits::Scalar;
use std::alloc::Global;

/// The type that specifiers name, with its qualifier.
///
/// # Errors
///
/// The first rule that is broken, at its place, or memory ran out. What is declared is then no longer of use.
#[cycle(typing)]
pub fn specifiers(
    alloc: Global,
    env: &mut Environment,
    specs: &Specifiers,
) -> Result<QualifiedType, TypeFault>
    ensures { Tells result env.new ((spec.types_specs specs.now).walk env.old) }
{
    let found = spelling(alloc, env, &specs.kind)?;
    Ok(qualified(specs.before.as_slice(), found, specs.after.as_slice()))
}

/// The type that words, a tag or a `typedef` names.
#[cycle(typing)]
fn spelling(
    alloc: Global,
    env: &mut Environment,
    kind: &TypeSpecifier,
) -> Result<QualifiedType, TypeFault>
    ensures { Tells result env.new ((spec.types_spelling kind.now).walk env.old) }
{
    let ctype = match kind {
        TypeSpecifier::Words(_, words) => spelled(spelled_type(words.as_slice())),
        TypeSpecifier::TagSpecifier(of) => tag(alloc, env, of)?,
        TypeSpecifier::TypeName(name) => return type_name_typing(alloc, env, name),
    };
    Ok(QualifiedType {
        ctype,
        qualifier: Qualifier::Unqualified,
    })
}

/// The type that a struct or an enum is, where it isn't a declaration alone.
///
/// # Errors
///
/// As of [`specifiers`].
#[cycle(typing)]
pub fn tag(alloc: Global, env: &mut Environment, of: &TagSpecifier) -> Result<CType, TypeFault>
    ensures { Tells result env.new ((spec.types_tag of.now).walk env.old) }
{
    match of {
        TagSpecifier::Struct {
            tag: name,
            members: Some(members),
            ..
        } => struct_body(alloc, env, name, members.as_slice()),
        TagSpecifier::Struct {
            place,
            tag: Some(name),
            members: None,
        } => struct_reference(env, *place, name),
        TagSpecifier::Enum {
            tag: name,
            enumerators: Some(constants),
            ..
        } => enum_body(alloc, env, name, constants.as_slice()),
        TagSpecifier::Enum {
            place,
            tag: Some(name),
            enumerators: None,
            ..
        } => enum_reference(env, *place, name),
        TagSpecifier::Struct { place, .. } | TagSpecifier::Enum { place, .. } => {
            Err(TypeFault::new(TypeKind::Mismatch, *place))
        }
    }
}

/// A struct with its members.
#[cycle(typing)]
fn struct_body(
    alloc: Global,
    env: &mut Environment,
    name: &Option<Identifier>,
    members: &[StructDeclaration],
) -> Result<CType, TypeFault>
    ensures { Tells result env.new (spec.struct_body name.now (map spec.types_member members.now) env.old) }
{
    let opened = match name {
        Some(name) => Some(open_struct(alloc, env, name)?),
        None => None,
    };
    let all = along_members(alloc, env, members, Members::new(alloc))?;
    let text = match name {
        Some(name) => name.text.as_bytes(),
        None => b"".as_slice(),
    };
    Ok(close_struct(alloc, env, text, opened, all)?)
}

/// Declarations of members after others.
#[cycle(typing)]
fn along_members(
    alloc: Global,
    env: &mut Environment,
    declarations: &[StructDeclaration],
    members: Members,
) -> Result<Members, TypeFault>
    ensures { Tells result env.new (along (map spec.types_member declarations.now) members env.old) }
{
    let mut all = members;
    for next in declarations {
        all = member(alloc, env, next, all)?;
    }
    Ok(all)
}

/// Members of one type.
#[cycle(typing)]
fn member(
    alloc: Global,
    env: &mut Environment,
    declaration: &StructDeclaration,
    members: Members,
) -> Result<Members, TypeFault>
    ensures { Tells result env.new (spec.types_member declaration.now members env.old) }
{
    let ctype = member_type(alloc, env, &declaration.specs)?;
    along_declarators(alloc, env, declaration.names.as_slice(), &ctype, members)
}

/// The type of members, which is neither void nor const.
#[cycle(typing)]
fn member_type(alloc: Global, env: &mut Environment, specs: &Specifiers) -> Result<CType, TypeFault>
    ensures { Tells result env.new (spec.member_type (spec.types_specs specs.now) env.old) }
{
    let found = specifiers(alloc, env, specs)?;
    let place = specs_place(specs);
    let found = object_type(env, place, found)?;
    match found.qualifier {
        Qualifier::Const => Err(TypeFault::new(TypeKind::Mismatch, place)),
        Qualifier::Unqualified => Ok(found.ctype),
    }
}

/// Members of the type after others.
#[cycle(typing)]
fn along_declarators(
    alloc: Global,
    env: &mut Environment,
    names: &[StructDeclarator],
    ctype: &CType,
    members: Members,
) -> Result<Members, TypeFault>
    ensures { Tells result env.new (along (map (λ name. name ctype.now) (map spec.types_declarator names.now)) members env.old) }
{
    let mut all = members;
    for next in names {
        all = declarator(alloc, env, next, ctype, all)?;
    }
    Ok(all)
}

/// A member of the type, with its dimensions.
#[cycle(typing)]
fn declarator(
    alloc: Global,
    env: &mut Environment,
    declared: &StructDeclarator,
    ctype: &CType,
    members: Members,
) -> Result<Members, TypeFault>
    ensures { Tells result env.new (spec.types_declarator declared.now ctype.now members env.old) }
{
    if members.has(declared.name.text.as_bytes()) {
        return Err(TypeFault::new(TypeKind::Twice, declared.name.place));
    }
    let counts = dimensions(alloc, env, declared.dimensions.as_slice())?;
    let ctype = array_of(alloc, counts, copy(alloc, ctype)?)?;
    add_member(alloc, env, members, &declared.name, ctype)
}

/// The numbers of elements that dimensions give.
///
/// # Errors
///
/// `Mismatch` at a bracket: its dimension is empty. Otherwise as of [`specifiers`].
#[cycle(typing)]
pub fn dimensions(
    alloc: Global,
    env: &mut Environment,
    list: &[Dimension],
) -> Result<Vec<u32>, TypeFault>
    ensures { Tells (spec.counts_of result) env.new (each (map spec.types_dimension list.now) env.old) }
{
    let mut counts = Vec::new(alloc);
    for of in list {
        counts.push(dimension_of(alloc, env, of)?)?;
    }
    Ok(counts)
}

/// The number of elements that a dimension gives.
#[cycle(typing)]
fn dimension_of(alloc: Global, env: &mut Environment, of: &Dimension) -> Result<u32, TypeFault>
    ensures { Tells result env.new (spec.types_dimension of.now env.old) }
{
    match &of.size {
        None => Err(TypeFault::new(TypeKind::Mismatch, of.place)),
        Some(size) => {
            let value = value_of(alloc, env, size)?;
            dimension(env, expr_place(size), &value)
        }
    }
}

/// An enum with its enumerators.
#[cycle(typing)]
fn enum_body(
    alloc: Global,
    env: &mut Environment,
    name: &Option<Identifier>,
    constants: &[Enumerator],
) -> Result<CType, TypeFault>
    ensures { Tells result env.new (spec.enum_body name.now (map spec.types_enumerator constants.now) env.old) }
{
    if let Some(name) = name {
        enum_tag(alloc, env, name)?;
    }
    along_enumerators(alloc, env, constants, Some(0))?;
    Ok(CType::Int(Scalar::S32))
}

/// Enumerators after others.
#[cycle(typing)]
fn along_enumerators(
    alloc: Global,
    env: &mut Environment,
    constants: &[Enumerator],
    first: Option<u64>,
) -> Result<Option<u64>, TypeFault>
    ensures { Tells result env.new (along (map spec.types_enumerator constants.now) first env.old) }
{
    let mut word = first;
    for next in constants {
        word = enumerator(alloc, env, next, word)?;
    }
    Ok(word)
}

/// An enumerator, where `next` is the word that it has if none is written.
#[cycle(typing)]
fn enumerator(
    alloc: Global,
    env: &mut Environment,
    constant: &Enumerator,
    next: Option<u64>,
) -> Result<Option<u64>, TypeFault>
    ensures { Tells result env.new (spec.types_enumerator constant.now next env.old) }
{
    let name = &constant.name;
    if !is_free(env, name.text.as_bytes()) {
        return Err(TypeFault::new(TypeKind::Twice, name.place));
    }
    let word = enumerator_word(alloc, env, &constant.value, next, name)?;
    declare_entity(alloc, env, name.text.as_bytes(), Entity::Enumerator(word))?;
    Ok(next_word(word))
}

/// The word of an enumerator.
#[cycle(typing)]
fn enumerator_word(
    alloc: Global,
    env: &mut Environment,
    written: &Option<Expr>,
    next: Option<u64>,
    name: &Identifier,
) -> Result<u64, TypeFault>
    ensures { Tells result env.new (spec.written_word name.now next written.now env.old) }
{
    match written {
        None => match next {
            Some(word) => Ok(word),
            None => Err(TypeFault::new(TypeKind::NotConstant, name.place)),
        },
        Some(expr) => {
            let value = value_of(alloc, env, expr)?;
            match int_constant(&value) {
                Some(word) => Ok(word),
                None => Err(TypeFault::new(TypeKind::NotConstant, expr_place(expr))),
            }
        }
    }
}
