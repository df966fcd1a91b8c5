//! Declarators of objects (C11 6.7, 6.7.6).

ghost use Rattle.std.specs.Prelude.{◌≡◌, OnOk, IfOk, [], map, replicate};
ghost use Rattle.c_conversions.specs.CTypes.{counted_cells};
ghost use Rattle.c_typing.specs.Walks.{Tells, along};
ghost use Rattle.c_objects.specs.Objects as spec;

use crate::dimensions::{dimensioned, pointed, pointer_form};
use crate::initializers::{Storage, initial_parts};
use c_constants::constant_word;
use c_conversions::{MAX_CELLS, TypeFault, TypeKind, cells, copy};
use c_expressions::{specifiers, specs_place};
use c_meaning::{CType, Object, Part, TypedDeclarator};
use c_tree::{Declaration, Identifier, InitDeclarator, Initialization, Initializer};
use c_typing::{
    Entity, Environment, QualifiedType, declare_entity, is_free, object_type as object_type_of,
};
use hy_bits::{Memory, Text};
use sqlite_items::Items;
use std::alloc::Global;

/// That a name isn't declared yet in the innermost scope.
///
/// # Errors
///
/// `Twice` at the name: it is.
pub fn free_name(env: &Environment, name: &Identifier) -> Result<(), TypeFault>
    ensures { Tells result env.now (spec.free_name name.now env.now) }
{
    if is_free(env, name.text.as_bytes()) {
        Ok(())
    } else {
        Err(TypeFault::new(TypeKind::Twice, name.place))
    }
}

/// Counts more cells of objects.
///
/// # Errors
///
/// `Cells` at the name: there are more than 2^16.
pub fn count_more(env: &mut Environment, name: &Identifier, more: u32) -> Result<(), TypeFault>
    ensures { Tells result env.new (spec.counted_more name.now more env.old) }
{
    match env.cells.checked_add(more) {
        Some(all) if all <= MAX_CELLS => {
            env.cells = all;
            Ok(())
        }
        _ => Err(TypeFault::new(TypeKind::Cells, name.place)),
    }
}

/// An object of the type.
fn object_of(
    alloc: Global,
    name: &Identifier,
    of: &QualifiedType,
    cells: u32,
    start: Option<Items<u64>>,
) -> Result<Object, Memory>
    ensures { IfOk result (λ object. object ≡ spec.object_of name.now of.now cells start) }
{
    Ok(Object {
        name: Text::copy_of(alloc, name.text.as_bytes())?,
        place: name.place,
        qualifier: of.qualifier,
        ctype: copy(alloc, &of.ctype)?,
        cells,
        start,
    })
}

/// Declares an object of the type by its name, which no name of the innermost scope is, and gives its number.
///
/// # Errors
///
/// `Cells` at the name: all objects have more than 2^16 cells; or memory ran out.
pub fn new_object(
    alloc: Global,
    env: &mut Environment,
    name: &Identifier,
    of: &QualifiedType,
) -> Result<u32, TypeFault>
    ensures { Tells result env.new (spec.new_object name.now of.now env.old) }
{
    let number = u32::try_from(env.objects.len()).map_err(|_| Memory)?;
    let cells = cells(env.structs.as_slice(), &of.ctype);
    declare_entity(alloc, env, name.text.as_bytes(), Entity::Object(number))?;
    env.objects.push(object_of(alloc, name, of, cells, None)?)?;
    count_more(env, name, cells)?;
    Ok(number)
}

// ---- the words of objects of file scope

/// The word that a part gives its cell.
fn static_word(part: &Part) -> u64
    ensures { result ≡ spec.static_word part.now }
{
    match &part.value {
        Some(value) => constant_word(value).unwrap_or(0),
        None => 0,
    }
}

/// The words that parts give the cells of an object.
fn words_of(alloc: Global, parts: &[Part]) -> Result<Items<u64>, Memory>
    ensures { IfOk result (λ words. words ≡ map spec.static_word parts.now) }
{
    let mut words = Items::new(alloc);
    for part in parts {
        words.push(static_word(part))?;
    }
    Ok(words)
}

/// So many zeros.
fn zero_words(alloc: Global, cells: u32) -> Result<Items<u64>, Memory>
    ensures { IfOk result (λ words. words ≡ replicate cells 0) }
{
    let mut words = Items::new(alloc);
    for done in 0..cells {
        words.push(0)?;
    }
    Ok(words)
}

/// The words that an object of file scope begins with.
fn static_words(
    alloc: Global,
    cells: u32,
    parts: &Option<Items<Part>>,
) -> Result<Items<u64>, Memory>
    ensures { IfOk result (λ words. words ≡ spec.static_words cells parts.now) }
{
    match parts {
        None => zero_words(alloc, cells),
        Some(parts) => words_of(alloc, parts.as_slice()),
    }
}

/// Puts the words with an object of file scope.
fn put_words(
    alloc: Global,
    env: &mut Environment,
    name: &Identifier,
    of: &QualifiedType,
    number: u32,
    parts: &Option<Items<Part>>,
) -> Result<(), Memory>
    ensures { OnOk result (env.new ≡ spec.with_words name.now of.now number (spec.static_words (counted_cells env.old.structs of.now.ctype) parts.now) env.old) }
{
    let cells = cells(env.structs.as_slice(), &of.ctype);
    let words = static_words(alloc, cells, parts)?;
    let object = object_of(alloc, name, of, cells, Some(words))?;
    if (number as usize) < env.objects.len() {
        env.objects.set(number as usize, object);
    }
    Ok(())
}

// ---- declarators

/// The number of parts between an initializer's braces.
fn list_length(start: &Option<Initialization>) -> Result<Option<u32>, Memory>
    ensures { IfOk result (λ length. length ≡ spec.list_length start.now) }
{
    match start {
        Some(
            Initialization {
                value: Initializer::List { parts, .. },
                ..
            },
        ) => Ok(Some(u32::try_from(parts.len()).map_err(|_| Memory)?)),
        _ => Ok(None),
    }
}

/// The parts of an initializer, if there is one.
fn parts_where(
    alloc: Global,
    env: &mut Environment,
    storage: Storage,
    start: &Option<Initialization>,
    ctype: &CType,
) -> Result<Option<Items<Part>>, TypeFault>
    ensures { Tells result env.new (spec.parts_where storage start.now ctype.now env.old) }
{
    match start {
        None => Ok(None),
        Some(start) => {
            let parts = initial_parts(alloc, env, storage, start.place, &start.value, ctype)?;
            Ok(Some(parts))
        }
    }
}

/// Puts what an object begins with to its place: that of an object of file scope stands with it, and an automatic one's in its declaration.
fn started(
    alloc: Global,
    env: &mut Environment,
    storage: Storage,
    name: &Identifier,
    of: &QualifiedType,
    object: u32,
    parts: Option<Items<Part>>,
) -> Result<TypedDeclarator, TypeFault>
    ensures { Tells result env.new (spec.started storage name.now of.now object parts env.old) }
{
    match storage {
        Storage::Automatic => Ok(TypedDeclarator {
            object,
            start: parts,
        }),
        Storage::Static => {
            put_words(alloc, env, name, of, object, &parts)?;
            Ok(TypedDeclarator {
                object,
                start: None,
            })
        }
    }
}

/// An object with its initializer.
fn declared_object(
    alloc: Global,
    env: &mut Environment,
    storage: Storage,
    name: &Identifier,
    start: &Option<Initialization>,
    of: &QualifiedType,
) -> Result<TypedDeclarator, TypeFault>
    ensures { Tells result env.new (spec.declared_object storage name.now start.now of.now env.old) }
{
    let object = new_object(alloc, env, name, of)?;
    let parts = parts_where(alloc, env, storage, start, &of.ctype)?;
    started(alloc, env, storage, name, of, object, parts)
}

/// A declarator of a declaration whose specifiers name the type.
///
/// # Errors
///
/// The first rule that is broken, at its place, or memory ran out. What is declared is then no longer of use.
pub fn declarator(
    alloc: Global,
    env: &mut Environment,
    storage: Storage,
    of: &QualifiedType,
    declared: &InitDeclarator,
) -> Result<TypedDeclarator, TypeFault>
    ensures { Tells result env.new (spec.declarator_walk storage of.now declared.now env.old) }
{
    let dimensions = declared.dimensions.as_slice();
    pointer_form(env, &declared.pointer, dimensions)?;
    free_name(env, &declared.name)?;
    let empty = list_length(&declared.start)?;
    let element = copy(alloc, &of.ctype)?;
    let ctype = dimensioned(alloc, env, empty, dimensions, element)?;
    let own = pointed(alloc, &declared.pointer, ctype, of.qualifier)?;
    declared_object(alloc, env, storage, &declared.name, &declared.start, &own)
}

/// The declarators before, and one more.
fn declarator_after(
    alloc: Global,
    env: &mut Environment,
    storage: Storage,
    of: &QualifiedType,
    declared: &InitDeclarator,
    mut before: Items<TypedDeclarator>,
) -> Result<Items<TypedDeclarator>, TypeFault>
    ensures { Tells result env.new (spec.declarator_after storage of.now declared.now before env.old) }
{
    let declared = declarator(alloc, env, storage, of, declared)?;
    before.push(declared)?;
    Ok(before)
}

/// Declarators of a declaration whose specifiers name the type, one after another.
///
/// # Errors
///
/// As of [`declarator`].
pub fn declarators(
    alloc: Global,
    env: &mut Environment,
    storage: Storage,
    of: &QualifiedType,
    list: &[InitDeclarator],
) -> Result<Items<TypedDeclarator>, TypeFault>
    ensures { Tells result env.new (along (map (spec.declarator_after storage of.now) list.now) [] env.old) }
{
    let mut all = Items::new(alloc);
    for next in list {
        all = declarator_after(alloc, env, storage, of, next, all)?;
    }
    Ok(all)
}

/// The type of the objects of a declaration.
///
/// # Errors
///
/// `Mismatch` at the specifiers: it is void; otherwise the first rule of the specifiers that is broken, at its place, or memory ran out.
pub fn object_specs(
    alloc: Global,
    env: &mut Environment,
    declaration: &Declaration,
) -> Result<QualifiedType, TypeFault>
    ensures { Tells result env.new (spec.object_specs declaration.now env.old) }
{
    let found = specifiers(alloc, env, &declaration.specs)?;
    object_type_of(env, specs_place(&declaration.specs), found)
}
