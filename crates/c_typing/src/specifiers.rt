//! Types that are named by words or by a `typedef`, enumerators and dimensions (C11 6.7.2, 6.7.6.2), on parts that are walked.

ghost use Rattle.std.specs.Prelude.{◌≡◌, IfOk};
ghost use Rattle.hy_bits.specs.Words.{modulus, is_negative};
ghost use Rattle.c_typing.specs.Walks.{Tells};
ghost use Rattle.c_typing.specs.Specifiers as spec;

use crate::environment::{Entity, Environment, QualifiedType};
use crate::names::entity;
use crate::values::{TypedValue, scalar};
use c_constants::constant_word;
use c_conversions::{TypeFault, TypeKind, copy};
use c_meaning::{CType, Qualifier, convert};
use c_tree::{Identifier, Place, SpelledType};
use hy_bits::{Memory, Scalar, Width};
use sqlite_items::Boxed;
use std::alloc::Global;

/// The most elements of an array.
pub const MAX_ELEMENTS: u64 = 65536;

/// The type that words spell.
pub fn spelled(spelled: SpelledType) -> CType
    ensures { result ≡ spec.spelled_ctype spelled }
{
    match spelled {
        SpelledType::Void => CType::Void,
        SpelledType::Scalar(scalar) => CType::Int(scalar),
    }
}

/// A copy of a qualified type.
fn copy_of(alloc: Global, found: &QualifiedType) -> Result<QualifiedType, Memory>
    ensures { IfOk result (λ copy. copy ≡ found.now) }
{
    Ok(QualifiedType {
        ctype: copy(alloc, &found.ctype)?,
        qualifier: found.qualifier,
    })
}

/// The type that a `typedef` names.
///
/// # Errors
///
/// `Unknown` at the name: no `typedef` declares it; or memory ran out.
pub fn type_name_typing(
    alloc: Global,
    env: &Environment,
    name: &Identifier,
) -> Result<QualifiedType, TypeFault>
    ensures { Tells result env.now (spec.type_name_typing name.now env.now) }
{
    match entity(env, name.text.as_bytes()) {
        Some(Entity::TypeName(number)) => match env.typedefs.get(number as usize) {
            Some(found) => Ok(copy_of(alloc, found)?),
            None => Err(TypeFault::new(TypeKind::Unknown, name.place)),
        },
        _ => Err(TypeFault::new(TypeKind::Unknown, name.place)),
    }
}

/// `const` where it stands, and else the qualifier.
fn const_if(places: &[Place], qualifier: Qualifier) -> Qualifier
    ensures { result ≡ spec.const_if places.now qualifier }
{
    match places {
        [] => qualifier,
        [..] => Qualifier::Const,
    }
}

/// A type with the `const`s before and after what names it.
pub fn qualified(before: &[Place], found: QualifiedType, after: &[Place]) -> QualifiedType
    ensures { result ≡ spec.qualified before.now found after.now }
{
    QualifiedType {
        ctype: found.ctype,
        qualifier: const_if(before, const_if(after, found.qualifier)),
    }
}

/// The type of an object, a member or a `typedef`.
///
/// # Errors
///
/// `Mismatch` at the place: it is void.
pub fn object_type(
    env: &Environment,
    place: Place,
    found: QualifiedType,
) -> Result<QualifiedType, TypeFault>
    ensures { Tells result env.now (spec.object_type place found env.now) }
{
    match &found.ctype {
        CType::Void => Err(TypeFault::new(TypeKind::Mismatch, place)),
        _ => Ok(found),
    }
}

/// The word of a constant expression as one of `int`, if it is one that `int` holds.
pub fn int_constant(value: &TypedValue) -> Option<u64>
    ensures { result ≡ spec.int_constant value.now }
{
    let scalar = scalar(&value.ctype)?;
    int_word(scalar, constant_word(&value.expr)?)
}

/// A word of the type as one of `int`, if `int` holds it.
fn int_word(scalar: Scalar, word: u64) -> Option<u64>
    ensures { result ≡ spec.int_word scalar word }
{
    if scalar.signed() {
        let converted = convert(scalar, Scalar::S32, word);
        let back = convert(Scalar::S32, scalar, converted);
        if back == word { Some(converted) } else { None }
    } else if word < 0x8000_0000 {
        Some(word)
    } else {
        None
    }
}

/// The word of the enumerator after one with the word, if `int` has it.
pub fn next_word(word: u64) -> Option<u64>
    ensures { result ≡ spec.next_word word }
{
    if word == 0x7fff_ffff {
        None
    } else {
        Some(word.wrapping_add(1) & 0xffff_ffff)
    }
}

/// A number of elements, from 1 to 65536, that is a word of the type.
fn element_count(scalar: Scalar, word: u64) -> Option<u32>
    ensures { result ≡ spec.element_count scalar word }
{
    if scalar.signed() && is_negative(scalar.width(), word) {
        None
    } else if word >= 1 && word <= MAX_ELEMENTS {
        Some(word as u32)
    } else {
        None
    }
}

/// Whether a word of the width has its highest bit.
fn is_negative(width: Width, word: u64) -> bool
    ensures { result ≡ is_negative (modulus width) word }
{
    let half = match width {
        Width::W1 => 1,
        Width::W8 => 0x80,
        Width::W16 => 0x8000,
        Width::W32 => 0x8000_0000,
        Width::W64 => 0x8000_0000_0000_0000,
    };
    word >= half
}

/// The number of elements that a dimension gives.
///
/// # Errors
///
/// `NotConstant` at the place: it is no constant expression of a value from 1 to 65536.
pub fn dimension(env: &Environment, place: Place, value: &TypedValue) -> Result<u32, TypeFault>
    ensures { Tells result env.now (spec.dimension place value.now env.now) }
{
    match count_where(scalar(&value.ctype), constant_word(&value.expr)) {
        Some(count) => Ok(count),
        None => Err(TypeFault::new(TypeKind::NotConstant, place)),
    }
}

/// The number of elements, where there is a type and a word.
fn count_where(scalar: Option<Scalar>, word: Option<u64>) -> Option<u32>
    ensures { result ≡ spec.count_where scalar word }
{
    element_count(scalar?, word?)
}

/// The array type over these numbers of elements, the first outermost.
///
/// # Errors
///
/// Memory ran out.
pub fn array_of(alloc: Global, mut counts: Vec<u32>, element: CType) -> Result<CType, Memory>
    ensures { IfOk result (λ ctype. ctype ≡ spec.array_of counts.items element) }
{
    let mut ctype = element;
    while let Some(count) = counts.pop() {
        ctype = CType::Array(count, Boxed::new(alloc, ctype)?);
    }
    Ok(ctype)
}
