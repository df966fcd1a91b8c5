//! How the parts of an initializer fill an object, from its first cell on (C11 6.7.9p17 to p21).

ghost use Rattle.std.specs.Prelude.{◌≡◌, IfOk, map, drop, length};
ghost use Rattle.std.specs.Option.{option_copied};
ghost use Rattle.c_typing.specs.Walks.{Tells};
ghost use Rattle.c_objects.specs.Initializers as spec;

use c_conversions::{TypeFault, TypeKind, cells, kind};
use c_meaning::{CType, Member, Part, StructType, TypedExpr, ValueKind};
use c_shapes::scalars_of;
use c_tree::{Expr, Initializer, Literal, Place};
use c_typing::{Environment, TypedValue, assigned_to};
use hy_bits::{Memory, Scalar};
use sqlite_items::{Items, at};
use std::alloc::Global;
use std::collections::VecDeque;
use std::marker::Model;

/// The values that are left of an initializer, the next cell of the object, and its parts before that cell.
#[derive(Drop)]
pub struct Filled {
    values: VecDeque<TypedValue>,
    cell: u32,
    parts: Items<Part>,
}

impl Model for Filled {
    ghost use Rattle.std.specs.Coded.{codes};
    ghost use Rattle.c_meaning.specs.contracts.types.CType as ctype;
    ghost use Rattle.c_meaning.specs.contracts.expressions.TypedExpr as expr;
    ghost use Rattle.c_objects.specs.Initializers as spec;

    ghost Value = { spec.Filled };

    ghost coded = { Prim.hlevel (codes, ctype.the_row.coded, expr.the_row.coded) };

    ghost view = { λ f. record { values = f.values.items; cell = f.cell; parts = f.parts } };
}

impl Filled {
    ghost use Rattle.std.specs.Prelude.{◌≡◌, IfOk};
    ghost use Rattle.c_objects.specs.Initializers as spec;

    /// Nothing of an object whose initializer has these values.
    pub fn new(alloc: Global, values: VecDeque<TypedValue>) -> Filled
        ensures { result ≡ spec.nothing_filled values.items }
    {
        Filled {
            values,
            cell: 0,
            parts: Items::new(alloc),
        }
    }

    /// The parts.
    pub fn into_parts(self) -> Items<Part>
        ensures { result ≡ self.parts }
    {
        let Filled { parts, .. } = self;
        parts
    }

    /// The next cell.
    fn cell(&self) -> u32
        ensures { result ≡ self.now.cell }
    {
        self.cell
    }

    /// One more part, of so many cells.
    fn with_part(
        mut self,
        kind: ValueKind,
        cells: u32,
        value: Option<TypedExpr>,
    ) -> Result<Filled, Memory>
        ensures { IfOk result (λ more. more ≡ spec.with_part kind cells value self) }
    {
        let cell = self.cell;
        let Some(next) = cell.checked_add(cells) else {
            return Err(Memory);
        };
        self.parts.push(Part { cell, kind, value })?;
        self.cell = next;
        Ok(self)
    }
}

/// The next value, as a part of the type.
fn next_filled(
    alloc: Global,
    env: &Environment,
    place: Place,
    ctype: &CType,
    filled: Filled,
) -> Result<Filled, TypeFault>
    ensures { Tells result env.now (spec.next_filled place ctype.now filled filled.values env.now) }
{
    let Filled {
        mut values,
        cell,
        parts,
    } = filled;
    let Some(value) = values.pop_front() else {
        return Err(TypeFault::new(TypeKind::Mismatch, place));
    };
    let expr = assigned_to(alloc, env, place, ctype, value)?;
    let left = Filled {
        values,
        cell,
        parts,
    };
    let cells = cells(env.structs.as_slice(), ctype);
    Ok(left.with_part(kind(ctype), cells, Some(expr))?)
}

/// What is filled, where the next value is of no use.
fn next_dropped(filled: Filled) -> Filled
    ensures { result ≡ spec.next_dropped filled filled.values }
{
    let Filled {
        mut values,
        cell,
        parts,
    } = filled;
    let _ = values.pop_front();
    Filled {
        values,
        cell,
        parts,
    }
}

// ---- zeros

/// What is left of a list after so many of its items.
fn left_after(scalars: &[Scalar], skipped: usize) -> &[Scalar]
    ensures { result.now ≡ drop skipped scalars.now }
{
    let at = skipped.min(scalars.len());
    &scalars[at..]
}

/// Zeros of these types.
fn with_zeros(scalars: &[Scalar], filled: Filled) -> Result<Filled, Memory>
    ensures { IfOk result (λ all. all ≡ spec.with_zeros scalars.now filled) }
{
    let mut all = filled;
    for scalar in scalars {
        all = all.with_part(ValueKind::Integer(*scalar), 1, None)?;
    }
    Ok(all)
}

/// Zeros up to the end of an object of the type that begins at the cell `start`. It takes time linear in the cells of the object.
fn zeros_from(
    alloc: Global,
    structs: &[StructType],
    ctype: &CType,
    start: u32,
    filled: Filled,
) -> Result<Filled, Memory>
    ensures { IfOk result (λ all. all ≡ spec.zeros_from structs.now ctype.now start filled) }
{
    let scalars = scalars_of(alloc, structs, ctype)?;
    let skipped = filled.cell().saturating_sub(start);
    with_zeros(left_after(scalars.as_slice(), skipped as usize), filled)
}

// ---- the parts of a list

/// Whether a type is of an array or a struct.
fn is_aggregate(ctype: &CType) -> bool
    ensures { result ≡ spec.is_aggregate ctype.now }
{
    match ctype {
        CType::Array(_, _) | CType::Struct(_) => true,
        CType::Void | CType::Int(_) | CType::Pointer(_, _) => false,
    }
}

/// The members of the struct of the number.
fn members_in(structs: &[StructType], number: u32) -> &[Member]
    ensures { result.now ≡ spec.members_in structs.now number }
{
    match at(structs, number as usize) {
        Some(found) => found.members.as_slice(),
        None => &[],
    }
}

/// How many parts an object of the type has.
fn part_count(structs: &[StructType], ctype: &CType) -> usize
    ensures { result ≡ spec.part_count structs.now ctype.now }
{
    match ctype {
        CType::Array(count, _) => *count as usize,
        CType::Struct(number) => members_in(structs, *number).len(),
        CType::Void | CType::Int(_) | CType::Pointer(_, _) => 0,
    }
}

/// The type of the part of the number of an object of the type.
fn part_type<'a>(structs: &'a [StructType], number: usize, ctype: &'a CType) -> Option<&'a CType>
    ensures { option_copied result ≡ spec.part_type structs.now number ctype.now }
{
    match ctype {
        CType::Array(_, element) => Some(element.get()),
        CType::Struct(of) => match at(members_in(structs, *of), number) {
            Some(member) => Some(&member.ctype),
            None => None,
        },
        CType::Void | CType::Int(_) | CType::Pointer(_, _) => None,
    }
}

/// Whether an initializer has braces.
fn is_braced(place: Place, start: &Initializer) -> bool
    ensures { result ≡ (spec.filling_of place start.now).braced }
{
    match start {
        Initializer::Expression(_) => false,
        Initializer::List { .. } => true,
    }
}

/// Whether an initializer is the literal 0 of the type `int`.
fn is_zero(place: Place, start: &Initializer) -> bool
    ensures { result ≡ (spec.filling_of place start.now).zero }
{
    match start {
        Initializer::Expression(Expr::Literal(_, Literal::Integer(Scalar::S32, 0))) => true,
        _ => false,
    }
}

/// Whether a list is `{0}`.
fn is_zero_list(place: Place, parts: &[Initializer]) -> bool
    ensures { result ≡ spec.is_zero_list (map (spec.filling_of place) parts.now) }
{
    match parts {
        [only] => is_zero(place, only),
        _ => false,
    }
}

// ---- initializers

/// How an initializer fills an object of the type, whose `=` stands at the place.
///
/// # Errors
///
/// How a rule is broken, at the place, or memory ran out.
#[cycle(fill)]
pub fn fill(
    alloc: Global,
    env: &Environment,
    place: Place,
    start: &Initializer,
    ctype: &CType,
    filled: Filled,
) -> Result<Filled, TypeFault>
    ensures { Tells result env.now ((spec.filling_of place start.now).fill ctype.now filled env.now) }
{
    match start {
        Initializer::Expression(_) => next_filled(alloc, env, place, ctype, filled),
        Initializer::List { parts, .. } => {
            fill_list(alloc, env, place, parts.as_slice(), ctype, filled)
        }
    }
}

/// How a list in braces fills an object of the type.
#[cycle(fill)]
fn fill_list(
    alloc: Global,
    env: &Environment,
    place: Place,
    parts: &[Initializer],
    ctype: &CType,
    filled: Filled,
) -> Result<Filled, TypeFault>
    ensures { Tells result env.now (spec.list_filled place (map (spec.filling_of place) parts.now) ctype.now filled env.now) }
{
    if !is_aggregate(ctype) {
        return fill_single(alloc, env, place, parts, ctype, filled);
    }
    if is_zero_list(place, parts) {
        let start = filled.cell();
        let structs = env.structs.as_slice();
        return Ok(zeros_from(alloc, structs, ctype, start, next_dropped(filled))?);
    }
    fill_aggregate(alloc, env, place, parts, ctype, filled)
}

/// How one expression in braces fills an integer or a pointer.
#[cycle(fill)]
fn fill_single(
    alloc: Global,
    env: &Environment,
    place: Place,
    parts: &[Initializer],
    ctype: &CType,
    filled: Filled,
) -> Result<Filled, TypeFault>
    ensures { Tells result env.now (spec.single_filled place (map (spec.filling_of place) parts.now) ctype.now filled env.now) }
{
    match parts {
        [only] if !is_braced(place, only) => fill(alloc, env, place, only, ctype, filled),
        _ => Err(TypeFault::new(TypeKind::Mismatch, place)),
    }
}

/// How the parts of a list fill an array or a struct, with zeros after them.
#[cycle(fill)]
fn fill_aggregate(
    alloc: Global,
    env: &Environment,
    place: Place,
    parts: &[Initializer],
    ctype: &CType,
    filled: Filled,
) -> Result<Filled, TypeFault>
    ensures { Tells result env.now (spec.aggregate_filled place (map (spec.filling_of place) parts.now) ctype.now filled env.now) }
{
    if parts.len() > part_count(env.structs.as_slice(), ctype) {
        return Err(TypeFault::new(TypeKind::Mismatch, place));
    }
    let start = filled.cell();
    let whole = fill_parts(alloc, env, place, parts, ctype, filled)?;
    Ok(zeros_from(alloc, env.structs.as_slice(), ctype, start, whole)?)
}

/// How parts fill an array or a struct, one after another.
#[cycle(fill)]
fn fill_parts(
    alloc: Global,
    env: &Environment,
    place: Place,
    parts: &[Initializer],
    ctype: &CType,
    filled: Filled,
) -> Result<Filled, TypeFault>
    ensures { Tells result env.now (spec.parts_filled place env.now.structs ctype.now 0 (map (spec.filling_of place) parts.now) filled env.now) }
{
    let mut all = filled;
    let mut number = 0;
    for part in parts {
        all = fill_part(alloc, env, place, part, number, ctype, all)?;
        number += 1;
    }
    Ok(all)
}

/// How a part fills its place in an array or a struct.
#[cycle(fill)]
fn fill_part(
    alloc: Global,
    env: &Environment,
    place: Place,
    part: &Initializer,
    number: usize,
    ctype: &CType,
    filled: Filled,
) -> Result<Filled, TypeFault>
    ensures { Tells result env.now (spec.part_filled place (spec.part_type env.now.structs number ctype.now) (spec.filling_of place part.now) filled env.now) }
{
    match part_type(env.structs.as_slice(), number, ctype) {
        Some(ctype) => fill(alloc, env, place, part, ctype, filled),
        None => Err(TypeFault::new(TypeKind::Mismatch, place)),
    }
}
