//! Types as trees.

ghost use Rattle.std.specs.Prelude.{◌≡◌, IfOk};
ghost use Rattle.c_meaning.specs.Types as types;
ghost use Rattle.c_conversions.specs.CTypes as spec;

use crate::scalars::same_scalar;
use c_meaning::{CType, Qualifier, StructType, ValueKind};
use hy_bits::Memory;
use sqlite_items::Boxed;
use std::alloc::Global;

/// The most cells that the objects of a program have.
pub const MAX_CELLS: u32 = 65536;

/// Whether two qualifiers are one.
fn same_qualifier(a: Qualifier, b: Qualifier) -> bool
    ensures { result ≡ spec.same_qualifier a b }
{
    a == b
}

/// Whether two types are the same (C11 6.2.7). It takes time linear in the smaller of them.
pub fn same_type(a: &CType, b: &CType) -> bool
    ensures { result ≡ spec.same_type a.now b.now }
{
    match (a, b) {
        (CType::Void, CType::Void) => true,
        (CType::Int(t), CType::Int(u)) => same_scalar(*t, *u),
        (CType::Array(count, element), CType::Array(other, of)) => {
            *count == *other && same_type(element.get(), of.get())
        }
        (CType::Struct(number), CType::Struct(other)) => *number == *other,
        (CType::Pointer(qualifier, to), CType::Pointer(other, of)) => {
            same_qualifier(*qualifier, *other) && same_type(to.get(), of.get())
        }
        _ => false,
    }
}

/// A copy of a type, in time linear in its size.
///
/// # Errors
///
/// Memory ran out.
pub fn copy(alloc: Global, ctype: &CType) -> Result<CType, Memory>
    ensures { IfOk result (λ copy. copy ≡ ctype.now) }
{
    match ctype {
        CType::Void => Ok(CType::Void),
        CType::Int(scalar) => Ok(CType::Int(*scalar)),
        CType::Struct(number) => Ok(CType::Struct(*number)),
        CType::Array(count, element) => {
            let element = copy(alloc, element.get())?;
            Ok(CType::Array(*count, Boxed::new(alloc, element)?))
        }
        CType::Pointer(qualifier, to) => {
            let to = copy(alloc, to.get())?;
            Ok(CType::Pointer(*qualifier, Boxed::new(alloc, to)?))
        }
    }
}

/// The number of the cells of a type whose structs are these, or one more than `MAX_CELLS` where it has more. It takes time
/// linear in the size of the type.
pub fn cells(structs: &[StructType], ctype: &CType) -> u32
    ensures { result ≡ spec.counted_cells structs.now ctype.now }
{
    match ctype {
        CType::Void => 0,
        CType::Int(_) | CType::Pointer(_, _) => 1,
        CType::Struct(number) => match structs.get(*number as usize) {
            Some(found) => found.cells.min(MAX_CELLS + 1),
            None => 0,
        },
        CType::Array(count, element) => {
            count
                .saturating_mul(cells(structs, element.get()))
                .min(MAX_CELLS + 1)
        }
    }
}

/// The kind of a value of a type. No value has the type of an array.
pub fn kind(ctype: &CType) -> ValueKind
    ensures { result ≡ types.kind_of ctype.now }
{
    match ctype {
        CType::Void | CType::Array(_, _) => ValueKind::Void,
        CType::Int(scalar) => ValueKind::Integer(*scalar),
        CType::Struct(number) => ValueKind::Struct(*number),
        CType::Pointer(_, _) => ValueKind::Pointer,
    }
}
