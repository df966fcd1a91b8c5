//! Types as shapes.

ghost use Rattle.std.specs.Prelude.{◌≡◌, IfOk, None, take, get_or};
ghost use Rattle.c_meaning.specs.Types as types;
ghost use Rattle.c_shapes.specs.Structs as spec;

use c_meaning::{CType, Member, StructType};
use hy_bits::{Field, Memory, Shape, Text};
use sqlite_items::{Boxed, Items, at};
use std::alloc::Global;

/// The shape of a type whose structs are these, each by those before it. A type that has a pointer, `void` or a struct that isn't among
/// these has none. It takes time linear in the shape.
///
/// # Errors
///
/// Memory ran out.
#[tactic(auto, using(crate::proofs::ShapeLaws::all_shapes))]
pub fn shape_of(
    alloc: Global,
    structs: &[StructType],
    ctype: &CType,
) -> Result<Option<Shape>, Memory>
    ensures { IfOk result (λ shape. shape ≡ types.shape_of (types.struct_shapes structs.now) ctype.now) }
{
    shape_below(alloc, structs, structs.len(), ctype)
}

/// The shape of a type by the first `below` structs alone.
#[cycle(shapes)]
fn shape_below(
    alloc: Global,
    structs: &[StructType],
    below: usize,
    ctype: &CType,
) -> Result<Option<Shape>, Memory>
    ensures { IfOk result (λ shape. shape ≡ types.shape_of (take below (types.struct_shapes structs.now)) ctype.now) }
{
    match ctype {
        CType::Void | CType::Pointer(_, _) => Ok(None),
        CType::Int(scalar) => Ok(Some(Shape::Scalar(*scalar))),
        CType::Array(count, element) => {
            match shape_below(alloc, structs, below, element.get())? {
                Some(shape) => Ok(Some(Shape::Array(*count, Boxed::new(alloc, shape)?))),
                None => Ok(None),
            }
        }
        CType::Struct(number) => numbered(alloc, structs, below, *number as usize),
    }
}

/// The shape of the struct of the number, where it is one of the first `below`.
#[cycle(shapes)]
fn numbered(
    alloc: Global,
    structs: &[StructType],
    below: usize,
    number: usize,
) -> Result<Option<Shape>, Memory>
    ensures { IfOk result (λ shape. shape ≡ get_or (take below (types.struct_shapes structs.now)) number None) }
{
    if number >= below {
        return Ok(None);
    }
    match at(structs, number) {
        Some(found) => struct_shape(alloc, structs, number, found),
        None => Ok(None),
    }
}

/// The shape of a struct by the first `below` structs alone.
#[cycle(shapes)]
#[tactic(auto, using(crate::proofs::ShapeLaws::field_passes, crate::proofs::ShapeLaws::field_none, crate::proofs::ShapeLaws::fields_done))]
fn struct_shape(
    alloc: Global,
    structs: &[StructType],
    below: usize,
    of: &StructType,
) -> Result<Option<Shape>, Memory>
    ensures { IfOk result (λ shape. shape ≡ spec.struct_shape (take below (types.struct_shapes structs.now)) of.now.members) }
{
    let mut fields = Items::new(alloc);
    for member in of.members.as_slice() {
        match shape_below(alloc, structs, below, &member.ctype)? {
            Some(shape) => fields.push(Field {
                name: Text::copy_of(alloc, member.name.as_bytes())?,
                shape,
            })?,
            None => return Ok(None),
        }
    }
    Ok(Some(Shape::Struct(fields)))
}
