ghost use Rattle.std.specs.Prelude.{◌≡◌, IfOk};

use crate::{Memory, Role, Scalar, Text};
use sqlite_items::{Boxed, Items};
use std::alloc::Global;

/// The shape of an input or a result: a scalar, an array of a number of elements of one shape, or a struct.
#[cycle(shapes)]
#[derive(Debug, Drop)]
pub enum Shape {
    Scalar(Scalar),
    Array(u32, Boxed<Shape>),
    Struct(Items<Field>),
}

/// A member of a struct.
#[cycle(shapes)]
#[derive(Debug, Drop)]
pub struct Field {
    pub name: Text,
    pub shape: Shape,
}

/// An input of one of the parties.
#[derive(Debug, Drop)]
pub struct Port {
    pub role: Role,
    pub name: Text,
    pub shape: Shape,
}

impl Shape {
    /// A copy of the shape, in time that grows with its size.
    ///
    /// # Errors
    ///
    /// Memory ran out.
    #[cycle(copies)]
    pub fn copy(&self, alloc: Global) -> Result<Shape, Memory>
        ensures { IfOk result (λ copy. copy ≡ self.now) }
    {
        match self {
            Shape::Scalar(scalar) => Ok(Shape::Scalar(*scalar)),
            Shape::Array(count, element) => {
                let element = element.get().copy(alloc)?;
                Ok(Shape::Array(*count, Boxed::new(alloc, element)?))
            }
            Shape::Struct(fields) => Ok(Shape::Struct(copy_of_fields(alloc, fields)?)),
        }
    }
}

#[cycle(copies)]
fn copy_of_fields(alloc: Global, fields: &Items<Field>) -> Result<Items<Field>, Memory>
    ensures { IfOk result (λ copy. copy ≡ fields.now) }
{
    let mut copies = Items::new(alloc);
    for field in fields.as_slice() {
        copies.push(field.copy(alloc)?)?;
    }
    Ok(copies)
}

impl Field {
    /// A copy of the field, in time that grows with its size.
    ///
    /// # Errors
    ///
    /// Memory ran out.
    #[cycle(copies)]
    pub fn copy(&self, alloc: Global) -> Result<Field, Memory>
        ensures { IfOk result (λ copy. copy ≡ self.now) }
    {
        let name = Text::copy_of(alloc, self.name.as_bytes())?;
        let shape = self.shape.copy(alloc)?;
        Ok(Field { name, shape })
    }
}

impl Port {
    /// A copy of the port, in time that grows with its size.
    ///
    /// # Errors
    ///
    /// Memory ran out.
    pub fn copy(&self, alloc: Global) -> Result<Port, Memory>
        ensures { IfOk result (λ copy. copy ≡ self.now) }
    {
        let name = Text::copy_of(alloc, self.name.as_bytes())?;
        let shape = self.shape.copy(alloc)?;
        Ok(Port {
            role: self.role,
            name,
            shape,
        })
    }
}
