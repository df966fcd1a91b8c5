//! Trees of small typed programs whose objects are numbered and of one scalar type.
use c_meaning::{
    CType, ChainStep, IntegerOperation, Lvalue, Object, Operation, Qualifier, TypedBlock,
    TypedExpr, TypedFunction, TypedItem, TypedParts, TypedStatement, ValueKind,
};
use c_tree::Place;
use hy_bits::{Memory, Scalar, Shape, Text};
use sqlite_items::{Boxed, Items};
use std::alloc::Global;

/// The place of the line 1 and the column.
pub fn at(column: u32) -> Place {
    Place { line: 1, column }
}

/// An object of the scalar type, declared at the column.
fn object(alloc: Global, scalar: Scalar, column: u32) -> Result<Object, Memory> {
    Ok(Object {
        name: Text::copy_of(alloc, b"x")?,
        place: at(column),
        qualifier: Qualifier::Unqualified,
        ctype: CType::Int(scalar),
        cells: 1,
        start: None,
    })
}

/// The lvalue of an object at the column.
pub fn named(object: u32, column: u32) -> Lvalue {
    Lvalue::Object {
        place: at(column),
        object,
        cells: 1,
    }
}

/// A read of an object at the column.
pub fn read(alloc: Global, scalar: Scalar, object: u32, column: u32) -> Result<TypedExpr, Memory> {
    Ok(TypedExpr::Load {
        kind: ValueKind::Integer(scalar),
        from: Boxed::new(alloc, named(object, column))?,
    })
}

/// An operation at the column on the values of two expressions.
pub fn operation(
    alloc: Global,
    operation: IntegerOperation,
    column: u32,
    left: TypedExpr,
    right: TypedExpr,
) -> Result<TypedExpr, Memory> {
    let mut steps = Items::new(alloc);
    steps.push(ChainStep {
        left: None,
        place: at(column),
        operation: Operation::Integer(operation),
        right,
    })?;
    Ok(TypedExpr::Chain {
        first: Boxed::new(alloc, left)?,
        steps,
    })
}

/// An item that returns a value.
pub fn returned(alloc: Global, scalar: Scalar, value: TypedExpr) -> Result<TypedItem, Memory> {
    Ok(TypedItem::Statement(TypedStatement::Return {
        tokens: 0,
        kind: ValueKind::Integer(scalar),
        value: Boxed::new(alloc, Some(value))?,
    }))
}

/// A program of one function with two parameters, the objects 0 and 1, whose body has the items.
pub fn program(
    alloc: Global,
    scalar: Scalar,
    items: Items<TypedItem>,
) -> Result<TypedParts, Memory> {
    let mut objects = Items::new(alloc);
    objects.push(object(alloc, scalar, 18)?)?;
    objects.push(object(alloc, scalar, 33)?)?;
    let mut functions = Items::new(alloc);
    functions.push(TypedFunction {
        name: Text::copy_of(alloc, b"mpc_main")?,
        place: at(5),
        result: CType::Int(scalar),
        params: Items::from_slice(alloc, &[0, 1])?,
        body: TypedBlock { tokens: 0, items },
    })?;
    Ok(TypedParts {
        structs: Items::new(alloc),
        objects,
        functions,
        main_function: 0,
        ports: Items::new(alloc),
        result: Shape::Scalar(scalar),
        cells: 2,
        visits: 0,
        nodes: 0,
        gates: 0,
    })
}
