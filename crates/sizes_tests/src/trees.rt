//! Trees of small typed programs.
use c_meaning::{
    ArithmeticOperator, ChainStep, Comparison, IntegerOperation, LogicalOperand, Lvalue, Operation,
    TypedExpr, ValueKind,
};
use c_tree::Place;
use hy_bits::{Memory, Scalar};
use sqlite_items::{Boxed, Items};
use std::alloc::Global;

/// The place of all that is made here.
pub const AT: Place = Place { line: 1, column: 1 };

/// A constant of a type.
pub fn constant(scalar: Scalar, word: u64) -> TypedExpr {
    TypedExpr::Constant {
        place: AT,
        scalar,
        word,
    }
}

/// An `int` constant.
pub fn int(word: u64) -> TypedExpr {
    constant(Scalar::S32, word)
}

/// The lvalue of an object of one cell.
pub fn named(object: u32) -> Lvalue {
    Lvalue::Object {
        place: AT,
        object,
        cells: 1,
    }
}

/// A read of an object.
pub fn read(alloc: Global, kind: ValueKind, object: u32) -> Result<TypedExpr, Memory> {
    Ok(TypedExpr::Load {
        kind,
        from: Boxed::new(alloc, named(object))?,
    })
}

/// An operation on two values.
pub fn chain(
    alloc: Global,
    operation: Operation,
    left: TypedExpr,
    right: TypedExpr,
) -> Result<TypedExpr, Memory> {
    let mut steps = Items::new(alloc);
    steps.push(ChainStep {
        left: None,
        place: AT,
        operation,
        right,
    })?;
    Ok(TypedExpr::Chain {
        first: Boxed::new(alloc, left)?,
        steps,
    })
}

/// An arithmetic operation on two values of a type.
pub fn arithmetic(operator: ArithmeticOperator, scalar: Scalar) -> Operation {
    Operation::Integer(IntegerOperation::Arithmetic(operator, scalar))
}

/// `left || right`
pub fn either(alloc: Global, left: TypedExpr, right: TypedExpr) -> Result<TypedExpr, Memory> {
    let mut rest = Items::new(alloc);
    rest.push(LogicalOperand {
        place: AT,
        operand: right,
    })?;
    Ok(TypedExpr::LogicalOr {
        first: Boxed::new(alloc, left)?,
        rest,
    })
}

/// `left && right`
pub fn both(alloc: Global, left: TypedExpr, right: TypedExpr) -> Result<TypedExpr, Memory> {
    let mut rest = Items::new(alloc);
    rest.push(LogicalOperand {
        place: AT,
        operand: right,
    })?;
    Ok(TypedExpr::LogicalAnd {
        first: Boxed::new(alloc, left)?,
        rest,
    })
}

/// `condition ? second : third`
pub fn conditional(
    alloc: Global,
    condition: TypedExpr,
    second: TypedExpr,
    third: TypedExpr,
) -> Result<TypedExpr, Memory> {
    Ok(TypedExpr::Conditional {
        condition: Boxed::new(alloc, condition)?,
        place: AT,
        kind: ValueKind::Integer(Scalar::S32),
        second: Boxed::new(alloc, second)?,
        third: Boxed::new(alloc, third)?,
    })
}

/// A comparison of two values of a type.
pub fn comparison(
    alloc: Global,
    comparison: Comparison,
    scalar: Scalar,
    left: TypedExpr,
    right: TypedExpr,
) -> Result<TypedExpr, Memory> {
    chain(
        alloc,
        Operation::Comparison(comparison, scalar),
        left,
        right,
    )
}
