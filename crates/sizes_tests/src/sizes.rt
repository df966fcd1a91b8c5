//! The sizes of small programs, with values that another implementation gives.
use crate::trees::{AT, arithmetic, chain, int, read};
use c_meaning::{
    ArithmeticOperator, CType, Controlling, Object, Qualifier, TypedBlock, TypedExpr,
    TypedFunction, TypedItem, TypedIteration, TypedParts, TypedStatement, ValueKind,
};
use c_sizes::{Totals, program_size};
use hy_bits::{Memory, Scalar, Shape, Text};
use sqlite_items::{Boxed, Items};
use std::alloc::Global;
use std::test::Fail;

/// An `int`.
fn object(alloc: Global) -> Result<Object, Memory> {
    Ok(Object {
        name: Text::copy_of(alloc, b"x")?,
        place: AT,
        qualifier: Qualifier::Unqualified,
        ctype: CType::Int(Scalar::S32),
        cells: 1,
        start: None,
    })
}

/// The sizes of a program of one function over two `int` parameters, whose body is a block of one statement and two tokens.
fn sizes(alloc: Global, statement: TypedStatement) -> Result<Totals, Memory> {
    let mut objects = Items::new(alloc);
    objects.push(object(alloc)?)?;
    objects.push(object(alloc)?)?;
    let mut items = Items::new(alloc);
    items.push(TypedItem::Statement(statement))?;
    let mut functions = Items::new(alloc);
    functions.push(TypedFunction {
        name: Text::copy_of(alloc, b"mpc_main")?,
        place: AT,
        result: CType::Int(Scalar::S32),
        params: Items::from_slice(alloc, &[0, 1])?,
        body: TypedBlock { tokens: 2, items },
    })?;
    let parts = TypedParts {
        structs: Items::new(alloc),
        objects,
        functions,
        main_function: 0,
        ports: Items::new(alloc),
        result: Shape::Scalar(Scalar::S32),
        cells: 2,
        visits: 0,
        nodes: 0,
        gates: 0,
    };
    program_size(alloc, &parts)
}

/// `return a + b;`
fn sum(alloc: Global) -> Result<TypedStatement, Memory> {
    let kind = ValueKind::Integer(Scalar::S32);
    let left = read(alloc, kind, 0)?;
    let right = read(alloc, kind, 1)?;
    let operation = arithmetic(ArithmeticOperator::Add, Scalar::S32);
    let value: Option<TypedExpr> = Some(chain(alloc, operation, left, right)?);
    Ok(TypedStatement::Return {
        tokens: 5,
        kind,
        value: Boxed::new(alloc, value)?,
    })
}

/// `while (1) statement` with a bound.
fn repeated(alloc: Global, statement: TypedStatement) -> Result<TypedStatement, Memory> {
    let iteration = TypedIteration::While {
        tokens: 3,
        bound: 1 << 20,
        condition: Controlling {
            tokens: 1,
            value: int(1),
        },
        body: statement,
    };
    Ok(TypedStatement::Iteration(Boxed::new(alloc, iteration)?))
}

#[test]
fn the_sum_of_two_parameters_has_its_sizes(rt: HostRuntime) -> Result<(), Fail> {
    let alloc = rt.alloc();
    let statement = sum(alloc).map_err(|_| "memory")?;
    let found = sizes(alloc, statement).map_err(|_| "memory")?;
    assert_eq!(rt; found.visits, 3);
    assert_eq!(rt; found.nodes, 160);
    assert_eq!(rt; found.gates, 6656);
    Ok(())
}

#[test]
fn sizes_stand_still_at_their_greatest(rt: HostRuntime) -> Result<(), Fail> {
    let alloc = rt.alloc();
    let mut statement = sum(alloc).map_err(|_| "memory")?;
    for _ in 0..4 {
        statement = repeated(alloc, statement).map_err(|_| "memory")?;
    }
    let found = sizes(alloc, statement).map_err(|_| "memory")?;
    assert_eq!(rt; found.visits, 1 << 63);
    assert_eq!(rt; found.nodes, 1 << 63);
    assert_eq!(rt; found.gates, 1 << 63);
    Ok(())
}
