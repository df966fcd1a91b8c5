//! A loop that runs as often as its input says, within its bound and past it.
use crate::trees::{named, operation, program, read, returned};
use c_meaning::{
    ArithmeticOperator, Bound, Controlling, IntegerOperation, Run, TypedEffect, TypedExpr,
    TypedItem, TypedIteration, TypedStatement, Written,
};
use hy_bits::{Inputs, Memory, Scalar};
use sqlite_items::{Boxed, Items};
use std::alloc::Global;
use std::test::Fail;

const SUM: IntegerOperation = IntegerOperation::Arithmetic(ArithmeticOperator::Add, Scalar::U32);

const DIFFERENCE: IntegerOperation = IntegerOperation::Arithmetic(
    ArithmeticOperator::Subtract,
    Scalar::U32,
);

/// `object op= 1;`
fn change(alloc: Global, object: u32, operation: IntegerOperation) -> Result<TypedItem, Memory> {
    let effect = TypedEffect::Compound {
        written: Written::Postfix,
        place: crate::trees::at(1),
        target: named(object, 1),
        scalar: Scalar::U32,
        operation,
        value: TypedExpr::Constant {
            place: crate::trees::at(1),
            scalar: Scalar::U32,
            word: 1,
        },
    };
    Ok(TypedItem::Statement(TypedStatement::Effect {
        tokens: 0,
        effect: Boxed::new(alloc, effect)?,
    }))
}

/// The run of `while (x) { x--; y++; } return x + y;` with the bound 4.
fn outcome(alloc: Global, x: u64, y: u64) -> Result<Run, Memory> {
    let mut turn = Items::new(alloc);
    turn.push(change(alloc, 0, DIFFERENCE)?)?;
    turn.push(change(alloc, 1, SUM)?)?;
    let body = c_meaning::TypedBlock {
        tokens: 0,
        items: turn,
    };
    let iteration = TypedIteration::While {
        tokens: 0,
        bound: 4,
        condition: Controlling {
            tokens: 0,
            value: read(alloc, Scalar::U32, 0, 8)?,
        },
        body: TypedStatement::Block(Boxed::new(alloc, body)?),
    };
    let mut items = Items::new(alloc);
    items.push(TypedItem::Statement(TypedStatement::Iteration(Boxed::new(alloc, iteration)?)))?;
    let left = read(alloc, Scalar::U32, 0, 8)?;
    let right = read(alloc, Scalar::U32, 1, 12)?;
    let value = operation(alloc, SUM, 10, left, right)?;
    items.push(returned(alloc, Scalar::U32, value)?)?;
    let parts = program(alloc, Scalar::U32, items)?;
    let words = Vec::from_slice(alloc, &[x, y])?;
    c_plain::run(alloc, &parts, &Inputs::new(words))
}

#[test]
fn a_loop_passes_its_bound_where_its_condition_holds_after_it(rt: HostRuntime) -> Result<(), Fail> {
    let rows = [
        (0, 7, Bound::Kept, 7),
        (4, 10, Bound::Kept, 14),
        (5, 10, Bound::Passed, 0),
    ];
    for (x, y, bound, word) in rows {
        let run = outcome(rt.alloc(), x, y).map_err(|_| "memory")?;
        assert_eq!(rt; run.bound, bound, "{x} {y}");
        assert_eq!(rt; run.words.as_slice(), [word].as_slice(), "{x} {y}");
        assert_eq!(rt; run.undefined, None, "{x} {y}");
    }
    Ok(())
}
