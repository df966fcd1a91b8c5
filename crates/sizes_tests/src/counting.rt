//! Loops that count (C11 6.8.5.3).
use crate::trees::{AT, comparison, int, named, read};
use c_constants::{counted, counting_object};
use c_meaning::{
    ArithmeticOperator, Comparison, Controlling, Conversion, IntegerOperation, TypedEffect,
    TypedExpr, TypedFirst, TypedStep, ValueKind, Written,
};
use hy_bits::{Memory, Scalar};
use sqlite_items::Boxed;
use std::alloc::Global;
use std::test::Fail;

/// The first word of the object 7, which is an `unsigned char` or an `int`, its comparison with a constant, what a step adds or subtracts,
/// and the number of turns.
type Row = (
    Scalar,
    u64,
    Comparison,
    u64,
    ArithmeticOperator,
    u64,
    Option<u32>,
);

/// The object 7 as an `int`.
fn object(alloc: Global, scalar: Scalar) -> Result<TypedExpr, Memory> {
    let object = read(alloc, ValueKind::Integer(scalar), 7)?;
    Ok(TypedExpr::Converted {
        conversion: Conversion::Integer {
            from: scalar,
            to: Scalar::S32,
        },
        operand: Boxed::new(alloc, object)?,
    })
}

/// `object = word`
fn first(scalar: Scalar, word: u64) -> TypedFirst {
    TypedFirst::Effect(TypedEffect::Assignment {
        place: AT,
        target: named(7),
        kind: ValueKind::Integer(scalar),
        value: int(word),
    })
}

/// `object += by` or `object -= by`
fn step(scalar: Scalar, operator: ArithmeticOperator, by: u64) -> TypedStep {
    TypedStep {
        tokens: 3,
        effect: TypedEffect::Compound {
            written: Written::Assignment,
            place: AT,
            target: named(7),
            scalar,
            operation: IntegerOperation::Arithmetic(operator, Scalar::S32),
            value: int(by),
        },
    }
}

/// The turns of a head.
fn turns(first: &TypedFirst, value: TypedExpr, step: &TypedStep) -> Option<u32> {
    let condition = Controlling { tokens: 3, value };
    let object = counting_object(&step.effect)?;
    let count = counted(object, first, &condition, step)?;
    Some(count.turns)
}

#[test]
fn a_head_tells_its_turns(rt: HostRuntime) -> Result<(), Fail> {
    let (add, sub) = (ArithmeticOperator::Add, ArithmeticOperator::Subtract);
    let rows: [Row; 11] = [
        (Scalar::S32, 0, Comparison::Less, 10, add, 1, Some(10)),
        (Scalar::S32, 0, Comparison::LessOrEqual, 10, add, 3, Some(4)),
        (Scalar::S32, 10, Comparison::Greater, 0, sub, 1, Some(10)),
        (
            Scalar::S32,
            9,
            Comparison::GreaterOrEqual,
            0,
            sub,
            1,
            Some(10),
        ),
        (Scalar::S32, 0, Comparison::Unequal, 6, add, 2, Some(3)),
        (Scalar::S32, 0, Comparison::Equal, 0, add, 1, None),
        (Scalar::S32, 5, Comparison::Less, 5, add, 1, Some(0)),
        (Scalar::U8, 250, Comparison::Unequal, 0, add, 1, Some(6)),
        (Scalar::U8, 0, Comparison::GreaterOrEqual, 0, add, 1, None),
        (
            Scalar::S32,
            0,
            Comparison::Less,
            1 << 20,
            add,
            1,
            Some(1 << 20),
        ),
        (
            Scalar::S32,
            0,
            Comparison::LessOrEqual,
            1 << 20,
            add,
            1,
            None,
        ),
    ];
    for (scalar, start, sign, limit, operator, by, wanted) in rows {
        let first = first(scalar, start);
        let step = step(scalar, operator, by);
        let left = object(rt.alloc(), scalar).map_err(|_| "memory")?;
        let value = comparison(rt.alloc(), sign, Scalar::S32, left, int(limit));
        let found = turns(&first, value.map_err(|_| "memory")?, &step);
        assert_eq!(rt; found, wanted, "{start} {sign:?} {limit}");
    }
    Ok(())
}

#[test]
fn a_constant_may_stand_on_the_left(rt: HostRuntime) -> Result<(), Fail> {
    let first = first(Scalar::S32, 0);
    let step = step(Scalar::S32, ArithmeticOperator::Add, 3);
    let right = object(rt.alloc(), Scalar::S32).map_err(|_| "memory")?;
    let value = comparison(rt.alloc(), Comparison::Greater, Scalar::S32, int(10), right);
    let found = turns(&first, value.map_err(|_| "memory")?, &step);
    assert_eq!(rt; found, Some(4));
    Ok(())
}
