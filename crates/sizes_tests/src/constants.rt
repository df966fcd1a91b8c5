//! The words of constant expressions (C11 6.6).
use crate::trees::{AT, arithmetic, both, chain, conditional, constant, either, int, read};
use c_constants::constant_word;
use c_meaning::{
    ArithmeticOperator, ArithmeticSign, IntegerOperation, Operation, ShiftOperator, TypedExpr,
    ValueKind,
};
use hy_bits::{Memory, Scalar};
use sqlite_items::Boxed;
use std::alloc::Global;
use std::test::Fail;

/// Expressions, named by what they show.
#[derive(Clone, Copy, Debug, PartialEq, Eq)]
enum Example {
    SumPastTheType,
    Negative,
    NegativeShifted,
    IntoTheSign,
    UnsignedHighBit,
    DecidedBeforeAFault,
    FaultBeforeWhatDecides,
    DecidedBeforeAnObject,
    ChosenBesideAFault,
    ChosenFault,
}

/// `1 / 0`
fn fault(alloc: Global) -> Result<TypedExpr, Memory> {
    let operation = arithmetic(ArithmeticOperator::Divide, Scalar::S32);
    chain(alloc, operation, int(1), int(0))
}

/// `2147483647 + 1`
fn sum(alloc: Global) -> Result<TypedExpr, Memory> {
    let operation = arithmetic(ArithmeticOperator::Add, Scalar::S32);
    chain(alloc, operation, int(0x7fff_ffff), int(1))
}

/// `left << count` in a type.
fn shifted(
    alloc: Global,
    scalar: Scalar,
    left: TypedExpr,
    count: u64,
) -> Result<TypedExpr, Memory> {
    let operation = IntegerOperation::Shift {
        operator: ShiftOperator::Left,
        scalar,
        count: Scalar::S32,
    };
    chain(alloc, Operation::Integer(operation), left, int(count))
}

/// `-1`
fn negative(alloc: Global) -> Result<TypedExpr, Memory> {
    Ok(TypedExpr::Unary {
        place: AT,
        operator: ArithmeticSign::Minus,
        scalar: Scalar::S32,
        operand: Boxed::new(alloc, int(1))?,
    })
}

/// `1 || x`
fn before_object(alloc: Global) -> Result<TypedExpr, Memory> {
    let object = read(alloc, ValueKind::Integer(Scalar::S32), 0)?;
    either(alloc, int(1), object)
}

/// `1 ? 2 ? 3 : 1 / 0 : 4`
fn chosen(alloc: Global) -> Result<TypedExpr, Memory> {
    let inner = conditional(alloc, int(2), int(3), fault(alloc)?)?;
    conditional(alloc, int(1), inner, int(4))
}

fn made(alloc: Global, example: Example) -> Result<TypedExpr, Memory> {
    match example {
        Example::SumPastTheType => sum(alloc),
        Example::Negative => negative(alloc),
        Example::NegativeShifted => shifted(alloc, Scalar::S32, negative(alloc)?, 0),
        Example::IntoTheSign => shifted(alloc, Scalar::S32, int(1), 31),
        Example::UnsignedHighBit => shifted(alloc, Scalar::U32, constant(Scalar::U32, 1), 31),
        Example::DecidedBeforeAFault => either(alloc, int(1), fault(alloc)?),
        Example::FaultBeforeWhatDecides => both(alloc, fault(alloc)?, int(0)),
        Example::DecidedBeforeAnObject => before_object(alloc),
        Example::ChosenBesideAFault => chosen(alloc),
        Example::ChosenFault => conditional(alloc, int(0), int(3), fault(alloc)?),
    }
}

#[test]
fn a_constant_expression_has_a_word_where_its_run_is_defined(rt: HostRuntime) -> Result<(), Fail> {
    let rows = [
        (Example::SumPastTheType, None),
        (Example::Negative, Some(0xffff_ffff)),
        (Example::NegativeShifted, None),
        (Example::IntoTheSign, None),
        (Example::UnsignedHighBit, Some(0x8000_0000)),
        (Example::DecidedBeforeAFault, Some(1)),
        (Example::FaultBeforeWhatDecides, None),
        (Example::DecidedBeforeAnObject, None),
        (Example::ChosenBesideAFault, Some(3)),
        (Example::ChosenFault, None),
    ];
    for (example, word) in rows {
        let expr = made(rt.alloc(), example).map_err(|_| "memory")?;
        assert_eq!(rt; constant_word(&expr), word, "{example:?}");
    }
    Ok(())
}
