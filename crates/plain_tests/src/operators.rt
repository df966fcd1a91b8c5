//! Programs that return an operation on their two inputs: its word, and how it is undefined.
use crate::trees::{at, operation, program, read, returned};
use c_meaning::{
    ArithmeticOperator, Bound, IntegerOperation, Run, ShiftOperator, Undefined, UndefinedAt,
};
use hy_bits::{Inputs, Memory, Scalar};
use sqlite_items::Items;
use std::alloc::Global;
use std::test::Fail;

/// An operation, the two input words, the word of the result, and the kind of what is undefined.
type Row = (IntegerOperation, u64, u64, u64, Option<Undefined>);

const LEAST: u64 = 0x8000_0000;

const fn int(operator: ArithmeticOperator) -> IntegerOperation {
    IntegerOperation::Arithmetic(operator, Scalar::S32)
}

const fn unsigned(operator: ArithmeticOperator) -> IntegerOperation {
    IntegerOperation::Arithmetic(operator, Scalar::U32)
}

const fn shift(operator: ShiftOperator) -> IntegerOperation {
    IntegerOperation::Shift {
        operator,
        scalar: Scalar::S32,
        count: Scalar::S32,
    }
}

/// The run of `return x op y;` at the column 63 of line 1.
fn outcome(alloc: Global, op: IntegerOperation, x: u64, y: u64) -> Result<Run, Memory> {
    let scalar = match op {
        IntegerOperation::Arithmetic(_, scalar) => scalar,
        IntegerOperation::Shift { scalar, .. } => scalar,
    };
    let left = read(alloc, scalar, 0, 53)?;
    let right = read(alloc, scalar, 1, 65)?;
    let value = operation(alloc, op, 63, left, right)?;
    let mut items = Items::new(alloc);
    items.push(returned(alloc, scalar, value)?)?;
    let parts = program(alloc, scalar, items)?;
    let words = Vec::from_slice(alloc, &[x, y])?;
    c_plain::run(alloc, &parts, &Inputs::new(words))
}

#[test]
fn an_operation_has_its_word_and_tells_how_it_is_undefined(rt: HostRuntime) -> Result<(), Fail> {
    let rows: [Row; 12] = [
        (
            int(ArithmeticOperator::Divide),
            0xffff_fff9,
            2,
            0xffff_fffd,
            None,
        ),
        (
            int(ArithmeticOperator::Remainder),
            0xffff_fff9,
            2,
            0xffff_ffff,
            None,
        ),
        (
            int(ArithmeticOperator::Divide),
            LEAST,
            0xffff_ffff,
            LEAST,
            Some(Undefined::Overflow),
        ),
        (
            int(ArithmeticOperator::Remainder),
            LEAST,
            0xffff_ffff,
            0,
            Some(Undefined::Overflow),
        ),
        (
            int(ArithmeticOperator::Divide),
            0xffff_fffb,
            0,
            1,
            Some(Undefined::Divide),
        ),
        (
            unsigned(ArithmeticOperator::Divide),
            9,
            0,
            0xffff_ffff,
            Some(Undefined::Divide),
        ),
        (
            unsigned(ArithmeticOperator::Remainder),
            9,
            0,
            9,
            Some(Undefined::Divide),
        ),
        (
            int(ArithmeticOperator::Add),
            0x7fff_ffff,
            1,
            LEAST,
            Some(Undefined::Overflow),
        ),
        (unsigned(ArithmeticOperator::Add), 0xffff_ffff, 1, 0, None),
        (
            shift(ShiftOperator::Right),
            0xffff_fff8,
            1,
            0xffff_fffc,
            None,
        ),
        (
            shift(ShiftOperator::Right),
            0xffff_fff8,
            32,
            0xffff_ffff,
            Some(Undefined::Shift),
        ),
        (
            shift(ShiftOperator::Left),
            0x4000_0000,
            1,
            LEAST,
            Some(Undefined::Shift),
        ),
    ];
    for (op, x, y, word, kind) in rows {
        let run = outcome(rt.alloc(), op, x, y).map_err(|_| "memory")?;
        let undefined = kind.map(|kind| UndefinedAt {
            kind,
            place: at(63),
        });
        assert_eq!(rt; run.bound, Bound::Kept);
        assert_eq!(rt; run.words.as_slice(), [word].as_slice(), "{op:?} {x} {y}");
        assert_eq!(rt; run.undefined, undefined, "{op:?} {x} {y}");
    }
    Ok(())
}
