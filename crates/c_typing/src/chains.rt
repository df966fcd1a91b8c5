//! Binary operators of one level, from the left (C11 6.5.5 to 6.5.14), on operands that are walked.

ghost use Rattle.std.specs.Prelude.{◌≡◌, IfOk};
ghost use Rattle.c_meaning.specs.declared.expressions.Lvalue.TheViews.{out-TypedExpr};
ghost use Rattle.c_typing.specs.Walks.{Tells};
ghost use Rattle.c_typing.specs.Expressions as spec;

use crate::environment::Environment;
use crate::unary::is_scalar_kind;
use crate::values::{TypedValue, combined_type, converted, operand_beside, pointees};
use c_conversions::{Combination, Operator, TypeFault, TypeKind, combined, kind, operator_of};
use c_meaning::{CType, ChainStep, LogicalOperand, TypedExpr};
use c_tree::{BinaryOperator, Place};
use hy_bits::{Memory, Scalar};
use sqlite_items::{Boxed, Items};
use std::alloc::Global;

/// What stands on the left of a binary operator: one operand, or operands of the same level.
#[derive(Clone, Copy, Debug, PartialEq, Eq)]
pub enum Form {
    Operand,
    Chain,
    Conjunction,
    Disjunction,
}

/// What stands on the left of a binary operator.
#[derive(Drop)]
pub struct Left {
    pub value: TypedValue,
    pub form: Form,
}

/// Operands of `||` with one more.
fn disjunction(
    alloc: Global,
    form: Form,
    left: TypedExpr,
    operand: LogicalOperand,
) -> Result<TypedExpr, Memory>
    ensures { IfOk result (λ more. more ≡ spec.disjunction form left operand (out-TypedExpr left)) }
{
    match (form, left) {
        (Form::Disjunction, TypedExpr::LogicalOr { first, mut rest }) => {
            rest.push(operand)?;
            Ok(TypedExpr::LogicalOr { first, rest })
        }
        (_, left) => {
            let first = Boxed::new(alloc, left)?;
            let mut rest = Items::new(alloc);
            rest.push(operand)?;
            Ok(TypedExpr::LogicalOr { first, rest })
        }
    }
}

/// Operands of `&&` with one more.
fn conjunction(
    alloc: Global,
    form: Form,
    left: TypedExpr,
    operand: LogicalOperand,
) -> Result<TypedExpr, Memory>
    ensures { IfOk result (λ more. more ≡ spec.conjunction form left operand (out-TypedExpr left)) }
{
    match (form, left) {
        (Form::Conjunction, TypedExpr::LogicalAnd { first, mut rest }) => {
            rest.push(operand)?;
            Ok(TypedExpr::LogicalAnd { first, rest })
        }
        (_, left) => {
            let first = Boxed::new(alloc, left)?;
            let mut rest = Items::new(alloc);
            rest.push(operand)?;
            Ok(TypedExpr::LogicalAnd { first, rest })
        }
    }
}

/// Operands of other operators with one more.
fn chain(alloc: Global, form: Form, left: TypedExpr, step: ChainStep) -> Result<TypedExpr, Memory>
    ensures { IfOk result (λ more. more ≡ spec.chain form left step (out-TypedExpr left)) }
{
    match (form, left) {
        (Form::Chain, TypedExpr::Chain { first, mut steps }) => {
            steps.push(step)?;
            Ok(TypedExpr::Chain { first, steps })
        }
        (_, left) => {
            let first = Boxed::new(alloc, left)?;
            let mut steps = Items::new(alloc);
            steps.push(step)?;
            Ok(TypedExpr::Chain { first, steps })
        }
    }
}

/// `&&` or `||`.
fn with_logical(
    alloc: Global,
    operator: BinaryOperator,
    left: Left,
    operand: LogicalOperand,
) -> Result<Left, Memory>
    ensures { IfOk result (λ more. more ≡ spec.with_logical operator left operand) }
{
    let Left { value, form } = left;
    let (expr, form) = match operator {
        BinaryOperator::LogicalOr => {
            let expr = disjunction(alloc, form, value.expr, operand)?;
            (expr, Form::Disjunction)
        }
        _ => {
            let expr = conjunction(alloc, form, value.expr, operand)?;
            (expr, Form::Conjunction)
        }
    };
    let ctype = CType::Int(Scalar::S32);
    Ok(Left {
        value: TypedValue { expr, ctype },
        form,
    })
}

/// Any other operator, with the conversions of its operands.
fn with_step(
    alloc: Global,
    place: Place,
    combination: Combination,
    left: Left,
    right: TypedValue,
) -> Result<Left, Memory>
    ensures { IfOk result (λ more. more ≡ spec.with_step place combination left right) }
{
    let step = ChainStep {
        left: combination.left,
        place,
        operation: combination.operation,
        right: converted(alloc, combination.right, right.expr)?,
    };
    let Left { value, form } = left;
    let TypedValue { expr, ctype } = value;
    let expr = chain(alloc, form, expr, step)?;
    let ctype = combined_type(combination.operation, ctype, right.ctype);
    Ok(Left {
        value: TypedValue { expr, ctype },
        form: Form::Chain,
    })
}

/// `&&` or `||` between two operands.
fn logical(
    alloc: Global,
    env: &Environment,
    place: Place,
    operator: BinaryOperator,
    left: Left,
    right: TypedValue,
) -> Result<Left, TypeFault>
    ensures { Tells result env.now (spec.logical place operator left right env.now) }
{
    if !is_scalar_kind(kind(&left.value.ctype)) || !is_scalar_kind(kind(&right.ctype)) {
        return Err(TypeFault::new(TypeKind::Mismatch, place));
    }
    let operand = LogicalOperand {
        place,
        operand: right.expr,
    };
    Ok(with_logical(alloc, operator, left, operand)?)
}

/// Any other operator between two operands.
fn calculated(
    alloc: Global,
    env: &Environment,
    place: Place,
    operator: Operator,
    left: Left,
    right: TypedValue,
) -> Result<Left, TypeFault>
    ensures { Tells result env.now (spec.calculated place operator left right env.now) }
{
    let a = operand_beside(kind(&right.ctype), &left.value);
    let b = operand_beside(kind(&left.value.ctype), &right);
    match combined(operator, a, b, pointees(&left.value.ctype, &right.ctype)) {
        Ok(combination) => Ok(with_step(alloc, place, combination, left, right)?),
        Err(kind) => Err(TypeFault::new(kind, place)),
    }
}

/// A binary operator between what stands on its left and the operand on its right.
///
/// # Errors
///
/// How a rule of the operator is broken, at its place, or memory ran out.
pub fn combine(
    alloc: Global,
    env: &Environment,
    place: Place,
    operator: BinaryOperator,
    left: Left,
    right: TypedValue,
) -> Result<Left, TypeFault>
    ensures { Tells result env.now (spec.combine place operator left right env.now) }
{
    match operator_of(operator) {
        None => logical(alloc, env, place, operator, left, right),
        Some(by) => calculated(alloc, env, place, by, left, right),
    }
}
