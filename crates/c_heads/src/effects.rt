//! Expression statements (C11 6.8.3).

ghost use Rattle.std.specs.Prelude.{◌≡◌, IfOk};
ghost use Rattle.c_typing.specs.Walks.{Tells};
ghost use Rattle.c_heads.specs.Effects as spec;

use c_conversions::{Change, Operator, TypeFault, TypeKind, changed, kind, operator_in};
use c_expressions::{expression, value_of};
use c_meaning::{ArithmeticOperator, CType, Lvalue, Qualifier, TypedEffect, TypedExpr, Written};
use c_tree::{ExpressionStatement, Place, Step};
use c_typing::{
    Environment, TypedValue, Typing, assigned_to, converted, kind_operand, scalar as scalar_of,
};
use hy_bits::Scalar;
use std::alloc::Global;

/// `=`.
fn stored(
    alloc: Global,
    env: &Environment,
    place: Place,
    target: Typing,
    value: TypedValue,
) -> Result<TypedEffect, TypeFault>
    ensures { Tells result env.now (spec.stored place target value env.now) }
{
    match target {
        Typing::Designates {
            lvalue,
            ctype,
            qualifier: Qualifier::Unqualified,
        } => {
            let value = assigned_to(alloc, env, place, &ctype, value)?;
            Ok(TypedEffect::Assignment {
                place,
                target: lvalue,
                kind: kind(&ctype),
                value,
            })
        }
        _ => Err(TypeFault::new(TypeKind::Mismatch, place)),
    }
}

/// What a change of an lvalue of the type is.
fn change_of(
    alloc: Global,
    env: &Environment,
    written: Written,
    place: Place,
    target: Lvalue,
    ctype: &CType,
    value: TypedValue,
    change: Change,
) -> Result<TypedEffect, TypeFault>
    ensures { Tells result env.now (spec.change_of written place target ctype.now value change env.now) }
{
    match change {
        Change::Integer(operation, conversion) => {
            let Some(scalar) = scalar_of(ctype) else {
                return Err(TypeFault::new(TypeKind::Mismatch, place));
            };
            let value = converted(alloc, conversion, value.expr)?;
            Ok(TypedEffect::Compound {
                written,
                place,
                target,
                scalar,
                operation,
                value,
            })
        }
        Change::Advance(direction, scalar) => Ok(TypedEffect::Advance {
            written,
            place,
            target,
            direction,
            scalar,
            value: value.expr,
        }),
    }
}

/// `op=`, `++` and `--`.
fn changed_by(
    alloc: Global,
    env: &Environment,
    written: Written,
    place: Place,
    operator: Operator,
    target: Typing,
    value: TypedValue,
) -> Result<TypedEffect, TypeFault>
    ensures { Tells result env.now (spec.changed_by written place operator target value env.now) }
{
    match target {
        Typing::Designates {
            lvalue,
            ctype,
            qualifier: Qualifier::Unqualified,
        } => {
            let left = kind_operand(kind(&ctype));
            let right = kind_operand(kind(&value.ctype));
            match changed(operator, left, right) {
                Ok(change) => {
                    change_of(alloc, env, written, place, lvalue, &ctype, value, change)
                }
                Err(kind) => Err(TypeFault::new(kind, place)),
            }
        }
        _ => Err(TypeFault::new(TypeKind::Mismatch, place)),
    }
}

/// An assignment, with an operator or without.
fn assignment(
    alloc: Global,
    env: &Environment,
    place: Place,
    operator: Option<Operator>,
    target: Typing,
    value: TypedValue,
) -> Result<TypedEffect, TypeFault>
    ensures { Tells result env.now (spec.assignment place operator target value env.now) }
{
    match operator {
        None => stored(alloc, env, place, target, value),
        Some(operator) => {
            let written = Written::Assignment;
            changed_by(alloc, env, written, place, operator, target, value)
        }
    }
}

/// What `++` or `--` does.
fn step_operator(step: Step) -> Operator
    ensures { result ≡ spec.step_operator step }
{
    match step {
        Step::Increment => Operator::Arithmetic(ArithmeticOperator::Add),
        Step::Decrement => Operator::Arithmetic(ArithmeticOperator::Subtract),
    }
}

/// The 1 that `++` and `--` add and subtract.
fn one_at(place: Place) -> TypedValue
    ensures { result ≡ spec.one_at place }
{
    let scalar = Scalar::S32;
    TypedValue {
        expr: TypedExpr::Constant {
            place,
            scalar,
            word: 1,
        },
        ctype: CType::Int(scalar),
    }
}

/// An expression statement.
///
/// # Errors
///
/// The first rule that is broken, at its place, or memory ran out. What is declared is then no longer of use.
pub fn effect_of(
    alloc: Global,
    env: &mut Environment,
    simple: &ExpressionStatement,
) -> Result<TypedEffect, TypeFault>
    ensures { Tells result env.new (spec.effect_of simple.now env.old) }
{
    match simple {
        ExpressionStatement::Assignment {
            target,
            place,
            operator,
            value,
        } => {
            let target = expression(alloc, env, target)?;
            let value = value_of(alloc, env, value)?;
            assignment(alloc, env, *place, operator_in(*operator), target, value)
        }
        ExpressionStatement::PostfixStep {
            operand,
            place,
            step,
        } => {
            let target = expression(alloc, env, operand)?;
            let by = step_operator(*step);
            changed_by(
                alloc,
                env,
                Written::Postfix,
                *place,
                by,
                target,
                one_at(*place),
            )
        }
        ExpressionStatement::PrefixStep {
            place,
            step,
            operand,
        } => {
            let target = expression(alloc, env, operand)?;
            let by = step_operator(*step);
            changed_by(
                alloc,
                env,
                Written::Prefix,
                *place,
                by,
                target,
                one_at(*place),
            )
        }
        ExpressionStatement::Call(call) => {
            let value = value_of(alloc, env, call)?;
            Ok(TypedEffect::Call(value.expr))
        }
    }
}
