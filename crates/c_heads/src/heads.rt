//! Conditions, and the heads of loops.

ghost use Rattle.std.specs.Prelude.{◌≡◌};
ghost use Rattle.c_typing.specs.Walks.{Tells};
ghost use Rattle.c_heads.specs.Loops as spec;

use crate::effects::effect_of;
use crate::tokens::{expr_tokens, simple_tokens};
use c_conversions::{TypeFault, TypeKind, kind};
use c_expressions::value_of;
use c_meaning::{Controlling, TypedExpr, TypedFirst, TypedStep, ValueKind};
use c_objects::{Storage, declarators, object_specs};
use c_tree::{Expr, ExpressionStatement, First, Place};
use c_typing::Environment;
use std::alloc::Global;

/// An integer or a pointer in a condition's place, of a statement at the place.
///
/// # Errors
///
/// `Mismatch` at the place: it is neither; otherwise as of an expression.
pub fn condition_of(
    alloc: Global,
    env: &mut Environment,
    place: Place,
    expr: &Expr,
) -> Result<TypedExpr, TypeFault>
    ensures { Tells result env.new (spec.condition_of place expr.now env.old) }
{
    let value = value_of(alloc, env, expr)?;
    match kind(&value.ctype) {
        ValueKind::Integer(_) | ValueKind::Pointer => Ok(value.expr),
        ValueKind::Void | ValueKind::Struct(_) => { Err(TypeFault::new(TypeKind::Mismatch, place)) }
    }
}

/// The controlling expression of a loop at the place.
///
/// # Errors
///
/// As of [`condition_of`].
pub fn controlling_of(
    alloc: Global,
    env: &mut Environment,
    place: Place,
    expr: &Expr,
) -> Result<Controlling, TypeFault>
    ensures { Tells result env.new (spec.controlling_of place expr.now env.old) }
{
    let value = condition_of(alloc, env, place, expr)?;
    let tokens = expr_tokens(expr);
    Ok(Controlling { tokens, value })
}

/// The controlling expression of a `for` at the place, if it has one.
///
/// # Errors
///
/// As of [`condition_of`].
pub fn controlling_where(
    alloc: Global,
    env: &mut Environment,
    place: Place,
    expr: &Option<Expr>,
) -> Result<Option<Controlling>, TypeFault>
    ensures { Tells result env.new (spec.controlling_where place expr.now env.old) }
{
    match expr {
        None => Ok(None),
        Some(expr) => Ok(Some(controlling_of(alloc, env, place, expr)?)),
    }
}

/// The first part of a `for`.
///
/// # Errors
///
/// As of a declaration or of an expression statement.
pub fn first_of(
    alloc: Global,
    env: &mut Environment,
    first: &First,
) -> Result<TypedFirst, TypeFault>
    ensures { Tells result env.new (spec.first_of first.now env.old) }
{
    match first {
        First::Nothing => Ok(TypedFirst::Nothing),
        First::Declaration(declaration) => {
            let found = object_specs(alloc, env, declaration)?;
            let list = declaration.declarators.as_slice();
            let all = declarators(alloc, env, Storage::Automatic, &found, list)?;
            Ok(TypedFirst::Objects(all))
        }
        First::Expression(simple) => Ok(TypedFirst::Effect(effect_of(alloc, env, simple)?)),
    }
}

/// The last part of the head of a `for`, if it has one.
///
/// # Errors
///
/// As of an expression statement.
pub fn step_where(
    alloc: Global,
    env: &mut Environment,
    step: &Option<ExpressionStatement>,
) -> Result<Option<TypedStep>, TypeFault>
    ensures { Tells result env.new (spec.step_where step.now env.old) }
{
    match step {
        None => Ok(None),
        Some(simple) => {
            let effect = effect_of(alloc, env, simple)?;
            let tokens = simple_tokens(simple);
            Ok(Some(TypedStep { tokens, effect }))
        }
    }
}
