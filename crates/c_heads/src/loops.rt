//! The bounds of loops, and the objects that they count by (C11 6.8.5).

ghost use Rattle.std.specs.Prelude.{◌≡◌, IfOk, None, Some};
ghost use Rattle.c_typing.specs.Walks.{Tells};
ghost use Rattle.std.specs.Option.{option_copied};
ghost use Rattle.c_heads.specs.Loops as spec;

use crate::assigned::assigns;
use crate::context::Body;
use c_constants::counted;
use c_conversions::{TypeFault, TypeKind};
use c_meaning::{Controlling, Counter, TypedEffect, TypedFirst, TypedStatement, TypedStep};
use c_tree::{Expr, ExpressionStatement, LoopBound, Place};
use c_typing::Environment;
use c_uses::named_object;
use hy_bits::{Memory, Text};
use std::alloc::Global;

/// The name that an expression is, in brackets or not.
fn name_of(expr: &Expr) -> Option<&Text>
    ensures { option_copied result ≡ spec.name_of expr.now }
{
    match expr {
        Expr::Name(name) => Some(&name.text),
        Expr::Parenthesized(_, inner) => name_of(inner.get()),
        _ => None,
    }
}

/// The name that an expression statement changes.
fn changed_name(simple: &ExpressionStatement) -> Option<&Text>
    ensures { option_copied result ≡ spec.changed_name simple.now }
{
    match simple {
        ExpressionStatement::Assignment { target, .. } => name_of(target),
        ExpressionStatement::PostfixStep { operand, .. } => name_of(operand),
        ExpressionStatement::PrefixStep { operand, .. } => name_of(operand),
        ExpressionStatement::Call(_) => None,
    }
}

/// The number of the declaration of the name that a step changes.
pub fn step_number(env: &Environment, step: &Option<ExpressionStatement>) -> Option<u32>
    ensures { result ≡ spec.step_number env.now step.now }
{
    match step {
        None => None,
        Some(simple) => match changed_name(simple) {
            Some(name) => env.names.found(name.as_bytes()),
            None => None,
        },
    }
}

/// Whether the function declares the name of the number, and takes no address by it.
fn is_kept(body: &Body, number: Option<u32>) -> bool
    ensures { result ≡ spec.is_kept body.now number }
{
    match number {
        Some(number) if body.base <= number => {
            match body.addressed.get((number - body.base) as usize) {
                Some(addressed) => !*addressed,
                None => false,
            }
        }
        _ => false,
    }
}

/// The object that a step changes by an operation.
fn step_object(effect: &TypedEffect) -> Option<u32>
    ensures { result ≡ spec.step_object effect.now }
{
    match effect {
        TypedEffect::Compound { target, .. } => named_object(target),
        TypedEffect::Assignment { .. } | TypedEffect::Advance { .. } | TypedEffect::Call(_) => None,
    }
}

/// The counter of a loop that has a condition and a step, by the object that the step changes.
fn counter_by(
    alloc: Global,
    object: Option<u32>,
    first: &TypedFirst,
    condition: &Controlling,
    step: &TypedStep,
    body: &TypedStatement,
) -> Result<Option<Counter>, Memory>
    ensures { IfOk result (λ counter. counter ≡ spec.counter_by object first.now condition.now step.now body.now) }
{
    let Some(object) = object else {
        return Ok(None);
    };
    if assigns(alloc, body, object)? {
        return Ok(None);
    }
    match counted(object, first, condition, step) {
        Some(count) => Ok(Some(Counter {
            object,
            turns: count.turns,
        })),
        None => Ok(None),
    }
}

/// The counter of a `for` whose step changes what is declared by the number.
///
/// # Errors
///
/// Memory ran out.
pub fn counter_of(
    alloc: Global,
    body: &Body,
    number: Option<u32>,
    first: &TypedFirst,
    condition: &Option<Controlling>,
    step: &Option<TypedStep>,
    statement: &TypedStatement,
) -> Result<Option<Counter>, Memory>
    ensures { IfOk result (λ counter. counter ≡ spec.counter_of body.now number first.now condition.now step.now statement.now) }
{
    if !is_kept(body, number) {
        return Ok(None);
    }
    match (condition, step) {
        (Some(condition), Some(step)) => {
            let object = step_object(&step.effect);
            counter_by(alloc, object, first, condition, step, statement)
        }
        _ => Ok(None),
    }
}

/// The bound of a loop at the place.
///
/// # Errors
///
/// `NoBound` at the place: no number is written, the loop counts none, and none holds for all loops.
pub fn bounded(
    env: &Environment,
    place: Place,
    body: &Body,
    bound: &Option<LoopBound>,
    counter: Option<Counter>,
) -> Result<u32, TypeFault>
    ensures { Tells result env.now (spec.bounded place body.now bound.now counter env.now) }
{
    if let Some(bound) = bound {
        return Ok(u32::try_from(bound.number).map_err(|_| Memory)?);
    }
    let turns = match counter {
        Some(counter) => Some(counter.turns),
        None => body.bound,
    };
    match turns {
        Some(turns) => Ok(turns),
        None => Err(TypeFault::new(TypeKind::NoBound, place)),
    }
}
