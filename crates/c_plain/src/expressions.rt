//! Expressions, from left to right (C11 6.5). `Ok(None)` tells that a loop of a called function passed its bound, which ends the run.
//! Each call fails exactly where memory ran out.

ghost use Rattle.std.specs.Prelude.{◌≡◌, ◌∷◌, IfOk, map};
ghost use Rattle.c_meaning.specs.Expressions as expressions;
ghost use Rattle.c_meaning.specs.ExpressionFolds.{locates, evaluates, combines, operand_evaluates};
ghost use Rattle.c_state.specs.Views.{cells_in, state_as, world_as, told};
ghost use Rattle.c_plain.specs.Views.{itself, values_in};

use crate::answers::{
    address_taken, converted_answer, decayed, loaded, negated, part_located, part_pointed,
    place_of, pointed, signed_answer, truth_answer, whole_of,
};
use crate::statements::call;
use c_meaning::{ChainStep, Conversion, LogicalOperand, Lvalue, TypedExpr};
use c_state::{
    Address, State, Value, World, address_in, combined, converted_where, holds, moved_from,
    of_word, reading, word_in,
};
use hy_bits::Memory;

/// What an lvalue designates.
#[cycle(run)]
pub fn locate(world: &World, lvalue: &Lvalue, state: &mut State) -> Result<Option<Address>, Memory>
    ensures { IfOk result (λ answer. told itself answer (state_as state.new) ≡ (locates (world_as world.now) lvalue.now).locate (state_as state.old)) }
{
    match lvalue {
        Lvalue::Object { object, cells, .. } => Ok(Some(whole_of(*object, *cells, state))),
        Lvalue::Indirection { pointer, .. } => Ok(pointed(evaluate(world, pointer.get(), state)?)),
        Lvalue::Subscript {
            place,
            pointer,
            scalar,
            index,
        } => {
            let Some(pointer) = evaluate(world, pointer.get(), state)? else {
                return Ok(None);
            };
            let Some(index) = evaluate(world, index.get(), state)? else {
                return Ok(None);
            };
            let by = reading(*scalar, word_in(&index));
            Ok(Some(moved_from(*place, by, address_in(&pointer), state)))
        }
        Lvalue::Member {
            place,
            of,
            offset,
            cells,
            ..
        } => {
            let address = locate(world, of.get(), state)?;
            Ok(part_located(*place, *offset, *cells, address, state))
        }
        Lvalue::Arrow {
            place,
            pointer,
            offset,
            cells,
            ..
        } => {
            let value = evaluate(world, pointer.get(), state)?;
            Ok(part_pointed(*place, *offset, *cells, value, state))
        }
    }
}

/// The value of an expression.
#[cycle(run)]
pub fn evaluate(world: &World, expr: &TypedExpr, state: &mut State) -> Result<Option<Value>, Memory>
    ensures { IfOk result (λ answer. told cells_in answer (state_as state.new) ≡ evaluates (world_as world.now) expr.now (state_as state.old)) }
{
    match expr {
        TypedExpr::Constant { word, .. } => Ok(Some(of_word(*word))),
        TypedExpr::Load { kind, from } => {
            let address = locate(world, from.get(), state)?;
            loaded(world, *kind, place_of(world, from.get()), address, state)
        }
        TypedExpr::Decay {
            cells,
            length,
            from,
        } => {
            let address = locate(world, from.get(), state)?;
            Ok(decayed(place_of(world, from.get()), *cells, *length, address, state))
        }
        TypedExpr::Address { of, .. } => Ok(address_taken(locate(world, of.get(), state)?)),
        TypedExpr::Converted {
            conversion,
            operand,
        } => {
            let value = evaluate(world, operand.get(), state)?;
            Ok(converted_answer(*conversion, value))
        }
        TypedExpr::Cast {
            from,
            to,
            operand,
            ..
        } => {
            let value = evaluate(world, operand.get(), state)?;
            let conversion = Conversion::Integer {
                from: *from,
                to: *to,
            };
            Ok(converted_answer(conversion, value))
        }
        TypedExpr::Unary {
            place,
            operator,
            scalar,
            operand,
        } => {
            let value = evaluate(world, operand.get(), state)?;
            Ok(signed_answer(*place, *operator, *scalar, value, state))
        }
        TypedExpr::Not { operand, .. } => Ok(negated(evaluate(world, operand.get(), state)?)),
        TypedExpr::Chain { first, steps } => { chain(world, first.get(), steps.as_slice(), state) }
        TypedExpr::LogicalAnd { first, rest } => {
            let truth = all_hold(world, first.get(), rest.as_slice(), state)?;
            Ok(truth_answer(truth))
        }
        TypedExpr::LogicalOr { first, rest } => {
            let truth = any_holds(world, first.get(), rest.as_slice(), state)?;
            Ok(truth_answer(truth))
        }
        TypedExpr::Conditional {
            condition,
            second,
            third,
            ..
        } => conditional(world, condition.get(), second.get(), third.get(), state),
        TypedExpr::Call {
            place,
            function,
            arguments,
            ..
        } => {
            let Some(values) = each_value(world, arguments.as_slice(), state)? else {
                return Ok(None);
            };
            call(world, *function, values.as_slice(), *place, state)
        }
    }
}

/// The value of operands of one level of binary operators.
#[cycle(run)]
fn chain(
    world: &World,
    first: &TypedExpr,
    steps: &[ChainStep],
    state: &mut State,
) -> Result<Option<Value>, Memory>
    ensures { IfOk result (λ answer. told cells_in answer (state_as state.new) ≡
        expressions.chain_value (evaluates (world_as world.now) first.now) (map (combines (world_as world.now)) steps.now) (state_as state.old)) }
{
    let Some(mut value) = evaluate(world, first, state)? else {
        return Ok(None);
    };
    for step in steps {
        let Some(next) = combine(world, step, value, state)? else {
            return Ok(None);
        };
        value = next;
    }
    Ok(Some(value))
}

/// What a step of a chain makes of what stands on its left.
#[cycle(run)]
fn combine(
    world: &World,
    step: &ChainStep,
    left: Value,
    state: &mut State,
) -> Result<Option<Value>, Memory>
    ensures { IfOk result (λ answer. told cells_in answer (state_as state.new) ≡ combines (world_as world.now) step.now (cells_in left) (state_as state.old)) }
{
    let Some(right) = evaluate(world, &step.right, state)? else {
        return Ok(None);
    };
    let left = converted_where(step.left, left);
    Ok(Some(combined(step.operation, step.place, &left, &right, state)))
}

/// Whether all operands hold, evaluated until one doesn't.
#[cycle(run)]
fn all_hold(
    world: &World,
    first: &TypedExpr,
    rest: &[LogicalOperand],
    state: &mut State,
) -> Result<Option<bool>, Memory>
    ensures { IfOk result (λ answer. told itself answer (state_as state.new) ≡
        expressions.all_hold (evaluates (world_as world.now) first.now ∷ map (operand_evaluates (world_as world.now)) rest.now) (state_as state.old)) }
{
    let Some(value) = evaluate(world, first, state)? else {
        return Ok(None);
    };
    if !holds(&value) {
        return Ok(Some(false));
    }
    for operand in rest {
        let Some(value) = evaluate(world, &operand.operand, state)? else {
            return Ok(None);
        };
        if !holds(&value) {
            return Ok(Some(false));
        }
    }
    Ok(Some(true))
}

/// Whether some operand holds, evaluated until one does.
#[cycle(run)]
fn any_holds(
    world: &World,
    first: &TypedExpr,
    rest: &[LogicalOperand],
    state: &mut State,
) -> Result<Option<bool>, Memory>
    ensures { IfOk result (λ answer. told itself answer (state_as state.new) ≡
        expressions.any_holds (evaluates (world_as world.now) first.now ∷ map (operand_evaluates (world_as world.now)) rest.now) (state_as state.old)) }
{
    let Some(value) = evaluate(world, first, state)? else {
        return Ok(None);
    };
    if holds(&value) {
        return Ok(Some(true));
    }
    for operand in rest {
        let Some(value) = evaluate(world, &operand.operand, state)? else {
            return Ok(None);
        };
        if holds(&value) {
            return Ok(Some(true));
        }
    }
    Ok(Some(false))
}

/// The second expression's value where the condition holds, and else the third's.
#[cycle(run)]
fn conditional(
    world: &World,
    condition: &TypedExpr,
    second: &TypedExpr,
    third: &TypedExpr,
    state: &mut State,
) -> Result<Option<Value>, Memory>
    ensures { IfOk result (λ answer. told cells_in answer (state_as state.new) ≡
        expressions.conditional_value (evaluates (world_as world.now) condition.now) (evaluates (world_as world.now) second.now) (evaluates (world_as world.now) third.now) (state_as state.old)) }
{
    let Some(value) = evaluate(world, condition, state)? else {
        return Ok(None);
    };
    if holds(&value) {
        evaluate(world, second, state)
    } else {
        evaluate(world, third, state)
    }
}

/// The values of arguments.
#[cycle(run)]
fn each_value(
    world: &World,
    arguments: &[TypedExpr],
    state: &mut State,
) -> Result<Option<Vec<Value>>, Memory>
    ensures { IfOk result (λ answer. told values_in answer (state_as state.new) ≡
        expressions.each_value (map (evaluates (world_as world.now)) arguments.now) (state_as state.old)) }
{
    let mut values = Vec::with_capacity(world.alloc, arguments.len())?;
    for argument in arguments {
        let Some(value) = evaluate(world, argument, state)? else {
            return Ok(None);
        };
        values.push(value)?;
    }
    Ok(Some(values))
}
