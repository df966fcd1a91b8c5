//! Statements and calls (C11 6.5.2.2, 6.7, 6.8). The ending `Past` tells that a loop passed its bound, which ends the run. Each call fails
//! exactly where memory ran out.

ghost use Rattle.std.specs.Prelude.{◌≡◌, IfOk, get_or, map};
ghost use Rattle.std.specs.Option.{option_copied};
ghost use Rattle.c_meaning.specs.Programs.{called};
ghost use Rattle.c_meaning.specs.Expressions as expressions;
ghost use Rattle.c_meaning.specs.Statements as statements;
ghost use Rattle.c_meaning.specs.ExpressionFolds.{evaluates};
ghost use Rattle.c_meaning.specs.StatementFolds.{runs, block_runs, item_runs, iteration_runs, selection_runs, section_runs};
ghost use Rattle.c_state.specs.Views.{cells_in, state_as, world_as, told};
ghost use Rattle.c_plain.specs.Views.{itself, unless_ended, one_turn};

use crate::answers::{place_of, tested};
use crate::calls::{begin_params, end_first, end_items, kind_of, result_of, selected};
use crate::effects::{advance, bound_reached, change, left_order, left_switch, store, turn_ended};
use crate::expressions::{evaluate, locate};
use c_meaning::{
    Controlling, Ending, Part, TypedBlock, TypedDeclarator, TypedEffect, TypedExpr, TypedFirst,
    TypedFunction, TypedItem, TypedIteration, TypedSection, TypedSelection, TypedStatement,
    TypedStep, word_of,
};
use c_state::{State, Value, World, holds, word_in, zeros};
use c_tree::Place;
use hy_bits::{Memory, Scalar};

/// Runs an expression statement.
#[cycle(run)]
fn run_effect(world: &World, effect: &TypedEffect, state: &mut State) -> Result<Ending, Memory>
    ensures { IfOk result (λ ending. statements.ends ending (state_as state.new) ≡ statements.effect_run (world_as world.now) effect.now (state_as state.old)) }
{
    match effect {
        TypedEffect::Assignment { target, value, .. } => {
            let Some(address) = locate(world, target, state)? else {
                return Ok(Ending::Past);
            };
            let Some(value) = evaluate(world, value, state)? else {
                return Ok(Ending::Past);
            };
            Ok(store(place_of(world, target), address, &value, state))
        }
        TypedEffect::Compound {
            place,
            target,
            scalar,
            operation,
            value,
            ..
        } => {
            let Some(address) = locate(world, target, state)? else {
                return Ok(Ending::Past);
            };
            let Some(value) = evaluate(world, value, state)? else {
                return Ok(Ending::Past);
            };
            let (at, word) = (place_of(world, target), word_in(&value));
            change(world, *place, at, *scalar, *operation, address, word, state)
        }
        TypedEffect::Advance {
            place,
            target,
            direction,
            scalar,
            value,
            ..
        } => {
            let Some(address) = locate(world, target, state)? else {
                return Ok(Ending::Past);
            };
            let Some(value) = evaluate(world, value, state)? else {
                return Ok(Ending::Past);
            };
            let (at, word) = (place_of(world, target), word_in(&value));
            advance(world, *place, at, *direction, *scalar, address, word, state)
        }
        TypedEffect::Call(call) => match evaluate(world, call, state)? {
            Some(_) => Ok(Ending::Normal),
            None => Ok(Ending::Past),
        },
    }
}

/// The value of a part of an initializer.
#[cycle(run)]
fn part_value(world: &World, part: &Part, state: &mut State) -> Result<Option<Value>, Memory>
    ensures { IfOk result (λ answer. told cells_in answer (state_as state.new) ≡ statements.part_value (world_as world.now) part.now.kind part.now.value (state_as state.old)) }
{
    match &part.value {
        Some(value) => evaluate(world, value, state),
        None => Ok(Some(zeros(world, part.kind)?)),
    }
}

/// Stores the part of an initializer of an object.
#[cycle(run)]
fn run_part(world: &World, object: u32, part: &Part, state: &mut State) -> Result<Ending, Memory>
    ensures { IfOk result (λ ending. statements.ends ending (state_as state.new) ≡ statements.part_run (world_as world.now) object part.now (state_as state.old)) }
{
    let Some(value) = part_value(world, part, state)? else {
        return Ok(Ending::Past);
    };
    state.write(object, u64::from(part.cell), &value);
    Ok(Ending::Normal)
}

/// Stores the parts of an initializer of an object.
#[cycle(run)]
fn run_parts(
    world: &World,
    object: u32,
    parts: &[Part],
    state: &mut State,
) -> Result<Ending, Memory>
    ensures { IfOk result (λ ending. statements.ends ending (state_as state.new) ≡
        statements.in_order (map (statements.part_run (world_as world.now) object) parts.now) (state_as state.old)) }
{
    for part in parts {
        if let Some(ending) = left_order(run_part(world, object, part, state)?) {
            return Ok(ending);
        }
    }
    Ok(Ending::Normal)
}

/// Visits a declaration: a new life of its object, with its initializer's values.
#[cycle(run)]
fn run_declarator(
    world: &World,
    declared: &TypedDeclarator,
    state: &mut State,
) -> Result<Ending, Memory>
    ensures { IfOk result (λ ending. statements.ends ending (state_as state.new) ≡ statements.declarator_run (world_as world.now) declared.now (state_as state.old)) }
{
    state.begin(declared.object);
    match &declared.start {
        Some(parts) => run_parts(world, declared.object, parts.as_slice(), state),
        None => Ok(Ending::Normal),
    }
}

/// Visits declarations.
#[cycle(run)]
fn run_declarators(
    world: &World,
    list: &[TypedDeclarator],
    state: &mut State,
) -> Result<Ending, Memory>
    ensures { IfOk result (λ ending. statements.ends ending (state_as state.new) ≡
        statements.in_order (map (statements.declarator_run (world_as world.now)) list.now) (state_as state.old)) }
{
    for declared in list {
        if let Some(ending) = left_order(run_declarator(world, declared, state)?) {
            return Ok(ending);
        }
    }
    Ok(Ending::Normal)
}

/// Runs a statement.
#[cycle(run)]
fn run(world: &World, statement: &TypedStatement, state: &mut State) -> Result<Ending, Memory>
    ensures { IfOk result (λ ending. statements.ends ending (state_as state.new) ≡ runs (world_as world.now) statement.now (state_as state.old)) }
{
    match statement {
        TypedStatement::Block(block) => run_block(world, block.get(), state),
        TypedStatement::Empty => Ok(Ending::Normal),
        TypedStatement::Effect { effect, .. } => run_effect(world, effect.get(), state),
        TypedStatement::Break => Ok(Ending::Break),
        TypedStatement::Continue => Ok(Ending::Continue),
        TypedStatement::Return { value, .. } => run_return(world, value.get(), state),
        TypedStatement::Selection(selection) => run_selection(world, selection.get(), state),
        TypedStatement::Iteration(iteration) => run_iteration(world, iteration.get(), state),
    }
}

/// Runs a `return`.
#[cycle(run)]
fn run_return(world: &World, value: &Option<TypedExpr>, state: &mut State) -> Result<Ending, Memory>
    ensures { IfOk result (λ ending. statements.ends ending (state_as state.new) ≡ statements.return_run (world_as world.now) value.now (state_as state.old)) }
{
    let returned = match value {
        Some(value) => evaluate(world, value, state)?,
        None => Some(Value::Many(Vec::new(world.alloc))),
    };
    Ok(state.keep_returned(returned))
}

/// Runs a block.
#[cycle(run)]
pub fn run_block(world: &World, block: &TypedBlock, state: &mut State) -> Result<Ending, Memory>
    ensures { IfOk result (λ ending. statements.ends ending (state_as state.new) ≡ block_runs (world_as world.now) block.now (state_as state.old)) }
{
    let ending = run_items(world, block.items.as_slice(), state)?;
    end_items(block.items.as_slice(), state);
    Ok(ending)
}

/// Runs the items of a block.
#[cycle(run)]
fn run_items(world: &World, items: &[TypedItem], state: &mut State) -> Result<Ending, Memory>
    ensures { IfOk result (λ ending. statements.ends ending (state_as state.new) ≡
        statements.in_order (map (λ item. (item_runs (world_as world.now) item).run) items.now) (state_as state.old)) }
{
    for item in items {
        if let Some(ending) = left_order(run_item(world, item, state)?) {
            return Ok(ending);
        }
    }
    Ok(Ending::Normal)
}

/// Runs an item of a block.
#[cycle(run)]
fn run_item(world: &World, item: &TypedItem, state: &mut State) -> Result<Ending, Memory>
    ensures { IfOk result (λ ending. statements.ends ending (state_as state.new) ≡ (item_runs (world_as world.now) item.now).run (state_as state.old)) }
{
    match item {
        TypedItem::Statement(statement) => run(world, statement, state),
        TypedItem::Object(declared) => run_declarator(world, declared.get(), state),
    }
}

/// Runs statements.
#[cycle(run)]
fn run_statements(
    world: &World,
    list: &[TypedStatement],
    state: &mut State,
) -> Result<Ending, Memory>
    ensures { IfOk result (λ ending. statements.ends ending (state_as state.new) ≡
        statements.in_order (map (runs (world_as world.now)) list.now) (state_as state.old)) }
{
    for statement in list {
        if let Some(ending) = left_order(run(world, statement, state)?) {
            return Ok(ending);
        }
    }
    Ok(Ending::Normal)
}

/// Runs the statements of sections of a `switch`.
#[cycle(run)]
fn run_sections(
    world: &World,
    sections: &[TypedSection],
    state: &mut State,
) -> Result<Ending, Memory>
    ensures { IfOk result (λ ending. statements.ends ending (state_as state.new) ≡
        statements.in_order (map (λ section. (section_runs (world_as world.now) section).run) sections.now) (state_as state.old)) }
{
    for section in sections {
        let ending = run_statements(world, section.statements.as_slice(), state)?;
        if let Some(ending) = left_order(ending) {
            return Ok(ending);
        }
    }
    Ok(Ending::Normal)
}

/// Runs a selection statement.
#[cycle(run)]
fn run_selection(
    world: &World,
    selection: &TypedSelection,
    state: &mut State,
) -> Result<Ending, Memory>
    ensures { IfOk result (λ ending. statements.ends ending (state_as state.new) ≡ selection_runs (world_as world.now) selection.now (state_as state.old)) }
{
    match selection {
        TypedSelection::If {
            condition,
            then,
            otherwise,
            ..
        } => {
            let Some(value) = evaluate(world, condition, state)? else {
                return Ok(Ending::Past);
            };
            if holds(&value) {
                run(world, then, state)
            } else if let Some(otherwise) = otherwise {
                run(world, otherwise, state)
            } else {
                Ok(Ending::Normal)
            }
        }
        TypedSelection::Switch {
            scalar,
            value,
            sections,
            ..
        } => run_switch(world, *scalar, value, sections.as_slice(), state),
    }
}

/// Runs a `switch`.
#[cycle(run)]
fn run_switch(
    world: &World,
    scalar: Scalar,
    value: &TypedExpr,
    sections: &[TypedSection],
    state: &mut State,
) -> Result<Ending, Memory>
    ensures { IfOk result (λ ending. statements.ends ending (state_as state.new) ≡
        statements.switch_run scalar (evaluates (world_as world.now) value.now) (map (section_runs (world_as world.now)) sections.now) (state_as state.old)) }
{
    let Some(value) = evaluate(world, value, state)? else {
        return Ok(Ending::Past);
    };
    let chosen = selected(word_of(scalar, word_in(&value)), sections);
    Ok(left_switch(run_sections(world, chosen, state)?))
}

/// Whether one more turn is wanted.
#[cycle(run)]
fn test(
    world: &World,
    condition: Option<&Controlling>,
    state: &mut State,
) -> Result<Option<bool>, Memory>
    ensures { IfOk result (λ answer. told itself answer (state_as state.new) ≡ statements.test_where (world_as world.now) (option_copied condition.entry) (state_as state.old)) }
{
    match condition {
        Some(condition) => Ok(tested(evaluate(world, &condition.value, state)?)),
        None => Ok(Some(true)),
    }
}

/// The last part of the head of a `for`.
#[cycle(run)]
fn run_step(world: &World, step: Option<&TypedStep>, state: &mut State) -> Result<Ending, Memory>
    ensures { IfOk result (λ ending. statements.ends ending (state_as state.new) ≡ statements.step_where (world_as world.now) (option_copied step.entry) (state_as state.old)) }
{
    match step {
        Some(step) => run_effect(world, &step.effect, state),
        None => Ok(Ending::Normal),
    }
}

/// One turn of a loop: how the loop ends in it, if it does.
#[cycle(run)]
fn turn(
    world: &World,
    condition: Option<&Controlling>,
    body: &TypedStatement,
    step: Option<&TypedStep>,
    state: &mut State,
) -> Result<Option<Ending>, Memory>
    ensures { IfOk result (λ ended. (next : statements.Exec) → unless_ended ended (state_as state.new) next ≡
        one_turn (statements.test_where (world_as world.now) (option_copied condition.entry)) (runs (world_as world.now) body.now) (statements.step_where (world_as world.now) (option_copied step.entry)) next (state_as state.old)) }
{
    match test(world, condition, state)? {
        None => return Ok(Some(Ending::Past)),
        Some(false) => return Ok(Some(Ending::Normal)),
        Some(true) => {}
    }
    if let Some(ending) = turn_ended(run(world, body, state)?) {
        return Ok(Some(ending));
    }
    Ok(left_order(run_step(world, step, state)?))
}

/// At most `bound` turns of a loop.
#[cycle(run)]
fn turns(
    world: &World,
    bound: u32,
    condition: Option<&Controlling>,
    body: &TypedStatement,
    step: Option<&TypedStep>,
    state: &mut State,
) -> Result<Ending, Memory>
    ensures { IfOk result (λ ending. statements.ends ending (state_as state.new) ≡
        statements.turns bound (statements.test_where (world_as world.now) (option_copied condition.entry)) (runs (world_as world.now) body.now) (statements.step_where (world_as world.now) (option_copied step.entry)) (state_as state.old)) }
{
    for _number in 0..bound {
        if let Some(ending) = turn(world, condition, body, step, state)? {
            return Ok(ending);
        }
    }
    Ok(bound_reached(test(world, condition, state)?))
}

/// Runs a `while`.
#[cycle(run)]
fn run_while(
    world: &World,
    bound: u32,
    condition: &Controlling,
    body: &TypedStatement,
    state: &mut State,
) -> Result<Ending, Memory>
    ensures { IfOk result (λ ending. statements.ends ending (state_as state.new) ≡
        statements.while_run bound (statements.test_of (world_as world.now) condition.now) (runs (world_as world.now) body.now) (state_as state.old)) }
{
    turns(world, bound, Some(condition), body, None, state)
}

/// Runs a `do`.
#[cycle(run)]
fn run_do(
    world: &World,
    bound: u32,
    body: &TypedStatement,
    condition: &Controlling,
    state: &mut State,
) -> Result<Ending, Memory>
    ensures { IfOk result (λ ending. statements.ends ending (state_as state.new) ≡
        statements.do_run bound (runs (world_as world.now) body.now) (statements.test_of (world_as world.now) condition.now) (state_as state.old)) }
{
    if bound == 0 {
        return Ok(Ending::Past);
    }
    if let Some(ending) = turn_ended(run(world, body, state)?) {
        return Ok(ending);
    }
    turns(world, bound - 1, Some(condition), body, None, state)
}

/// Runs the first part of a `for`.
#[cycle(run)]
fn run_first(world: &World, first: &TypedFirst, state: &mut State) -> Result<Ending, Memory>
    ensures { IfOk result (λ ending. statements.ends ending (state_as state.new) ≡ statements.first_run (world_as world.now) first.now (state_as state.old)) }
{
    match first {
        TypedFirst::Nothing => Ok(Ending::Normal),
        TypedFirst::Objects(list) => run_declarators(world, list.as_slice(), state),
        TypedFirst::Effect(effect) => run_effect(world, effect, state),
    }
}

/// Runs an iteration statement.
#[cycle(run)]
fn run_iteration(
    world: &World,
    iteration: &TypedIteration,
    state: &mut State,
) -> Result<Ending, Memory>
    ensures { IfOk result (λ ending. statements.ends ending (state_as state.new) ≡ iteration_runs (world_as world.now) iteration.now (state_as state.old)) }
{
    match iteration {
        TypedIteration::While {
            bound,
            condition,
            body,
            ..
        } => run_while(world, *bound, condition, body, state),
        TypedIteration::Do {
            bound,
            body,
            condition,
            ..
        } => run_do(world, *bound, body, condition, state),
        TypedIteration::For {
            bound,
            first,
            condition,
            step,
            body,
            ..
        } => run_for(world, *bound, first, condition, step, body, state),
    }
}

/// Runs a `for`.
#[cycle(run)]
fn run_for(
    world: &World,
    bound: u32,
    first: &TypedFirst,
    condition: &Option<Controlling>,
    step: &Option<TypedStep>,
    body: &TypedStatement,
    state: &mut State,
) -> Result<Ending, Memory>
    ensures { IfOk result (λ ending. statements.ends ending (state_as state.new) ≡
        statements.for_run bound (statements.declared_by first.now) (statements.first_run (world_as world.now) first.now) (statements.test_where (world_as world.now) condition.now)
        (statements.step_where (world_as world.now) step.now) (runs (world_as world.now) body.now) (state_as state.old)) }
{
    let ending = for_turns(world, bound, first, condition, step, body, state)?;
    end_first(first, state);
    Ok(ending)
}

/// Runs a `for` up to where the objects of its first part end.
#[cycle(run)]
fn for_turns(
    world: &World,
    bound: u32,
    first: &TypedFirst,
    condition: &Option<Controlling>,
    step: &Option<TypedStep>,
    body: &TypedStatement,
    state: &mut State,
) -> Result<Ending, Memory>
    ensures { IfOk result (λ ending. statements.ends ending (state_as state.new) ≡
        statements.then_run (statements.first_run (world_as world.now) first.now (state_as state.old))
        (statements.turns bound (statements.test_where (world_as world.now) condition.now) (runs (world_as world.now) body.now) (statements.step_where (world_as world.now) step.now))) }
{
    if let Some(ending) = left_order(run_first(world, first, state)?) {
        return Ok(ending);
    }
    turns(world, bound, condition.as_ref(), body, step.as_ref(), state)
}

/// Calls the function of the number with the values of its arguments, from the place. A function that doesn't stand gives no cell.
#[cycle(run)]
pub fn call(
    world: &World,
    function: u32,
    values: &[Value],
    place: Place,
    state: &mut State,
) -> Result<Option<Value>, Memory>
    ensures { IfOk result (λ answer. told cells_in answer (state_as state.new) ≡
        get_or (world_as world.now).calls function expressions.no_function (map cells_in values.now) place (state_as state.old)) }
{
    let number = function as usize;
    if number >= world.functions.len() {
        return Ok(Some(Value::Many(Vec::new(world.alloc))));
    }
    let before = World {
        alloc: world.alloc,
        structs: world.structs,
        functions: &world.functions[..number],
    };
    call_before(&before, &world.functions[number], values, place, state)
}

/// Calls a function by those that stand before it.
#[cycle(run)]
fn call_before(
    world: &World,
    function: &TypedFunction,
    values: &[Value],
    place: Place,
    state: &mut State,
) -> Result<Option<Value>, Memory>
    ensures { IfOk result (λ answer. told cells_in answer (state_as state.new) ≡
        called (world_as world.now) function.now (map cells_in values.now) place (state_as state.old)) }
{
    begin_params(function.params.as_slice(), values, state);
    let ending = run_block(world, &function.body, state)?;
    state.end_all(function.params.as_slice());
    result_of(world, place, kind_of(&function.result), ending, state)
}
