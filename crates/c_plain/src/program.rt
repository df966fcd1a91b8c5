//! The run of a whole program (C11 6.9.1).

ghost use Rattle.std.specs.Prelude.{◌≡◌, if◌then◌else◌, Some, IfOk};
ghost use Rattle.std.specs.List.{list_any};
ghost use Rattle.c_meaning.specs.State.{flagged};
ghost use Rattle.c_meaning.specs.Programs as programs;
ghost use Rattle.c_state.specs.Views.{cells_in, state_as, told};
ghost use Rattle.c_plain.specs.Views.{kept_run};

use crate::entry::{cells_of, enter_all, start_objects};
use crate::statements::call;
use c_meaning::{Bound, Cell, Run, Typed, TypedFunction, TypedParts, Undefined};
use c_state::{State, Value, World};
use c_tree::Place;
use hy_bits::{Inputs, Memory};
use sqlite_items::{Items, at};
use std::alloc::Global;

/// The word of a cell of the result.
fn word_of_cell(cell: Cell) -> u64
    ensures { result ≡ programs.word_of_cell cell }
{
    match cell {
        Cell::Int(word) => word,
        _ => 0,
    }
}

/// Whether a cell was never set.
fn is_unset(cell: Cell) -> bool
    ensures { result ≡ programs.is_unset cell }
{
    matches!(cell, Cell::Unset)
}

/// Whether some cell was never set.
fn has_unset(cells: &[Cell]) -> bool
    ensures { result ≡ list_any programs.is_unset cells.now }
{
    cells.iter().any(|cell| is_unset(*cell))
}

/// Tells that a cell of the result was never set, at the place, if one was.
fn flag_unset(place: Place, cells: &[Cell], state: &mut State)
    ensures { state_as state.new ≡ (if list_any programs.is_unset cells.now then flagged Undefined.Unset place (state_as state.old) else state_as state.old) }
{
    if has_unset(cells) {
        state.flag(Undefined::Unset, place);
    }
}

/// The outcome of a run whose result has these cells. An unset one is read as 0, at the place.
///
/// # Errors
///
/// Memory ran out.
fn kept(alloc: Global, place: Place, cells: &[Cell], state: &mut State) -> Result<Run, Memory>
    ensures { IfOk result (λ run. run ≡ kept_run place cells.now (state_as state.old)) }
{
    let words = cells.iter().map(|cell| word_of_cell(*cell)).collect(alloc)?;
    flag_unset(place, cells, state);
    Ok(Run {
        bound: Bound::Kept,
        words: Items::from_vec(words),
        undefined: state.undefined,
    })
}

/// The outcome of a run that ended with the answer, where the result has `size` cells.
///
/// # Errors
///
/// Memory ran out.
fn outcome_of(
    alloc: Global,
    place: Place,
    size: u32,
    answer: Option<Value>,
    state: &mut State,
) -> Result<Run, Memory>
    ensures { IfOk result (λ run. run ≡ programs.outcome_of place size (told cells_in answer (state_as state.old))) }
{
    match answer {
        Some(Value::One(cell)) => kept(alloc, place, &[cell], state),
        Some(Value::Many(cells)) => kept(alloc, place, cells.as_slice(), state),
        None => Ok(Run {
            bound: Bound::Passed,
            words: Items::from_vec(vec![in alloc; 0; size as usize]?),
            undefined: state.undefined,
        }),
    }
}

/// The run of `main` on the input words.
///
/// # Errors
///
/// Memory ran out.
fn run_main(
    alloc: Global,
    parts: &TypedParts,
    main: &TypedFunction,
    inputs: &[u64],
) -> Result<Run, Memory>
    ensures { IfOk result (λ run. run ≡ programs.main_outcome parts.now inputs.now (Some main.now)) }
{
    let world = World {
        alloc,
        structs: parts.structs.as_slice(),
        functions: parts.functions.as_slice(),
    };
    let objects = parts.objects.as_slice();
    let mut state = State {
        objects: start_objects(alloc, objects)?,
        returned: Value::Many(Vec::new(alloc)),
        undefined: None,
    };
    let values = enter_all(&world, objects, main.params.as_slice(), inputs, &mut state)?;
    let answer = call(
        &world,
        parts.main_function,
        values.as_slice(),
        main.place,
        &mut state,
    )?;
    let size = cells_of(world.structs, &main.result)?;
    outcome_of(alloc, main.place, size, answer, &mut state)
}

/// The outcome of the program of these parts on input words, whether or not it keeps the rules of types, and whether or not the words
/// are one for each leaf of its ports.
///
/// # Errors
///
/// Memory ran out.
pub fn run(alloc: Global, parts: &TypedParts, inputs: &Inputs) -> Result<Run, Memory>
    ensures { IfOk result (λ run. run ≡ programs.outcome parts.now inputs.now) }
{
    match at(parts.functions.as_slice(), parts.main_function as usize) {
        Some(main) => run_main(alloc, parts, main, inputs.words()),
        None => Ok(Run {
            bound: Bound::Kept,
            words: Items::new(alloc),
            undefined: None,
        }),
    }
}

/// The outcome of a typed program on the words of its inputs, one for each leaf of its ports: whether a loop passed its bound, the
/// words of the result, and the first undefined operation with its place. The time is that of the run: it grows with the operations
/// that the program does, and with the cells that it copies and begins.
///
/// # Errors
///
/// Memory ran out.
pub fn plain(alloc: Global, typed: &Typed, inputs: &Inputs) -> Result<Run, Memory>
    ensures { IfOk result (λ run. run ≡ programs.outcome typed.now inputs.now) }
{
    run(alloc, typed.parts(), inputs)
}
