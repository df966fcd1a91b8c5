//! Stores and the ends of statements.

ghost use Rattle.std.specs.Prelude.{◌≡◌, if◌then◌else◌, IfOk};
ghost use Rattle.c_meaning.specs.State as meaning;
ghost use Rattle.c_meaning.specs.Statements as statements;
ghost use Rattle.c_meaning.specs.Operations.{left_type, converted_to, operated, undefined_operation, low};
ghost use Rattle.c_meaning.specs.Expressions.{offset_by};
ghost use Rattle.c_state.specs.Views.{cells_in, state_as, world_as, told};
ghost use Rattle.c_plain.specs.Views.{unless_ended, itself};

use c_meaning::{
    Direction, Ending, IntegerOperation, Undefined, ValueKind, convert, operate, undefined,
};
use c_state::{
    Address, State, Value, World, address_in, element_of, integers_combined, moved_from,
    of_address, of_word, offset_by, read_at, word_in,
};
use c_tree::Place;
use hy_bits::{Memory, Scalar};

/// Stores a value into the element that the address points to. Where there is none the value is dropped.
pub fn store(place: Place, address: Address, value: &Value, state: &mut State) -> Ending
    ensures { statements.ends result (state_as state.new) ≡ statements.stored place address (cells_in value.now) (state_as state.old) }
{
    match element_of(address) {
        Some(spot) => state.write(spot.object, spot.at, value),
        None => state.flag(Undefined::Bounds, place),
    }
    Ending::Normal
}

/// The type that an operation is done in.
fn left_type(operation: IntegerOperation) -> Scalar
    ensures { result ≡ left_type operation }
{
    match operation {
        IntegerOperation::Arithmetic(_, scalar) => scalar,
        IntegerOperation::Shift { scalar, .. } => scalar,
    }
}

/// An integer of the type `scalar` after an operation, at the operator's place.
fn word_after(
    place: Place,
    scalar: Scalar,
    operation: IntegerOperation,
    old: u64,
    word: u64,
    state: &mut State,
) -> u64
    ensures word { let a = converted_to scalar (left_type operation) old in result ≡ converted_to (left_type operation) scalar (operated operation a word) }
    ensures state { let a = converted_to scalar (left_type operation) old in state_as state.new ≡ meaning.flagged_where (undefined_operation operation a word) place (state_as state.old) }
{
    let at = left_type(operation);
    let left = convert(scalar, at, old);
    state.flag_where(undefined(operation, left, word), place);
    convert(at, scalar, operate(operation, left, word))
}

/// Changes the integer that the address points to by an operation. `place` is the operator's, and `at` the target's.
///
/// # Errors
///
/// Memory ran out.
pub fn change(
    world: &World,
    place: Place,
    at: Place,
    scalar: Scalar,
    operation: IntegerOperation,
    address: Address,
    word: u64,
    state: &mut State,
) -> Result<Ending, Memory>
    ensures { IfOk result (λ ending. statements.ends ending (state_as state.new) ≡
        statements.changed (world_as world.now) place at scalar operation address word (state_as state.old)) }
{
    let kind = ValueKind::Integer(scalar);
    let old = read_at(world, kind, at, element_of(address), state)?;
    let new = word_after(place, scalar, operation, word_in(&old), word, state);
    Ok(store(at, address, &of_word(new), state))
}

/// Moves the pointer that the address points to by an integer. `place` is the operator's, and `at` the target's.
///
/// # Errors
///
/// Memory ran out.
pub fn advance(
    world: &World,
    place: Place,
    at: Place,
    direction: Direction,
    scalar: Scalar,
    address: Address,
    word: u64,
    state: &mut State,
) -> Result<Ending, Memory>
    ensures { IfOk result (λ ending. statements.ends ending (state_as state.new) ≡
        statements.advanced (world_as world.now) place at (offset_by direction scalar (low scalar word)) address (state_as state.old)) }
{
    let old = read_at(world, ValueKind::Pointer, at, element_of(address), state)?;
    let by = offset_by(direction, scalar, word);
    let new = moved_from(place, by, address_in(&old), state);
    Ok(store(at, address, &of_address(new), state))
}

/// How a `switch` ends where its statements end so.
pub fn left_switch(ending: Ending) -> Ending
    ensures { result ≡ statements.left_switch ending }
{
    match ending {
        Ending::Break => Ending::Normal,
        _ => ending,
    }
}

/// How a loop ends where the body of a turn ends so, if it ends.
pub fn turn_ended(ending: Ending) -> Option<Ending>
    ensures { (s : meaning.State) (next : statements.Exec) → unless_ended result s next ≡ statements.turn_ended ending s next }
{
    match ending {
        Ending::Normal | Ending::Continue => None,
        Ending::Break => Some(Ending::Normal),
        Ending::Return => Some(Ending::Return),
        Ending::Past => Some(Ending::Past),
    }
}

/// How a list of statements ends where one of them ends so, if it ends there.
pub fn left_order(ending: Ending) -> Option<Ending>
    ensures { (s : meaning.State) (next : statements.Exec) → unless_ended result s next ≡ statements.continued ending s next }
{
    match ending {
        Ending::Normal => None,
        _ => Some(ending),
    }
}

/// How a loop ends after its last turn: a test that holds once more passes the bound.
pub fn bound_reached(wanted: Option<bool>) -> Ending
    ensures { (s : meaning.State) → statements.ends result s ≡
        statements.ran_after (told itself wanted s) (λ wanted s. if wanted then statements.ends Ending.Past s else statements.ends Ending.Normal s) }
{
    match wanted {
        Some(false) => Ending::Normal,
        Some(true) => Ending::Past,
        None => Ending::Past,
    }
}
