//! What follows where an lvalue was located or an operand was evaluated. `None` tells that a loop passed its bound, which ends the run.

ghost use Rattle.std.specs.Prelude.{◌≡◌, IfOk};
ghost use Rattle.c_meaning.specs.State as meaning;
ghost use Rattle.c_meaning.specs.Expressions as expressions;
ghost use Rattle.c_meaning.specs.ExpressionFolds.{locates};
ghost use Rattle.c_state.specs.Views.{cells_in, state_as, world_as, told};
ghost use Rattle.c_plain.specs.Views.{itself};

use c_meaning::{ArithmeticSign, Conversion, Lvalue, Pointer, ValueKind};
use c_state::{
    Address, State, Value, World, address_in, converted, element_of, holds, of_address, of_truth,
    part_at, read_at, row_at, signed_by,
};
use c_tree::Place;
use hy_bits::{Memory, Scalar};

/// The place of an lvalue: that of its name or of its last operator. The contract alone speaks of the world.
pub fn place_of(_world: &World, lvalue: &Lvalue) -> Place
    ensures { result ≡ (locates (world_as _world.now) lvalue.now).place }
{
    match lvalue {
        Lvalue::Object { place, .. } => *place,
        Lvalue::Indirection { place, .. } => *place,
        Lvalue::Subscript { place, .. } => *place,
        Lvalue::Member { place, .. } => *place,
        Lvalue::Arrow { place, .. } => *place,
    }
}

/// A pointer to an object of `cells` cells.
pub fn whole_of(object: u32, cells: u32, state: &State) -> Address
    ensures { result ≡ Some (meaning.pointer_to cells (record { object = object; at = 0; life = (meaning.object_at (state_as state.now) object).life })) }
{
    Some(Pointer {
        object,
        first: 0,
        size: cells,
        length: 1,
        index: 0,
        life: state.life(object),
    })
}

/// The pointer in a value.
pub fn pointed(value: Option<Value>) -> Option<Address>
    ensures { (s : meaning.State) → told itself result s ≡
        expressions.after (told cells_in value s) (λ v s. expressions.Gives (expressions.address_in v) s) }
{
    match value {
        Some(value) => Some(address_in(&value)),
        None => None,
    }
}

/// A part of the element that an address points to.
pub fn part_located(
    place: Place,
    offset: u32,
    cells: u32,
    address: Option<Address>,
    state: &mut State,
) -> Option<Address>
    ensures { told itself result (state_as state.new) ≡
        expressions.after (told itself address (state_as state.old)) (λ p s. expressions.part_at place offset cells (meaning.element_of p) s) }
{
    match address {
        Some(address) => Some(part_at(place, offset, cells, element_of(address), state)),
        None => None,
    }
}

/// A part of the element that a pointer points to.
pub fn part_pointed(
    place: Place,
    offset: u32,
    cells: u32,
    value: Option<Value>,
    state: &mut State,
) -> Option<Address>
    ensures { told itself result (state_as state.new) ≡
        expressions.after (told cells_in value (state_as state.old)) (λ p s. expressions.part_at place offset cells (meaning.element_of (expressions.address_in p)) s) }
{
    match value {
        Some(value) => Some(part_at(place, offset, cells, element_of(address_in(&value)), state)),
        None => None,
    }
}

/// The value of the element that an address points to.
///
/// # Errors
///
/// Memory ran out.
pub fn loaded(
    world: &World,
    kind: ValueKind,
    place: Place,
    address: Option<Address>,
    state: &mut State,
) -> Result<Option<Value>, Memory>
    ensures { IfOk result (λ answer. told cells_in answer (state_as state.new) ≡
        expressions.after (told itself address (state_as state.old)) (λ p s. expressions.read_at (world_as world.now) kind place (meaning.element_of p) s)) }
{
    match address {
        Some(address) => Ok(Some(read_at(world, kind, place, element_of(address), state)?)),
        None => Ok(None),
    }
}

/// The row of elements that an address points to, as a pointer to its first.
pub fn decayed(
    place: Place,
    cells: u32,
    length: u32,
    address: Option<Address>,
    state: &mut State,
) -> Option<Value>
    ensures { told cells_in result (state_as state.new) ≡
        expressions.after (told itself address (state_as state.old)) (λ p s. expressions.as_value (expressions.row_at place cells length (meaning.element_of p) s)) }
{
    match address {
        Some(address) => {
            let row = row_at(place, cells, length, element_of(address), state);
            Some(of_address(row))
        }
        None => None,
    }
}

/// An address as a value.
pub fn address_taken(address: Option<Address>) -> Option<Value>
    ensures { (s : meaning.State) → told cells_in result s ≡ expressions.as_value (told itself address s) }
{
    match address {
        Some(address) => Some(of_address(address)),
        None => None,
    }
}

/// A value after a conversion.
pub fn converted_answer(conversion: Conversion, value: Option<Value>) -> Option<Value>
    ensures { (s : meaning.State) → told cells_in result s ≡
        expressions.after (told cells_in value s) (λ v s. expressions.Gives (expressions.converted conversion v) s) }
{
    match value {
        Some(value) => Some(converted(conversion, &value)),
        None => None,
    }
}

/// An integer after a sign.
pub fn signed_answer(
    place: Place,
    sign: ArithmeticSign,
    scalar: Scalar,
    value: Option<Value>,
    state: &mut State,
) -> Option<Value>
    ensures { told cells_in result (state_as state.new) ≡
        expressions.unary_value place sign scalar (told cells_in value) (state_as state.old) }
{
    match value {
        Some(value) => Some(signed_by(place, sign, scalar, &value, state)),
        None => None,
    }
}

/// 1 where a value compares equal to 0, and else 0.
pub fn negated(value: Option<Value>) -> Option<Value>
    ensures { (s : meaning.State) → told cells_in result s ≡ expressions.not_value (told cells_in value) s }
{
    match value {
        Some(value) => Some(of_truth(!holds(&value))),
        None => None,
    }
}

/// A truth as a value.
pub fn truth_answer(truth: Option<bool>) -> Option<Value>
    ensures { (s : meaning.State) → told cells_in result s ≡
        expressions.after (told itself truth s) (λ b s. expressions.Gives (expressions.of_truth b) s) }
{
    match truth {
        Some(truth) => Some(of_truth(truth)),
        None => None,
    }
}

/// Whether a value compares unequal to 0.
pub fn tested(value: Option<Value>) -> Option<bool>
    ensures { (s : meaning.State) → told itself result s ≡
        expressions.after (told cells_in value s) (λ v s. expressions.Gives (expressions.holds v) s) }
{
    match value {
        Some(value) => Some(holds(&value)),
        None => None,
    }
}
