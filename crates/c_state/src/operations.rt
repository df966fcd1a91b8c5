//! What operators make of values (C11 6.3, 6.5.2 to 6.5.12).

ghost use Rattle.std.specs.Prelude.{◌≡◌, ◌^◌, ◌≤ℤ◌, pos, negsuc};
ghost use Rattle.c_meaning.specs.Operations.{by_equality};
ghost use Rattle.c_meaning.specs.Expressions as expressions;
ghost use Rattle.c_state.specs.Views.{cells_in, first_cell, state_as, spot_where};

use crate::pointers::{
    Address, cell_of, moved, offset_by, part_of, pointer_into, points_alike, reading,
    stays_in_reach,
};
use crate::spots::Spot;
use crate::state::{State, Value};
use c_meaning::{
    ArithmeticSign, Cell, Conversion, Equality, IntegerOperation, Operation, Undefined, apply_sign,
    compare, convert, operate, undefined, undefined_unary,
};
use c_tree::Place;
use hy_bits::Scalar;

/// The value of one word.
pub fn of_word(word: u64) -> Value
    ensures { cells_in result ≡ expressions.of_word word }
{
    Value::One(Cell::Int(word))
}

/// 1 or 0.
pub fn of_truth(holds: bool) -> Value
    ensures { cells_in result ≡ expressions.of_truth holds }
{
    of_word(u64::from(holds))
}

/// The value of a pointer.
pub fn of_address(address: Address) -> Value
    ensures { cells_in result ≡ expressions.of_address address }
{
    Value::One(cell_of(address))
}

/// The first cell of a value, if it has any.
fn first_of(value: &Value) -> Option<Cell>
    ensures { result ≡ first_cell (cells_in value.now) }
{
    match value {
        Value::One(cell) => Some(*cell),
        Value::Many(cells) => cells.first().copied(),
    }
}

/// The word of an integer.
pub fn word_in(value: &Value) -> u64
    ensures { result ≡ expressions.word_in (cells_in value.now) }
{
    match first_of(value) {
        Some(Cell::Int(word)) => word,
        _ => 0,
    }
}

/// The pointer in a value.
pub fn address_in(value: &Value) -> Address
    ensures { result ≡ expressions.address_in (cells_in value.now) }
{
    match first_of(value) {
        Some(Cell::Pointer(pointer)) => Some(pointer),
        _ => None,
    }
}

/// Whether a value compares unequal to 0.
pub fn holds(value: &Value) -> bool
    ensures { result ≡ expressions.holds (cells_in value.now) }
{
    match first_of(value) {
        Some(Cell::Int(word)) => word != 0,
        Some(Cell::Pointer(_)) => true,
        _ => false,
    }
}

/// A value after a conversion.
pub fn converted(conversion: Conversion, value: &Value) -> Value
    ensures { cells_in result ≡ expressions.converted conversion (cells_in value.now) }
{
    match conversion {
        Conversion::Integer { from, to } => of_word(convert(from, to, word_in(value))),
        Conversion::NullPointer => of_address(None),
    }
}

/// A value after a conversion, if there is one.
pub fn converted_where(conversion: Option<Conversion>, value: Value) -> Value
    ensures { cells_in result ≡ expressions.converted_where conversion (cells_in value) }
{
    match conversion {
        Some(conversion) => converted(conversion, &value),
        None => value,
    }
}

/// A pointer that is moved by `by` elements, from an operator at the place. Null stays null.
pub fn moved_from(place: Place, by: i128, address: Address, state: &mut State) -> Address
    requires least { negsuc (2 ^ 65) ≤ℤ by }
    requires greatest { by ≤ℤ pos (2 ^ 65) }
    ensures { expressions.Gives result (state_as state.new) ≡ expressions.moved_from place by address (state_as state.old) }
{
    let Some(pointer) = address else {
        state.flag(Undefined::PointerRange, place);
        return None;
    };
    if !stays_in_reach(pointer, by) {
        state.flag(Undefined::PointerRange, place);
    }
    Some(moved(pointer, by))
}

/// A pointer to a part of an element: `cells` cells from its cell `offset` on. It is null where there is no element.
pub fn part_at(
    place: Place,
    offset: u32,
    cells: u32,
    spot: Option<Spot>,
    state: &mut State,
) -> Address
    ensures { expressions.Gives result (state_as state.new) ≡ expressions.part_at place offset cells (spot_where spot) (state_as state.old) }
{
    match spot {
        Some(spot) => Some(part_of(spot, offset, cells)),
        None => {
            state.flag(Undefined::Bounds, place);
            None
        }
    }
}

/// A pointer to the first of the `length` elements of `cells` cells in a row. It is null where there is no row.
pub fn row_at(
    place: Place,
    cells: u32,
    length: u32,
    spot: Option<Spot>,
    state: &mut State,
) -> Address
    ensures { expressions.Gives result (state_as state.new) ≡ expressions.row_at place cells length (spot_where spot) (state_as state.old) }
{
    match spot {
        Some(spot) => Some(pointer_into(cells, length, spot)),
        None => {
            state.flag(Undefined::Bounds, place);
            None
        }
    }
}

/// An integer of its promoted type after a sign.
pub fn signed_by(
    place: Place,
    sign: ArithmeticSign,
    scalar: Scalar,
    value: &Value,
    state: &mut State,
) -> Value
    ensures { expressions.Gives (cells_in result) (state_as state.new) ≡
        expressions.unary_value place sign scalar (expressions.Gives (cells_in value.now)) (state_as state.old) }
{
    let word = word_in(value);
    state.flag_where(undefined_unary(sign, scalar, word), place);
    of_word(apply_sign(sign, scalar, word))
}

/// An operation on two integers.
pub fn integers_combined(
    operation: IntegerOperation,
    place: Place,
    left: u64,
    right: u64,
    state: &mut State,
) -> Value
    ensures { expressions.Gives (cells_in result) (state_as state.new) ≡
        expressions.integers_combined operation place left right (state_as state.old) }
{
    state.flag_where(undefined(operation, left, right), place);
    of_word(operate(operation, left, right))
}

/// Whether an equality operator holds of operands that are equal or not.
fn by_equality(operator: Equality, equal: bool) -> bool
    ensures { result ≡ by_equality operator equal }
{
    match operator {
        Equality::Equal => equal,
        Equality::Unequal => !equal,
    }
}

/// What a binary operator at the place makes of its operands.
pub fn combined(
    operation: Operation,
    place: Place,
    left: &Value,
    right: &Value,
    state: &mut State,
) -> Value
    ensures { expressions.Gives (cells_in result) (state_as state.new) ≡
        expressions.combined operation place (cells_in left.now) (cells_in right.now) (state_as state.old) }
{
    match operation {
        Operation::Integer(operation) => {
            integers_combined(operation, place, word_in(left), word_in(right), state)
        }
        Operation::Comparison(comparison, scalar) => of_truth(compare(
            comparison,
            scalar,
            word_in(left),
            word_in(right),
        )),
        Operation::Offset { direction, scalar } => {
            let by = offset_by(direction, scalar, word_in(right));
            of_address(moved_from(place, by, address_in(left), state))
        }
        Operation::OffsetOnLeft(scalar) => {
            let by = reading(scalar, word_in(left));
            of_address(moved_from(place, by, address_in(right), state))
        }
        Operation::Pointers(operator) => of_truth(by_equality(
            operator,
            points_alike(address_in(left), address_in(right)),
        )),
    }
}
