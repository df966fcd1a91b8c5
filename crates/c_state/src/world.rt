//! What a run reads and never changes: the structs, and the functions that can be called.

ghost use Rattle.std.specs.Prelude.{◌≡◌, IfOk, get_or};
ghost use Rattle.c_meaning.specs.Expressions as expressions;
ghost use Rattle.c_state.specs.Views.{cells_in, state_as, spot_where, world_as};

use crate::spots::Spot;
use crate::state::{State, Value, cell_at, copy_cells};
use c_meaning::{Cell, StructType, TypedFunction, Undefined, ValueKind};
use c_tree::Place;
use hy_bits::Memory;
use std::alloc::Global;

/// The structs of a program, and the functions that stand before what is run.
#[derive(Clone, Copy)]
pub struct World<'a> {
    pub alloc: Global,
    pub structs: &'a [StructType],
    pub functions: &'a [TypedFunction],
}

/// The number of cells of a struct.
pub fn struct_size(world: &World, number: u32) -> u32
    ensures { result ≡ get_or (world_as world.now).structs number 0 }
{
    match world.structs.get(number as usize) {
        Some(of) => of.cells,
        None => 0,
    }
}

/// The value of zeros of the kind.
///
/// # Errors
///
/// Memory ran out.
pub fn zeros(world: &World, kind: ValueKind) -> Result<Value, Memory>
    ensures { IfOk result (λ value. cells_in value ≡ expressions.zeros (world_as world.now) kind) }
{
    match kind {
        ValueKind::Void => Ok(Value::Many(Vec::new(world.alloc))),
        ValueKind::Integer(_) => Ok(Value::One(Cell::Int(0))),
        ValueKind::Pointer => Ok(Value::One(Cell::Null)),
        ValueKind::Struct(number) => {
            let size = struct_size(world, number) as usize;
            Ok(Value::Many(vec![in world.alloc; Cell::Int(0); size]?))
        }
    }
}

/// The value of an integer's cell. An unset one is read as 0.
fn read_integer(place: Place, cell: Cell, state: &mut State) -> Value
    ensures { expressions.Gives (cells_in result) (state_as state.new) ≡ expressions.read_integer place cell (state_as state.old) }
{
    match cell {
        Cell::Int(word) => Value::One(Cell::Int(word)),
        _ => {
            state.flag(Undefined::Unset, place);
            Value::One(Cell::Int(0))
        }
    }
}

/// The value of a pointer's cell. An unset one is read as null.
fn read_pointer(place: Place, cell: Cell, state: &mut State) -> Value
    ensures { expressions.Gives (cells_in result) (state_as state.new) ≡ expressions.read_pointer place cell (state_as state.old) }
{
    match cell {
        Cell::Pointer(pointer) => {
            if pointer.life != state.life(pointer.object) {
                state.flag(Undefined::Dead, place);
            }
            Value::One(Cell::Pointer(pointer))
        }
        Cell::Null => Value::One(Cell::Null),
        _ => {
            state.flag(Undefined::Unset, place);
            Value::One(Cell::Null)
        }
    }
}

/// The value of the kind from the cell at the spot on.
///
/// # Errors
///
/// Memory ran out.
fn read_cells(
    world: &World,
    kind: ValueKind,
    place: Place,
    spot: Spot,
    state: &mut State,
) -> Result<Value, Memory>
    ensures { IfOk result (λ value. expressions.Gives (cells_in value) (state_as state.new) ≡
        expressions.read_at (world_as world.now) kind place (spot_where (Some spot)) (state_as state.old)) }
{
    match kind {
        ValueKind::Void => Ok(Value::Many(Vec::new(world.alloc))),
        ValueKind::Integer(_) => {
            let cell = cell_at(state.cells(spot.object), spot.at);
            Ok(read_integer(place, cell, state))
        }
        ValueKind::Pointer => {
            let cell = cell_at(state.cells(spot.object), spot.at);
            Ok(read_pointer(place, cell, state))
        }
        ValueKind::Struct(number) => {
            let size = struct_size(world, number);
            let cells = copy_cells(world.alloc, state.cells(spot.object), spot.at, size)?;
            Ok(Value::Many(cells))
        }
    }
}

/// The value of the kind of an element, if there is one, and else zeros.
///
/// # Errors
///
/// Memory ran out.
pub fn read_at(
    world: &World,
    kind: ValueKind,
    place: Place,
    spot: Option<Spot>,
    state: &mut State,
) -> Result<Value, Memory>
    ensures { IfOk result (λ value. expressions.Gives (cells_in value) (state_as state.new) ≡
        expressions.read_at (world_as world.now) kind place (spot_where spot) (state_as state.old)) }
{
    match spot {
        Some(spot) => read_cells(world, kind, place, spot, state),
        None => {
            state.flag(Undefined::Bounds, place);
            zeros(world, kind)
        }
    }
}
