//! The begin of a run: its objects, and the arguments of `mpc_main` from the input words (C11 6.7.9p10).

ghost use Rattle.std.specs.Prelude.{◌≡◌, ◌+◌, ℕ, List, IfOk, OnOk, map, take, drop, slice_get};
ghost use Rattle.c_meaning.specs.State as meaning;
ghost use Rattle.c_meaning.specs.Programs as programs;
ghost use Rattle.c_meaning.specs.Types.{cells_of, struct_cells};
ghost use Rattle.c_state.specs.Views.{cells_in, state_as, stored_as, world_as};
ghost use Rattle.c_plain.specs.Views.{prefixed, first_where, entered_as};

use crate::calls::kind_of;
use c_meaning::{CType, Cell, Object, Pointer, StructType, ValueKind};
use c_state::{State, Stored, Value, World, struct_size};
use hy_bits::Memory;
use sqlite_items::at;
use std::alloc::Global;

/// The number of cells of a type, where it is below 2^32.
///
/// # Errors
///
/// The type has more cells than memory.
pub fn cells_of(structs: &[StructType], ctype: &CType) -> Result<u32, Memory>
    ensures { IfOk result (λ cells. cells ≡ cells_of (struct_cells structs.now) ctype.now) }
{
    match ctype {
        CType::Void => Ok(0),
        CType::Int(_) => Ok(1),
        CType::Array(count, element) => {
            let cells = cells_of(structs, element.get())?;
            count.checked_mul(cells).ok_or(Memory)
        }
        CType::Struct(number) => match structs.get(*number as usize) {
            Some(of) => Ok(of.cells),
            None => Ok(0),
        },
        CType::Pointer(..) => Ok(1),
    }
}

/// The cell of an object of file scope that begins with a word.
fn start_cell(kind: ValueKind, word: u64) -> Cell
    ensures { result ≡ programs.start_cell kind word }
{
    match kind {
        ValueKind::Pointer => Cell::Null,
        _ => Cell::Int(word),
    }
}

/// The cells that an object begins with.
///
/// # Errors
///
/// Memory ran out.
fn start_cells(alloc: Global, object: &Object) -> Result<Vec<Cell>, Memory>
    ensures { IfOk result (λ cells. cells.items ≡ programs.start_cells object.now object.now.start) }
{
    match &object.start {
        None => Ok(vec![in alloc; Cell::Unset; object.cells as usize]?),
        Some(words) => {
            let kind = kind_of(&object.ctype);
            let mut cells = Vec::with_capacity(alloc, words.len())?;
            for word in words.as_slice() {
                cells.push(start_cell(kind, *word))?;
            }
            Ok(cells)
        }
    }
}

/// The objects at the start.
///
/// # Errors
///
/// Memory ran out.
pub fn start_objects(alloc: Global, objects: &[Object]) -> Result<Vec<Stored>, Memory>
    ensures { IfOk result (λ made. map stored_as made.items ≡ map programs.start_object objects.now) }
{
    let mut made = Vec::with_capacity(alloc, objects.len())?;
    for object in objects {
        let cells = start_cells(alloc, object)?;
        made.push(Stored { life: 0, cells })?;
    }
    Ok(made)
}

/// The cells of words.
///
/// # Errors
///
/// Memory ran out.
fn words_in(alloc: Global, words: &[u64]) -> Result<Value, Memory>
    ensures { IfOk result (λ value. cells_in value ≡ programs.words_in words.now) }
{
    let mut cells = Vec::with_capacity(alloc, words.len())?;
    for word in words {
        cells.push(Cell::Int(*word))?;
    }
    Ok(Value::Many(cells))
}

/// At most the first `count` words, and those after them.
fn split(words: &[u64], count: u32) -> (&[u64], &[u64])
    ensures first { result.0.now ≡ take count words.now }
    ensures rest { result.1.now ≡ drop count words.now }
{
    let count = count as usize;
    if count < words.len() {
        (&words[..count], &words[count..])
    } else {
        (words, &[])
    }
}

/// A pointer to the first element of an array that is an object.
///
/// # Errors
///
/// An element has more cells than memory.
fn to_array(structs: &[StructType], object: u32, array: &CType) -> Result<Value, Memory>
    ensures { IfOk result (λ value. cells_in value ≡ programs.to_array object (programs.row_of (struct_cells structs.now) array.now)) }
{
    let (length, size) = match array {
        CType::Array(count, element) => (*count, cells_of(structs, element.get())?),
        _ => (0, 0),
    };
    Ok(Value::One(Cell::Pointer(Pointer {
        object,
        first: 0,
        size,
        length,
        index: 0,
        life: 0,
    })))
}

/// What a parameter takes: the value of its argument, if it has one, and how many words.
#[derive(Drop)]
struct Argument {
    value: Option<Value>,
    words: u32,
}

/// The first `count` words as an argument.
///
/// # Errors
///
/// Memory ran out.
fn enter_words(alloc: Global, count: u32, words: &[u64]) -> Result<Argument, Memory>
    ensures { IfOk result (λ argument. (others : List ℕ → meaning.State → programs.Entered) (s : meaning.State) →
        first_where argument.value (others (drop argument.words words.now) s) ≡ programs.words_entered count others words.now s) }
{
    let value = words_in(alloc, split(words, count).0)?;
    Ok(Argument {
        value: Some(value),
        words: count,
    })
}

/// The words of an array, which become its cells, and a pointer to it as the argument.
///
/// # Errors
///
/// Memory ran out.
fn enter_array(
    world: &World,
    number: u32,
    array: &Object,
    words: &[u64],
    state: &mut State,
) -> Result<Argument, Memory>
    ensures { IfOk result (λ argument. (others : List ℕ → meaning.State → programs.Entered) →
        first_where argument.value (others (drop argument.words words.now) (state_as state.new)) ≡
        programs.first_with (programs.to_array number (programs.row_of (struct_cells world.now.structs.now) array.now.ctype))
        (others (drop array.now.cells words.now) (meaning.written number 0 (programs.words_in (take array.now.cells words.now)) (state_as state.old)))) }
{
    let cells = words_in(world.alloc, split(words, array.cells).0)?;
    state.write(number, 0, &cells);
    let value = to_array(world.structs, number, &array.ctype)?;
    Ok(Argument {
        value: Some(value),
        words: array.cells,
    })
}

/// The argument of the parameter that points to the object after it.
///
/// # Errors
///
/// Memory ran out.
fn enter_pointer(
    world: &World,
    objects: &[Object],
    object: u32,
    words: &[u64],
    state: &mut State,
) -> Result<Argument, Memory>
    ensures { IfOk result (λ argument. (others : List ℕ → meaning.State → programs.Entered) →
        first_where argument.value (others (drop argument.words words.now) (state_as state.new)) ≡
        programs.array_entered (struct_cells world.now.structs.now) (slice_get objects.now (object + 1)) object others words.now (state_as state.old)) }
{
    let number = object.checked_add(1).ok_or(Memory)?;
    match at(objects, number as usize) {
        Some(array) => enter_array(world, number, array, words, state),
        None => Ok(Argument {
            value: None,
            words: 0,
        }),
    }
}

/// The argument of a parameter of the kind.
///
/// # Errors
///
/// Memory ran out.
fn enter(
    world: &World,
    objects: &[Object],
    object: u32,
    kind: ValueKind,
    words: &[u64],
    state: &mut State,
) -> Result<Argument, Memory>
    ensures { IfOk result (λ argument. (others : List ℕ → meaning.State → programs.Entered) →
        first_where argument.value (others (drop argument.words words.now) (state_as state.new)) ≡
        programs.parameter_entered (struct_cells world.now.structs.now) objects.now object kind others words.now (state_as state.old)) }
{
    match kind {
        ValueKind::Void => Ok(Argument {
            value: None,
            words: 0,
        }),
        ValueKind::Integer(_) => enter_words(world.alloc, 1, words),
        ValueKind::Pointer => enter_pointer(world, objects, object, words, state),
        ValueKind::Struct(number) => { enter_words(world.alloc, struct_size(world, number), words) }
    }
}

/// The kind of an object's value.
fn object_kind(objects: &[Object], object: u32) -> ValueKind
    ensures { result ≡ programs.object_kind (slice_get objects.now object) }
{
    match at(objects, object as usize) {
        Some(object) => kind_of(&object.ctype),
        None => ValueKind::Void,
    }
}

/// Puts a value after the others, if there is one.
///
/// # Errors
///
/// Memory ran out.
fn push_where(values: &mut Vec<Value>, value: Option<Value>) -> Result<(), Memory>
    ensures { OnOk result ((rest : programs.Entered) → prefixed (map cells_in values.new.items) rest ≡ prefixed (map cells_in values.old.items) (first_where value rest)) }
{
    if let Some(value) = value {
        values.push(value)?;
    }
    Ok(())
}

/// The arguments of the parameters `params` that the input words make, with the words of arrays in their objects.
///
/// # Errors
///
/// Memory ran out.
pub fn enter_all(
    world: &World,
    objects: &[Object],
    params: &[u32],
    inputs: &[u64],
    state: &mut State,
) -> Result<Vec<Value>, Memory>
    ensures { IfOk result (λ values. entered_as values (state_as state.new) ≡
        programs.entered (struct_cells world.now.structs.now) objects.now params.now inputs.now (state_as state.old)) }
{
    let mut values = Vec::with_capacity(world.alloc, params.len())?;
    let mut words = inputs;
    for param in params {
        let kind = object_kind(objects, *param);
        let argument = enter(world, objects, *param, kind, words, state)?;
        words = split(words, argument.words).1;
        push_where(&mut values, argument.value)?;
    }
    Ok(values)
}
