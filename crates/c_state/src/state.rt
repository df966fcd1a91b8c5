//! What a run changes: the cells of objects, the value of the last `return`, and the first undefined operation.

ghost use Rattle.std.specs.Prelude.{◌≡◌, ◌≤◌, [], ◌∷◌, IfOk, get_or, length, replicate};
ghost use Rattle.c_meaning.specs.State.{object_at, flagged, flagged_where, begun, ended, all_ended, cells_from, overwritten, written};
ghost use Rattle.c_meaning.specs.declared.values.Cell.{Cell};
ghost use Rattle.c_meaning.specs.Statements.{ends, ran_after};
ghost use Rattle.c_state.specs.Limits.{last_cell};
ghost use Rattle.c_state.specs.Views.{cells_in, stored_as, state_as, begun_object, ended_object, told};

use c_meaning::{Cell, Ending, Undefined, UndefinedAt};
use c_tree::Place;
use hy_bits::Memory;
use std::alloc::Global;

/// The value of an expression: one cell of an integer or a pointer, the cells of a struct, or no cell of void.
#[derive(Drop)]
pub enum Value {
    One(Cell),
    Many(Vec<Cell>),
}

impl Value {
    /// An equal value.
    ///
    /// # Errors
    ///
    /// Memory ran out.
    pub fn copy(&self, alloc: Global) -> Result<Value, Memory>
        ensures { IfOk result (λ copy. cells_in copy ≡ cells_in self.now) }
    {
        match self {
            Value::One(cell) => Ok(Value::One(*cell)),
            Value::Many(cells) => Ok(Value::Many(Vec::from_slice(alloc, cells.as_slice())?)),
        }
    }
}

/// An object: the number of lives that it has begun and ended so far, and its cells.
#[derive(Drop)]
pub struct Stored {
    pub life: u64,
    pub cells: Vec<Cell>,
}

impl Stored {
    /// A new life, with unset cells.
    fn begin(&mut self)
        ensures { stored_as self.new ≡ begun_object (stored_as self.old) }
    {
        self.life = self.life.saturating_add(1);
        unset(&mut self.cells);
    }

    /// The end of a life. The cells stay.
    fn end(&mut self)
        ensures { stored_as self.new ≡ ended_object (stored_as self.old) }
    {
        self.life = self.life.saturating_add(1);
    }
}

/// Each cell holds nothing.
fn unset(cells: &mut Vec<Cell>)
    ensures { cells.new.items ≡ replicate (length cells.old.items) Cell.Unset }
{
    cells.as_mut_slice().fill(Cell::Unset);
}

/// The state of a run.
#[derive(Drop)]
pub struct State {
    pub objects: Vec<Stored>,
    pub returned: Value,
    pub undefined: Option<UndefinedAt>,
}

impl State {
    /// Tells that an operation of the kind at the place was undefined. The first one stays.
    pub fn flag(&mut self, kind: Undefined, place: Place)
        ensures { state_as self.new ≡ flagged kind place (state_as self.old) }
    {
        if self.undefined.is_none() {
            self.undefined = Some(UndefinedAt { kind, place });
        }
    }

    /// Tells that an operation at the place was undefined, if it was.
    pub fn flag_where(&mut self, kind: Option<Undefined>, place: Place)
        ensures { state_as self.new ≡ flagged_where kind place (state_as self.old) }
    {
        if let Some(kind) = kind {
            self.flag(kind, place);
        }
    }

    /// The number of lives that an object has begun and ended.
    pub fn life(&self, object: u32) -> u64
        ensures { result ≡ (object_at (state_as self.now) object).life }
    {
        match self.objects.get(object as usize) {
            Some(stored) => stored.life,
            None => 0,
        }
    }

    /// The cells of an object.
    pub fn cells(&self, object: u32) -> &[Cell]
        ensures { result.now ≡ (object_at (state_as self.now) object).cells }
    {
        match self.objects.get(object as usize) {
            Some(stored) => stored.cells.as_slice(),
            None => &[],
        }
    }

    /// Begins a life of an object, with unset cells. It takes time linear in them.
    pub fn begin(&mut self, object: u32)
        ensures { state_as self.new ≡ begun object (state_as self.old) }
    {
        let object = object as usize;
        if object < self.objects.len() {
            self.objects[object].begin();
        }
    }

    /// Ends the life of an object.
    pub fn end(&mut self, object: u32)
        ensures { state_as self.new ≡ ended object (state_as self.old) }
    {
        let object = object as usize;
        if object < self.objects.len() {
            self.objects[object].end();
        }
    }

    /// Ends the lives of the objects.
    pub fn end_all(&mut self, objects: &[u32])
        ensures { state_as self.new ≡ all_ended objects.now (state_as self.old) }
    {
        for object in objects {
            self.end(*object);
        }
    }

    /// Keeps the value of a `return`, where it has one, and answers how the statement ends.
    pub fn keep_returned(&mut self, value: Option<Value>) -> Ending
        ensures { ends result (state_as self.new) ≡ ran_after (told cells_in value (state_as self.old)) (λ v s. ends Ending.Return (record s { returned = v })) }
    {
        match value {
            Some(value) => {
                self.returned = value;
                Ending::Return
            }
            None => Ending::Past,
        }
    }

    /// Stores the cells of a value from the cell `at` of an object on. What has no cell there is dropped.
    pub fn write(&mut self, object: u32, at: u64, value: &Value)
        ensures { state_as self.new ≡ written object at (cells_in value.now) (state_as self.old) }
    {
        let object = object as usize;
        if object < self.objects.len() {
            overwrite(&mut self.objects[object].cells, at as usize, value);
        }
    }
}

/// The cells of `cells` from the cell `at` on become those of the value. What has no cell there is dropped.
fn overwrite(cells: &mut Vec<Cell>, at: usize, value: &Value)
    ensures { cells.new.items ≡ overwritten cells.old.items at (cells_in value.now) }
{
    match value {
        Value::One(cell) => put(cells, at, *cell),
        Value::Many(values) => put_all(cells, at, values.as_slice()),
    }
}

/// The cell `at` becomes `cell`, if it stands.
fn put(cells: &mut Vec<Cell>, at: usize, cell: Cell)
    ensures { cells.new.items ≡ overwritten cells.old.items at (cell ∷ []) }
{
    if at < cells.len() {
        cells[at] = cell;
    }
}

fn put_all(cells: &mut Vec<Cell>, at: usize, values: &[Cell])
    ensures { cells.new.items ≡ overwritten cells.old.items at values.now }
{
    let mut next = at;
    for value in values {
        if next >= cells.len() {
            return;
        }
        cells[next] = *value;
        next += 1;
    }
}

/// The cell of the number `at`, which is unset where it doesn't stand.
pub fn cell_at(cells: &[Cell], at: u64) -> Cell
    ensures { result ≡ get_or cells.now at Cell.Unset }
{
    cells.get(at as usize).copied().unwrap_or(Cell::Unset)
}

/// A copy of `count` cells from the cell `at` on. One that doesn't stand is unset.
///
/// # Errors
///
/// Memory ran out.
pub fn copy_cells(alloc: Global, cells: &[Cell], at: u64, count: u32) -> Result<Vec<Cell>, Memory>
    requires { at ≤ last_cell }
    ensures { IfOk result (λ copy. copy.items ≡ cells_from count at cells.now) }
{
    let mut copy = Vec::with_capacity(alloc, count as usize)?;
    for number in 0..count {
        copy.push(cell_at(cells, at + u64::from(number)))?;
    }
    Ok(copy)
}
