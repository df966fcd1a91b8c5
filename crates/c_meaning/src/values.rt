use c_tree::Place;
use sqlite_items::Items;

/// A pointer that isn't null: an element of `size` cells among `length` of them, of which the first begins at the cell
/// `first` of an object. The element is that of the index, where this is from 0 to below the length. `life` is the number of
/// the object's life that the pointer was made in.
#[derive(Clone, Copy, Debug, PartialEq, Eq)]
pub struct Pointer {
    pub object: u32,
    pub first: u32,
    pub size: u32,
    pub length: u32,
    pub index: i64,
    pub life: u64,
}

/// What a cell of an object holds: nothing yet, a word, a null pointer or a pointer.
#[derive(Clone, Copy, Debug, PartialEq, Eq)]
pub enum Cell {
    Unset,
    Int(u64),
    Null,
    Pointer(Pointer),
}

/// A kind of undefined operation.
#[derive(Clone, Copy, Debug, PartialEq, Eq)]
pub enum Undefined {
    /// A signed result that its type doesn't hold (C11 6.5p5).
    Overflow,
    /// A division by zero (C11 6.5.5p5).
    Divide,
    /// A shift by a count that is negative or at least the width, or a signed left shift of a negative value or to one that
    /// its type doesn't hold (C11 6.5.7).
    Shift,
    /// An access through a null pointer or outside of an array (C11 6.5.6p8).
    Bounds,
    /// A pointer moved out of its array by more than one place (C11 6.5.6p8).
    PointerRange,
    /// A read of an object that was never set (C11 6.3.2.1p2).
    Unset,
    /// A read of a pointer to an object whose lifetime has ended (C11 6.2.4p2).
    Dead,
    /// A function with a result that ends without `return` (C11 6.9.1p12).
    NoResult,
}

/// A kind of undefined operation, at the place of its operator or name.
#[derive(Clone, Copy, Debug, PartialEq, Eq)]
pub struct UndefinedAt {
    pub kind: Undefined,
    pub place: Place,
}

/// How a statement ends: by going on with the next one, by a jump, or by passing the bound of a loop, which ends the run.
#[derive(Clone, Copy, Debug, PartialEq, Eq)]
pub enum Ending {
    Normal,
    Break,
    Continue,
    Return,
    Past,
}

/// Whether a run stayed within the bounds of its loops.
#[derive(Clone, Copy, Debug, PartialEq, Eq)]
pub enum Bound {
    Kept,
    Passed,
}

/// What a run gives: whether it stayed within the bounds of its loops, the words of the result, which are zeros where it
/// didn't, and the first undefined operation, if there was one.
#[derive(Drop)]
pub struct Run {
    pub bound: Bound,
    pub words: Items<u64>,
    pub undefined: Option<UndefinedAt>,
}
