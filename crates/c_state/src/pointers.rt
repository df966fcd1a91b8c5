//! Pointers: what they designate, how they move, and when two are equal.

ghost use Rattle.std.specs.Prelude.{◌≡◌, ◌<◌, ◌+◌, ◌*◌, ◌^◌, ◌≤◌, ◌≤ℤ◌, ℤ, pos, negsuc};
ghost use Rattle.hy_bits.specs.Words.{signed, residue};
ghost use Rattle.c_meaning.specs.Operations.{reading, low};
ghost use Rattle.c_meaning.specs.State.{cell_of, element_of, pointer_into, index_moved, is_in_reach, moved, cell_number, points_alike};
ghost use Rattle.c_meaning.specs.Expressions.{offset_by};
ghost use Rattle.c_state.specs.Limits.{last_cell};
ghost use Rattle.c_state.specs.Views.{spot_as, spot_where};

use crate::spots::Spot;
use c_meaning::{Cell, Direction, Pointer, word_of};
use hy_bits::{Scalar, Width};

/// A pointer that may be null.
pub type Address = Option<Pointer>;

/// The cell of a pointer that may be null.
pub fn cell_of(address: Address) -> Cell
    ensures { result ≡ cell_of address }
{
    match address {
        Some(pointer) => Cell::Pointer(pointer),
        None => Cell::Null,
    }
}

/// The number of an element's first cell.
fn cell_from(first: u32, size: u32, index: u32) -> u64
    requires { index < 4294967295 }
    ensures is { result ≡ first + index * size }
    ensures near { result ≤ last_cell }
{
    u64::from(first) + u64::from(index) * u64::from(size)
}

/// The first cell of the element that a pointer points to. There is none of a null pointer, nor at an index outside of 0 to below
/// the length.
pub fn element_of(address: Address) -> Option<Spot>
    ensures { spot_where result ≡ element_of address }
{
    let pointer = address?;
    if pointer.index < 0 || pointer.index >= i64::from(pointer.length) {
        return None;
    }
    Some(Spot {
        object: pointer.object,
        at: cell_from(pointer.first, pointer.size, pointer.index as u32),
        life: pointer.life,
    })
}

/// A pointer to the first of `length` elements of `size` cells from the spot on.
pub fn pointer_into(size: u32, length: u32, spot: Spot) -> Pointer
    ensures { result ≡ pointer_into size length (spot_as spot) }
{
    Pointer {
        object: spot.object,
        first: (spot.at % 0x1_0000_0000) as u32,
        size,
        length,
        index: 0,
        life: spot.life,
    }
}

/// A pointer to a part of the element at the spot: `cells` cells from its cell `offset` on.
pub fn part_of(spot: Spot, offset: u32, cells: u32) -> Pointer
    ensures { result ≡ pointer_into cells 1 (record (spot_as spot) { at = spot.at + offset }) }
{
    Pointer {
        object: spot.object,
        first: ((spot.at + u64::from(offset)) % 0x1_0000_0000) as u32,
        size: cells,
        length: 1,
        index: 0,
        life: spot.life,
    }
}

/// The number that a word of a type is read as.
pub fn reading(scalar: Scalar, word: u64) -> i128
    ensures is { result ≡ reading scalar (low scalar word) }
    ensures least { negsuc (2 ^ 64) ≤ℤ result }
    ensures greatest { result ≤ℤ pos (2 ^ 64) }
{
    let word = word_of(scalar, word);
    if !scalar.signed() {
        return i128::from(word);
    }
    let complement = hy_bits::not(scalar.width(), word);
    if complement < word {
        !i128::from(complement)
    } else {
        i128::from(word)
    }
}

/// How many elements a pointer is moved by, forward, where an integer is added to it or subtracted from it.
pub fn offset_by(direction: Direction, scalar: Scalar, word: u64) -> i128
    ensures is { result ≡ offset_by direction scalar (low scalar word) }
    ensures least { negsuc (2 ^ 64) ≤ℤ result }
    ensures greatest { result ≤ℤ pos (2 ^ 65) }
{
    let number = reading(scalar, word);
    match direction {
        Direction::Forward => number,
        Direction::Backward => -number,
    }
}

/// A number modulo two to the 64.
fn residue_of(exact: i128) -> u64
    ensures { result ≡ residue (2 ^ 64) exact }
{
    exact.rem_euclid(0x1_0000_0000_0000_0000) as u64
}

/// The number that a word of 64 bits is read as, with its sign.
fn signed_of(word: u64) -> i64
    ensures { result ≡ signed (2 ^ 64) word }
{
    let complement = hy_bits::not(Width::W64, word);
    if complement < word {
        !(complement as i64)
    } else {
        word as i64
    }
}

/// The exact index of a pointer that is moved by `by` elements.
fn index_after(pointer: Pointer, by: i128) -> i128
    requires least { negsuc (2 ^ 65) ≤ℤ by }
    requires greatest { by ≤ℤ pos (2 ^ 65) }
    ensures { result ≡ index_moved by pointer }
{
    i128::from(pointer.index) + by
}

/// Whether a pointer that is moved by `by` elements points to one of its array's, or directly after the last.
pub fn stays_in_reach(pointer: Pointer, by: i128) -> bool
    requires least { negsuc (2 ^ 65) ≤ℤ by }
    requires greatest { by ≤ℤ pos (2 ^ 65) }
    ensures { result ≡ is_in_reach (index_moved by pointer) pointer }
{
    let index = index_after(pointer, by);
    0 <= index && index <= i128::from(pointer.length)
}

/// A pointer that is moved by `by` elements. Its index is kept modulo two to the 64.
pub fn moved(pointer: Pointer, by: i128) -> Pointer
    requires least { negsuc (2 ^ 65) ≤ℤ by }
    requires greatest { by ≤ℤ pos (2 ^ 65) }
    ensures { result ≡ moved by pointer }
{
    let index = signed_of(residue_of(index_after(pointer, by)));
    Pointer { index, ..pointer }
}

/// The number of the first cell that a pointer points to, modulo two to the 64.
fn cell_number(pointer: Pointer) -> u64
    ensures { result ≡ cell_number pointer }
{
    let index = residue_of(i128::from(pointer.index));
    u64::from(pointer.first).wrapping_add(index.wrapping_mul(u64::from(pointer.size)))
}

/// Whether two pointers are equal (C11 6.5.9p6).
pub fn points_alike(left: Address, right: Address) -> bool
    ensures { result ≡ points_alike left right }
{
    match (left, right) {
        (None, None) => true,
        (Some(p), Some(q)) => p.object == q.object && cell_number(p) == cell_number(q),
        _ => false,
    }
}
