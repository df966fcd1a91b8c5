//! Pointers that are equal, and pointers chosen by bits.
use crate::fixtures::{input, make_truths, pointer, value_of};
use c_place::{Part, Place, choose, part_pointer, same};
use hy_bits::Width;
use std::alloc::Global;
use std::process::Abort;
use std::test::Fail;
use word_graph::{Graph, GraphFault};

/// Six cells of the object 1, its second row of three cells, its rows of three cells, and six cells of the object 2.
const CELLS: Place = Place {
    object: 1,
    first: 0,
    size: 1,
    length: 6,
};

const ROW: Place = Place {
    object: 1,
    first: 3,
    size: 1,
    length: 3,
};

const ROWS: Place = Place {
    object: 1,
    first: 0,
    size: 3,
    length: 2,
};

const OTHERS: Place = Place {
    object: 2,
    first: 0,
    size: 1,
    length: 6,
};

/// Whether the pointers to an element of each place are equal.
fn are_same(
    rt: &impl Abort,
    alloc: Global,
    places: [Option<Place>; 2],
    indices: &[u64],
) -> Result<u64, GraphFault> {
    let [one, other] = places;
    let mut graph = Graph::new(alloc);
    let i = input(&mut graph, Width::W64, 0)?;
    let j = input(&mut graph, Width::W64, 1)?;
    let bits = make_truths(&mut graph)?;
    let a = pointer(alloc, &graph, bits, one, i)?;
    let b = pointer(alloc, &graph, bits, other, j)?;
    let equal = same(&mut graph, &a, &b, 0)?;
    value_of(rt, alloc, &graph, indices, equal)
}

#[test]
fn pointers_are_equal_where_they_are_to_one_cell(rt: HostRuntime) -> Result<(), Fail> {
    let rows = [
        ([Some(CELLS), Some(CELLS)], [2, 2], 1),
        ([Some(CELLS), Some(CELLS)], [2, 3], 0),
        ([Some(CELLS), Some(ROW)], [3, 0], 1),
        ([Some(CELLS), Some(ROW)], [4, 1], 1),
        ([Some(CELLS), Some(ROW)], [0, 0], 0),
        ([Some(CELLS), Some(ROWS)], [3, 1], 1),
        ([Some(ROWS), Some(ROW)], [1, 0], 1),
        ([Some(CELLS), Some(OTHERS)], [2, 2], 0),
        ([Some(CELLS), Some(ROW)], [u64::MAX, u64::MAX - 3], 1),
        ([None, None], [0, 1], 1),
        ([None, Some(CELLS)], [0, 0], 0),
        ([Some(CELLS), None], [0, 0], 0),
    ];
    for (places, indices, equal) in rows {
        let told = are_same(&rt, rt.alloc(), places, indices.as_slice())?;
        assert_eq!(rt; told, equal, "{places:?} {indices:?}");
    }
    Ok(())
}

/// Which of `a`, `b` and null the pointer is that is `a` or `b` by the bit `c`, or else null where the bit `d` is 0.
fn chosen(
    rt: &impl Abort,
    alloc: Global,
    places: [Place; 2],
    words: &[u64],
) -> Result<[u64; 3], GraphFault> {
    let [one, other] = places;
    let mut graph = Graph::new(alloc);
    let i = input(&mut graph, Width::W64, 0)?;
    let j = input(&mut graph, Width::W64, 1)?;
    let c = input(&mut graph, Width::W1, 2)?;
    let d = input(&mut graph, Width::W1, 3)?;
    let bits = make_truths(&mut graph)?;
    let a = pointer(alloc, &graph, bits, Some(one), i)?;
    let b = pointer(alloc, &graph, bits, Some(other), j)?;
    let null = pointer(alloc, &graph, bits, None, i)?;
    let first = choose(alloc, &mut graph, c, &a, &b, 0)?;
    let second = choose(alloc, &mut graph, d, &first, &null, 0)?;
    let is_a = same(&mut graph, &second, &a, 0)?;
    let is_b = same(&mut graph, &second, &b, 0)?;
    let is_null = same(&mut graph, &second, &null, 0)?;
    Ok([
        value_of(rt, alloc, &graph, words, is_a)?,
        value_of(rt, alloc, &graph, words, is_b)?,
        value_of(rt, alloc, &graph, words, is_null)?,
    ])
}

#[test]
fn a_pointer_is_chosen_twice(rt: HostRuntime) -> Result<(), Fail> {
    for places in [[CELLS, ROW], [CELLS, CELLS], [CELLS, OTHERS]] {
        let told = |c, d| chosen(&rt, rt.alloc(), places, [4, 5, c, d].as_slice());
        assert_eq!(rt; told(1, 1)?, [1, 0, 0], "{places:?}");
        assert_eq!(rt; told(0, 1)?, [0, 1, 0], "{places:?}");
        assert_eq!(rt; told(1, 0)?, [0, 0, 1], "{places:?}");
        assert_eq!(rt; told(0, 0)?, [0, 0, 1], "{places:?}");
    }
    Ok(())
}

/// Whether the pointer to the second cell of the row `indices[0]` is one to the cell `indices[1]`, and whether it is null.
fn second_cell(rt: &impl Abort, alloc: Global, indices: &[u64]) -> Result<[u64; 2], GraphFault> {
    let mut graph = Graph::new(alloc);
    let i = input(&mut graph, Width::W64, 0)?;
    let j = input(&mut graph, Width::W64, 1)?;
    let bits = make_truths(&mut graph)?;
    let row = pointer(alloc, &graph, bits, Some(ROWS), i)?;
    let cell = pointer(alloc, &graph, bits, Some(CELLS), j)?;
    let null = pointer(alloc, &graph, bits, None, i)?;
    let second = Part {
        offset: 1,
        size: 1,
        count: 1,
    };
    let part = part_pointer(alloc, &mut graph, &row, second, 0)?;
    let is_cell = same(&mut graph, &part, &cell, 0)?;
    let is_null = same(&mut graph, &part, &null, 0)?;
    Ok([
        value_of(rt, alloc, &graph, indices, is_cell)?,
        value_of(rt, alloc, &graph, indices, is_null)?,
    ])
}

#[test]
fn a_part_of_a_row_is_a_cell_of_it(rt: HostRuntime) -> Result<(), Fail> {
    let rows = [
        ([0, 1], [1, 0]),
        ([1, 4], [1, 0]),
        ([1, 1], [0, 0]),
        ([2, 7], [0, 1]),
        ([u64::MAX, 1], [0, 1]),
        ([1 << 32, 1], [0, 1]),
    ];
    for (indices, wanted) in rows {
        let told = second_cell(&rt, rt.alloc(), indices.as_slice())?;
        assert_eq!(rt; told, wanted, "{indices:?}");
    }
    Ok(())
}
