//! Loads and stores at each index of an array of five.
ghost use Rattle.std.specs.Prelude.{◌≡◌, [], ◌∷◌, Some, IfOk};
ghost use Rattle.word_nodes.specs.Nodes.{AllStand, Extends};
ghost use Rattle.c_place.specs.Boards.{IsBoard, layout};
ghost use Rattle.place_tests.specs.Boards.{AreZeros, five_words};

use crate::fixtures::{input, make_truths, pointer, value_of};
use c_place::{Board, Cells, Held, Place, Zeros};
use hy_bits::Width;
use std::alloc::Global;
use std::process::Abort;
use std::test::Fail;
use word_graph::{Graph, GraphFault, Node};
use word_nodes::constant;

/// The elements of the array, and the array as one element.
const ELEMENTS: Place = Place {
    object: 0,
    first: 0,
    size: 1,
    length: 5,
};

const WHOLE: Place = Place {
    object: 0,
    first: 0,
    size: 5,
    length: 1,
};

/// The zeros of all widths.
fn make_zeros(graph: &mut Graph) -> Result<Zeros, GraphFault>
    ensures zeros { IfOk result (AreZeros graph.new) }
    ensures extends { Extends 0 graph.old graph.new }
{
    let w1 = constant(graph, Width::W1, 0)?;
    let w8 = constant(graph, Width::W8, 0)?;
    let w16 = constant(graph, Width::W16, 0)?;
    let w32 = constant(graph, Width::W32, 0)?;
    let w64 = constant(graph, Width::W64, 0)?;
    Ok(Zeros {
        w1,
        w8,
        w16,
        w32,
        w64,
    })
}

/// The words 10, 20, 30, 40 and 50.
fn make_words(alloc: Global, graph: &mut Graph) -> Result<Vec<Node>, GraphFault>
    ensures words { IfOk result (λ r. AllStand graph.new five_words r.items) }
    ensures extends { Extends 0 graph.old graph.new }
{
    let mut nodes = Vec::new(alloc);
    for word in [10, 20, 30, 40, 50] {
        nodes.push(constant(graph, Width::W32, word)?)?;
    }
    Ok(nodes)
}

/// An array of those words as the object 0.
fn make_cells(alloc: Global, graph: &mut Graph) -> Result<Cells, GraphFault>
    ensures board { IfOk result (IsBoard graph.new) }
    ensures layout { IfOk result (λ r. layout graph.new r ≡ Some five_words ∷ []) }
    ensures extends { Extends 0 graph.old graph.new }
{
    let zeros = make_zeros(graph)?;
    let nodes = make_words(alloc, graph)?;
    let mut objects = Vec::new(alloc);
    objects.push(Held::Words(nodes))?;
    Ok(Cells::of(Board { zeros, objects }))
}

/// The word of the element `index`.
fn loaded(rt: &impl Abort, alloc: Global, index: u64) -> Result<u64, GraphFault> {
    let mut graph = Graph::new(alloc);
    let i = input(&mut graph, Width::W64, 0)?;
    let bits = make_truths(&mut graph)?;
    let cells = make_cells(alloc, &mut graph)?;
    let element = pointer(alloc, &graph, bits, Some(ELEMENTS), i)?;
    let words = cells.load(alloc, &mut graph, &element, 0, &[Width::W32], 0)?;
    assert_eq!(rt; words.len(), 1);
    value_of(rt, alloc, &graph, [index].as_slice(), words[0])
}

#[test]
fn an_element_is_loaded_at_its_index_alone(rt: HostRuntime) -> Result<(), Fail> {
    let rows = [
        (0, 10),
        (1, 20),
        (2, 30),
        (3, 40),
        (4, 50),
        (5, 0),
        (6, 0),
        (u64::MAX, 0),
        (1 << 63, 0),
        ((1 << 63) + 1, 0),
        (1 << 32, 0),
    ];
    for (index, word) in rows {
        assert_eq!(rt; loaded(&rt, rt.alloc(), index)?, word, "{index}");
    }
    Ok(())
}

/// The array's words after 77 was stored at the element `index` where the bit `guard` is 1.
fn stored(rt: &impl Abort, alloc: Global, index: u64, guard: u64) -> Result<[u64; 5], GraphFault> {
    let mut graph = Graph::new(alloc);
    let i = input(&mut graph, Width::W64, 0)?;
    let g = input(&mut graph, Width::W1, 1)?;
    let v = input(&mut graph, Width::W32, 2)?;
    let bits = make_truths(&mut graph)?;
    let origin = constant(&mut graph, Width::W64, 0)?;
    let mut cells = make_cells(alloc, &mut graph)?;
    let element = pointer(alloc, &graph, bits, Some(ELEMENTS), i)?;
    let whole = pointer(alloc, &graph, bits, Some(WHOLE), origin)?;
    cells.store(alloc, &mut graph, &element, 0, g, &[v], 0)?;
    let words = cells.load(alloc, &mut graph, &whole, 0, &[Width::W32; 5], 0)?;
    assert_eq!(rt; words.len(), 5);
    let mut values = [0; 5];
    for (k, word) in words.iter().enumerate() {
        values[k] = value_of(rt, alloc, &graph, [index, guard, 77].as_slice(), *word)?;
    }
    Ok(values)
}

#[test]
fn a_word_is_stored_at_its_index_alone(rt: HostRuntime) -> Result<(), Fail> {
    let before = [10, 20, 30, 40, 50];
    let rows = [
        (0, 1, [77, 20, 30, 40, 50]),
        (2, 1, [10, 20, 77, 40, 50]),
        (4, 1, [10, 20, 30, 40, 77]),
        (4, 0, before),
        (0, 0, before),
        (5, 1, before),
        (u64::MAX, 1, before),
        (1 << 63, 1, before),
        ((1 << 32) + 1, 1, before),
    ];
    for (index, guard, words) in rows {
        let told = stored(&rt, rt.alloc(), index, guard)?;
        assert_eq!(rt; told, words, "{index} {guard}");
    }
    Ok(())
}
