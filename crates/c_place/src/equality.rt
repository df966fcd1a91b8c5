//! Equality of pointers.
ghost use Rattle.std.specs.Prelude.{◌≡◌, ℕ, List, ◌+◌, ◌*◌, ◌≤◌, ◌<◌, ◌%◌, ◌^◌, length, map, take, IfOk, IfErr};
ghost use Rattle.std.specs.List.{All};
ghost use Rattle.hy_bits.specs.Bits.{bit};
ghost use Rattle.hy_bits.specs.declared.width.Width;
ghost use Rattle.word_graph.specs.Meaning.{InputsFit};
ghost use Rattle.word_graph.specs.Size.{graph_size};
ghost use Rattle.word_nodes.specs.Nodes.{Stands, Extends, IsFull, worth};
ghost use Rattle.c_meaning.specs.State.{points_alike};
ghost use Rattle.c_place.specs.Aims.{IsPointer, IsTarget, address, aim, aims, number_of_cell, product_size, product_sizes, coded_cell, coded_object};

use crate::targets::{Target, Targets};
use hy_bits::Width;
use word_graph::{Graph, GraphFault, Node};
use word_nodes::{conjunction, constant, equality, product, selection, sum};

/// The index of a target times its size, modulo 2^64.
fn scaled(graph: &mut Graph, target: &Target, region: u32) -> Result<Node, GraphFault>
    requires { IsTarget graph.old target.now }
    ensures stands { IfOk result (Stands graph.new Width.W64) }
    ensures value { IfOk result (λ n. (ins : List ℕ) → InputsFit graph.old ins → worth graph.new ins n ≡ (worth graph.old ins target.now.index * target.now.size) % 2 ^ 64) }
    ensures extends { Extends region graph.old graph.new }
    ensures nodes { length graph.new ≤ length graph.old + 2 }
    ensures gates { graph_size graph.new ≤ graph_size graph.old + product_size target.now }
    ensures full { IfErr result (IsFull graph.new) }
{
    let _entries = graph.entries();
    match target.size {
        0 => constant(graph, Width::W64, 0),
        1 => Ok(target.index),
        _ => {
            let size = constant(graph, Width::W64, target.size as u64)?;
            product(graph, target.index, size, region)
        }
    }
}

/// The number of the cell of a target's element, modulo 2^64.
fn cell_number(graph: &mut Graph, target: &Target, region: u32) -> Result<Node, GraphFault>
    requires { IsTarget graph.old target.now }
    ensures stands { IfOk result (Stands graph.new Width.W64) }
    ensures value { IfOk result (λ n. (ins : List ℕ) → InputsFit graph.old ins → worth graph.new ins n ≡ number_of_cell (aim graph.old ins target.now)) }
    ensures extends { Extends region graph.old graph.new }
    ensures nodes { length graph.new ≤ length graph.old + 4 }
    ensures gates { graph_size graph.new ≤ graph_size graph.old + (3584 + product_size target.now) }
    ensures full { IfErr result (IsFull graph.new) }
{
    let scaled = scaled(graph, target, region)?;
    let first = constant(graph, Width::W64, target.first as u64)?;
    sum(graph, scaled, first, region)
}

/// The object and the cell that a pointer goes by, both 0 where it is null. `zero` and `origin` are 0, of 32 and of 64 bits.
fn codes(
    graph: &mut Graph,
    p: &Targets,
    zero: Node,
    origin: Node,
    region: u32,
) -> Result<(Node, Node), GraphFault>
    requires targets { All (IsTarget graph.old) p.now.list.items }
    requires zero { Stands graph.old Width.W32 zero }
    requires origin { Stands graph.old Width.W64 origin }
    ensures object { IfOk result (λ r. Stands graph.new Width.W32 r.0) }
    ensures cell { IfOk result (λ r. Stands graph.new Width.W64 r.1) }
    ensures object_value { IfOk result (λ r. (ins : List ℕ) → InputsFit graph.old ins → worth graph.new ins r.0 ≡ coded_object (worth graph.old ins zero) (aims graph.old ins p.now.list.items)) }
    ensures cell_value { IfOk result (λ r. (ins : List ℕ) → InputsFit graph.old ins → worth graph.new ins r.1 ≡ coded_cell (worth graph.old ins origin) (aims graph.old ins p.now.list.items)) }
    ensures extends { Extends region graph.old graph.new }
    ensures nodes { length graph.new ≤ length graph.old + 7 * length p.now.list.items }
    ensures gates { graph_size graph.new ≤ graph_size graph.old + (3968 * length p.now.list.items + product_sizes p.now.list.items) }
    ensures full { IfErr result (IsFull graph.new) }
{
    let mut object = zero;
    let mut cell = origin;
    for target in &p.list {
        let number = constant(graph, Width::W32, target.object as u64)?;
        let here = cell_number(graph, target, region)?;
        object = selection(graph, Width::W32, target.guard, number, object, region)?;
        cell = selection(graph, Width::W64, target.guard, here, cell, region)?;
    }
    Ok((object, cell))
}

/// Whether the pointers `a` and `b` are equal: both null, or pointing to one cell of one object, by numbers modulo 2^64. It takes time linear in
/// their targets. New nodes are of the region `region`.
///
/// # Errors
///
/// `NodeLimit` where the graph is full, and `Memory`. The graph may have more nodes.
pub fn same(graph: &mut Graph, a: &Targets, b: &Targets, region: u32) -> Result<Node, GraphFault>
    requires first { IsPointer graph.old a.now }
    requires second { IsPointer graph.old b.now }
    ensures stands { IfOk result (Stands graph.new Width.W1) }
    ensures value { IfOk result (λ n. (ins : List ℕ) → InputsFit graph.old ins → worth graph.new ins n ≡ bit (points_alike (address graph.old ins a.now) (address graph.old ins b.now))) }
    ensures extends { Extends region graph.old graph.new }
    ensures nodes { length graph.new ≤ length graph.old + 8 * (length a.now.list.items + length b.now.list.items + 1) }
    ensures gates { graph_size graph.new ≤ graph_size graph.old + (4608 * (length a.now.list.items + length b.now.list.items + 1) + (product_sizes a.now.list.items + product_sizes b.now.list.items)) }
    ensures full { IfErr result (IsFull graph.new) }
{
    let _entries = graph.entries();
    let zero = constant(graph, Width::W32, 0)?;
    let origin = constant(graph, Width::W64, 0)?;
    let (object, cell) = codes(graph, a, zero, origin, region)?;
    let (other, place) = codes(graph, b, zero, origin, region)?;
    let alike = equality(graph, Width::W1, a.null, b.null, region)?;
    let objects = equality(graph, Width::W32, object, other, region)?;
    let cells = equality(graph, Width::W64, cell, place, region)?;
    let both = conjunction(graph, objects, cells, region)?;
    conjunction(graph, alike, both, region)
}
