//! Sums of pointers and integers (C11 6.5.6).
ghost use Rattle.std.specs.Prelude.{◌≡◌, ℕ, List, ◌+◌, ◌*◌, ◌≤◌, length, map, take, IfOk, IfErr};
ghost use Rattle.hy_bits.specs.declared.width.Width;
ghost use Rattle.word_graph.specs.Meaning.{InputsFit};
ghost use Rattle.word_graph.specs.Size.{graph_size};
ghost use Rattle.word_nodes.specs.Nodes.{Stands, Extends, IsFull, IsOfTwo, worth};
ghost use Rattle.c_place.specs.Aims.{IsPointer, address, places_of};
ghost use Rattle.exec_expressions.specs.Pointers.{moved_address, moved_word};

use c_meaning::Direction;
use c_place::{Target, Targets};
use hy_bits::Width;
use std::alloc::Global;
use word_graph::{Graph, GraphFault, Node};
use word_nodes::{difference, sum};

/// An index moved by a word, both of 64 bits.
fn moved_index(
    graph: &mut Graph,
    direction: Direction,
    index: Node,
    by: Node,
    region: u32,
) -> Result<Node, GraphFault>
    requires index { Stands graph.old Width.W64 index }
    requires by { Stands graph.old Width.W64 by }
    ensures stands { IfOk result (Stands graph.new Width.W64) }
    ensures value { IfOk result (IsOfTwo (moved_word direction) graph.old graph.new index by) }
    ensures extends { Extends region graph.old graph.new }
    ensures nodes { length graph.new ≤ length graph.old + 1 }
    ensures gates { graph_size graph.new ≤ graph_size graph.old + 3584 }
    ensures full { IfErr result (IsFull graph.new) }
{
    match direction {
        Direction::Forward => sum(graph, index, by, region),
        Direction::Backward => difference(graph, index, by, region),
    }
}

/// The pointer `from` with its index moved by the word `by`, of 64 bits, modulo 2^64. It takes time linear in its targets.
///
/// # Errors
///
/// `NodeLimit` where the graph is full, and `Memory`. The graph may have more nodes.
pub fn move_pointer(
    alloc: Global,
    graph: &mut Graph,
    from: &Targets,
    direction: Direction,
    by: Node,
    region: u32,
) -> Result<Targets, GraphFault>
    requires from { IsPointer graph.old from.now }
    requires by { Stands graph.old Width.W64 by }
    ensures pointer { IfOk result (IsPointer graph.new) }
    ensures value { IfOk result (λ r. (ins : List ℕ) → InputsFit graph.old ins → address graph.new ins r ≡ moved_address direction (worth graph.old ins by) (address graph.old ins from.now)) }
    ensures places { IfOk result (λ r. places_of r.list.items ≡ places_of from.now.list.items) }
    ensures extends { Extends region graph.old graph.new }
    ensures nodes { length graph.new ≤ length graph.old + length from.now.list.items }
    ensures gates { graph_size graph.new ≤ graph_size graph.old + 3584 * length from.now.list.items }
    ensures full { IfErr result (IsFull graph.new) }
{
    let _entries = graph.entries();
    let mut list = Vec::with_capacity(alloc, from.list.len())?;
    for target in &from.list {
        let index = moved_index(graph, direction, target.index, by, region)?;
        list.push(Target {
            guard: target.guard,
            object: target.object,
            first: target.first,
            size: target.size,
            length: target.length,
            index,
        })?;
    }
    Ok(Targets {
        null: from.null,
        list,
    })
}
