//! Parts of what pointers point to.
ghost use Rattle.std.specs.Prelude.{◌≡◌, ◌⊎◌, ℕ, List, true, ◌+◌, ◌*◌, ◌^◌, ◌≤◌, ◌<◌, length, IfOk, IfErr, OnOk};
ghost use Rattle.std.specs.List.{All, Contains};
ghost use Rattle.hy_bits.specs.Bits.{bit};
ghost use Rattle.hy_bits.specs.declared.width.Width;
ghost use Rattle.word_graph.specs.Meaning.{InputsFit};
ghost use Rattle.word_graph.specs.Size.{graph_size};
ghost use Rattle.word_nodes.specs.Nodes.{Stands, Extends, IsFull, worth};
ghost use Rattle.c_place.specs.Accesses.{reach};
ghost use Rattle.c_place.specs.Aims.{IsPointer, IsTarget, address, aim, aims, aims_there, is_hit};
ghost use Rattle.c_place.specs.Boards.{Layout, LiesIn};
ghost use Rattle.c_place.specs.Parts.{part_aim, part_of};

use crate::choosing::push_live;
use crate::selecting::hit;
use crate::targets::{Target, Targets};
use hy_bits::Width;
use std::alloc::Global;
use word_graph::{Graph, GraphFault, Node};
use word_nodes::{complement, constant, disjunction};

/// A part of an element: `count` elements of `size` cells, of which the first begins at the cell `offset` of it.
#[derive(Clone, Copy, Debug, PartialEq, Eq)]
pub struct Part {
    pub offset: u32,
    pub size: u32,
    pub count: u32,
}

/// The part of the element `k` of a target, which is there where `here` holds. `origin` is the index 0.
fn part_target(target: &Target, part: Part, k: u32, here: Node, origin: Node) -> Target
    requires { target.now.first + k * target.now.size + part.offset < 2 ^ 32 }
    ensures { result ≡ record { guard = here; object = target.now.object; first = target.now.first + k * target.now.size + part.offset; size = part.size; length = part.count; index = origin } }
{
    let first = target.first as u64 + k as u64 * target.size as u64 + part.offset as u64;
    Target {
        guard: here,
        object: target.object,
        first: first as u32,
        size: part.size,
        length: part.count,
        index: origin,
    }
}

/// Puts the parts of all elements of a target at the end of `list`, each where the target hits it.
fn push_each(
    graph: &mut Graph,
    target: &Target,
    part: Part,
    origin: Node,
    list: &mut Vec<Target>,
    region: u32,
) -> Result<(), GraphFault>
    requires target { IsTarget graph.old target.now }
    requires origin { Stands graph.old Width.W64 origin }
    requires zero { (ins : List ℕ) → InputsFit graph.old ins → worth graph.old ins origin ≡ 0 }
    requires before { All (IsTarget graph.old) list.old.items }
    requires within { part.offset + part.size * part.count ≤ target.now.size }
    requires cells { target.now.first + target.now.length * target.now.size < 2 ^ 32 }
    ensures targets { OnOk result (All (IsTarget graph.new) list.new.items) }
    ensures there { OnOk result ((ins : List ℕ) → InputsFit graph.old ins → aims_there (aims graph.new ins list.new.items) ≡ aims_there (aims graph.old ins list.old.items) + bit (is_hit (aim graph.old ins target.now))) }
    ensures among { OnOk result ((ins : List ℕ) → InputsFit graph.old ins → All (λ x. x.guard ≡ 1 → Contains (aims graph.old ins list.old.items) x ⊎ ((is_hit (aim graph.old ins target.now) ≡ true) × (x ≡ part_aim part.offset part.size part.count (aim graph.old ins target.now)))) (aims graph.new ins list.new.items)) }
    ensures lies { OnOk result ((l : Layout) → LiesIn l target.now → All (LiesIn l) list.old.items → All (LiesIn l) list.new.items) }
    ensures few { OnOk result (length list.new.items ≤ length list.old.items + target.now.length) }
    ensures range { target.now.length < 2 ^ 32 }
    ensures extends { Extends region graph.old graph.new }
    ensures nodes { length graph.new ≤ length graph.old + 3 * target.now.length }
    ensures gates { graph_size graph.new ≤ graph_size graph.old + 260 * target.now.length }
    ensures full { IfErr result (IsFull graph.new) }
{
    let _entries = graph.entries();
    for k in 0..target.length {
        let here = hit(graph, target.guard, target.index, k, region)?;
        let element = part_target(target, part, k, here, origin);
        push_live(graph, list, element)?;
    }
    Ok(())
}

/// The same, where a constant index makes no nodes.
fn push_parts(
    graph: &mut Graph,
    target: &Target,
    part: Part,
    origin: Node,
    list: &mut Vec<Target>,
    region: u32,
) -> Result<(), GraphFault>
    requires target { IsTarget graph.old target.now }
    requires origin { Stands graph.old Width.W64 origin }
    requires zero { (ins : List ℕ) → InputsFit graph.old ins → worth graph.old ins origin ≡ 0 }
    requires before { All (IsTarget graph.old) list.old.items }
    requires within { part.offset + part.size * part.count ≤ target.now.size }
    requires cells { target.now.first + target.now.length * target.now.size < 2 ^ 32 }
    ensures targets { OnOk result (All (IsTarget graph.new) list.new.items) }
    ensures there { OnOk result ((ins : List ℕ) → InputsFit graph.old ins → aims_there (aims graph.new ins list.new.items) ≡ aims_there (aims graph.old ins list.old.items) + bit (is_hit (aim graph.old ins target.now))) }
    ensures among { OnOk result ((ins : List ℕ) → InputsFit graph.old ins → All (λ x. x.guard ≡ 1 → Contains (aims graph.old ins list.old.items) x ⊎ ((is_hit (aim graph.old ins target.now) ≡ true) × (x ≡ part_aim part.offset part.size part.count (aim graph.old ins target.now)))) (aims graph.new ins list.new.items)) }
    ensures lies { OnOk result ((l : Layout) → LiesIn l target.now → All (LiesIn l) list.old.items → All (LiesIn l) list.new.items) }
    ensures few { OnOk result (length list.new.items ≤ length list.old.items + target.now.length) }
    ensures range { target.now.length < 2 ^ 32 }
    ensures extends { Extends region graph.old graph.new }
    ensures nodes { length graph.new ≤ length graph.old + 3 * target.now.length }
    ensures gates { graph_size graph.new ≤ graph_size graph.old + 260 * target.now.length }
    ensures full { IfErr result (IsFull graph.new) }
{
    let _entries = graph.entries();
    match graph.constant_of(target.index) {
        Some(k) => {
            if k < target.length as u64 {
                list.push(part_target(target, part, k as u32, target.guard, origin))?;
            }
            Ok(())
        }
        None => push_each(graph, target, part, origin, list, region),
    }
}

/// Whether no target is there, of which at most one is.
fn none_there(graph: &mut Graph, list: &[Target], region: u32) -> Result<Node, GraphFault>
    requires { All (IsTarget graph.old) list.now }
    ensures stands { IfOk result (Stands graph.new Width.W1) }
    ensures value { IfOk result (λ n. (ins : List ℕ) → InputsFit graph.old ins → aims_there (aims graph.old ins list.now) ≤ 1 → worth graph.new ins n + aims_there (aims graph.old ins list.now) ≡ 1) }
    ensures extends { Extends region graph.old graph.new }
    ensures nodes { length graph.new ≤ length graph.old + (length list.now + 2) }
    ensures gates { graph_size graph.new ≤ graph_size graph.old + 4 * (length list.now + 1) }
    ensures full { IfErr result (IsFull graph.new) }
{
    let mut any = constant(graph, Width::W1, 0)?;
    for target in list {
        any = disjunction(graph, any, target.guard, region)?;
    }
    complement(graph, any, region)
}

/// A pointer to the part `part` of the element that `from` points to; null where it is null or points outside. It takes time linear in the
/// elements of the targets. New nodes are of the region `region`.
///
/// # Errors
///
/// `NodeLimit` where the graph is full, and `Memory`. The graph may have more nodes.
pub fn part_pointer(
    alloc: Global,
    graph: &mut Graph,
    from: &Targets,
    part: Part,
    region: u32,
) -> Result<Targets, GraphFault>
    requires from { IsPointer graph.old from.now }
    requires within { All (λ t. part.offset + part.size * part.count ≤ t.size) from.now.list.items }
    requires cells { All (λ t. t.first + t.length * t.size < 2 ^ 32) from.now.list.items }
    ensures pointer { IfOk result (IsPointer graph.new) }
    ensures value { IfOk result (λ r. (ins : List ℕ) → InputsFit graph.old ins → address graph.new ins r ≡ part_of part.offset part.size part.count (address graph.old ins from.now)) }
    ensures lies { IfOk result (λ r. (l : Layout) → All (LiesIn l) from.now.list.items → All (LiesIn l) r.list.items) }
    ensures extends { Extends region graph.old graph.new }
    ensures nodes { length graph.new ≤ length graph.old + (4 * reach 0 from.now.list.items + 3) }
    ensures gates { graph_size graph.new ≤ graph_size graph.old + (264 * reach 0 from.now.list.items + 4) }
    ensures full { IfErr result (IsFull graph.new) }
{
    let _entries = graph.entries();
    let origin = constant(graph, Width::W64, 0)?;
    let mut list = Vec::new(alloc);
    for target in &from.list {
        push_parts(graph, target, part, origin, &mut list, region)?;
    }
    let null = none_there(graph, &list, region)?;
    Ok(Targets { null, list })
}
