//! One of two pointers, chosen by a truth.
ghost use Rattle.std.specs.Prelude.{◌≡◌, ◌⊎◌, ℕ, List, [], ◌∷◌, ◌++◌, Some, true, false, ◌+◌, ◌-◌, ◌*◌, ◌≤◌, ◌==◌, length, map, replicate, slice_get, if◌then◌else◌, IfOk, IfErr, OnOk, IfSome, IfNone};
ghost use Rattle.std.specs.Option.{ForSome};
ghost use Rattle.std.specs.List.{All, Contains};
ghost use Rattle.hy_bits.specs.declared.width.Width;
ghost use Rattle.word_graph.specs.declared.graph.GraphFault;
ghost use Rattle.word_graph.specs.Meaning.{InputsFit};
ghost use Rattle.word_graph.specs.Size.{graph_size};
ghost use Rattle.word_nodes.specs.Nodes.{Stands, Extends, IsFull, worth};
ghost use Rattle.c_place.specs.Aims.{AreApart, IsPlacedIn, IsPointer, IsTarget, address, aim, aims, aims_there, place_of, places_of};
ghost use Rattle.c_place.specs.Choices.{AllTaken, AreAmong, IsTableOf, IsTaken, absent, partner_aim, sum_left, sum_taken};

use crate::targets::{Place, Target, Targets};
use hy_bits::Width;
use indexmap::IndexMap;
use std::alloc::Global;
use word_graph::{Graph, GraphFault, Node};
use word_nodes::{complement, conjunction, selection};

/// The numbers of the targets of a list by their places, of each place the first.
fn positions(alloc: Global, list: &[Target]) -> Result<IndexMap<Place, usize>, GraphFault>
    ensures table { IfOk result (λ t. IsTableOf (places_of list.now) t.entries) }
    ensures memory { IfErr result (λ e. e ≡ GraphFault.Memory) }
{
    let mut table = IndexMap::new(alloc);
    for (number, target) in list.iter().enumerate() {
        let place = target.place();
        if !table.contains_key(&place) {
            table.insert(place, number)?;
        }
    }
    Ok(table)
}

/// The target of `others` that has the place `place`, where it isn't taken; it is taken then.
fn take_partner(
    others: &[Target],
    table: &IndexMap<Place, usize>,
    taken: &mut Vec<bool>,
    place: Place,
) -> Option<Target>
    requires table { IsTableOf (places_of others.now) table.now.entries }
    requires count { length taken.old.items ≡ length others.now }
    ensures partner { IfSome result (IsTaken others.now place taken.old.items taken.new.items) }
    ensures none { IfNone result (taken.new.items ≡ taken.old.items) }
    ensures all { AreApart (places_of others.now) → AllTaken others.now taken.new.items place }
{
    let number = *table.get(&place)?;
    if taken[number] {
        return None;
    }
    taken[number] = true;
    Some(others[number])
}

/// The target `one` where `c` holds, and else the target `other`, which has the same place.
fn merged(
    graph: &mut Graph,
    c: Node,
    one: &Target,
    other: &Target,
    region: u32,
) -> Result<Target, GraphFault>
    requires condition { Stands graph.old Width.W1 c }
    requires first { IsTarget graph.old one.now }
    requires second { IsTarget graph.old other.now }
    requires same { place_of other.now ≡ place_of one.now }
    ensures target { IfOk result (IsTarget graph.new) }
    ensures place { IfOk result (λ t. place_of t ≡ place_of one.now) }
    ensures value { IfOk result (λ t. (ins : List ℕ) → InputsFit graph.old ins → aim graph.new ins t ≡ if worth graph.old ins c == 1 then aim graph.old ins one.now else aim graph.old ins other.now) }
    ensures extends { Extends region graph.old graph.new }
    ensures nodes { length graph.new ≤ length graph.old + 2 }
    ensures gates { graph_size graph.new ≤ graph_size graph.old + 260 }
    ensures full { IfErr result (IsFull graph.new) }
{
    let guard = selection(graph, Width::W1, c, one.guard, other.guard, region)?;
    let index = selection(graph, Width::W64, c, one.index, other.index, region)?;
    Ok(Target {
        guard,
        object: one.object,
        first: one.first,
        size: one.size,
        length: one.length,
        index,
    })
}

/// The target `one` where `c` holds; elsewhere it isn't there.
fn guarded(graph: &mut Graph, c: Node, one: &Target, region: u32) -> Result<Target, GraphFault>
    requires condition { Stands graph.old Width.W1 c }
    requires first { IsTarget graph.old one.now }
    ensures target { IfOk result (IsTarget graph.new) }
    ensures place { IfOk result (λ t. place_of t ≡ place_of one.now) }
    ensures value { IfOk result (λ t. (ins : List ℕ) → InputsFit graph.old ins → aim graph.new ins t ≡ if worth graph.old ins c == 1 then aim graph.old ins one.now else absent (aim graph.old ins one.now)) }
    ensures extends { Extends region graph.old graph.new }
    ensures nodes { length graph.new ≤ length graph.old + 1 }
    ensures gates { graph_size graph.new ≤ graph_size graph.old + 4 }
    ensures full { IfErr result (IsFull graph.new) }
{
    let _entries = graph.entries();
    let guard = conjunction(graph, c, one.guard, region)?;
    Ok(Target {
        guard,
        object: one.object,
        first: one.first,
        size: one.size,
        length: one.length,
        index: one.index,
    })
}

/// The target `one` where `c` holds, and else its partner, if it has one.
fn chosen_target(
    graph: &mut Graph,
    c: Node,
    one: &Target,
    partner: Option<Target>,
    region: u32,
) -> Result<Target, GraphFault>
    requires condition { Stands graph.old Width.W1 c }
    requires first { IsTarget graph.old one.now }
    requires second { ForSome partner (λ other. IsTarget graph.old other × (place_of other ≡ place_of one.now)) }
    ensures target { IfOk result (IsTarget graph.new) }
    ensures place { IfOk result (λ t. place_of t ≡ place_of one.now) }
    ensures value { IfOk result (λ t. (ins : List ℕ) → InputsFit graph.old ins → aim graph.new ins t ≡ if worth graph.old ins c == 1 then aim graph.old ins one.now else partner_aim (aim graph.old ins) one.now partner) }
    ensures extends { Extends region graph.old graph.new }
    ensures nodes { length graph.new ≤ length graph.old + 2 }
    ensures gates { graph_size graph.new ≤ graph_size graph.old + 260 }
    ensures full { IfErr result (IsFull graph.new) }
{
    match partner {
        Some(other) => merged(graph, c, one, &other, region),
        None => guarded(graph, c, one, region),
    }
}

/// Puts a target at the end of a list, but for one whose guard is the constant 0.
pub fn push_live(graph: &Graph, list: &mut Vec<Target>, target: Target) -> Result<(), GraphFault>
    ensures list { OnOk result ((list.new.items ≡ list.old.items ++ target ∷ []) ⊎ ((list.new.items ≡ list.old.items) × ((ins : List ℕ) → InputsFit graph.now ins → worth graph.now ins target.guard ≡ 0))) }
    ensures memory { IfErr result (λ e. e ≡ GraphFault.Memory) }
{
    let _entries = graph.entries();
    match graph.constant_of(target.guard) {
        Some(0) => Ok(()),
        _ => {
            list.push(target)?;
            Ok(())
        }
    }
}

/// The targets of `ones` where `c` holds, each of them else its partner among `others`. It tells which of those were taken.
fn choose_ones(
    alloc: Global,
    graph: &mut Graph,
    c: Node,
    ones: &[Target],
    others: &[Target],
    region: u32,
) -> Result<(Vec<Target>, Vec<bool>), GraphFault>
    requires condition { Stands graph.old Width.W1 c }
    requires first { All (IsTarget graph.old) ones.now }
    requires second { All (IsTarget graph.old) others.now }
    ensures targets { IfOk result (λ r. All (IsTarget graph.new) r.0.items) }
    ensures count { IfOk result (λ r. length r.1.items ≡ length others.now) }
    ensures there { IfOk result (λ r. (ins : List ℕ) → InputsFit graph.old ins → aims_there (aims graph.new ins r.0.items) ≡ if worth graph.old ins c == 1 then aims_there (aims graph.old ins ones.now) else sum_taken r.1.items (aims graph.old ins others.now)) }
    ensures among { IfOk result (λ r. (ins : List ℕ) → InputsFit graph.old ins → AreAmong (if worth graph.old ins c == 1 then aims graph.old ins ones.now else aims graph.old ins others.now) (aims graph.new ins r.0.items)) }
    ensures places { IfOk result (λ r. All (λ t. Contains (places_of ones.now) (place_of t)) r.0.items) }
    ensures apart { IfOk result (λ r. AreApart (places_of ones.now) → AreApart (places_of r.0.items)) }
    ensures all { IfOk result (λ r. AreApart (places_of others.now) → All (λ t. AllTaken others.now r.1.items (place_of t)) r.0.items) }
    ensures extends { Extends region graph.old graph.new }
    ensures nodes { length graph.new ≤ length graph.old + 2 * length ones.now }
    ensures gates { graph_size graph.new ≤ graph_size graph.old + 260 * length ones.now }
    ensures full { IfErr result (IsFull graph.new) }
{
    let table = positions(alloc, others)?;
    let mut taken = vec![in alloc; false; others.len()]?;
    let mut list = Vec::new(alloc);
    for one in ones {
        let partner = take_partner(others, &table, &mut taken, one.place());
        let target = chosen_target(graph, c, one, partner, region)?;
        push_live(graph, &mut list, target)?;
    }
    Ok((list, taken))
}

/// Puts the targets of `others` that aren't taken at the end of `list`, each where `c` holds.
fn choose_others(
    graph: &mut Graph,
    c: Node,
    others: &[Target],
    taken: &[bool],
    list: &mut Vec<Target>,
    region: u32,
) -> Result<(), GraphFault>
    requires condition { Stands graph.old Width.W1 c }
    requires targets { All (IsTarget graph.old) others.now }
    requires before { All (IsTarget graph.old) list.old.items }
    requires count { length taken.now ≡ length others.now }
    ensures targets { OnOk result (All (IsTarget graph.new) list.new.items) }
    ensures there { OnOk result ((ins : List ℕ) → InputsFit graph.old ins → aims_there (aims graph.new ins list.new.items) ≡ aims_there (aims graph.old ins list.old.items) + (if worth graph.old ins c == 1 then sum_left taken.now (aims graph.old ins others.now) else 0)) }
    ensures among { OnOk result ((ins : List ℕ) → InputsFit graph.old ins → All (λ x. x.guard ≡ 1 → Contains (aims graph.old ins list.old.items) x ⊎ ((worth graph.old ins c ≡ 1) × Contains (aims graph.old ins others.now) x)) (aims graph.new ins list.new.items)) }
    ensures places { OnOk result (All (IsPlacedIn list.old.items others.now) list.new.items) }
    ensures apart { OnOk result (AreApart (places_of list.old.items) → AreApart (places_of others.now) → All (λ t. AllTaken others.now taken.now (place_of t)) list.old.items → AreApart (places_of list.new.items)) }
    ensures extends { Extends region graph.old graph.new }
    ensures nodes { length graph.new ≤ length graph.old + length others.now }
    ensures gates { graph_size graph.new ≤ graph_size graph.old + 4 * length others.now }
    ensures full { IfErr result (IsFull graph.new) }
{
    for (number, other) in others.iter().enumerate() {
        if !taken[number] {
            let target = guarded(graph, c, other, region)?;
            push_live(graph, list, target)?;
        }
    }
    Ok(())
}

/// The pointer `a` where `c` holds, and else the pointer `b`, by nodes for each target.
fn select_targets(
    alloc: Global,
    graph: &mut Graph,
    c: Node,
    a: &Targets,
    b: &Targets,
    region: u32,
) -> Result<Targets, GraphFault>
    requires condition { Stands graph.old Width.W1 c }
    requires first { IsPointer graph.old a.now }
    requires second { IsPointer graph.old b.now }
    ensures pointer { IfOk result (IsPointer graph.new) }
    ensures value { IfOk result (λ r. (ins : List ℕ) → InputsFit graph.old ins → address graph.new ins r ≡ if worth graph.old ins c == 1 then address graph.old ins a.now else address graph.old ins b.now) }
    ensures places { IfOk result (λ r. All (IsPlacedIn a.now.list.items b.now.list.items) r.list.items) }
    ensures apart { IfOk result (λ r. AreApart (places_of a.now.list.items) → AreApart (places_of b.now.list.items) → AreApart (places_of r.list.items)) }
    ensures extends { Extends region graph.old graph.new }
    ensures nodes { length graph.new ≤ length graph.old + (2 * length a.now.list.items + length b.now.list.items + 2) }
    ensures gates { graph_size graph.new ≤ graph_size graph.old + (260 * length a.now.list.items + 4 * length b.now.list.items + 8) }
    ensures full { IfErr result (IsFull graph.new) }
{
    let _entries = graph.entries();
    let null = selection(graph, Width::W1, c, a.null, b.null, region)?;
    let otherwise = complement(graph, c, region)?;
    let (mut list, taken) = choose_ones(alloc, graph, c, &a.list, &b.list, region)?;
    choose_others(graph, otherwise, &b.list, &taken, &mut list, region)?;
    Ok(Targets { null, list })
}

/// The pointer `a` where `c` holds, and else the pointer `b`. The targets of one place become one, and those of which it is known that they aren't
/// there go. It takes time linear in the targets. New nodes are of the region `region`, and there are none where `c` is a constant.
///
/// # Errors
///
/// `NodeLimit` where the graph is full, and `Memory`. The graph may have more nodes.
pub fn choose(
    alloc: Global,
    graph: &mut Graph,
    c: Node,
    a: &Targets,
    b: &Targets,
    region: u32,
) -> Result<Targets, GraphFault>
    requires condition { Stands graph.old Width.W1 c }
    requires first { IsPointer graph.old a.now }
    requires second { IsPointer graph.old b.now }

    // The pointer, for all inputs that fit, and the places of its targets.
    ensures pointer { IfOk result (IsPointer graph.new) }
    ensures value { IfOk result (λ r. (ins : List ℕ) → InputsFit graph.old ins → address graph.new ins r ≡ if worth graph.old ins c == 1 then address graph.old ins a.now else address graph.old ins b.now) }
    ensures places { IfOk result (λ r. All (IsPlacedIn a.now.list.items b.now.list.items) r.list.items) }
    ensures apart { IfOk result (λ r. AreApart (places_of a.now.list.items) → AreApart (places_of b.now.list.items) → AreApart (places_of r.list.items)) }

    // The nodes, also after an Err.
    ensures extends { Extends region graph.old graph.new }
    ensures nodes { length graph.new ≤ length graph.old + (2 * length a.now.list.items + length b.now.list.items + 2) }
    ensures gates { graph_size graph.new ≤ graph_size graph.old + (260 * length a.now.list.items + 4 * length b.now.list.items + 8) }
    ensures full { IfErr result (IsFull graph.new) }
{
    let _entries = graph.entries();
    match graph.constant_of(c) {
        Some(1) => a.copy(alloc),
        Some(_) => b.copy(alloc),
        None => select_targets(alloc, graph, c, a, b, region),
    }
}
