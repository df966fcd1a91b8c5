//! The circuit of a part of a graph.
ghost use Rattle.std.specs.Prelude.{◌≡◌, ◌<◌, ◌^◌, ◌++◌, ℕ, List, length, map, IfOk, OnOk};
ghost use Rattle.std.specs.List.{All};
ghost use Rattle.word_graph.specs.Term.{width_at};
ghost use Rattle.word_graph.specs.Meaning.{InputsFit, value, word_at, words};
ghost use Rattle.ring_net.specs.Ring.{outputs};
ghost use Rattle.module_split.specs.Steps.{IsDistinct};
ghost use Rattle.ring_net.specs.Part.{IsPart, IsRingModule, arg_of, gate_at, gate_for, variable_of};

use crate::ring::{RingArg, RingGate, RingNet};
use hy_bits::{Memory, Op, Width};
use indexmap::IndexSet;
use std::alloc::Global;
use word_graph::{Entry, Graph, Node};

/// Adds places, all of which are new.
fn add_places(places: &mut IndexSet<u32>, more: &[u32]) -> Result<(), Memory>
    requires { IsDistinct (places.old.keys ++ more.now) }
    ensures { OnOk result (places.new.keys ≡ places.old.keys ++ more.now) }
{
    for place in more {
        places.insert(*place)?;
    }
    Ok(())
}

/// The variable of the node at a place, which is one of these places.
fn variable_of(places: &IndexSet<u32>, place: u32) -> u32
    requires { length places.now.keys < 2 ^ 32 }
    ensures { result ≡ variable_of places.now.keys place }
{
    match places.get_index_of(&place) {
        Some(variable) => variable as u32,
        None => 0,
    }
}

/// What a gate takes of the node at a place.
fn arg_of(graph: &Graph, places: &IndexSet<u32>, place: u32) -> RingArg
    requires { length places.now.keys < 2 ^ 32 }
    ensures { result ≡ arg_of graph.now places.now.keys place }
{
    match graph.constant_of(Node { index: place }) {
        Some(number) => RingArg::Number(number),
        None => RingArg::Var(variable_of(places, place)),
    }
}

/// The gate of a node.
fn gate_for(graph: &Graph, places: &IndexSet<u32>, entry: &Entry) -> RingGate
    requires { length places.now.keys < 2 ^ 32 }
    ensures { result ≡ gate_for graph.now places.now.keys entry.now }
{
    let [x, y, _] = entry.args;
    let first = arg_of(graph, places, x);
    let second = match entry.op {
        Op::Neg | Op::Trunc => RingArg::Number(0),
        _ => arg_of(graph, places, y),
    };
    RingGate {
        op: entry.op,
        width: entry.width,
        args: [first, second],
    }
}

/// The gates of the nodes at these places.
fn gates_of(
    alloc: Global,
    graph: &Graph,
    places: &IndexSet<u32>,
    nodes: &[u32],
) -> Result<Vec<RingGate>, Memory>
    requires few { length places.now.keys < 2 ^ 32 }
    requires stand { All (λ k. k < length graph.now) nodes.now }
    ensures { IfOk result (λ gates. gates.items ≡ map (gate_at graph.now places.now.keys) nodes.now) }
{
    let entries = graph.entries();
    let mut gates = Vec::with_capacity(alloc, nodes.len())?;
    for node in nodes {
        let entry = entries[*node as usize];
        gates.push(gate_for(graph, places, &entry))?;
    }
    Ok(gates)
}

/// The widths of the nodes at these places.
fn widths_of(alloc: Global, graph: &Graph, nodes: &[u32]) -> Result<Vec<Width>, Memory>
    requires { All (λ k. k < length graph.now) nodes.now }
    ensures { IfOk result (λ widths. widths.items ≡ map (width_at graph.now) nodes.now) }
{
    let entries = graph.entries();
    let mut widths = Vec::with_capacity(alloc, nodes.len())?;
    for node in nodes {
        widths.push(entries[*node as usize].width)?;
    }
    Ok(widths)
}

/// The variables of the nodes at these places.
fn variables_of(alloc: Global, places: &IndexSet<u32>, nodes: &[u32]) -> Result<Vec<u32>, Memory>
    requires { length places.now.keys < 2 ^ 32 }
    ensures { IfOk result (λ variables. variables.items ≡ map (variable_of places.now.keys) nodes.now) }
{
    let mut variables = Vec::with_capacity(alloc, nodes.len())?;
    for node in nodes {
        variables.push(variable_of(places, *node))?;
    }
    Ok(variables)
}

/// The circuit of a part of a graph.
fn ring_of_part(
    alloc: Global,
    graph: &Graph,
    nodes: &[u32],
    ins: &[u32],
    outs: &[u32],
) -> Result<RingNet, Memory>
    requires { IsPart graph.now nodes.now ins.now outs.now }
    ensures ins { IfOk result (λ r. r.ins ≡ map (width_at graph.now) ins.now) }
    ensures gates { IfOk result (λ r. r.gates ≡ map (gate_at graph.now (ins.now ++ nodes.now)) nodes.now) }
    ensures outs { IfOk result (λ r. r.outs ≡ map (variable_of (ins.now ++ nodes.now)) outs.now) }

    // Where the inputs of the graph fit: over the words of the nodes `ins`, the outputs are those of the nodes `outs`.
    ensures values { IfOk result (λ r. (inputs : List ℕ) → InputsFit graph.now inputs → outputs r (map (value graph.now inputs) ins.now) ≡ map (word_at (words graph.now inputs)) outs.now) }
{
    let _size = graph.entries().len();
    let mut places = IndexSet::new(alloc);
    add_places(&mut places, ins)?;
    add_places(&mut places, nodes)?;
    let widths = widths_of(alloc, graph, ins)?;
    let gates = gates_of(alloc, graph, &places, nodes)?;
    let variables = variables_of(alloc, &places, outs)?;
    Ok(RingNet::new(widths, gates, variables))
}

/// The circuit of a module of the arithmetic class, which has these nodes, uses the nodes `ins` of outside, and gives the
/// nodes `outs`: one gate for each node, in order, over the words of `ins`. Time grows with the number of nodes.
///
/// # Errors
///
/// Memory ran out.
pub fn ring_of(
    alloc: Global,
    graph: &Graph,
    nodes: &[u32],
    ins: &[u32],
    outs: &[u32],
) -> Result<RingNet, Memory>
    requires { IsRingModule graph.now nodes.now ins.now outs.now }
    ensures ins { IfOk result (λ r. r.ins ≡ map (width_at graph.now) ins.now) }
    ensures gates { IfOk result (λ r. r.gates ≡ map (gate_at graph.now (ins.now ++ nodes.now)) nodes.now) }
    ensures outs { IfOk result (λ r. r.outs ≡ map (variable_of (ins.now ++ nodes.now)) outs.now) }

    // Where the inputs of the graph fit: over the words of the nodes `ins`, the outputs are those of the nodes `outs`.
    ensures values { IfOk result (λ r. (inputs : List ℕ) → InputsFit graph.now inputs → outputs r (map (value graph.now inputs) ins.now) ≡ map (word_at (words graph.now inputs)) outs.now) }
{
    let _size = graph.entries().len();
    ring_of_part(alloc, graph, nodes, ins, outs)
}
