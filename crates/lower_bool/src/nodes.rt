//! The words of nodes, lowered one after another.
ghost use Rattle.std.specs.Prelude.{◌≡◌, ◌+◌, ◌<◌, ◌≤◌, ◌++◌, ◌∷◌, [], ℕ, get_or, length, map, IfErr, IfOk, OnOk};
ghost use Rattle.std.specs.List.{Contains, sum_by};
ghost use Rattle.hy_bits.specs.Bits.{low_bits};
ghost use Rattle.hy_bits.specs.Words.{IsWord, bits};
ghost use Rattle.word_graph.specs.Size.{size_at};
ghost use Rattle.word_graph.specs.Term.{taken_by, width_at};
ghost use Rattle.module_split.specs.Modules.{IsPiece};
ghost use Rattle.gate_net.specs.Growth.{Grows, StopsWithin};
ghost use Rattle.gate_net.specs.Spelled.{constants_of};
ghost use Rattle.lower_bool.specs.Walk.{AreLowered, HoldWords, IsKnown, IsLowered, Part, ands_limit_at, call_of, operand_row, place_of};

use crate::call::Call;
use crate::operation::operation;
use crate::rows::Rows;
use gate_net::{Form, GateFault, Lit, Net};
use hy_bits::{Width, bits_of};
use indexmap::IndexSet;
use std::alloc::Global;
use word_graph::{Entry, Graph, Node};

/// The number of the row of the node at a place, which is one of these places.
pub fn place_of(places: &IndexSet<u32>, node: u32) -> usize
    ensures { result ≡ place_of places.now.keys node }
{
    match places.get_index_of(&node) {
        Some(place) => place,
        None => 0,
    }
}

/// The width of the node at a place.
pub fn width_at(entries: &[Entry], node: u32) -> Width
    ensures { result ≡ width_at entries.now node }
{
    match entries.get(node as usize) {
        Some(entry) => entry.width,
        None => Width::W1,
    }
}

/// The word of a constant, as literals.
fn constants(alloc: Global, width: Width, number: u64) -> Result<Vec<Lit>, GateFault>
    requires { IsWord width number }
    ensures items { IfOk result (λ r. r.items ≡ constants_of (low_bits (bits width) number)) }
    ensures memory { IfErr result (λ e. e ≡ GateFault.Memory) }
{
    let mut bits = vec![in alloc; false; width.bits() as usize]?;
    bits_of(width, number, &mut bits);
    let mut literals = Vec::new(alloc);
    for bit in &bits {
        literals.push(Lit {
            code: u32::from(*bit),
        })?;
    }
    Ok(literals)
}

/// Adds the word of the node at a place to the operands: that of a constant, or its row.
fn add_operand(
    alloc: Global,
    graph: &Graph,
    places: &IndexSet<u32>,
    rows: &Rows,
    operands: &mut Rows,
    node: u32,
) -> Result<(), GateFault>
    ensures added { OnOk result (operands.new ≡ operands.old ++ operand_row graph.now places.now.keys rows.now node ∷ []) }
    ensures memory { IfErr result (λ e. e ≡ GateFault.Memory) }
{
    match graph.constant_of(Node { index: node }) {
        Some(number) => {
            let literals = constants(alloc, width_at(graph.entries(), node), number)?;
            operands.add(&literals)
        }
        None => operands.add(rows.get(place_of(places, node))),
    }
}

/// The words of the nodes that a node takes, in order.
fn operands_of(
    alloc: Global,
    graph: &Graph,
    places: &IndexSet<u32>,
    rows: &Rows,
    entry: &Entry,
) -> Result<Rows, GateFault>
    ensures items { IfOk result (λ r. r ≡ map (operand_row graph.now places.now.keys rows.now) (taken_by entry.now)) }
    ensures memory { IfErr result (λ e. e ≡ GateFault.Memory) }
{
    let mut operands = Rows::new(alloc);
    for node in entry.taken() {
        add_operand(alloc, graph, places, rows, &mut operands, *node)?;
    }
    Ok(operands)
}

/// The operation of a node, with its widths.
fn call_of(entries: &[Entry], entry: &Entry) -> Call
    ensures { result ≡ call_of entries.now entry.now }
{
    let [x, y, _] = entry.args;
    Call {
        op: entry.op,
        width: entry.width,
        first: width_at(entries, x),
        second: width_at(entries, y),
    }
}

/// The word of the node at a place, over the rows of the nodes that it takes.
fn word_of_node(
    alloc: Global,
    graph: &Graph,
    form: Form,
    net: &mut Net,
    places: &IndexSet<u32>,
    rows: &Rows,
    node: u32,
) -> Result<Vec<Lit>, GateFault>
    requires known { IsKnown graph.now places.now.keys node }
    requires words { HoldWords graph.now net.old places.now.keys rows.now }
    ensures lowered { IfOk result (λ r. (p : Part) → p.entries ≡ graph.now → p.form ≡ form → Contains p.nodes node → AreLowered p net.old places.now.keys rows.now → IsLowered p net.new node r.items) }
    ensures grows { Grows net.old net.new (size_at graph.now node) (ands_limit_at form graph.now node) }
    ensures stops { IfErr result (StopsWithin net.old net.new (size_at graph.now node)) }
{
    let entries = graph.entries();
    let entry = entries[node as usize];
    let operands = operands_of(alloc, graph, places, rows, &entry)?;
    operation(alloc, net, form, call_of(entries, &entry), &operands)
}

/// Adds the words of the nodes of a part in order, where the words of what it takes of outside stand. Time grows with the number of nodes and
/// of the gates that are made.
pub fn add_nodes(
    alloc: Global,
    graph: &Graph,
    form: Form,
    net: &mut Net,
    places: &mut IndexSet<u32>,
    rows: &mut Rows,
    nodes: &[u32],
) -> Result<(), GateFault>
    requires piece { IsPiece graph.now nodes.now places.old.keys [] }
    requires lowered { AreLowered (record { entries = graph.now; nodes = nodes.now; ins = places.old.keys; form = form }) net.old places.old.keys rows.old }
    ensures places { OnOk result (places.new.keys ≡ places.old.keys ++ nodes.now) }
    ensures lowered { OnOk result (AreLowered (record { entries = graph.now; nodes = nodes.now; ins = places.old.keys; form = form }) net.new places.new.keys rows.new) }
    ensures grows { Grows net.old net.new (sum_by (size_at graph.now) nodes.now) (sum_by (ands_limit_at form graph.now) nodes.now) }
    ensures stops { IfErr result (StopsWithin net.old net.new (sum_by (size_at graph.now) nodes.now)) }
{
    for node in nodes {
        let word = word_of_node(alloc, graph, form, net, places, rows, *node)?;
        rows.add(&word)?;
        places.insert(*node)?;
    }
    Ok(())
}
