//! The Boolean circuit of a module.
ghost use Rattle.std.specs.Prelude.{◌≡◌, ◌+◌, ◌<◌, ◌≤◌, ◌++◌, [], ℕ, get_or, length, map, IfErr, IfOk, OnOk};
ghost use Rattle.std.specs.List.{All, Contains, flat_map, sum_by};
ghost use Rattle.word_graph.specs.Shape.{IsGraph};
ghost use Rattle.word_graph.specs.Size.{size_at};
ghost use Rattle.module_split.specs.Modules.{IsModuleOf, IsPiece};
ghost use Rattle.gate_net.specs.declared.netlist.Form;
ghost use Rattle.gate_net.specs.Meaning.{and_count};
ghost use Rattle.gate_net.specs.Paths.{IsReduced};
ghost use Rattle.gate_net.specs.Shape.{gate_limit, variable_limit};
ghost use Rattle.gate_net.specs.Spelled.{variables_from};
ghost use Rattle.module_split.specs.Steps.{IsDistinct};
ghost use Rattle.lower_bool.specs.Parts.{Computes, LimitOver, bits_at};
ghost use Rattle.lower_bool.specs.Stated.{HasStatedAnds, HasStatedDepth};
ghost use Rattle.lower_bool.specs.Walk.{AreInputs, input_limit, row_of_node};

use crate::nodes::{add_nodes, place_of, width_at};
use crate::rows::Rows;
use gate_net::{Form, GateFault, Lit, Net};
use gate_rewrite::rewrite;
use indexmap::IndexSet;
use module_split::Module;
use std::alloc::Global;
use word_graph::Graph;

/// How many bits the words of the nodes at these places have together.
fn input_count(graph: &Graph, ins: &[u32]) -> u32
    requires { length ins.now ≤ input_limit }
    ensures { result ≡ sum_by (bits_at graph.now) ins.now }
{
    let entries = graph.entries();
    let mut count = 0;
    for node in ins {
        count += width_at(entries, *node).bits();
    }
    count
}

/// The literals of `count` inputs, from `first` on.
fn inputs_from(alloc: Global, first: u32, count: u32) -> Result<Vec<Lit>, GateFault>
    requires { first + count ≤ variable_limit }
    ensures items { IfOk result (λ r. r.items ≡ variables_from first count) }
    ensures memory { IfErr result (λ e. e ≡ GateFault.Memory) }
{
    let mut literals = Vec::new(alloc);
    for place in 0..count {
        literals.push(Lit::of_variable(first + place))?;
    }
    Ok(literals)
}

/// Adds the words of the nodes at these places, each of which is a run of inputs after those before it.
fn add_inputs(
    alloc: Global,
    graph: &Graph,
    places: &mut IndexSet<u32>,
    rows: &mut Rows,
    ins: &[u32],
) -> Result<(), GateFault>
    requires none { places.old.keys ≡ [] }
    requires empty { rows.old ≡ [] }
    requires distinct { IsDistinct ins.now }
    requires few { length ins.now ≤ input_limit }
    ensures places { OnOk result (places.new.keys ≡ ins.now) }
    ensures rows { OnOk result (AreInputs graph.now ins.now (length ins.now) rows.new) }
    ensures memory { IfErr result (λ e. e ≡ GateFault.Memory) }
{
    let entries = graph.entries();
    let mut first = 0;
    for node in ins {
        let count = width_at(entries, *node).bits();
        let literals = inputs_from(alloc, first, count)?;
        rows.add(&literals)?;
        places.insert(*node)?;
        first += count;
    }
    Ok(())
}

/// The literals of the words of the nodes at these places, word by word.
fn outputs_of(
    alloc: Global,
    places: &IndexSet<u32>,
    rows: &Rows,
    outs: &[u32],
) -> Result<Vec<Lit>, GateFault>
    ensures items { IfOk result (λ r. r.items ≡ flat_map (row_of_node places.now.keys rows.now) outs.now) }
    ensures memory { IfErr result (λ e. e ≡ GateFault.Memory) }
{
    let mut literals = Vec::new(alloc);
    for node in outs {
        literals.extend_from_slice(rows.get(place_of(places, *node)))?;
    }
    Ok(literals)
}

/// The circuit of a part of a graph.
fn raw_part(
    alloc: Global,
    graph: &Graph,
    form: Form,
    budget: u32,
    nodes: &[u32],
    ins: &[u32],
    outs: &[u32],
) -> Result<Net, GateFault>
    requires graph { IsGraph graph.now }
    requires piece { IsPiece graph.now nodes.now ins.now outs.now }
    requires limit { budget ≤ gate_limit }
    ensures computes { IfOk result (Computes graph.now ins.now outs.now) }
    ensures ins { IfOk result (λ r. r.ins ≡ sum_by (bits_at graph.now) ins.now) }
    ensures gates { IfOk result (λ r. length r.gates ≤ sum_by (size_at graph.now) nodes.now) }
    ensures ands { form ≡ Form.Compact → IfOk result (HasStatedAnds graph.now nodes.now) }
    ensures depth { form ≡ Form.Shallow → IfOk result (HasStatedDepth graph.now nodes.now) }
    ensures budget { IfOk result (λ r. r.budget ≡ budget) }
    ensures few { IfOk result (λ r. length r.gates ≤ budget) }
    ensures limit { IfErr result (LimitOver (sum_by (size_at graph.now) nodes.now) budget) }
{
    let mut net = Net::new(alloc, input_count(graph, ins), budget);
    let mut places = IndexSet::new(alloc);
    let mut rows = Rows::new(alloc);
    add_inputs(alloc, graph, &mut places, &mut rows, ins)?;
    add_nodes(alloc, graph, form, &mut net, &mut places, &mut rows, nodes)?;
    let outputs = outputs_of(alloc, &places, &rows, outs)?;
    net.set_outs(outputs);
    Ok(net)
}

/// The circuit of `part`, a module of `graph`, in the form `form`: over the bits of the words of the nodes that it takes, those of the
/// words that it gives, lowest bits first, with at most `budget` gates. Each operation is made by its block, so gates fold and share, and some may
/// reach no output. Time grows with the numbers of the module's nodes and of the gates that are made.
///
/// # Errors
///
/// `GateLimit` with the budget, where a gate beyond it is wanted; `Memory`.
pub fn raw(
    alloc: Global,
    graph: &Graph,
    part: &Module,
    form: Form,
    budget: u32,
) -> Result<Net, GateFault>
    requires part { IsModuleOf graph.now part.now }
    requires limit { budget ≤ gate_limit }

    // The outputs, for all inputs that fit the graph.
    ensures computes { IfOk result (Computes graph.now part.now.ins part.now.outs) }
    ensures ins { IfOk result (λ r. r.ins ≡ sum_by (bits_at graph.now) part.now.ins) }

    // The gates: at most the module's size, and at most the stated numbers.
    ensures gates { IfOk result (λ r. length r.gates ≤ sum_by (size_at graph.now) part.now.nodes) }
    ensures ands { form ≡ Form.Compact → IfOk result (HasStatedAnds graph.now part.now.nodes) }
    ensures depth { form ≡ Form.Shallow → IfOk result (HasStatedDepth graph.now part.now.nodes) }

    // The limit comes only where the module's size is greater than the budget.
    ensures budget { IfOk result (λ r. r.budget ≡ budget) }
    ensures few { IfOk result (λ r. length r.gates ≤ budget) }
    ensures limit { IfErr result (LimitOver (sum_by (size_at graph.now) part.now.nodes) budget) }
{
    // For the proof: a graph's entries make a graph.
    let _entries = graph.entries();
    raw_part(
        alloc,
        graph,
        form,
        budget,
        part.nodes.as_slice(),
        part.ins.as_slice(),
        part.outs.as_slice(),
    )
}

/// The circuit that `raw` gives, made smaller by `rewrite`. `budget` counts the gates as they are first made.
///
/// # Errors
///
/// Those of `raw`.
pub fn lower(
    alloc: Global,
    graph: &Graph,
    part: &Module,
    form: Form,
    budget: u32,
) -> Result<Net, GateFault>
    requires part { IsModuleOf graph.now part.now }
    requires limit { budget ≤ gate_limit }

    // The outputs, for all inputs that fit the graph.
    ensures computes { IfOk result (Computes graph.now part.now.ins part.now.outs) }
    ensures ins { IfOk result (λ r. r.ins ≡ sum_by (bits_at graph.now) part.now.ins) }

    // The gates: reduced, at most the module's size, and at most the stated numbers.
    ensures reduced { IfOk result IsReduced }
    ensures gates { IfOk result (λ r. length r.gates ≤ sum_by (size_at graph.now) part.now.nodes) }
    ensures ands { form ≡ Form.Compact → IfOk result (HasStatedAnds graph.now part.now.nodes) }
    ensures depth { form ≡ Form.Shallow → IfOk result (HasStatedDepth graph.now part.now.nodes) }

    // The limit comes only where the module's size is greater than the budget.
    ensures budget { IfOk result (λ r. r.budget ≡ budget) }
    ensures few { IfOk result (λ r. length r.gates ≤ budget) }
    ensures limit { IfErr result (LimitOver (sum_by (size_at graph.now) part.now.nodes) budget) }
{
    let net = raw(alloc, graph, part, form, budget)?;
    rewrite(alloc, net, form)
}
