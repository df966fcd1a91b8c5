//! The circuits of modules.
ghost use Rattle.std.specs.Prelude.{◌≡◌, ◌+◌, ◌≤◌, length, max, IfErr, IfOk};
ghost use Rattle.std.specs.List.{All, sum_by};
ghost use Rattle.module_split.specs.Modules.{IsModuleOf};
ghost use Rattle.gate_net.specs.Paths.{IsReduced};
ghost use Rattle.gate_net.specs.Shape.{gate_limit};
ghost use Rattle.bundle_core.specs.declared.parts.Variant.{Variant};
ghost use Rattle.gate_net.specs.declared.netlist.Form;
ghost use Rattle.bundle_core.specs.Meaning.{net_words};
ghost use Rattle.bundle_core.specs.Parts.{FitsBits, widths_at};
ghost use Rattle.bundle_core.specs.Stated.{HasStatedAnds, HasStatedDepth};
ghost use Rattle.bundle_laws.specs.Circuits.{Gives, IsCircuitsOf};
ghost use Rattle.module_circuits.specs.Sums.{AreCircuits, IsOverLimit, RingComputes, module_size};

use crate::faults::AssemblyFault;
use bundle_core::Variant;
use gate_net::{Form, GATE_LIMIT, GateFault, Net};
use hy_bits::Memory;
use lower_bool::lower;
use module_split::{Class, Module};
use ring_net::{RingNet, ring_of};
use std::alloc::Global;
use word_graph::Graph;

/// The ring circuit of a module of the arithmetic class; another has none.
fn ring_for(alloc: Global, graph: &Graph, part: &Module) -> Result<Option<RingNet>, Memory>
    requires { IsModuleOf graph.now part.now }
    ensures { IfOk result (RingComputes graph.now part.now) }
{
    // For the proof: a graph's entries make a graph.
    let _entries = graph.entries();
    match part.class {
        Class::Arithmetic => {
            let ring = ring_of(
                alloc,
                graph,
                part.nodes.as_slice(),
                part.ins.as_slice(),
                part.outs.as_slice(),
            )?;
            // For the proof: its parts make a ring circuit.
            let _gates = ring.gates();
            Ok(Some(ring))
        }
        Class::Boolean => Ok(None),
    }
}

/// The circuit of a module in the form `form`, where the circuits of that form before it have `used` gates.
fn net_for(
    alloc: Global,
    graph: &Graph,
    part: &Module,
    form: Form,
    used: u32,
) -> Result<Net, AssemblyFault>
    requires part { IsModuleOf graph.now part.now }
    requires used { used ≤ gate_limit }
    ensures valid { IfOk result (FitsBits (widths_at graph.now part.now.ins) (widths_at graph.now part.now.outs)) }
    ensures words { IfOk result (λ n. Gives graph.now part.now (net_words n (widths_at graph.now part.now.ins) (widths_at graph.now part.now.outs))) }
    ensures reduced { IfOk result IsReduced }
    ensures ands { form ≡ Form.Compact → IfOk result (HasStatedAnds graph.now part.now.nodes) }
    ensures depth { form ≡ Form.Shallow → IfOk result (HasStatedDepth graph.now part.now.nodes) }
    ensures size { IfOk result (λ n. length n.gates ≤ module_size graph.now part.now) }
    ensures room { IfOk result (λ n. used + length n.gates ≤ gate_limit) }
    ensures limit { IfErr result (IsOverLimit (used + module_size graph.now part.now)) }
{
    // For the proof: a graph's entries make a graph.
    let _entries = graph.entries();
    match lower(alloc, graph, part, form, GATE_LIMIT - used) {
        Ok(net) => {
            let net = net.with_budget(GATE_LIMIT);
            // For the proof: its parts make a circuit.
            let _gates = net.gates();
            Ok(net)
        }
        Err(GateFault::GateLimit(_)) => Err(AssemblyFault::GateLimit(GATE_LIMIT)),
        Err(GateFault::Memory) => Err(AssemblyFault::Memory),
    }
}

/// How many gates the circuits of each form have so far.
#[derive(Clone, Copy)]
struct Used {
    compact: u32,
    shallow: u32,
}

/// The circuits of a module, where those before it have `used` gates.
fn variant_of(
    alloc: Global,
    graph: &Graph,
    part: &Module,
    used: Used,
) -> Result<Variant, AssemblyFault>
    requires part { IsModuleOf graph.now part.now }
    requires compact { used.compact ≤ gate_limit }
    requires shallow { used.shallow ≤ gate_limit }
    ensures circuits { IfOk result (IsCircuitsOf graph.now part.now) }
    ensures compact_room { IfOk result (λ v. used.compact + length v.compact.gates ≤ gate_limit) }
    ensures shallow_room { IfOk result (λ v. used.shallow + length v.shallow.gates ≤ gate_limit) }
    ensures limit { IfErr result (IsOverLimit (max used.compact used.shallow + module_size graph.now part.now)) }
{
    Ok(Variant {
        ring: ring_for(alloc, graph, part)?,
        compact: net_for(alloc, graph, part, Form::Compact, used.compact)?,
        shallow: net_for(alloc, graph, part, Form::Shallow, used.shallow)?,
    })
}

/// The circuits of all modules, in order.
pub fn variants_of(
    alloc: Global,
    graph: &Graph,
    list: &[Module],
) -> Result<Vec<Variant>, AssemblyFault>
    requires { All (IsModuleOf graph.now) list.now }
    ensures circuits { IfOk result (λ vs. AreCircuits graph.now list.now vs.items) }
    ensures whole { IfOk result (λ vs. length vs.items ≡ length list.now) }
    ensures compact { IfOk result (λ vs. sum_by (λ (v : Variant). length v.compact.gates) vs.items ≤ gate_limit) }
    ensures shallow { IfOk result (λ vs. sum_by (λ (v : Variant). length v.shallow.gates) vs.items ≤ gate_limit) }
    ensures limit { IfErr result (IsOverLimit (sum_by (module_size graph.now) list.now)) }
{
    let mut variants = Vec::with_capacity(alloc, list.len())?;
    let mut used = Used {
        compact: 0,
        shallow: 0,
    };
    for part in list {
        let variant = variant_of(alloc, graph, part, used)?;
        used.compact += variant.compact.gates().len() as u32;
        used.shallow += variant.shallow.gates().len() as u32;
        variants.push(variant)?;
    }
    Ok(variants)
}
