//! The draft of an outline.
ghost use Rattle.std.specs.Prelude.{◌≡◌, ◌<◌, ◌≤◌, IfErr, IfOk};
ghost use Rattle.word_graph.specs.Size.{graph_size};
ghost use Rattle.module_split.specs.Modules.{layer_limit};
ghost use Rattle.assembly.specs.Outlines.{IsDraftOf, IsOutline};
ghost use Rattle.module_circuits.specs.Sums.{IsOverLimit};

use crate::outlines::Outline;
use bundle_core::{Draft, Parts};
use hy_bits::Sequence;
use module_circuits::{AssemblyFault, variants_of};
use module_split::split;
use std::alloc::Global;

/// The outline cut into at most `layers` layers, with the circuits of its modules.
pub fn draft_of(alloc: Global, outline: Outline, layers: u32) -> Result<Draft, AssemblyFault>
    requires outline { IsOutline outline }
    requires some { 0 < layers }
    requires few { layers ≤ layer_limit }
    ensures draft { IfOk result (IsDraftOf outline layers) }
    ensures limit { IfErr result (IsOverLimit (graph_size outline.graph)) }
{
    // For the proof: a graph's entries make a graph.
    let _entries = outline.graph.entries();
    let modules = split(alloc, &outline.graph, outline.results.as_slice(), layers)?;
    let variants = variants_of(alloc, &outline.graph, modules.list())?;
    Ok(Draft::of(Parts {
        layers,
        ports: outline.ports,
        result: outline.result,
        regions: outline.regions,
        graph: outline.graph,
        results: outline.results,
        modules,
        variants: Sequence::new(variants),
        table: outline.table,
    }))
}
