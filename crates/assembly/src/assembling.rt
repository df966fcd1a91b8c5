//! Bundles of outlines.
ghost use Rattle.std.specs.Prelude.{◌<◌, ◌≤◌, IfErr, IfOk};
ghost use Rattle.word_graph.specs.Size.{graph_size};
ghost use Rattle.module_split.specs.Modules.{layer_limit};
ghost use Rattle.assembly.specs.Assembled.{IsAssembled};
ghost use Rattle.assembly.specs.Choosing.{IsGivenUp};
ghost use Rattle.assembly.specs.Outlines.{IsDraftOf, IsOutline, outline_of};
ghost use Rattle.module_circuits.specs.Sums.{IsOverLimit};

use crate::choosing::{Search, choose};
use crate::drafts::draft_of;
use crate::layers::fewer_layers;
use crate::outlines::Outline;
use bundle_core::{Bundle, Draft};
use module_circuits::AssemblyFault;
use std::alloc::Global;

/// The bundle of an outline with as many layers as can be searched, below those of a draft that can't.
fn assemble_fewer(alloc: Global, draft: Draft, asked: u32) -> Result<Bundle, AssemblyFault>
    requires outline { IsOutline (outline_of draft) }
    requires draft { IsDraftOf (outline_of draft) asked draft }
    requires beyond { IsGivenUp draft }
    requires few { asked ≤ layer_limit }
    ensures assembled { IfOk result (IsAssembled (outline_of draft) asked) }
    ensures limit { IfErr result (IsOverLimit (graph_size draft.graph)) }
{
    let outline = Outline::of(draft);
    let layers = fewer_layers(alloc, &outline.graph, outline.results.as_slice(), asked)?;
    match choose(alloc, draft_of(alloc, outline, layers)?)? {
        Search::Found(bundle) => Ok(bundle),
        // So few modules can always be searched.
        Search::GivenUp(_) => unreachable!(),
    }
}

/// The bundle of an outline: cut into at most `layers` layers, each module with its circuits, under the least assignment. Where the
/// search for that gives up, the layers are fewer, as `specs/Layers.antt` says. Time grows with the numbers of nodes and of gates, and with that of the prefixes that the search
/// makes.
///
/// # Errors
///
/// `GateLimit` with the limit of gates, where all compact circuits together, or all shallow ones, would pass it; `Memory`.
pub fn assemble(alloc: Global, outline: Outline, layers: u32) -> Result<Bundle, AssemblyFault>
    requires outline { IsOutline outline }
    requires some { 0 < layers }
    requires few { layers ≤ layer_limit }
    ensures assembled { IfOk result (IsAssembled outline layers) }

    // The limit comes only where the graph is large.
    ensures limit { IfErr result (IsOverLimit (graph_size outline.graph)) }
{
    let draft = draft_of(alloc, outline, layers)?;
    match choose(alloc, draft)? {
        Search::Found(bundle) => Ok(bundle),
        Search::GivenUp(draft) => assemble_fewer(alloc, draft, layers),
    }
}
