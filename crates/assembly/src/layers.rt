//! Fewer layers than were asked for.
ghost use Rattle.std.specs.Prelude.{◌≡◌, ◌<◌, ◌≤◌, ℕ, length, IfOk};
ghost use Rattle.std.specs.List.{All};
ghost use Rattle.word_graph.specs.declared.entry.Node.{Node};
ghost use Rattle.module_split.specs.Cut.{cut_of};
ghost use Rattle.module_split.specs.Modules.{layer_limit};
ghost use Rattle.assembly.specs.Layers.{few_modules};

use hy_bits::Memory;
use module_split::split;
use std::alloc::Global;
use word_graph::{Graph, Node};

/// The most modules that always can be searched.
const FEW_MODULES: usize = 9;

/// The greatest number of layers below `asked` whose cut has at most nine modules.
pub fn fewer_layers(
    alloc: Global,
    graph: &Graph,
    results: &[Node],
    asked: u32,
) -> Result<u32, Memory>
    requires stand { All (λ (node : Node). node.index < length graph.now) results.now }
    requires some { 1 < asked }
    requires few { asked ≤ layer_limit }
    ensures some { IfOk result (λ k. 0 < k) }
    ensures fewer { IfOk result (λ k. k < asked) }
    ensures few { IfOk result (λ k. length (cut_of graph.now results.now k).list ≤ few_modules) }
    ensures greatest { IfOk result (λ k. (j : ℕ) → k < j → j < asked → few_modules < length (cut_of graph.now results.now j).list) }
{
    for back in 1..asked {
        let layers = asked - back;
        let modules = split(alloc, graph, results, layers)?;
        if modules.list().len() <= FEW_MODULES {
            return Ok(layers);
        }
    }
    // One layer has one module at most.
    unreachable!()
}
