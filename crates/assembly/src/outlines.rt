//! What a bundle is assembled from.
ghost use Rattle.std.specs.Prelude.{◌≡◌};
ghost use Rattle.bundle_core.specs.Parts.{IsDraft};
ghost use Rattle.assembly.specs.Outlines.{outline_of};

use bundle_core::Draft;
use choice_core::Table;
use hy_bits::{Port, Sequence, Shape, Text};
use word_graph::{Graph, Node};

/// A program as a graph of words: the ports of its inputs, the shape of its result, the names of its regions, and the costs by which its
/// circuits are chosen. `results` are the bound word's node and those of the result's leaves.
#[derive(Drop)]
pub struct Outline {
    pub ports: Sequence<Port>,
    pub result: Shape,
    pub regions: Sequence<Text>,
    pub graph: Graph,
    pub results: Sequence<Node>,
    pub table: Table,
}

impl Outline {
    /// The outline of a draft, whose modules and circuits are given up.
    pub fn of(draft: Draft) -> Outline
        ensures { result ≡ outline_of draft }
    {
        let parts = draft.into_parts();
        Outline {
            ports: parts.ports,
            result: parts.result,
            regions: parts.regions,
            graph: parts.graph,
            results: parts.results,
            table: parts.table,
        }
    }
}
