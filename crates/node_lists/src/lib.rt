//! Lists of nodes that a graph of words begins with: inputs and constants.
//!
//! # Guarantees
//!
//! Each call gives nodes that stand, has their values for all inputs that fit, and makes at most one node for each width, whose circuits take
//! no gates; it ends at the limit only where the graph is full (`src/lib.rt`; read `specs/Lists.antt`; of word_nodes `Nodes.antt`).
//!
//! - `input`, `inputs`: words of the inputs, by their numbers from 0 on. Inputs fit the new graph where they fit the old one and have these words.
//! - `constants`: words that are known.
#![tactic(auto)]

ghost use Rattle.std.specs.Prelude.{◌≡◌, ◌≤◌, ◌<◌, ◌+◌, ℕ, List, length, take, get_or, IfOk, IfErr, OnOk};
ghost use Rattle.hy_bits.specs.Words.{IsWord};
ghost use Rattle.word_graph.specs.Growth.{Grows};
ghost use Rattle.word_graph.specs.Meaning.{InputsFit};
ghost use Rattle.word_graph.specs.Size.{graph_size};
ghost use Rattle.word_nodes.specs.Nodes.{AllStand, Extends, IsFull, Stands, worths};
ghost use Rattle.node_lists.specs.Lists.{AreWords, HasWords, IsInput};

use hy_bits::{Op, Width};
use std::alloc::Global;
use word_graph::{Graph, GraphFault, Node};
use word_nodes::constant;

/// The input of the number `number`, of the width `width`.
///
/// # Errors
///
/// `NodeLimit` where the graph is full, and `Memory`. The graph is as before.
#[tactic(auto, using(crate::proofs::InputLaws::full, crate::proofs::InputLaws::still_fit))]
pub fn input(graph: &mut Graph, width: Width, number: u64) -> Result<Node, GraphFault>
    ensures stands { IfOk result (Stands graph.new width) }
    ensures value { IfOk result (IsInput graph.new number) }
    ensures fit { OnOk result ((ins : List ℕ) → InputsFit graph.old ins → number < length ins → IsWord width (get_or ins number 0) → InputsFit graph.new ins) }
    ensures grows { Grows graph.old graph.new 1 0 }
    ensures full { IfErr result (IsFull graph.new) }
{
    graph.node(Op::In, width, &[], number, 0)
}

/// The inputs of the widths `widths`, numbered from 0 on. It takes time linear in them.
///
/// # Errors
///
/// `NodeLimit` where the graph is full, and `Memory`. The graph may have more nodes.
pub fn inputs(alloc: Global, graph: &mut Graph, widths: &[Width]) -> Result<Vec<Node>, GraphFault>
    ensures stands { IfOk result (λ r. AllStand graph.new widths.now r.items) }
    ensures value { IfOk result (λ r. (ins : List ℕ) → InputsFit graph.new ins → worths graph.new ins r.items ≡ take (length widths.now) ins) }
    ensures there { OnOk result ((ins : List ℕ) → InputsFit graph.new ins → length widths.now ≤ length ins) }
    ensures fit { OnOk result ((ins : List ℕ) → InputsFit graph.old ins → HasWords widths.now ins → InputsFit graph.new ins) }
    ensures grows { Grows graph.old graph.new (length widths.now) 0 }
    ensures full { IfErr result (IsFull graph.new) }
{
    let mut nodes = Vec::with_capacity(alloc, widths.len())?;
    for (number, width) in widths.iter().enumerate() {
        nodes.push(input(graph, *width, number as u64)?)?;
    }
    Ok(nodes)
}

/// The constants `words`, of the widths `widths`. It takes time linear in them.
///
/// # Errors
///
/// `NodeLimit` where the graph is full, and `Memory`. The graph may have more nodes.
pub fn constants(
    alloc: Global,
    graph: &mut Graph,
    widths: &[Width],
    words: &[u64],
) -> Result<Vec<Node>, GraphFault>
    requires { AreWords widths.now words.now }
    ensures stands { IfOk result (λ r. AllStand graph.new widths.now r.items) }
    ensures value { IfOk result (λ r. (ins : List ℕ) → InputsFit graph.old ins → worths graph.new ins r.items ≡ words.now) }
    ensures extends { (region : ℕ) → Extends region graph.old graph.new }
    ensures nodes { length graph.new ≤ length graph.old + length widths.now }
    ensures gates { graph_size graph.new ≤ graph_size graph.old }
    ensures full { IfErr result (IsFull graph.new) }
{
    let mut nodes = Vec::with_capacity(alloc, widths.len())?;
    for (place, width) in widths.iter().enumerate() {
        nodes.push(constant(graph, *width, words[place])?)?;
    }
    Ok(nodes)
}
