//! Conversions of integers (C11 6.3.1), and truths.
ghost use Rattle.std.specs.Prelude.{◌≡◌, ℕ, List, ◌+◌, ◌≤◌, ◌<◌, ◌==◌, not, length, IfOk, IfErr, IfSome};
ghost use Rattle.hy_bits.specs.Bits.{bit};
ghost use Rattle.hy_bits.specs.Scalar.{scalar_width};
ghost use Rattle.hy_bits.specs.declared.width.Width;
ghost use Rattle.word_graph.specs.Meaning.{InputsFit};
ghost use Rattle.word_graph.specs.Size.{graph_size};
ghost use Rattle.word_nodes.specs.Nodes.{Stands, Extends, IsFull, IsOfOne, worth};
ghost use Rattle.c_meaning.specs.Operations as operations;
ghost use Rattle.exec_expressions.specs.Choices.{extension_op};

use crate::nodes::apply_one;
use hy_bits::{Op, Scalar, Width};
use word_graph::{Graph, GraphFault, Node};
use word_nodes::{complement, constant, equality, width_of};

/// A truth as a word of 32 bits.
///
/// # Errors
///
/// `NodeLimit` where the graph is full, and `Memory`. The graph is as before.
pub fn of_truth(graph: &mut Graph, truth: Node, region: u32) -> Result<Node, GraphFault>
    requires { Stands graph.old Width.W1 truth }
    ensures stands { IfOk result (Stands graph.new Width.W32) }
    ensures value { IfOk result (IsOfOne (λ x. x) graph.old graph.new truth) }
    ensures extends { Extends region graph.old graph.new }
    ensures nodes { length graph.new ≤ length graph.old + 1 }
    ensures gates { graph_size graph.new ≤ graph_size graph.old }
    ensures full { IfErr result (IsFull graph.new) }
{
    let _entries = graph.entries();
    apply_one(graph, Op::ZeroExt, Width::W32, truth, region)
}

/// The truth that `word` is an extension of, if it is one.
fn extended_truth(graph: &Graph, word: Node) -> Option<Node>
    requires { word.index < length graph.now }
    ensures stands { IfSome result (Stands graph.now Width.W1) }
    ensures value { IfSome result (λ t. (ins : List ℕ) → InputsFit graph.now ins → worth graph.now ins t ≡ worth graph.now ins word) }
{
    let entry = &graph.entries()[word.index as usize];
    match entry.op {
        Op::ZeroExt => {
            let truth = Node {
                index: entry.args[0],
            };
            match width_of(graph, truth) {
                Width::W1 => Some(truth),
                _ => None,
            }
        }
        _ => None,
    }
}

/// Whether `word`, of the width `width`, is unequal to 0.
///
/// # Errors
///
/// `NodeLimit` where the graph is full, and `Memory`. The graph may have more nodes.
pub fn truth(graph: &mut Graph, width: Width, word: Node, region: u32) -> Result<Node, GraphFault>
    requires { Stands graph.old width word }
    ensures stands { IfOk result (Stands graph.new Width.W1) }
    ensures value { IfOk result (IsOfOne (λ x. bit (not (x == 0))) graph.old graph.new word) }
    ensures extends { Extends region graph.old graph.new }
    ensures nodes { length graph.new ≤ length graph.old + 3 }
    ensures gates { graph_size graph.new ≤ graph_size graph.old + 260 }
    ensures full { IfErr result (IsFull graph.new) }
{
    let _entries = graph.entries();
    if width == Width::W1 {
        return Ok(word);
    }
    if let Some(truth) = extended_truth(graph, word) {
        return Ok(truth);
    }
    let zero = constant(graph, width, 0)?;
    let equal = equality(graph, width, word, zero, region)?;
    complement(graph, equal, region)
}

/// The operation that extends a word, by whether it is signed.
fn extension_op(signed: bool) -> Op
    ensures { result ≡ extension_op signed }
{
    if signed { Op::SignExt } else { Op::ZeroExt }
}

/// The word `word` of the type `from`, in the type `to`.
///
/// # Errors
///
/// `NodeLimit` where the graph is full, and `Memory`. The graph may have more nodes.
pub fn convert(
    graph: &mut Graph,
    from: Scalar,
    to: Scalar,
    word: Node,
    region: u32,
) -> Result<Node, GraphFault>
    requires { Stands graph.old (scalar_width from) word }
    ensures stands { IfOk result (Stands graph.new (scalar_width to)) }
    ensures value { IfOk result (IsOfOne (operations.converted_to from to) graph.old graph.new word) }
    ensures extends { Extends region graph.old graph.new }
    ensures nodes { length graph.new ≤ length graph.old + 3 }
    ensures gates { graph_size graph.new ≤ graph_size graph.old + 260 }
    ensures full { IfErr result (IsFull graph.new) }
{
    let _entries = graph.entries();
    if to == Scalar::B1 {
        return truth(graph, from.width(), word, region);
    }
    if from.width() == to.width() {
        return Ok(word);
    }
    if to.width().bits() < from.width().bits() {
        return apply_one(graph, Op::Trunc, to.width(), word, region);
    }
    let op = extension_op(from.signed());
    apply_one(graph, op, to.width(), word, region)
}
