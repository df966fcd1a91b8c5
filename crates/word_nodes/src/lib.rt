//! Nodes of a graph of words, made one at a time by what they mean.
//!
//! # Guarantees
//!
//! Each call gives a node that stands, has the value of its operation for all inputs that fit, and makes at most one node, of the region
//! given, whose circuit is within the size stated; it ends at the limit only where the graph is full (`src/lib.rt`; read
//! `specs/Nodes.antt`).
//!
//! - `constant`: a word. `conjunction`, `disjunction`, `complement`: truths, which are one bit wide.
//! - `equality`: whether two words are equal. `selection`: one of two words, by a truth.
//! - `sum`, `difference`, `product`: of words of 64 bits, modulo 2^64.
//! - `width_of`: the width of a node.
//!
//! Laws that the crates above can import: `proofs/NodeLaws.antt`, on growth and on what nodes and lists of nodes keep under it.
#![tactic(auto)]

ghost use Rattle.std.specs.Prelude.{◌≡◌, ℕ, List, ◌+◌, ◌*◌, ◌-◌, ◌%◌, ◌^◌, ◌≤◌, ◌<◌, ◌==◌, length, if◌then◌else◌, IfOk, IfErr};
ghost use Rattle.hy_bits.specs.Bits.{bit};
ghost use Rattle.hy_bits.specs.Words.{bits, modulus};
ghost use Rattle.word_graph.specs.Meaning.{InputsFit};
ghost use Rattle.word_graph.specs.Size.{graph_size};
ghost use Rattle.word_graph.specs.Term.{width_at};
ghost use Rattle.word_nodes.specs.Nodes.{Stands, Extends, IsFull, IsOfOne, IsOfTwo, IsOfThree, worth};

use hy_bits::{Op, Width};
use word_graph::{Graph, GraphFault, Node};

/// The width of the node `n`.
pub fn width_of(graph: &Graph, n: Node) -> Width
    requires { n.index < length graph.now }
    ensures { Stands graph.now result n }
{
    graph.entries()[n.index as usize].width
}

/// The constant `word` of the width `width`.
///
/// # Errors
///
/// `NodeLimit` where the graph is full, and `Memory`. The graph is as before.
#[tactic(auto, using(crate::proofs::NodeLaws::Extends_of, crate::proofs::NodeLaws::IsFull_of))]
pub fn constant(graph: &mut Graph, width: Width, word: u64) -> Result<Node, GraphFault>
    requires { word < modulus width }
    ensures stands { IfOk result (Stands graph.new width) }
    ensures value { IfOk result (λ n. (ins : List ℕ) → InputsFit graph.old ins → worth graph.new ins n ≡ word) }
    ensures extends { (region : ℕ) → Extends region graph.old graph.new }
    ensures nodes { length graph.new ≤ length graph.old + 1 }
    ensures gates { graph_size graph.new ≤ graph_size graph.old }
    ensures full { IfErr result (IsFull graph.new) }
{
    graph.node(Op::Const, width, &[], word, 0)
}

/// Whether both `a` and `b` hold.
///
/// # Errors
///
/// `NodeLimit` where the graph is full, and `Memory`. The graph is as before.
#[tactic(auto, using(crate::proofs::NodeLaws::Extends_of, crate::proofs::NodeLaws::IsFull_of))]
pub fn conjunction(graph: &mut Graph, a: Node, b: Node, region: u32) -> Result<Node, GraphFault>
    requires first { Stands graph.old Width.W1 a }
    requires second { Stands graph.old Width.W1 b }
    ensures stands { IfOk result (Stands graph.new Width.W1) }
    ensures value { IfOk result (IsOfTwo (λ x y. x * y) graph.old graph.new a b) }
    ensures extends { Extends region graph.old graph.new }
    ensures nodes { length graph.new ≤ length graph.old + 1 }
    ensures gates { graph_size graph.new ≤ graph_size graph.old + 4 }
    ensures full { IfErr result (IsFull graph.new) }
{
    graph.node(Op::And, Width::W1, &[a, b], 0, region)
}

/// Whether `a` or `b` holds, or both do.
///
/// # Errors
///
/// `NodeLimit` where the graph is full, and `Memory`. The graph is as before.
#[tactic(auto, using(crate::proofs::NodeLaws::Extends_of, crate::proofs::NodeLaws::IsFull_of))]
pub fn disjunction(graph: &mut Graph, a: Node, b: Node, region: u32) -> Result<Node, GraphFault>
    requires first { Stands graph.old Width.W1 a }
    requires second { Stands graph.old Width.W1 b }
    ensures stands { IfOk result (Stands graph.new Width.W1) }
    ensures value { IfOk result (IsOfTwo (λ x y. x + y - x * y) graph.old graph.new a b) }
    ensures extends { Extends region graph.old graph.new }
    ensures nodes { length graph.new ≤ length graph.old + 1 }
    ensures gates { graph_size graph.new ≤ graph_size graph.old + 4 }
    ensures full { IfErr result (IsFull graph.new) }
{
    graph.node(Op::Or, Width::W1, &[a, b], 0, region)
}

/// Whether `a` doesn't hold.
///
/// # Errors
///
/// `NodeLimit` where the graph is full, and `Memory`. The graph is as before.
#[tactic(auto, using(crate::proofs::NodeLaws::Extends_of, crate::proofs::NodeLaws::IsFull_of))]
pub fn complement(graph: &mut Graph, a: Node, region: u32) -> Result<Node, GraphFault>
    requires { Stands graph.old Width.W1 a }
    ensures stands { IfOk result (Stands graph.new Width.W1) }
    ensures value { IfOk result (IsOfOne (λ x. 1 - x) graph.old graph.new a) }
    ensures extends { Extends region graph.old graph.new }
    ensures nodes { length graph.new ≤ length graph.old + 1 }
    ensures gates { graph_size graph.new ≤ graph_size graph.old + 4 }
    ensures full { IfErr result (IsFull graph.new) }
{
    graph.node(Op::Not, Width::W1, &[a], 0, region)
}

/// Whether the words `a` and `b`, both of the width `width`, are equal.
///
/// # Errors
///
/// `NodeLimit` where the graph is full, and `Memory`. The graph is as before.
#[tactic(auto, using(crate::proofs::NodeLaws::Extends_of, crate::proofs::NodeLaws::IsFull_of))]
pub fn equality(
    graph: &mut Graph,
    width: Width,
    a: Node,
    b: Node,
    region: u32,
) -> Result<Node, GraphFault>
    requires first { Stands graph.old width a }
    requires second { Stands graph.old width b }
    ensures stands { IfOk result (Stands graph.new Width.W1) }
    ensures value { IfOk result (IsOfTwo (λ x y. bit (x == y)) graph.old graph.new a b) }
    ensures extends { Extends region graph.old graph.new }
    ensures nodes { length graph.new ≤ length graph.old + 1 }
    ensures gates { graph_size graph.new ≤ graph_size graph.old + 4 * bits width }
    ensures full { IfErr result (IsFull graph.new) }
{
    graph.node(Op::Eq, Width::W1, &[a, b], 0, region)
}

/// The word `a` where `c` holds, and else the word `b`; both have the width `width`.
///
/// # Errors
///
/// `NodeLimit` where the graph is full, and `Memory`. The graph is as before.
#[tactic(auto, using(crate::proofs::NodeLaws::Extends_of, crate::proofs::NodeLaws::IsFull_of))]
pub fn selection(
    graph: &mut Graph,
    width: Width,
    c: Node,
    a: Node,
    b: Node,
    region: u32,
) -> Result<Node, GraphFault>
    requires condition { Stands graph.old Width.W1 c }
    requires first { Stands graph.old width a }
    requires second { Stands graph.old width b }
    ensures stands { IfOk result (Stands graph.new width) }
    ensures value { IfOk result (IsOfThree (λ z x y. if z == 1 then x else y) graph.old graph.new c a b) }
    ensures extends { Extends region graph.old graph.new }
    ensures nodes { length graph.new ≤ length graph.old + 1 }
    ensures gates { graph_size graph.new ≤ graph_size graph.old + 4 * bits width }
    ensures full { IfErr result (IsFull graph.new) }
{
    graph.node(Op::Sel, width, &[c, a, b], 0, region)
}

/// The sum of words of 64 bits.
///
/// # Errors
///
/// `NodeLimit` where the graph is full, and `Memory`. The graph is as before.
#[tactic(auto, using(crate::proofs::NodeLaws::Extends_of, crate::proofs::NodeLaws::IsFull_of))]
pub fn sum(graph: &mut Graph, a: Node, b: Node, region: u32) -> Result<Node, GraphFault>
    requires first { Stands graph.old Width.W64 a }
    requires second { Stands graph.old Width.W64 b }
    ensures stands { IfOk result (Stands graph.new Width.W64) }
    ensures value { IfOk result (IsOfTwo (λ x y. (x + y) % 2 ^ 64) graph.old graph.new a b) }
    ensures extends { Extends region graph.old graph.new }
    ensures nodes { length graph.new ≤ length graph.old + 1 }
    ensures gates { graph_size graph.new ≤ graph_size graph.old + 3584 }
    ensures full { IfErr result (IsFull graph.new) }
{
    graph.node(Op::Add, Width::W64, &[a, b], 0, region)
}

/// The difference of words of 64 bits.
///
/// # Errors
///
/// `NodeLimit` where the graph is full, and `Memory`. The graph is as before.
#[tactic(auto, using(crate::proofs::NodeLaws::Extends_of, crate::proofs::NodeLaws::IsFull_of))]
pub fn difference(graph: &mut Graph, a: Node, b: Node, region: u32) -> Result<Node, GraphFault>
    requires first { Stands graph.old Width.W64 a }
    requires second { Stands graph.old Width.W64 b }
    ensures stands { IfOk result (Stands graph.new Width.W64) }
    ensures value { IfOk result (IsOfTwo (λ x y. (x + (2 ^ 64 - y)) % 2 ^ 64) graph.old graph.new a b) }
    ensures extends { Extends region graph.old graph.new }
    ensures nodes { length graph.new ≤ length graph.old + 1 }
    ensures gates { graph_size graph.new ≤ graph_size graph.old + 3584 }
    ensures full { IfErr result (IsFull graph.new) }
{
    graph.node(Op::Sub, Width::W64, &[a, b], 0, region)
}

/// The product of words of 64 bits.
///
/// # Errors
///
/// `NodeLimit` where the graph is full, and `Memory`. The graph is as before.
#[tactic(auto, using(crate::proofs::NodeLaws::Extends_of, crate::proofs::NodeLaws::IsFull_of))]
pub fn product(graph: &mut Graph, a: Node, b: Node, region: u32) -> Result<Node, GraphFault>
    requires first { Stands graph.old Width.W64 a }
    requires second { Stands graph.old Width.W64 b }
    ensures stands { IfOk result (Stands graph.new Width.W64) }
    ensures value { IfOk result (IsOfTwo (λ x y. (x * y) % 2 ^ 64) graph.old graph.new a b) }
    ensures extends { Extends region graph.old graph.new }
    ensures nodes { length graph.new ≤ length graph.old + 1 }
    ensures gates { graph_size graph.new ≤ graph_size graph.old + 36352 }
    ensures full { IfErr result (IsFull graph.new) }
{
    graph.node(Op::Mul, Width::W64, &[a, b], 0, region)
}
