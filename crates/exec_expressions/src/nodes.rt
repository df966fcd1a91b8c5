//! Nodes of operations on one word and on two.
ghost use Rattle.std.specs.Prelude.{◌≡◌, ◌≢◌, ℕ, List, [], ◌∷◌, ◌+◌, ◌≤◌, length, IfOk, IfErr};
ghost use Rattle.hy_bits.specs.declared.op.Op;
ghost use Rattle.hy_bits.specs.Op.{op_value};
ghost use Rattle.hy_bits.specs.Sizes.{operation_size};
ghost use Rattle.word_graph.specs.Meaning.{InputsFit};
ghost use Rattle.word_graph.specs.Size.{graph_size};
ghost use Rattle.word_graph.specs.Term.{Takes, arity, width_at};
ghost use Rattle.word_nodes.specs.Nodes.{Stands, Extends, IsFull, IsOfOne, IsOfTwo};

use hy_bits::{Op, Width};
use word_graph::{Graph, GraphFault, Node};

/// An operation on one word, with a result of the width `width`.
#[tactic(auto, using(word_nodes::proofs::NodeLaws::Extends_of, word_nodes::proofs::NodeLaws::IsFull_of))]
pub fn apply_one(
    graph: &mut Graph,
    op: Op,
    width: Width,
    a: Node,
    region: u32,
) -> Result<Node, GraphFault>
    requires takes { Takes graph.old op width (a ∷ []) 0 }
    requires one { arity op ≡ 1 }
    ensures stands { IfOk result (Stands graph.new width) }
    ensures value { IfOk result (IsOfOne (λ x. op_value op width (width_at graph.old a.index) x 0 0) graph.old graph.new a) }
    ensures extends { Extends region graph.old graph.new }
    ensures nodes { length graph.new ≤ length graph.old + 1 }
    ensures gates { graph_size graph.new ≤ graph_size graph.old + operation_size op width (width_at graph.old a.index) width }
    ensures full { IfErr result (IsFull graph.new) }
{
    let _entries = graph.entries();
    graph.node(op, width, &[a], 0, region)
}

/// An operation on two words, with a result of the width `width`.
#[tactic(auto, using(word_nodes::proofs::NodeLaws::Extends_of, word_nodes::proofs::NodeLaws::IsFull_of))]
pub fn apply_two(
    graph: &mut Graph,
    op: Op,
    width: Width,
    a: Node,
    b: Node,
    region: u32,
) -> Result<Node, GraphFault>
    requires takes { Takes graph.old op width (a ∷ b ∷ []) 0 }
    requires two { arity op ≡ 2 }
    ensures stands { IfOk result (Stands graph.new width) }
    ensures value { IfOk result (IsOfTwo (λ x y. op_value op width (width_at graph.old a.index) x y 0) graph.old graph.new a b) }
    ensures extends { Extends region graph.old graph.new }
    ensures nodes { length graph.new ≤ length graph.old + 1 }
    ensures gates { graph_size graph.new ≤ graph_size graph.old + operation_size op width (width_at graph.old a.index) (width_at graph.old b.index) }
    ensures full { IfErr result (IsFull graph.new) }
{
    let _entries = graph.entries();
    graph.node(op, width, &[a, b], 0, region)
}
