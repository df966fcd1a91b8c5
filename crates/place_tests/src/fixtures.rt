//! Pointers over inputs, and the values of nodes.
ghost use Rattle.std.specs.Prelude.{◌≡◌, ℕ, [], ◌∷◌, List, IfOk};
ghost use Rattle.hy_bits.specs.declared.op.Op;
ghost use Rattle.hy_bits.specs.declared.width.Width;
ghost use Rattle.word_graph.specs.Growth.{Grows};
ghost use Rattle.word_graph.specs.Term.{Takes};
ghost use Rattle.word_nodes.specs.Nodes.{Extends, Stands};
ghost use Rattle.c_place.specs.Aims.{IsPointer};
ghost use Rattle.place_tests.specs.Fixtures.{AreTruths, IsPointerTo};

use c_place::{Place, Target, Targets};
use hy_bits::{Inputs, Op, Width};
use std::alloc::Global;
use std::process::Abort;
use word_graph::{Graph, GraphFault, Node};
use word_nodes::constant;

/// The bits 0 and 1.
#[derive(Clone, Copy)]
pub struct Truths {
    pub no: Node,
    pub yes: Node,
}

/// The input of the number `number`.
pub fn input(graph: &mut Graph, width: Width, number: u64) -> Result<Node, GraphFault>
    ensures stands { IfOk result (Stands graph.new width) }
    ensures grows { Grows graph.old graph.new 1 0 }
{
    graph.node(Op::In, width, &[], number, 0)
}

/// The bits 0 and 1.
pub fn make_truths(graph: &mut Graph) -> Result<Truths, GraphFault>
    ensures truths { IfOk result (λ r. AreTruths graph.new r.no r.yes) }
    ensures extends { Extends 0 graph.old graph.new }
{
    let no = constant(graph, Width::W1, 0)?;
    let yes = constant(graph, Width::W1, 1)?;
    Ok(Truths { no, yes })
}

/// A pointer to the element `index` of a place, or a null pointer.
pub fn pointer(
    alloc: Global,
    graph: &Graph,
    truths: Truths,
    place: Option<Place>,
    index: Node,
) -> Result<Targets, GraphFault>
    requires truths { AreTruths graph.now truths.no truths.yes }
    requires index { Stands graph.now Width.W64 index }
    ensures pointer { IfOk result (IsPointer graph.now) }
    ensures list { IfOk result (IsPointerTo place truths.yes index) }
{
    let mut list = Vec::new(alloc);
    match place {
        None => Ok(Targets {
            null: truths.yes,
            list,
        }),
        Some(place) => {
            list.push(Target {
                guard: truths.yes,
                object: place.object,
                first: place.first,
                size: place.size,
                length: place.length,
                index,
            })?;
            Ok(Targets {
                null: truths.no,
                list,
            })
        }
    }
}

/// The value of a node where the inputs are these words.
pub fn value_of(
    rt: &impl Abort,
    alloc: Global,
    graph: &Graph,
    words: &[u64],
    node: Node,
) -> Result<u64, GraphFault> {
    let inputs = Inputs::new(Vec::from_slice(alloc, words)?);
    assert!(rt; graph.fits(&inputs));
    let mut values = vec![in alloc; 0; graph.entries().len()]?;
    graph.value(&inputs, &mut values);
    let place = node.index as usize;
    assert!(rt; place < values.len());
    Ok(values[place])
}
