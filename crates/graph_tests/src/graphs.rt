use hy_bits::{Inputs, Op, Width};
use std::alloc::Global;
use std::process::Abort;
use std::test::Fail;
use word_graph::{Graph, GraphFault, Node};

/// An operation, its width, how many nodes it takes, and their numbers.
type Call = (Op, Width, usize, [u32; 3]);

/// The number of the node of a call.
fn ask(rt: &impl Abort, graph: &mut Graph, call: Call, number: u64) -> Result<u32, GraphFault> {
    let (op, width, count, [a, b, c]) = call;
    let nodes = [Node { index: a }, Node { index: b }, Node { index: c }];
    assert!(rt; count <= 3);
    let nodes = &nodes[..count];
    assert!(rt; graph.takes(op, width, nodes, number));
    Ok(graph.node(op, width, nodes, number, 7)?.index)
}

/// Nodes 0 and 1 are inputs of 8 bits, 2 and 3 of one bit; 4 to 8 are the constants 0, 1, 255, 2 and 254 of 8 bits, 9
/// and 10 the bits 0 and 1; 11 is the complement of node 0.
fn base(rt: &impl Abort, alloc: Global) -> Result<Graph, GraphFault> {
    let leaves = [
        (Op::In, Width::W8, 0),
        (Op::In, Width::W8, 1),
        (Op::In, Width::W1, 2),
        (Op::In, Width::W1, 3),
        (Op::Const, Width::W8, 0),
        (Op::Const, Width::W8, 1),
        (Op::Const, Width::W8, 255),
        (Op::Const, Width::W8, 2),
        (Op::Const, Width::W8, 254),
        (Op::Const, Width::W1, 0),
        (Op::Const, Width::W1, 1),
    ];
    let mut graph = Graph::new(alloc);
    for (op, width, number) in leaves {
        ask(rt, &mut graph, (op, width, 0, [0; 3]), number)?;
    }
    ask(rt, &mut graph, (Op::Not, Width::W8, 1, [0; 3]), 0)?;
    assert_eq!(rt; graph.entries().len(), 12);
    Ok(graph)
}

/// Each call is answered by the node beside it, and makes none.
fn folds(rt: &impl Abort, graph: &mut Graph, rows: &[(Call, u32)]) -> Result<(), GraphFault> {
    let count = graph.entries().len();
    for (call, node) in rows {
        assert_eq!(rt; ask(rt, graph, *call, 0)?, *node, "{call:?}");
    }
    assert_eq!(rt; graph.entries().len(), count);
    Ok(())
}

/// Each call makes one node, and the same call again answers it.
fn makes(rt: &impl Abort, graph: &mut Graph, rows: &[Call]) -> Result<(), GraphFault> {
    for call in rows {
        let count = graph.entries().len();
        let node = ask(rt, graph, *call, 0)?;
        assert_eq!(rt; node as usize, count, "{call:?}");
        assert_eq!(rt; graph.entries().len(), count + 1);
        assert_eq!(rt; ask(rt, graph, *call, 0)?, node);
        assert_eq!(rt; graph.entries().len(), count + 1);
    }
    Ok(())
}

const BIT: Width = Width::W1;

const BYTE: Width = Width::W8;

/// Calls over the nodes of `base` that fold, and the nodes that they fold to.
const FOLDS: [(Call, u32); 48] = [
    ((Op::Add, BYTE, 2, [0, 4, 0]), 0),
    ((Op::Add, BYTE, 2, [4, 0, 0]), 0),
    ((Op::Sub, BYTE, 2, [0, 4, 0]), 0),
    ((Op::Sub, BYTE, 2, [0, 0, 0]), 4),
    ((Op::Mul, BYTE, 2, [0, 4, 0]), 4),
    ((Op::Mul, BYTE, 2, [4, 0, 0]), 4),
    ((Op::Mul, BYTE, 2, [0, 5, 0]), 0),
    ((Op::Mul, BYTE, 2, [5, 0, 0]), 0),
    ((Op::And, BYTE, 2, [0, 0, 0]), 0),
    ((Op::Or, BYTE, 2, [0, 0, 0]), 0),
    ((Op::Xor, BYTE, 2, [0, 0, 0]), 4),
    ((Op::And, BYTE, 2, [0, 4, 0]), 4),
    ((Op::And, BYTE, 2, [4, 0, 0]), 4),
    ((Op::And, BYTE, 2, [0, 6, 0]), 0),
    ((Op::And, BYTE, 2, [6, 0, 0]), 0),
    ((Op::Or, BYTE, 2, [0, 4, 0]), 0),
    ((Op::Or, BYTE, 2, [4, 0, 0]), 0),
    ((Op::Or, BYTE, 2, [0, 6, 0]), 6),
    ((Op::Or, BYTE, 2, [6, 0, 0]), 6),
    ((Op::Xor, BYTE, 2, [0, 4, 0]), 0),
    ((Op::Xor, BYTE, 2, [4, 0, 0]), 0),
    ((Op::Xor, BYTE, 2, [0, 6, 0]), 11),
    ((Op::Xor, BYTE, 2, [6, 0, 0]), 11),
    ((Op::Not, BYTE, 1, [11, 0, 0]), 0),
    ((Op::Xor, BYTE, 2, [11, 6, 0]), 0),
    ((Op::Eq, BIT, 2, [0, 0, 0]), 10),
    ((Op::LtU, BIT, 2, [0, 0, 0]), 9),
    ((Op::LtS, BIT, 2, [0, 0, 0]), 9),
    ((Op::Shl, BYTE, 2, [0, 4, 0]), 0),
    ((Op::ShrU, BYTE, 2, [0, 4, 0]), 0),
    ((Op::ShrS, BYTE, 2, [0, 4, 0]), 0),
    ((Op::Shl, BYTE, 2, [0, 9, 0]), 0),
    ((Op::Sel, BYTE, 3, [10, 0, 1]), 0),
    ((Op::Sel, BYTE, 3, [9, 0, 1]), 1),
    ((Op::Sel, BYTE, 3, [2, 0, 0]), 0),
    ((Op::Sel, BIT, 3, [2, 10, 9]), 2),
    ((Op::Add, BYTE, 2, [5, 5, 0]), 7),
    ((Op::Sub, BYTE, 2, [4, 5, 0]), 6),
    ((Op::Neg, BYTE, 1, [7, 0, 0]), 8),
    ((Op::Not, BYTE, 1, [5, 0, 0]), 8),
    ((Op::LtU, BIT, 2, [4, 5, 0]), 10),
    ((Op::LtS, BIT, 2, [6, 4, 0]), 10),
    ((Op::DivU, BYTE, 2, [5, 4, 0]), 6),
    ((Op::DivS, BYTE, 2, [8, 6, 0]), 7),
    ((Op::Trunc, BIT, 1, [6, 0, 0]), 10),
    ((Op::SignExt, BYTE, 1, [10, 0, 0]), 6),
    ((Op::ZeroExt, BYTE, 1, [10, 0, 0]), 5),
    ((Op::Sel, BYTE, 3, [10, 5, 7]), 5),
];

/// Calls over the nodes of `base` that do not fold.
const MISSES: [Call; 33] = [
    (Op::Add, BYTE, 2, [0, 5, 0]),
    (Op::Add, BYTE, 2, [0, 1, 0]),
    (Op::Add, BYTE, 2, [1, 0, 0]),
    (Op::Sub, BYTE, 2, [4, 0, 0]),
    (Op::Sub, BYTE, 2, [0, 1, 0]),
    (Op::Sub, BYTE, 2, [0, 5, 0]),
    (Op::Mul, BYTE, 2, [0, 7, 0]),
    (Op::Mul, BYTE, 2, [0, 0, 0]),
    (Op::And, BYTE, 2, [0, 1, 0]),
    (Op::And, BYTE, 2, [0, 8, 0]),
    (Op::Or, BYTE, 2, [0, 5, 0]),
    (Op::Or, BYTE, 2, [0, 8, 0]),
    (Op::Xor, BYTE, 2, [0, 8, 0]),
    (Op::Xor, BYTE, 2, [0, 1, 0]),
    (Op::Not, BYTE, 1, [1, 0, 0]),
    (Op::Not, BIT, 1, [2, 0, 0]),
    (Op::Eq, BIT, 2, [0, 1, 0]),
    (Op::LtU, BIT, 2, [4, 0, 0]),
    (Op::LtS, BIT, 2, [1, 0, 0]),
    (Op::Shl, BYTE, 2, [0, 5, 0]),
    (Op::ShrU, BYTE, 2, [4, 0, 0]),
    (Op::ShrS, BYTE, 2, [0, 6, 0]),
    (Op::Sel, BYTE, 3, [2, 0, 1]),
    (Op::Sel, BIT, 3, [2, 9, 10]),
    (Op::Sel, BIT, 3, [2, 10, 3]),
    (Op::Sel, BYTE, 3, [2, 5, 4]),
    (Op::Neg, BYTE, 1, [0, 0, 0]),
    (Op::DivU, BYTE, 2, [0, 0, 0]),
    (Op::DivS, BYTE, 2, [0, 5, 0]),
    (Op::RemU, BYTE, 2, [0, 0, 0]),
    (Op::RemS, BYTE, 2, [0, 5, 0]),
    (Op::Trunc, BIT, 1, [0, 0, 0]),
    (Op::SignExt, BYTE, 1, [2, 0, 0]),
];

#[test]
fn nodes_fold(rt: HostRuntime) -> Result<(), Fail> {
    let mut graph = base(&rt, rt.alloc())?;
    folds(&rt, &mut graph, &FOLDS)?;
    Ok(())
}

#[test]
fn near_misses_of_folds_make_nodes(rt: HostRuntime) -> Result<(), Fail> {
    let mut graph = base(&rt, rt.alloc())?;
    makes(&rt, &mut graph, &MISSES)?;
    Ok(())
}

/// Calls over the nodes of `base`: the sum, the difference of the second and the first, the product, whether the first is less by the
/// signed reading, and what that bit chooses.
const CALLS: [Call; 5] = [
    (Op::Add, BYTE, 2, [0, 1, 0]),
    (Op::Sub, BYTE, 2, [1, 0, 0]),
    (Op::Mul, BYTE, 2, [0, 1, 0]),
    (Op::LtS, BIT, 2, [0, 1, 0]),
    (Op::Sel, BYTE, 3, [15, 1, 0]),
];

/// The values of those calls where the two numbers are 200 and 100.
const VALUES: [u64; 5] = [44, 156, 32, 1, 100];

/// The graph of `base` with the nodes of those calls.
fn grown(rt: &impl Abort, alloc: Global) -> Result<Graph, GraphFault> {
    let mut graph = base(rt, alloc)?;
    for call in CALLS {
        ask(rt, &mut graph, call, 0)?;
    }
    Ok(graph)
}

/// The values of all nodes, where the graph takes these inputs; else none.
fn values_of(alloc: Global, graph: &Graph, words: Vec<u64>) -> Result<Vec<u64>, GraphFault> {
    let inputs = Inputs::new(words);
    if !graph.fits(&inputs) {
        return Ok(Vec::new(alloc));
    }
    let mut values = vec![in alloc; 0; graph.entries().len()]?;
    graph.value(&inputs, &mut values);
    Ok(values)
}

#[test]
fn a_graph_has_its_values(rt: HostRuntime) -> Result<(), Fail> {
    let graph = grown(&rt, rt.alloc())?;
    let words = [200, 100, 1, 0].to_vec(rt.alloc())?;
    let values = values_of(rt.alloc(), &graph, words)?;
    assert_eq!(rt; values.len(), 17);
    assert_eq!(rt; &values[12..], VALUES.as_slice());
    Ok(())
}

#[test]
fn inputs_that_do_not_fit_are_told(rt: HostRuntime) -> Result<(), Fail> {
    let graph = base(&rt, rt.alloc())?;
    let wide = [256, 100, 1, 0].to_vec(rt.alloc())?;
    assert!(rt; !graph.fits(&Inputs::new(wide)));
    let few = [200, 100, 1].to_vec(rt.alloc())?;
    assert!(rt; !graph.fits(&Inputs::new(few)));
    Ok(())
}

/// The graph of the entries of another.
fn again(alloc: Global, graph: &Graph) -> Result<Graph, GraphFault> {
    let entries = graph.entries().to_vec(alloc)?;
    Graph::of(alloc, entries)
}

#[test]
fn a_graph_is_made_again_of_its_entries(rt: HostRuntime) -> Result<(), Fail> {
    let graph = base(&rt, rt.alloc())?;
    let again = again(rt.alloc(), &graph)?;
    assert!(rt; again.entries() == graph.entries());
    let constants = [6, 11].map(|index| again.constant_of(Node { index }));
    assert_eq!(rt; constants, [Some(255), None]);
    Ok(())
}

/// A graph with as many inputs of one bit as it may have nodes.
fn full(rt: &impl Abort, alloc: Global) -> Result<Graph, GraphFault> {
    let mut graph = Graph::new(alloc);
    for number in 0..1 << 20 {
        ask(rt, &mut graph, (Op::In, BIT, 0, [0; 3]), number)?;
    }
    Ok(graph)
}

#[test]
fn the_limit_comes_where_a_new_node_is_wanted(rt: HostRuntime) -> Result<(), Fail> {
    let mut graph = full(&rt, rt.alloc())?;
    let rows = [
        ((Op::In, BIT, 0, [0; 3]), 77, Ok(77)),
        (
            (Op::In, BIT, 0, [0; 3]),
            1 << 20,
            Err(GraphFault::NodeLimit(1 << 20)),
        ),
        ((Op::And, BIT, 2, [5, 5, 0]), 0, Ok(5)),
    ];
    for (call, number, wanted) in rows {
        assert_eq!(rt; ask(&rt, &mut graph, call, number), wanted);
    }
    assert_eq!(rt; graph.entries().len(), 1 << 20);
    Ok(())
}
