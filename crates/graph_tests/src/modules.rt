use hy_bits::{Op, Width};
use module_split::{Class, LAYER_LIMIT, Modules, Places, split};
use std::alloc::{AllocError, Global};
use std::process::Abort;
use std::test::Fail;
use word_graph::{Graph, GraphFault, Node};

/// An operation, its width, how many nodes it takes, their places, its number, and its region.
type Call = (Op, Width, usize, [u32; 3], u64, u32);

/// Adds the node of each call, which makes one.
fn grow(rt: &impl Abort, graph: &mut Graph, calls: &[Call]) -> Result<(), GraphFault> {
    for (op, width, count, args, number, region) in calls {
        let [a, b, c] = *args;
        let nodes = [Node { index: a }, Node { index: b }, Node { index: c }];
        assert!(rt; *count <= 3);
        let nodes = &nodes[..*count];
        assert!(rt; graph.takes(*op, *width, nodes, *number));
        let before = graph.entries().len();
        let node = graph.node(*op, *width, nodes, *number, *region)?;
        assert_eq!(rt; node.index as usize, before);
    }
    Ok(())
}

/// Places after a word.
fn add_places(
    alloc: Global,
    text: &mut String,
    word: &str,
    places: &Places,
) -> Result<(), AllocError> {
    text.push_str(word)?;
    for place in places.as_slice() {
        let piece = format!(in alloc; " {place}")?;
        text.push_str(&piece)?;
    }
    Ok(())
}

/// The modules and then the edges, as `R 0 5: 2, in 0 1, out 2; ` and `0 to 1: 2; `.
fn text_of(alloc: Global, modules: &Modules) -> Result<String, AllocError> {
    let mut text = String::new(alloc);
    for module in modules.list() {
        let class = match module.class {
            Class::Arithmetic => "R",
            Class::Boolean => "G",
        };
        let head = format!(in alloc; "{class} {} {}:", module.layer, module.region)?;
        add_places(alloc, &mut text, &head, &module.nodes)?;
        add_places(alloc, &mut text, ", in", &module.ins)?;
        add_places(alloc, &mut text, ", out", &module.outs)?;
        text.push_str("; ")?;
    }
    for edge in modules.edges() {
        let head = format!(in alloc; "{} to {}:", edge.from, edge.to)?;
        add_places(alloc, &mut text, &head, &edge.words)?;
        text.push_str("; ")?;
    }
    Ok(text)
}

/// The cut of the graph of these calls, as a text.
fn cut(
    rt: &impl Abort,
    alloc: Global,
    calls: &[Call],
    results: &[Node],
    layers: u32,
) -> Result<String, Fail> {
    let mut graph = Graph::new(alloc);
    grow(rt, &mut graph, calls)?;
    let count = graph.entries().len();
    assert!(rt; results.iter().all(|node| (node.index as usize) < count));
    assert!(rt; 0 < layers && layers <= LAYER_LIMIT);
    let modules = split(alloc, &graph, results, layers)?;
    Ok(text_of(alloc, &modules)?)
}

const WORD: Width = Width::W32;

/// A sum of two inputs, and a bitwise And of the sum and the first input.
const SUM_AND_MASK: [Call; 4] = [
    (Op::In, WORD, 0, [0; 3], 0, 0),
    (Op::In, WORD, 0, [0; 3], 1, 0),
    (Op::Add, WORD, 2, [0, 1, 0], 0, 3),
    (Op::And, WORD, 2, [2, 0, 0], 0, 3),
];

#[test]
fn a_change_of_class_begins_a_layer(rt: HostRuntime) -> Result<(), Fail> {
    let text = cut(&rt, rt.alloc(), &SUM_AND_MASK, &[Node { index: 3 }], 16)?;
    assert_eq!(rt;
        text.as_str(),
        "R 0 3: 2, in 0 1, out 2; G 1 3: 3, in 0 2, out 3; 0 to 1: 2; "
    );
    Ok(())
}

#[test]
fn one_layer_is_one_module(rt: HostRuntime) -> Result<(), Fail> {
    let text = cut(&rt, rt.alloc(), &SUM_AND_MASK, &[Node { index: 3 }], 1)?;
    assert_eq!(rt; text.as_str(), "G 0 3: 2 3, in 0 1, out 3; ");
    Ok(())
}

/// The low 8 bits and the low bit of an input of 32 bits.
const CUTS: [Call; 3] = [
    (Op::In, WORD, 0, [0; 3], 0, 0),
    (Op::Trunc, Width::W8, 1, [0; 3], 0, 1),
    (Op::Trunc, Width::W1, 1, [0; 3], 0, 1),
];

#[test]
fn a_cut_of_an_input_is_arithmetic_from_8_bits_on(rt: HostRuntime) -> Result<(), Fail> {
    let results = [Node { index: 1 }, Node { index: 2 }];
    let text = cut(&rt, rt.alloc(), &CUTS, &results, 16)?;
    assert_eq!(rt;
        text.as_str(),
        "R 0 1: 1, in 0, out 1; G 0 1: 2, in 0, out 2; "
    );
    Ok(())
}

/// x + 3 in one region, its square and the negative of that in another, and their sum in the first.
const REGIONS: [Call; 6] = [
    (Op::In, WORD, 0, [0; 3], 0, 0),
    (Op::Const, WORD, 0, [0; 3], 3, 0),
    (Op::Add, WORD, 2, [0, 1, 0], 0, 5),
    (Op::Mul, WORD, 2, [2, 2, 0], 0, 6),
    (Op::Neg, WORD, 1, [3, 0, 0], 0, 6),
    (Op::Add, WORD, 2, [4, 2, 0], 0, 5),
];

#[test]
fn a_change_of_region_begins_a_layer(rt: HostRuntime) -> Result<(), Fail> {
    let results = [Node { index: 5 }, Node { index: 0 }];
    let text = cut(&rt, rt.alloc(), &REGIONS, &results, 16)?;
    assert_eq!(rt;
        text.as_str(),
        "R 0 5: 2, in 0, out 2; R 1 6: 3 4, in 2, out 4; R 2 5: 5, in 2 4, out 5; 0 to 1: 2; 0 to 2: 2; 1 to 2: 4; "
    );
    Ok(())
}

#[test]
fn the_last_layer_is_one_module_of_all_regions(rt: HostRuntime) -> Result<(), Fail> {
    let results = [Node { index: 5 }, Node { index: 0 }];
    let text = cut(&rt, rt.alloc(), &REGIONS, &results, 2)?;
    assert_eq!(rt;
        text.as_str(),
        "R 0 5: 2, in 0, out 2; R 1 6: 3 4 5, in 2, out 5; 0 to 1: 2; "
    );
    Ok(())
}

/// A chain of so many nodes over one input, sums and bitwise operations by turns, in three regions.
fn chain(rt: &impl Abort, graph: &mut Graph, count: u32) -> Result<(), GraphFault> {
    grow(
        rt,
        graph,
        &[
            (Op::In, WORD, 0, [0; 3], 0, 0),
            (Op::Neg, WORD, 1, [0; 3], 0, 0),
        ],
    )?;
    for place in 1..count {
        assert!(rt; place < 1 << 20);
        let op = if place / 8 % 2 == 0 { Op::Add } else { Op::And };
        grow(
            rt,
            graph,
            &[(op, WORD, 2, [place, place - 1, 0], 0, place / 64 % 3)],
        )?;
    }
    Ok(())
}

#[test]
fn a_graph_of_many_nodes_is_cut_in_time(rt: HostRuntime) -> Result<(), Fail> {
    let mut graph = Graph::new(rt.alloc());
    chain(&rt, &mut graph, 100_000)?;
    assert_eq!(rt; graph.entries().len(), 100_001);
    let modules = split(rt.alloc(), &graph, &[Node { index: 100_000 }], 64)?;
    assert_eq!(rt; modules.list().len(), 64);
    assert_eq!(rt; modules.edges().len(), 63);
    Ok(())
}
