//! The circuits of a graph that is one module, run on words.
use gate_net::{Form, GATE_LIMIT, Net};
use hy_bits::Inputs;
use lower_bool::lower;
use module_split::split;
use std::alloc::Global;
use std::process::Abort;
use std::test::Fail;
use word_graph::{Graph, Node};

/// The low bits of the words that a graph's inputs have here.
const ROWS: [[u64; 3]; 12] = [
    [0, 0, 0],
    [1, 0, 1],
    [0, 1, u64::MAX],
    [1, u64::MAX, 5],
    [u64::MAX, 1, 0],
    [u64::MAX, u64::MAX, 1],
    [0x8080_8000_8000_0080, u64::MAX, 3],
    [7, 3, 2],
    [0x1234_5678_9abc_def0, 0x0fed_cba9_8765_4321, 0x5555],
    [0x0fed_cba9_8765_4321, 0x1234_5678_9abc_def0, 0xaaaa],
    [0xfff9, 2, 0xff],
    [0x5555_5555_5555_5555, 0x13, 9],
];

/// The words of the inputs of `graph`, cut to their widths.
fn inputs_of(alloc: Global, graph: &Graph, row: &[u64; 3]) -> Result<Inputs, Fail> {
    let mut words = Vec::new(alloc);
    for (entry, word) in graph.entries().iter().zip(row.iter()) {
        words.push(*word & (u64::MAX >> (64 - entry.width.bits())))?;
    }
    Ok(Inputs::new(words))
}

/// The bits of the words of nodes, lowest first.
fn bits_of_nodes(
    rt: &impl Abort,
    alloc: Global,
    graph: &Graph,
    values: &[u64],
    nodes: &[u32],
) -> Result<Vec<bool>, Fail> {
    let entries = graph.entries();
    let mut bits = Vec::new(alloc);
    for node in nodes {
        let place = *node as usize;
        assert!(rt; place < entries.len() && place < values.len());
        let mut rest = values[place];
        for _ in 0..entries[place].width.bits() {
            bits.push(rest % 2 == 1)?;
            rest /= 2;
        }
    }
    Ok(bits)
}

/// The bits of the outputs of a net.
fn outputs_of(rt: &impl Abort, alloc: Global, net: &Net, ins: &[bool]) -> Result<Vec<bool>, Fail> {
    assert_eq!(rt; ins.len(), net.ins() as usize);
    let mut variables = vec![in alloc; false; net.ins() as usize + net.gates().len()]?;
    net.value(ins, &mut variables);
    let mut bits = Vec::new(alloc);
    for out in net.outs() {
        let wire = out.code as usize / 2;
        assert!(rt; wire <= variables.len());
        let bit = wire > 0 && variables[wire - 1];
        bits.push(bit != out.is_complement())?;
    }
    Ok(bits)
}

/// Asserts it of one circuit on one row.
fn assert_row(
    rt: &impl Abort,
    alloc: Global,
    graph: &Graph,
    net: &Net,
    ins: &[u32],
    outs: &[u32],
    row: &[u64; 3],
) -> Result<(), Fail> {
    let inputs = inputs_of(alloc, graph, row)?;
    assert!(rt; graph.fits(&inputs));
    let mut values = vec![in alloc; 0; graph.entries().len()]?;
    graph.value(&inputs, &mut values);
    let words = bits_of_nodes(rt, alloc, graph, &values, ins)?;
    let wanted = bits_of_nodes(rt, alloc, graph, &values, outs)?;
    let made = outputs_of(rt, alloc, net, &words)?;
    assert!(rt; made.as_slice() == wanted.as_slice());
    Ok(())
}

/// Asserts it of one circuit on all rows.
fn assert_form(
    rt: &impl Abort,
    alloc: Global,
    graph: &Graph,
    node: Node,
    form: Form,
) -> Result<(), Fail> {
    assert!(rt; (node.index as usize) < graph.entries().len());
    let modules = split(alloc, graph, &[node], 1)?;
    let list = modules.list();
    assert_eq!(rt; list.len(), 1);
    let part = &list[0];
    let net = lower(alloc, graph, part, form, GATE_LIMIT)?;
    for row in ROWS {
        assert_row(
            rt,
            alloc,
            graph,
            &net,
            part.ins.as_slice(),
            part.outs.as_slice(),
            &row,
        )?;
    }
    Ok(())
}

/// Asserts that both circuits of a graph, which is one module with the result `node` and begins with its inputs, have the graph's values.
pub fn assert_computes(
    rt: &impl Abort,
    alloc: Global,
    graph: &Graph,
    node: Node,
) -> Result<(), Fail> {
    assert_form(rt, alloc, graph, node, Form::Compact)?;
    assert_form(rt, alloc, graph, node, Form::Shallow)
}
