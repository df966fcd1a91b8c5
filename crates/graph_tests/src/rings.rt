use hy_bits::{Memory, Op, Width};
use module_split::{Class, split};
use ring_net::{RingArg, RingGate, RingNet, ring_of};
use std::alloc::Global;
use std::process::Abort;
use std::test::Fail;
use word_graph::{Entry, Graph, GraphFault, Node};

const WORD: Width = Width::W32;

/// x - y, its product with x, three times that, the negative of that, and the low 8 bits of the negative.
const GATES: [RingGate; 5] = [
    RingGate {
        op: Op::Sub,
        width: WORD,
        args: [RingArg::Var(0), RingArg::Var(1)],
    },
    RingGate {
        op: Op::Mul,
        width: WORD,
        args: [RingArg::Var(2), RingArg::Var(0)],
    },
    RingGate {
        op: Op::Mul,
        width: WORD,
        args: [RingArg::Var(3), RingArg::Number(3)],
    },
    RingGate {
        op: Op::Neg,
        width: WORD,
        args: [RingArg::Var(4), RingArg::Number(0)],
    },
    RingGate {
        op: Op::Trunc,
        width: Width::W8,
        args: [RingArg::Var(5), RingArg::Number(0)],
    },
];

/// The circuit of those gates over two words, whose outputs are the last two variables.
fn base(alloc: Global) -> Result<RingNet, Memory> {
    let ins = [WORD; 2].to_vec(alloc)?;
    let gates = GATES.to_vec(alloc)?;
    let outs = [5, 6].to_vec(alloc)?;
    Ok(RingNet::new(ins, gates, outs))
}

#[test]
fn gates_compute_over_earlier_variables(rt: HostRuntime) -> Result<(), Fail> {
    let ins = [WORD; 2].to_vec(rt.alloc())?;
    let gates = GATES.to_vec(rt.alloc())?;
    let outs = [5, 6].to_vec(rt.alloc())?;
    let net = RingNet::new(ins, gates, outs);
    let mut values = [0; 7];
    net.value(&[10, 1000], &mut values);
    assert_eq!(rt;
        values,
        [
            10,
            1000,
            4_294_966_306,
            4_294_957_396,
            4_294_937_596,
            29_700,
            4
        ]
    );
    Ok(())
}

#[test]
fn products_of_two_variables_are_counted(rt: HostRuntime) -> Result<(), Fail> {
    let net = base(rt.alloc())?;
    assert_eq!(rt; net.products(WORD), 1);
    assert_eq!(rt; net.products(Width::W8), 0);
    let depths = net.depths(rt.alloc())?;
    assert_eq!(rt; depths.as_slice(), [0, 0, 0, 1, 1, 1, 1].as_slice());
    Ok(())
}

/// The difference of two inputs, seven times, and a bitwise And of that with the first input.
const ENTRIES: [Entry; 6] = [
    Entry {
        op: Op::In,
        width: WORD,
        args: [0; 3],
        number: 0,
        region: 0,
    },
    Entry {
        op: Op::In,
        width: WORD,
        args: [0; 3],
        number: 1,
        region: 0,
    },
    Entry {
        op: Op::Const,
        width: WORD,
        args: [0; 3],
        number: 7,
        region: 0,
    },
    Entry {
        op: Op::Sub,
        width: WORD,
        args: [1, 0, 0],
        number: 0,
        region: 2,
    },
    Entry {
        op: Op::Mul,
        width: WORD,
        args: [3, 2, 0],
        number: 0,
        region: 2,
    },
    Entry {
        op: Op::And,
        width: WORD,
        args: [4, 0, 0],
        number: 0,
        region: 2,
    },
];

/// The gates of the difference and the product.
const GATES_OF_MODULE: [RingGate; 2] = [
    RingGate {
        op: Op::Sub,
        width: WORD,
        args: [RingArg::Var(1), RingArg::Var(0)],
    },
    RingGate {
        op: Op::Mul,
        width: WORD,
        args: [RingArg::Var(2), RingArg::Number(7)],
    },
];

/// The ring circuit of the first of two modules, which is arithmetic.
fn first_ring(rt: &impl Abort, alloc: Global) -> Result<RingNet, Fail> {
    let graph = Graph::of(alloc, ENTRIES.to_vec(alloc)?)?;
    let modules = split(alloc, &graph, &[Node { index: 5 }], 64)?;
    let list = modules.list();
    assert_eq!(rt; list.len(), 2);
    let module = &list[0];
    assert!(rt; module.class == Class::Arithmetic);
    let nodes = module.nodes.as_slice();
    let ins = module.ins.as_slice();
    let outs = module.outs.as_slice();
    Ok(ring_of(alloc, &graph, nodes, ins, outs)?)
}

#[test]
fn a_module_has_one_gate_for_each_node(rt: HostRuntime) -> Result<(), Fail> {
    let net = first_ring(&rt, rt.alloc())?;
    assert!(rt; net.ins() == [WORD; 2].as_slice());
    assert!(rt; net.gates() == GATES_OF_MODULE.as_slice());
    assert!(rt; net.outs() == [3].as_slice());
    Ok(())
}
