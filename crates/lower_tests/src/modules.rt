//! Both circuits of a module of one node, and of nine, against the graph's own values.
use crate::circuits::assert_computes;
use hy_bits::{Op, Width};
use std::alloc::Global;
use std::process::Abort;
use std::test::Fail;
use word_graph::{Graph, Node};

const WIDTHS: [Width; 5] = [Width::W1, Width::W8, Width::W16, Width::W32, Width::W64];

/// Asserts it of the circuits of one operation over inputs of these widths.
fn assert_operation(
    rt: &impl Abort,
    alloc: Global,
    op: Op,
    width: Width,
    args: &[Width],
) -> Result<(), Fail> {
    let mut graph = Graph::new(alloc);
    let mut nodes = Vec::new(alloc);
    for (index, arg) in args.iter().enumerate() {
        nodes.push(graph.node(Op::In, *arg, &[], index as u64, 0)?)?;
    }
    assert!(rt; graph.takes(op, width, &nodes, 0));
    let node = graph.node(op, width, &nodes, 0, 0)?;
    assert_computes(rt, alloc, &graph, node)
}

/// The same of operations on two words of one width.
fn assert_operations(rt: &impl Abort, alloc: Global, ops: &[Op]) -> Result<(), Fail> {
    for op in ops {
        for width in WIDTHS {
            assert_operation(rt, alloc, *op, width, &[width, width])?;
        }
    }
    Ok(())
}

#[test]
fn sums_and_products_have_their_values(rt: HostRuntime) -> Result<(), Fail> {
    assert_operations(&rt, rt.alloc(), &[Op::Add, Op::Sub, Op::Mul])
}

#[test]
fn quotients_have_their_values(rt: HostRuntime) -> Result<(), Fail> {
    assert_operations(&rt, rt.alloc(), &[Op::DivU, Op::DivS])
}

#[test]
fn remainders_have_their_values(rt: HostRuntime) -> Result<(), Fail> {
    assert_operations(&rt, rt.alloc(), &[Op::RemU, Op::RemS])
}

#[test]
fn operations_on_each_place_have_their_values(rt: HostRuntime) -> Result<(), Fail> {
    assert_operations(&rt, rt.alloc(), &[Op::And, Op::Or, Op::Xor])
}

#[test]
fn comparisons_have_their_values(rt: HostRuntime) -> Result<(), Fail> {
    for op in [Op::LtU, Op::LtS, Op::Eq] {
        for width in WIDTHS {
            assert_operation(&rt, rt.alloc(), op, Width::W1, &[width, width])?;
        }
    }
    Ok(())
}

#[test]
fn shifts_by_narrow_and_wide_counts_have_their_values(rt: HostRuntime) -> Result<(), Fail> {
    for op in [Op::Shl, Op::ShrU, Op::ShrS] {
        for width in WIDTHS {
            assert_operation(&rt, rt.alloc(), op, width, &[width, Width::W1])?;
            assert_operation(&rt, rt.alloc(), op, width, &[width, Width::W8])?;
        }
    }
    Ok(())
}

#[test]
fn negatives_complements_and_selections_have_their_values(rt: HostRuntime) -> Result<(), Fail> {
    for width in WIDTHS {
        assert_operation(&rt, rt.alloc(), Op::Neg, width, &[width])?;
        assert_operation(&rt, rt.alloc(), Op::Not, width, &[width])?;
        assert_operation(&rt, rt.alloc(), Op::Sel, width, &[Width::W1, width, width])?;
    }
    Ok(())
}

/// Pairs of a narrower and a wider width.
const PAIRS: [(Width, Width); 4] = [
    (Width::W1, Width::W8),
    (Width::W8, Width::W16),
    (Width::W8, Width::W64),
    (Width::W32, Width::W64),
];

#[test]
fn words_cut_and_extended_have_their_values(rt: HostRuntime) -> Result<(), Fail> {
    for (narrow, wide) in PAIRS {
        assert_operation(&rt, rt.alloc(), Op::Trunc, narrow, &[wide])?;
        assert_operation(&rt, rt.alloc(), Op::ZeroExt, wide, &[narrow])?;
        assert_operation(&rt, rt.alloc(), Op::SignExt, wide, &[narrow])?;
    }
    Ok(())
}

/// An operation, its width, how many nodes it takes, their places, and its number.
type Call = (Op, Width, usize, [u32; 3], u64);

const WORD: Width = Width::W16;

/// The difference of two words with its sign gone, the product of that with one of them and 7 more, and the greater of that and the other word.
const NINE: [Call; 12] = [
    (Op::In, WORD, 0, [0; 3], 0),
    (Op::In, WORD, 0, [0; 3], 1),
    (Op::Const, WORD, 0, [0; 3], 7),
    (Op::Sub, WORD, 2, [0, 1, 0], 0),
    (Op::Sub, WORD, 2, [1, 0, 0], 0),
    (Op::LtS, Width::W1, 2, [0, 1, 0], 0),
    (Op::Sel, WORD, 3, [5, 4, 3], 0),
    (Op::Mul, WORD, 2, [6, 0, 0], 0),
    (Op::Add, WORD, 2, [7, 2, 0], 0),
    (Op::LtU, Width::W1, 2, [8, 1, 0], 0),
    (Op::Sel, WORD, 3, [9, 1, 8], 0),
    (Op::Trunc, Width::W8, 1, [10, 0, 0], 0),
];

#[test]
fn a_module_of_nine_nodes_has_its_values(rt: HostRuntime) -> Result<(), Fail> {
    let mut graph = Graph::new(rt.alloc());
    for (op, width, count, args, number) in NINE {
        let [a, b, c] = args;
        let nodes = [Node { index: a }, Node { index: b }, Node { index: c }];
        assert!(&rt; count <= 3);
        let nodes = &nodes[..count];
        assert!(&rt; graph.takes(op, width, nodes, number));
        graph.node(op, width, nodes, number, 0)?;
    }
    assert_computes(&rt, rt.alloc(), &graph, Node { index: 11 })
}
