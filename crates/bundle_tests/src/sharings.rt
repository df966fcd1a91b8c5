//! A bundle of three modules, of which the first has an arithmetic circuit and hands words on to both of the others. Its circuits compute
//! different things, so that each choice shows.
ghost use Rattle.std.specs.Prelude.{◌≡◌, IfOk};
ghost use Rattle.bundle_tests.specs.Sharings.{AreThree, IsFirst, IsSecond, IsThird, shared_ports, shared_regions, shared_ring};

use crate::bundles::{TABLE, chosen, draft_of, net_of, port, regions, words};
use bundle_core::{Bundle, Variant};
use choice_core::{Choice, Fan};
use gate_net::{Gate, Lit};
use hy_bits::{Op, Port, Role, Scalar, Shape, Text, Width};
use ring_net::{RingArg, RingGate, RingNet};
use std::alloc::Global;
use std::process::Abort;
use std::test::Fail;
use word_graph::{Entry, Node};

/// The words of both parties; their sum and their product, which are the first module; whether the sum is less, which is the second;
/// and the product where it is, in another function.
const ENTRIES: [Entry; 6] = [
    Entry {
        op: Op::In,
        width: Width::W8,
        args: [0; 3],
        number: 0,
        region: 0,
    },
    Entry {
        op: Op::In,
        width: Width::W8,
        args: [0; 3],
        number: 1,
        region: 0,
    },
    Entry {
        op: Op::Add,
        width: Width::W8,
        args: [0, 1, 0],
        number: 0,
        region: 0,
    },
    Entry {
        op: Op::Mul,
        width: Width::W8,
        args: [0, 1, 0],
        number: 0,
        region: 0,
    },
    Entry {
        op: Op::LtU,
        width: Width::W1,
        args: [2, 3, 0],
        number: 0,
        region: 0,
    },
    Entry {
        op: Op::Sel,
        width: Width::W8,
        args: [4, 3, 0],
        number: 0,
        region: 1,
    },
];

/// The sum and the product.
fn ring(alloc: Global) -> Result<RingNet, Fail>
    ensures { IfOk result (λ r. r ≡ shared_ring) }
{
    let args = [RingArg::Var(0), RingArg::Var(1)];
    let sum = RingGate {
        op: Op::Add,
        width: Width::W8,
        args,
    };
    let product = RingGate {
        op: Op::Mul,
        width: Width::W8,
        args,
    };
    let ins = vec![in alloc; Width::W8, Width::W8]?;
    let gates = vec![in alloc; sum, product]?;
    let outs = vec![in alloc; 2, 3]?;
    Ok(RingNet::new(ins, gates, outs))
}

/// The And of the literals of these codes.
fn and(a: u32, b: u32) -> Gate {
    Gate::And(Lit { code: a }, Lit { code: b })
}

/// The Xor of the literals of these codes.
fn xor(a: u32, b: u32) -> Gate {
    Gate::Xor(Lit { code: a }, Lit { code: b })
}

/// The outputs of the first module's circuits, by their codes.
const COMPACT_OUTS: [u32; 16] = [36, 4, 6, 8, 10, 12, 14, 16, 19, 21, 23, 25, 27, 29, 31, 33];

const SHALLOW_OUTS: [u32; 16] = [18, 20, 22, 24, 26, 28, 30, 32, 34, 36, 6, 8, 10, 12, 14, 16];

/// The circuits of the first module.
fn first(rt: &impl Abort, alloc: Global) -> Result<Variant, Fail>
    ensures { IfOk result IsFirst }
{
    Ok(Variant {
        ring: Some(ring(alloc)?),
        compact: net_of(rt, alloc, 16, &[and(2, 18), and(4, 34)], &COMPACT_OUTS)?,
        shallow: net_of(rt, alloc, 16, &[and(2, 18), and(4, 20)], &SHALLOW_OUTS)?,
    })
}

/// The circuits of the second module.
fn second(rt: &impl Abort, alloc: Global) -> Result<Variant, Fail>
    ensures { IfOk result IsSecond }
{
    Ok(Variant {
        ring: None,
        compact: net_of(rt, alloc, 16, &[and(2, 18)], &[35])?,
        shallow: net_of(rt, alloc, 16, &[xor(2, 18)], &[35])?,
    })
}

/// The circuits of the third module.
fn third(rt: &impl Abort, alloc: Global) -> Result<Variant, Fail>
    ensures { IfOk result IsThird }
{
    let outs = [36, 20, 22, 24, 26, 28, 30, 32];
    let compact = net_of(rt, alloc, 17, &[and(2, 34)], &outs)?;
    let gates = [and(2, 34), and(18, 36), xor(4, 38)];
    let outs = [40, 4, 6, 8, 10, 12, 14, 35];
    let shallow = net_of(rt, alloc, 17, &gates, &outs)?;
    Ok(Variant {
        ring: None,
        compact,
        shallow,
    })
}

/// The circuits of all modules.
fn variants(rt: &impl Abort, alloc: Global) -> Result<Vec<Variant>, Fail>
    ensures { IfOk result (λ v. AreThree v.items) }
{
    let mut variants = Vec::new(alloc);
    variants.push(first(rt, alloc)?)?;
    variants.push(second(rt, alloc)?)?;
    variants.push(third(rt, alloc)?)?;
    Ok(variants)
}

/// A word of each party.
fn ports(alloc: Global) -> Result<Vec<Port>, Fail>
    ensures { IfOk result (λ p. p.items ≡ shared_ports) }
{
    let mut ports = Vec::new(alloc);
    ports.push(port(alloc, Role::P0, b"INPUT_A_x", Scalar::U8)?)?;
    ports.push(port(alloc, Role::P1, b"INPUT_B_y", Scalar::U8)?)?;
    Ok(ports)
}

/// The names of both functions.
fn both_regions(alloc: Global) -> Result<Vec<Text>, Fail>
    ensures { IfOk result (λ r. r.items ≡ shared_regions) }
{
    let mut regions = regions(alloc)?;
    regions.push(Text::copy_of(alloc, b"f")?)?;
    Ok(regions)
}

/// The bundle with these choices.
fn bundle(rt: &impl Abort, alloc: Global, choices: &[Choice]) -> Result<Bundle, Fail>
    ensures { IfOk result (λ b. b.parts.ports ≡ shared_ports) }
{
    let ports = ports(alloc)?;
    let variants = variants(rt, alloc)?;
    let regions = both_regions(alloc)?;
    let results = [Node { index: 4 }, Node { index: 5 }];
    let shape = Shape::Scalar(Scalar::U8);
    let draft = draft_of(
        alloc, &ENTRIES, &results, ports, shape, regions, variants, TABLE,
    )?;
    chosen(rt, alloc, draft, choices)
}

/// Every list of choices, by the first letter, then the second, then the third: its cost, and the bound word and the output word
/// where the inputs are 183 and 93. Another implementation of bundles gave these numbers.
const ROWS: [[u64; 3]; 36] = [
    [134, 1, 123],
    [240, 1, 123],
    [303, 1, 54],
    [250, 1, 123],
    [248, 1, 123],
    [311, 1, 54],
    [187, 0, 122],
    [185, 0, 122],
    [248, 0, 183],
    [56, 1, 163],
    [108, 1, 163],
    [171, 1, 55],
    [112, 1, 163],
    [158, 1, 163],
    [221, 1, 55],
    [49, 0, 162],
    [95, 0, 162],
    [158, 0, 183],
    [204, 1, 163],
    [254, 1, 163],
    [317, 1, 55],
    [231, 1, 163],
    [252, 1, 163],
    [315, 1, 55],
    [168, 0, 162],
    [189, 0, 162],
    [252, 0, 183],
    [154, 0, 180],
    [204, 0, 180],
    [267, 0, 183],
    [181, 0, 180],
    [202, 0, 180],
    [265, 0, 183],
    [118, 1, 181],
    [139, 1, 181],
    [202, 1, 54],
];

/// The cost and both words of the bundle with these choices, where the inputs are 183 and 93.
fn found(rt: &impl Abort, alloc: Global, choices: [Choice; 3]) -> Result<[u64; 3], Fail> {
    let bundle = bundle(rt, alloc, &choices)?;
    let words = words(alloc, &bundle, &[183, 93])?;
    assert_eq!(rt; words.len(), 2);
    Ok([bundle.cost(), words[0], words[1]])
}

#[test]
fn every_list_of_choices_has_its_cost_and_its_words(rt: HostRuntime) -> Result<(), Fail> {
    let mut rows = ROWS.iter();
    for first in [Choice::A, Choice::Y, Choice::C, Choice::S] {
        for second in [Choice::Y, Choice::C, Choice::S] {
            for third in [Choice::Y, Choice::C, Choice::S] {
                let found = found(&rt, rt.alloc(), [first, second, third])?;
                assert!(&rt; rows.next() == Some(&found));
            }
        }
    }
    Ok(())
}

#[test]
fn the_problem_has_its_own_costs_and_its_fans(rt: HostRuntime) -> Result<(), Fail> {
    let bundle = bundle(&rt, rt.alloc(), &[Choice::A, Choice::Y, Choice::S])?;
    let problem = bundle.problem(rt.alloc())?;
    let own: [[Option<u64>; 4]; 3] = [
        [Some(10), Some(28), Some(126), Some(76)],
        [None, Some(14), Some(63), Some(0)],
        [None, Some(14), Some(63), Some(126)],
    ];
    assert!(rt; problem.own() == own.as_slice());
    let word = [[0, 56, 48], [40, 0, 25], [41, 2, 0]];
    let bit = [[0, 7, 6], [5, 0, 3], [8, 1, 0]];
    let fans = problem.fans();
    assert_eq!(rt; fans.len(), 3);
    assert!(&rt; is_fan(&fans[0], 0, &[1], &word));
    assert!(&rt; is_fan(&fans[1], 0, &[1, 2], &word));
    assert!(&rt; is_fan(&fans[2], 1, &[2], &bit));
    Ok(())
}

/// Whether the fan has this producer, these consumers and these prices.
fn is_fan(fan: &Fan, from: u32, to: &[u32], price: &[[u64; 3]; 3]) -> bool {
    fan.from == from && fan.to.as_slice() == to && fan.price == *price
}
