//! The bundle of the And of two bits, one of each party.
ghost use Rattle.std.specs.Prelude.{◌≡◌, ◌<◌, IfOk};
ghost use Rattle.bundle_tests.specs.Bundles.{IsNetOf};
ghost use Rattle.bundle_tests.specs.Conjunction.{IsOne, and_ports};

use crate::bundles::{FREE, TABLE, chosen, draft_of, net_of, port, regions, words};
use bundle_core::{Bundle, Draft, Variant};
use choice_core::{Choice, Table};
use gate_net::{Gate, Lit, Net};
use hy_bits::{Op, Port, Role, Scalar, Shape, Width};
use plan_figures::{Figures, figures_of};
use share_core::InstrKind;
use share_plan::script_of;
use std::alloc::Global;
use std::process::Abort;
use std::test::Fail;
use word_graph::{Entry, Node};

/// The words of both parties, the bit 0 as the bound word, and the And.
const ENTRIES: [Entry; 4] = [
    Entry {
        op: Op::In,
        width: Width::W1,
        args: [0; 3],
        number: 0,
        region: 0,
    },
    Entry {
        op: Op::In,
        width: Width::W1,
        args: [0; 3],
        number: 1,
        region: 0,
    },
    Entry {
        op: Op::Const,
        width: Width::W1,
        args: [0; 3],
        number: 0,
        region: 0,
    },
    Entry {
        op: Op::And,
        width: Width::W1,
        args: [0, 1, 0],
        number: 0,
        region: 0,
    },
];

/// The circuit of one And gate.
fn one_and(rt: &impl Abort, alloc: Global) -> Result<Net, Fail>
    ensures { IfOk result (λ n. IsNetOf 2 1 n) }
{
    let gate = Gate::And(Lit { code: 2 }, Lit { code: 4 });
    net_of(rt, alloc, 2, &[gate], &[6])
}

/// The circuits of the one module.
fn variants(rt: &impl Abort, alloc: Global) -> Result<Vec<Variant>, Fail>
    ensures { IfOk result (λ v. IsOne v.items) }
{
    let mut variants = Vec::new(alloc);
    variants.push(Variant {
        ring: None,
        compact: one_and(rt, alloc)?,
        shallow: one_and(rt, alloc)?,
    })?;
    Ok(variants)
}

/// A bit of each party.
fn ports(alloc: Global) -> Result<Vec<Port>, Fail>
    ensures { IfOk result (λ p. p.items ≡ and_ports) }
{
    let mut ports = Vec::new(alloc);
    ports.push(port(alloc, Role::P0, b"INPUT_A_x", Scalar::B1)?)?;
    ports.push(port(alloc, Role::P1, b"INPUT_B_y", Scalar::B1)?)?;
    Ok(ports)
}

/// The bundle, without its choices.
fn conjunction(rt: &impl Abort, alloc: Global, table: Table) -> Result<Draft, Fail>
    ensures { IfOk result (λ d. d.ports ≡ and_ports) }
{
    let ports = ports(alloc)?;
    let variants = variants(rt, alloc)?;
    let results = [Node { index: 2 }, Node { index: 3 }];
    draft_of(
        alloc,
        &ENTRIES,
        &results,
        ports,
        Shape::Scalar(Scalar::B1),
        regions(alloc)?,
        variants,
        table,
    )
}

/// The bundle whose one module takes the choice.
fn bundle(rt: &impl Abort, alloc: Global, table: Table, choice: Choice) -> Result<Bundle, Fail>
    ensures { IfOk result (λ b. b.parts.ports ≡ and_ports) }
{
    let draft = conjunction(rt, alloc, table)?;
    chosen(rt, alloc, draft, &[choice])
}

/// The words that the bundle gives where the parties have these bits.
fn words_of(
    rt: &impl Abort,
    alloc: Global,
    choice: Choice,
    x: u64,
    y: u64,
) -> Result<Vec<u64>, Fail>
    requires x { x < 2 }
    requires y { y < 2 }
{
    let bundle = bundle(rt, alloc, TABLE, choice)?;
    words(alloc, &bundle, &[x, y])
}

/// The bits of both parties, and their And.
const ROWS: [[u64; 3]; 4] = [[0, 0, 0], [0, 1, 0], [1, 0, 0], [1, 1, 1]];

#[test]
fn every_circuit_gives_the_and(rt: HostRuntime) -> Result<(), Fail> {
    for choice in [Choice::Y, Choice::C, Choice::S] {
        for [x, y, and] in ROWS {
            assert!(&rt; x < 2 && y < 2);
            let words = words_of(&rt, rt.alloc(), choice, x, y)?;
            assert_eq!(rt; words.as_slice(), [0, and].as_slice());
        }
    }
    Ok(())
}

#[test]
fn a_free_table_makes_every_choice_free(rt: HostRuntime) -> Result<(), Fail> {
    let bundle = bundle(&rt, rt.alloc(), FREE, Choice::Y)?;
    assert_eq!(rt; bundle.cost(), 0);
    let problem = bundle.problem(rt.alloc())?;
    assert!(rt; problem.own() == [[None, Some(0), Some(0), Some(0)]].as_slice());
    assert!(rt; problem.fans().is_empty());
    Ok(())
}

#[test]
fn a_module_costs_its_ands_and_its_levels(rt: HostRuntime) -> Result<(), Fail> {
    let bundle = bundle(&rt, rt.alloc(), TABLE, Choice::Y)?;
    assert_eq!(rt; bundle.cost(), 14);
    let problem = bundle.problem(rt.alloc())?;
    assert!(rt; problem.own() == [[None, Some(14), Some(63), Some(63)]].as_slice());
    assert!(rt; problem.fans().is_empty());
    Ok(())
}

/// The numbers of the plan where the module takes this choice, and how many instructions it has.
fn figures(rt: &impl Abort, alloc: Global, choice: Choice) -> Result<(usize, Figures), Fail> {
    let bundle = bundle(rt, alloc, TABLE, choice)?;
    let script = script_of(alloc, &bundle)?;
    let figures = figures_of(alloc, script.instrs(), script.gates())?;
    Ok((script.instrs().len(), figures))
}

// Another implementation of the protocol gave these numbers, of which those at Y are also worked by hand.
#[test]
fn the_plan_has_its_numbers(rt: HostRuntime) -> Result<(), Fail> {
    let garbled = figures(&rt, rt.alloc(), Choice::Y)?;
    let expected = Figures {
        receives: 6,
        bytes: [101, 12],
        stretch_words: 9,
        stretch_bytes: [80, 6],
        rounds: 5,
    };
    assert_eq!(rt; garbled, (6, expected));
    let shared = figures(&rt, rt.alloc(), Choice::C)?;
    let expected = Figures {
        receives: 6,
        bytes: [18, 18],
        stretch_words: 4,
        stretch_bytes: [12, 12],
        rounds: 4,
    };
    assert_eq!(rt; shared, (5, expected));
    Ok(())
}

#[test]
fn the_plan_has_its_instructions(rt: HostRuntime) -> Result<(), Fail> {
    let bundle = bundle(&rt, rt.alloc(), TABLE, Choice::Y)?;
    let script = script_of(rt.alloc(), &bundle)?;
    let instrs = script.instrs();
    assert_eq!(rt; instrs.len(), 6);
    assert!(&rt; instrs[0].kind == InstrKind::Offset);
    assert!(&rt; instrs[1].kind == InstrKind::InYP0);
    assert!(&rt; instrs[2].kind == InstrKind::ChooseIn);
    assert!(&rt; instrs[3].kind == InstrKind::AnswerIn);
    assert!(&rt; instrs[4].kind == InstrKind::LevelY);
    assert!(&rt; instrs[5].kind == InstrKind::OpenY);
    Ok(())
}
