//! An operation on two words, one of each party, assembled to a bundle.
ghost use Rattle.std.specs.Prelude.{◌≡◌, ◌<◌, [], ◌∷◌, IfOk};
ghost use Rattle.hy_bits.specs.declared.shape.Shape.TheVariants as shapes;
ghost use Rattle.word_graph.specs.Shape.{IsGraph};
ghost use Rattle.assembly.specs.Outlines.{IsOutline};
ghost use Rattle.assembly_tests.specs.Outlines.{main_region, outline_with, two_ports};

use assembly::{Outline, assemble};
use bundle_core::Bundle;
use choice_core::{Choice, Table};
use hy_bits::{Op, Port, Role, Scalar, Sequence, Shape, Text, Width};
use std::alloc::Global;
use std::test::Fail;
use word_graph::{Entry, Graph, Node};

/// A table in which garbled gates are dearer than shared ones.
const TABLE: Table = Table {
    a_mul: [10, 12, 16, 24],
    a2b: [7, 56, 112, 224, 448],
    a2y: [6, 48, 96, 192, 384],
    b2a: [5, 40, 80, 160, 320],
    b2y: [3, 25, 49, 97, 193],
    y2a: [8, 41, 81, 161, 321],
    y2b: [1, 2, 4, 9, 11],
    b_and: 13,
    b_level: 50,
    y_and: 14,
};

/// Both words, the bit 0 as the bound word, and the And.
const AND: [Entry; 4] = [
    Entry {
        op: Op::In,
        width: Width::W1,
        args: [0; 3],
        number: 0,
        region: 0,
    },
    Entry {
        op: Op::In,
        width: Width::W1,
        args: [0; 3],
        number: 1,
        region: 0,
    },
    Entry {
        op: Op::Const,
        width: Width::W1,
        args: [0; 3],
        number: 0,
        region: 0,
    },
    Entry {
        op: Op::And,
        width: Width::W1,
        args: [0, 1, 0],
        number: 0,
        region: 0,
    },
];

/// Both words, the bit 0 as the bound word, and the sum.
const SUM: [Entry; 4] = [
    Entry {
        op: Op::In,
        width: Width::W32,
        args: [0; 3],
        number: 0,
        region: 0,
    },
    Entry {
        op: Op::In,
        width: Width::W32,
        args: [0; 3],
        number: 1,
        region: 0,
    },
    Entry {
        op: Op::Const,
        width: Width::W1,
        args: [0; 3],
        number: 0,
        region: 0,
    },
    Entry {
        op: Op::Add,
        width: Width::W32,
        args: [0, 1, 0],
        number: 0,
        region: 0,
    },
];

/// A port of one word.
fn port(alloc: Global, role: Role, name: &[u8], scalar: Scalar) -> Result<Port, Fail>
    ensures { IfOk result (λ p. p ≡ record { role = role; name = name.now; shape = shapes.Scalar scalar }) }
{
    let name = Text::copy_of(alloc, name)?;
    let shape = Shape::Scalar(scalar);
    Ok(Port { role, name, shape })
}

/// A word of each party.
fn ports(alloc: Global, scalar: Scalar) -> Result<Vec<Port>, Fail>
    ensures { IfOk result (λ p. p.items ≡ two_ports scalar) }
{
    let mut ports = Vec::new(alloc);
    ports.push(port(alloc, Role::P0, b"INPUT_A_x", scalar)?)?;
    ports.push(port(alloc, Role::P1, b"INPUT_B_y", scalar)?)?;
    Ok(ports)
}

/// The name of the first function.
fn regions(alloc: Global) -> Result<Vec<Text>, Fail>
    ensures { IfOk result (λ r. r.items ≡ main_region ∷ []) }
{
    let mut regions = Vec::new(alloc);
    regions.push(Text::copy_of(alloc, b"mpc_main")?)?;
    Ok(regions)
}

/// The bundle of a graph of two words and an operation on them.
fn bundle_of(alloc: Global, entries: &[Entry], scalar: Scalar) -> Result<Bundle, Fail>
    requires graph { IsGraph entries.now }
    requires outline { (table : Table) → IsOutline (outline_with entries.now scalar table) }
    ensures { IfOk result (λ b. b.parts.ports ≡ two_ports scalar) }
{
    let graph = Graph::of(alloc, Vec::from_slice(alloc, entries)?)?;
    let results = Vec::from_slice(alloc, &[Node { index: 2 }, Node { index: 3 }])?;
    let outline = Outline {
        ports: Sequence::new(ports(alloc, scalar)?),
        result: Shape::Scalar(scalar),
        regions: Sequence::new(regions(alloc)?),
        graph,
        results: Sequence::new(results),
        table: TABLE,
    };
    Ok(assemble(alloc, outline, 16)?)
}

#[test]
fn an_and_is_garbled(rt: HostRuntime) -> Result<(), Fail> {
    let bundle = bundle_of(rt.alloc(), &AND, Scalar::B1)?;
    assert_eq!(rt; bundle.choices(), [Choice::Y].as_slice());
    assert_eq!(rt; bundle.cost(), 14);
    assert_eq!(rt; bundle.parts().layers, 16);
    Ok(())
}

#[test]
fn a_sum_is_free_in_the_ring(rt: HostRuntime) -> Result<(), Fail> {
    let bundle = bundle_of(rt.alloc(), &SUM, Scalar::U32)?;
    assert_eq!(rt; bundle.choices(), [Choice::A].as_slice());
    assert_eq!(rt; bundle.cost(), 0);
    let parts = bundle.parts();
    assert_eq!(rt; parts.modules.list().len(), 1);
    let [variant] = parts.variants.as_slice() else {
        return Err(Fail::from("one module has one list of circuits"));
    };
    assert!(rt; variant.ring.is_some());
    Ok(())
}
