//! The bundle that has no module: a word of the first party, and two results, the word itself and a constant.
ghost use Rattle.std.specs.Prelude.{◌≡◌, ◌^◌, ◌<◌, IfOk};
ghost use Rattle.bundle_tests.specs.Passed.{passed_ports, passed_result, word_field};

use crate::bundles::{FREE, chosen, draft_of, port, regions, words};
use bundle_core::Bundle;
use hy_bits::{Field, Op, Port, Role, Scalar, Shape, Text, Width};
use sqlite_items::Items;
use std::alloc::Global;
use std::process::Abort;
use std::test::Fail;
use word_graph::{Entry, Node};

/// A word of the first party, the bit 0 as the bound word, and 7.
const ENTRIES: [Entry; 3] = [
    Entry {
        op: Op::In,
        width: Width::W32,
        args: [0; 3],
        number: 0,
        region: 0,
    },
    Entry {
        op: Op::Const,
        width: Width::W1,
        args: [0; 3],
        number: 0,
        region: 0,
    },
    Entry {
        op: Op::Const,
        width: Width::W32,
        args: [0; 3],
        number: 7,
        region: 0,
    },
];

/// A word under a name.
fn field(alloc: Global, name: &[u8]) -> Result<Field, Fail>
    ensures { IfOk result (λ f. f ≡ word_field name.now) }
{
    let name = Text::copy_of(alloc, name)?;
    let shape = Shape::Scalar(Scalar::U32);
    Ok(Field { name, shape })
}

/// The shape of two words, a and b.
fn pair(alloc: Global) -> Result<Shape, Fail>
    ensures { IfOk result (λ s. s ≡ passed_result) }
{
    let a = field(alloc, b"a")?;
    let b = field(alloc, b"b")?;
    Ok(Shape::Struct(Items::from_vec(vec![in alloc; a, b]?)))
}

/// A word of the first party.
fn ports(alloc: Global) -> Result<Vec<Port>, Fail>
    ensures { IfOk result (λ p. p.items ≡ passed_ports) }
{
    let mut ports = Vec::new(alloc);
    ports.push(port(alloc, Role::P0, b"INPUT_A_x", Scalar::U32)?)?;
    Ok(ports)
}

/// The bundle.
fn passed(rt: &impl Abort, alloc: Global) -> Result<Bundle, Fail>
    ensures { IfOk result (λ b. b.parts.ports ≡ passed_ports) }
{
    let ports = ports(alloc)?;
    let shape = pair(alloc)?;
    let results = [Node { index: 1 }, Node { index: 0 }, Node { index: 2 }];
    let regions = regions(alloc)?;
    let none = Vec::new(alloc);
    let draft = draft_of(alloc, &ENTRIES, &results, ports, shape, regions, none, FREE)?;
    chosen(rt, alloc, draft, &[])
}

/// The words that the bundle gives of the word `x`.
fn words_of(rt: &impl Abort, alloc: Global, x: u64) -> Result<Vec<u64>, Fail>
    requires { x < 2 ^ 32 }
{
    let bundle = passed(rt, alloc)?;
    words(alloc, &bundle, &[x])
}

#[test]
fn the_word_and_the_constant_are_kept(rt: HostRuntime) -> Result<(), Fail> {
    for x in [0, 9, 4294967295] {
        assert!(&rt; x < 4294967296);
        let words = words_of(&rt, rt.alloc(), x)?;
        assert_eq!(rt; words.as_slice(), [0, x, 7].as_slice());
    }
    Ok(())
}

#[test]
fn no_module_costs_nothing(rt: HostRuntime) -> Result<(), Fail> {
    let bundle = passed(&rt, rt.alloc())?;
    assert_eq!(rt; bundle.cost(), 0);
    let problem = bundle.problem(rt.alloc())?;
    assert!(rt; problem.own().is_empty());
    assert!(rt; problem.fans().is_empty());
    Ok(())
}
