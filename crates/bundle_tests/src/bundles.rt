//! Bundles of parts that are written down, and what they give.
ghost use Rattle.std.specs.Prelude.{◌≡◌, ◌+◌, ◌*◌, ◌^◌, ◌<◌, ◌≤◌, true, [], ◌∷◌, length, IfOk};
ghost use Rattle.std.specs.List.{All};
ghost use Rattle.hy_bits.specs.declared.shape.Shape.TheVariants as shapes;
ghost use Rattle.hy_bits.specs.Shape.{FitPorts};
ghost use Rattle.word_graph.specs.Shape.{IsGraph};
ghost use Rattle.gate_net.specs.Shape.{AreOrdered};
ghost use Rattle.choice_core.specs.Problems.{Fits};
ghost use Rattle.bundle_core.specs.Parts.{IsDraft};
ghost use Rattle.bundle_tests.specs.Bundles.{IsNetOf, main_region, parts_of};

use bundle_core::{Bundle, Draft, Parts, Variant};
use choice_core::{Choice, Table, Tree, cost};
use gate_net::{GATE_LIMIT, Gate, Lit, Net};
use hy_bits::{Port, Role, Scalar, Sequence, Shape, Text};
use module_split::split;
use std::alloc::Global;
use std::process::Abort;
use std::test::Fail;
use word_graph::{Entry, Graph, Node};

/// A table whose numbers all differ.
pub const TABLE: Table = Table {
    a_mul: [10, 12, 16, 24],
    a2b: [7, 56, 112, 224, 448],
    a2y: [6, 48, 96, 192, 384],
    b2a: [5, 40, 80, 160, 320],
    b2y: [3, 25, 49, 97, 193],
    y2a: [8, 41, 81, 161, 321],
    y2b: [1, 2, 4, 9, 11],
    b_and: 13,
    b_level: 50,
    y_and: 14,
};

/// A table whose numbers are all zero.
pub const FREE: Table = Table {
    a_mul: [0; 4],
    a2b: [0; 5],
    a2y: [0; 5],
    b2a: [0; 5],
    b2y: [0; 5],
    y2a: [0; 5],
    y2b: [0; 5],
    b_and: 0,
    b_level: 0,
    y_and: 0,
};

/// A port of one word.
pub fn port(alloc: Global, role: Role, name: &[u8], scalar: Scalar) -> Result<Port, Fail>
    ensures { IfOk result (λ p. p ≡ record { role = role; name = name.now; shape = shapes.Scalar scalar }) }
{
    let name = Text::copy_of(alloc, name)?;
    let shape = Shape::Scalar(scalar);
    Ok(Port { role, name, shape })
}

/// The name of the first function.
pub fn regions(alloc: Global) -> Result<Vec<Text>, Fail>
    ensures { IfOk result (λ r. r.items ≡ main_region ∷ []) }
{
    let mut regions = Vec::new(alloc);
    regions.push(Text::copy_of(alloc, b"mpc_main")?)?;
    Ok(regions)
}

/// Whether each gate is over the first `wires` wires and earlier gates.
fn are_ordered(wires: u32, gates: &[Gate]) -> bool
    requires { wires + length gates.now < 2 ^ 16 }
    ensures { result ≡ true → AreOrdered wires gates.now }
{
    let [gate, rest @ ..] = gates else {
        return true;
    };
    let (Gate::And(a, b) | Gate::Xor(a, b)) = *gate;
    a.code < 2 * wires && b.code < 2 * wires && are_ordered(wires + 1, rest)
}

/// The literals of these codes, which are of the first `wires` wires.
fn literals(rt: &impl Abort, alloc: Global, wires: u32, codes: &[u32]) -> Result<Vec<Lit>, Fail>
    requires { wires < 2 ^ 16 }
    ensures each { IfOk result (λ lits. All (λ (lit : Lit). lit.code < 2 * wires) lits.items) }
    ensures count { IfOk result (λ lits. length lits.items ≡ length codes.now) }
{
    let mut lits = Vec::new(alloc);
    for code in codes {
        assert!(rt; *code < 2 * wires);
        lits.push(Lit { code: *code })?;
    }
    Ok(lits)
}

/// The circuit of these gates, with outputs of these codes.
pub fn net_of(
    rt: &impl Abort,
    alloc: Global,
    ins: u32,
    gates: &[Gate],
    outs: &[u32],
) -> Result<Net, Fail>
    requires ins { ins ≤ 100 }
    requires gates { length gates.now ≤ 100 }
    ensures { IfOk result (λ n. IsNetOf ins (length outs.now) n) }
{
    let ordered = are_ordered(ins + 1, gates);
    assert!(rt; ordered);
    let wires = ins + 1 + gates.len() as u32;
    let outs = literals(rt, alloc, wires, outs)?;
    let gates = Vec::from_slice(alloc, gates)?;
    Ok(Net::of(alloc, ins, gates, outs, GATE_LIMIT)?)
}

/// The draft of the graph of `entries`, cut into modules of which `variants` are the circuits.
pub fn draft_of(
    alloc: Global,
    entries: &[Entry],
    results: &[Node],
    ports: Vec<Port>,
    shape: Shape,
    regions: Vec<Text>,
    variants: Vec<Variant>,
    table: Table,
) -> Result<Draft, Fail>
    requires graph { IsGraph entries.now }
    requires draft { IsDraft (parts_of entries.now results.now ports.items shape regions.items variants.items table) }
    ensures { IfOk result (λ d. d ≡ parts_of entries.now results.now ports.items shape regions.items variants.items table) }
{
    let graph = Graph::of(alloc, Vec::from_slice(alloc, entries)?)?;
    let modules = split(alloc, &graph, results, 16)?;
    let results = Vec::from_slice(alloc, results)?;
    Ok(Draft::of(Parts {
        layers: 16,
        ports: Sequence::new(ports),
        result: shape,
        regions: Sequence::new(regions),
        graph,
        results: Sequence::new(results),
        modules,
        variants: Sequence::new(variants),
        table,
    }))
}

/// Whether there is one choice for each module, which has own costs at it.
#[tactic(auto, unfolding(choice_core::specs::Problems::Fits))]
fn allows(own: &[[Option<u64>; 4]], choices: &[Choice]) -> bool
    ensures fits { result ≡ true → Fits own.now choices.now }
    ensures whole { result ≡ true → length choices.now ≡ length own.now }
{
    let [choice, choices @ ..] = choices else {
        return own.is_empty();
    };
    let [row, rows @ ..] = own else {
        return false;
    };
    row[choice.place()].is_some() && allows(rows, choices)
}

/// The bundle of a draft with these choices, and no tree.
pub fn chosen(
    rt: &impl Abort,
    alloc: Global,
    draft: Draft,
    choices: &[Choice],
) -> Result<Bundle, Fail>
    ensures { IfOk result (λ b. b.parts ≡ draft) }
{
    let problem = draft.problem(alloc)?;
    let allowed = allows(problem.own(), choices);
    assert!(rt; allowed);
    let cost = cost(&problem, choices);
    let choices = Sequence::new(Vec::from_slice(alloc, choices)?);
    let nodes = Sequence::new(Vec::new(alloc));
    Ok(Bundle::of(draft, choices, cost, Tree { nodes }))
}

/// The words that the bundle gives under its choices.
pub fn words(alloc: Global, bundle: &Bundle, inputs: &[u64]) -> Result<Vec<u64>, Fail>
    requires { FitPorts bundle.now.parts.ports inputs.now }
{
    let inputs = Sequence::new(Vec::from_slice(alloc, inputs)?);
    Ok(bundle.meaning(alloc, bundle.choices(), &inputs)?)
}
