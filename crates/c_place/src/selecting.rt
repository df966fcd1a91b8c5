//! Words chosen by a truth, and the truth that a target hits an element.
ghost use Rattle.std.specs.Prelude.{◌≡◌, ◌⊎◌, ℕ, List, ◌+◌, ◌*◌, ◌≤◌, ◌<◌, ◌==◌, ◌^◌, length, if◌then◌else◌, IfOk, IfErr, IsSome};
ghost use Rattle.hy_bits.specs.Bits.{bit};
ghost use Rattle.word_graph.specs.Meaning.{InputsFit};
ghost use Rattle.word_graph.specs.Shape.{constant_at};
ghost use Rattle.word_graph.specs.Size.{graph_size};
ghost use Rattle.word_nodes.specs.Nodes.{Stands, AllStand, Extends, IsFull, IsOfTwo, worth, worths};

use hy_bits::{Op, Width};
use std::alloc::Global;
use word_graph::{Graph, GraphFault, Node};
use word_nodes::{conjunction, constant, equality, selection};

/// Where `old` is a selection by the very truth `c`, the word that it has where `c` doesn't hold; else `old`.
fn passed_over(graph: &Graph, c: Node, old: Node) -> Node
    requires { old.index < length graph.now }
    ensures stands { (w : Width) → Stands graph.now w old → Stands graph.now w result }
    ensures value { (ins : List ℕ) → InputsFit graph.now ins → (worth graph.now ins c ≡ 1) ⊎ (worth graph.now ins result ≡ worth graph.now ins old) }
{
    let entry = &graph.entries()[old.index as usize];
    match entry.op {
        Op::Sel => {
            if entry.args[0] == c.index {
                Node {
                    index: entry.args[2],
                }
            } else {
                old
            }
        }
        _ => old,
    }
}

/// The word `new` where `c` holds, and else the word `old`.
fn put(
    graph: &mut Graph,
    width: Width,
    c: Node,
    new: Node,
    old: Node,
    region: u32,
) -> Result<Node, GraphFault>
    requires condition { Stands graph.old Width.W1 c }
    requires first { Stands graph.old width new }
    requires second { Stands graph.old width old }
    ensures stands { IfOk result (Stands graph.new width) }
    ensures value { IfOk result (λ n. (ins : List ℕ) → InputsFit graph.old ins → worth graph.new ins n ≡ if worth graph.old ins c == 1 then worth graph.old ins new else worth graph.old ins old) }
    ensures extends { Extends region graph.old graph.new }
    ensures nodes { length graph.new ≤ length graph.old + 1 }
    ensures gates { graph_size graph.new ≤ graph_size graph.old + 256 }
    ensures full { IfErr result (IsFull graph.new) }
{
    let base = passed_over(graph, c, old);
    selection(graph, width, c, new, base, region)
}

/// Whether `guard` holds and `index` is the number `k`.
pub fn hit(
    graph: &mut Graph,
    guard: Node,
    index: Node,
    k: u32,
    region: u32,
) -> Result<Node, GraphFault>
    requires guard { Stands graph.old Width.W1 guard }
    requires index { Stands graph.old Width.W64 index }
    ensures stands { IfOk result (Stands graph.new Width.W1) }
    ensures value { IfOk result (IsOfTwo (λ g i. g * bit (i == k)) graph.old graph.new guard index) }
    ensures extends { Extends region graph.old graph.new }
    ensures nodes { length graph.new ≤ length graph.old + 3 }
    ensures gates { graph_size graph.new ≤ graph_size graph.old + 260 }
    ensures full { IfErr result (IsFull graph.new) }
{
    let number = constant(graph, Width::W64, k as u64)?;
    let here = equality(graph, Width::W64, index, number, region)?;
    conjunction(graph, guard, here, region)
}

/// For each place the word of `words` where `c` holds, and else that of `others`, by a node each.
fn select_each(
    alloc: Global,
    graph: &mut Graph,
    widths: &[Width],
    c: Node,
    words: &[Node],
    others: &[Node],
    region: u32,
) -> Result<Vec<Node>, GraphFault>
    requires condition { Stands graph.old Width.W1 c }
    requires words { AllStand graph.old widths.now words.now }
    requires others { AllStand graph.old widths.now others.now }
    ensures stands { IfOk result (λ r. AllStand graph.new widths.now r.items) }
    ensures value { IfOk result (λ r. (ins : List ℕ) → InputsFit graph.old ins → worths graph.new ins r.items ≡ if worth graph.old ins c == 1 then worths graph.old ins words.now else worths graph.old ins others.now) }
    ensures extends { Extends region graph.old graph.new }
    ensures nodes { length graph.new ≤ length graph.old + length widths.now }
    ensures gates { graph_size graph.new ≤ graph_size graph.old + 256 * length widths.now }
    ensures full { IfErr result (IsFull graph.new) }
{
    let mut chosen = Vec::with_capacity(alloc, widths.len())?;
    for (place, width) in widths.iter().enumerate() {
        chosen.push(put(graph, *width, c, words[place], others[place], region)?)?;
    }
    Ok(chosen)
}

/// For each place the word of `words` where `c` holds, and else that of `others`. Where `c` is a constant, no node is made.
pub fn select(
    alloc: Global,
    graph: &mut Graph,
    widths: &[Width],
    c: Node,
    words: &[Node],
    others: &[Node],
    region: u32,
) -> Result<Vec<Node>, GraphFault>
    requires condition { Stands graph.old Width.W1 c }
    requires words { AllStand graph.old widths.now words.now }
    requires others { AllStand graph.old widths.now others.now }
    ensures stands { IfOk result (λ r. AllStand graph.new widths.now r.items) }
    ensures value { IfOk result (λ r. (ins : List ℕ) → InputsFit graph.old ins → worths graph.new ins r.items ≡ if worth graph.old ins c == 1 then worths graph.old ins words.now else worths graph.old ins others.now) }
    ensures extends { Extends region graph.old graph.new }
    ensures nodes { length graph.new ≤ length graph.old + length widths.now }
    ensures gates { graph_size graph.new ≤ graph_size graph.old + 256 * length widths.now }
    ensures full { IfErr result (IsFull graph.new) }
    ensures same { IsSome (constant_at graph.old c.index) → graph.new ≡ graph.old }
{
    let _entries = graph.entries();
    match graph.constant_of(c) {
        Some(1) => Ok(Vec::from_slice(alloc, words)?),
        Some(_) => Ok(Vec::from_slice(alloc, others)?),
        None => select_each(alloc, graph, widths, c, words, others, region),
    }
}
