//! One of two values by a truth (C11 6.5.15).
ghost use Rattle.std.specs.Prelude.{◌≡◌, ℕ, ◌==◌, List, if◌then◌else◌, IfOk, IfErr};
ghost use Rattle.hy_bits.specs.declared.width.Width.TheVariants.{W1};
ghost use Rattle.word_graph.specs.Meaning.{InputsFit};
ghost use Rattle.word_nodes.specs.Nodes.{Stands, Extends, IsFull, worth};
ghost use Rattle.exec_values.specs.Views.{value_cells};
ghost use Rattle.exec_values.specs.Makes.{AreAlike};

use crate::operations::{pointer_of, word_of};
use crate::values::WordValue;
use c_place::{Targets, choose};
use std::alloc::Global;
use word_graph::{Graph, GraphFault, Node};
use word_nodes::{selection, width_of};

/// The value `a` where `c` holds, and else the value `b`: integers of one width, or pointers.
///
/// # Errors
///
/// `NodeLimit` where the graph is full, and `Memory`. The graph may have more nodes.
pub fn choose_values(
    alloc: Global,
    graph: &mut Graph,
    c: Node,
    a: &WordValue,
    b: &WordValue,
    region: u32,
) -> Result<WordValue, GraphFault>
    requires condition { Stands graph.old W1 c }
    requires alike { AreAlike graph.old a.now b.now }
    ensures alike { IfOk result (λ r. AreAlike graph.new r a.now) }
    ensures value { IfOk result (λ r. (ins : List ℕ) → InputsFit graph.old ins → value_cells graph.new ins r ≡ if worth graph.old ins c == 1 then value_cells graph.old ins a.now else value_cells graph.old ins b.now) }
    ensures extends { Extends region graph.old graph.new }
    ensures full { IfErr result (IsFull graph.new) }
{
    match a {
        WordValue::Word(word) => {
            let width = width_of(graph, *word);
            let chosen = selection(graph, width, c, *word, word_of(b), region)?;
            Ok(WordValue::Word(chosen))
        }
        WordValue::Pointer(targets) => {
            let chosen = choose(alloc, graph, c, targets, pointer_of(b), region)?;
            Ok(WordValue::Pointer(chosen))
        }
        _ => unreachable!(),
    }
}
