//! The first waiting prefix of the least bound.

ghost use Rattle.std.specs.Prelude.{◌≡◌, ◌≢◌, ℕ, ◌+◌, ◌<◌, ◌≤◌, List, length, take, slice_index};
ghost use Rattle.choice_core.specs.declared.sharings.Choice.{Choice};
ghost use Rattle.choice_search.specs.Arenas.{prefix_at, IsChildOf, IsSearch, IsFirst};

use crate::arenas::Node;
use choice_core::{Choice, Problem};

/// A waiting prefix: its number, and how many choices it has.
#[derive(Clone, Copy)]
pub struct Found {
    pub number: usize,
    pub depth: usize,
}

/// The first child that has this least bound.
fn first_child(node: &Node, leasts: &[u64], least: u64) -> usize
    requires within { node.now.first + node.now.count ≤ length leasts.now }
    requires found { (k : ℕ) × IsChildOf node.now k × (slice_index leasts.now k ≡ least) }
    ensures child { IsChildOf node.now result }
    ensures least { slice_index leasts.now result ≡ least }
    ensures first { (k : ℕ) → node.now.first ≤ k → k < result → slice_index leasts.now k ≢ least }
{
    let first = node.first as usize;
    for number in first..first + node.count as usize {
        if leasts[number] == least {
            return number;
        }
    }
    // not reached: some child has it
    first
}

/// Finds the first waiting prefix of the least bound, and makes the first choices of the path its
/// choices. The time is linear in these.
pub fn find(problem: &Problem, nodes: &[Node], leasts: &[u64], path: &mut [Choice]) -> Found
    requires search { (prefixes : List (List Choice)) × IsSearch problem.now prefixes nodes.now leasts.now }
    requires size { length path.old ≡ length problem.now.own }
    ensures first { (prefixes : List (List Choice)) → IsSearch problem.now prefixes nodes.now leasts.now → IsFirst problem.now prefixes nodes.now result.number × (take result.depth path.new ≡ prefix_at prefixes result.number) }
    ensures depth { result.depth ≤ length path.new }
{
    let least = leasts[0];
    let count = problem.own().len();
    let mut number = 0;
    for depth in 0..count {
        let node = nodes[number];
        if node.count == 0 {
            return Found { number, depth };
        }
        number = first_child(&node, leasts, least);
        path[depth] = nodes[number].choice;
    }
    Found {
        number,
        depth: count,
    }
}
