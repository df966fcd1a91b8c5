//! The check of a whole tree.

ghost use Rattle.std.specs.Prelude.{◌≡◌, ◌^◌, ◌<◌, length, IfOk, IfErr, IsOk};
ghost use Rattle.choice_core.specs.Problems.{IsAssignment, IsProblem};
ghost use Rattle.choice_core.specs.Least.{Closes, IsLeast};
ghost use Rattle.choice_check.specs.Faults.{IsFault};

use crate::faults::TreeFault;
use crate::walks::{Walk, step};
use choice_core::{Choice, Problem, Tree, bound, cost};

/// Whether the tree closes for the choices, which are then the least ones, whoever made the tree.
/// The first node in preorder is named that is a leaf without its prefix's bound or whose prefix
/// doesn't close, a branch at a complete prefix, or surplus; where there is none, the lowest
/// numbered branch that lacks a child, and 0 for a tree without nodes. `buffer` is overwritten. It
/// takes no memory. Its time is that of `bound` once, of `rise` for each node but those with S after the same with C, and of `rise` for each branch once
/// more; a leaf whose bound is the cost is compared with the choices besides.
pub fn check(
    problem: &Problem,
    choices: &[Choice],
    tree: &Tree,
    buffer: &mut [Choice],
) -> Result<(), TreeFault>
    requires problem { IsProblem problem.now }
    requires assigned { IsAssignment problem.now choices.now }
    requires few { length tree.now.nodes < 2 ^ 32 }
    requires size { length buffer.old ≡ length problem.now.own }
    ensures closes { IfOk result (λ _. Closes problem.now choices.now tree.now.nodes) }
    ensures least { IfOk result (λ _. IsLeast problem.now choices.now) }
    ensures fault { IfErr result (λ f. IsFault problem.now choices.now tree.now.nodes f) }
    ensures only { Closes problem.now choices.now tree.now.nodes → IsOk result }
{
    let cost = cost(problem, choices);
    let bound = bound(problem, &buffer[..0]);
    let mut walk = Walk {
        depth: 0,
        count: 1,
        lowest: 0,
        bound,
        parent: bound,
    };
    for (number, node) in tree.nodes.as_slice().iter().enumerate() {
        walk = step(problem, choices, cost, number as u32, *node, buffer, walk)?;
    }
    if walk.count == 0 {
        Ok(())
    } else {
        Err(TreeFault::Shape(walk.lowest))
    }
}
