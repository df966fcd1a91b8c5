//! The search.

ghost use Rattle.std.specs.Prelude.{◌≡◌, ◌+◌, ◌^◌, ◌<◌, ◌≤◌, List, [], ◌∷◌, length, take, OnOk, IfOk, IfErr};
ghost use Rattle.choice_core.specs.declared.sharings.Choice.{Choice};
ghost use Rattle.choice_core.specs.Problems.{IsProblem};
ghost use Rattle.choice_core.specs.Least.{IsLeast, Closes};
ghost use Rattle.choice_search.specs.Answers.{BranchesOpen, HasFewOpen, HasManyOpen};
ghost use Rattle.choice_search.specs.Arenas.{prefix_at};
ghost use Rattle.choice_search.specs.Searched.{IsSearched, IsAt};

use crate::arenas::Arena;
use crate::faults::SearchFault;
use crate::finding::{Found, find};
use crate::lifting::lift;
use crate::trees::tree_of;
use choice_core::{Choice, Problem, Tree};
use hy_bits::Sequence;
use std::alloc::Global;

/// How many prefixes may be split. One more is split before the search gives up.
const BRANCH_LIMIT: u32 = 1 << 18;

/// Splits the prefix that was found, the path's first choices, where it isn't complete.
fn advance(
    problem: &Problem,
    arena: &mut Arena,
    path: &mut [Choice],
    found: Found,
) -> Result<(), SearchFault>
    requires problem { IsProblem problem.now }
    requires stands { (prefixes : List (List Choice)) × (popped : List (List Choice)) × IsAt problem.now prefixes popped arena.old.nodes.items arena.old.leasts.items (take found.depth path.old) found.number }
    requires size { length path.old ≡ length problem.now.own }
    requires short { found.depth < length problem.now.own }
    requires few { length arena.old.nodes.items + 4 < 2 ^ 32 }
    ensures searched { OnOk result ((prefixes popped : List (List Choice)) → IsAt problem.now prefixes popped arena.old.nodes.items arena.old.leasts.items (take found.depth path.old) found.number → (longer : List (List Choice)) × IsSearched problem.now longer (prefix_at prefixes found.number ∷ popped) arena.new.nodes.items arena.new.leasts.items) }
    ensures memory { IfErr result (λ e. e ≡ SearchFault.Memory) }
{
    arena.split(problem, path, found)?;
    lift(
        arena.nodes.as_slice(),
        arena.leasts.as_mut_slice(),
        found.number,
    );
    Ok(())
}

/// The least list of choices, and the tree of the prefixes that the search made, in preorder: a
/// branch for each that isn't complete and doesn't close for that list, of which there may be 2^18,
/// and a leaf with its bound for each other one. The time is that of `rise` for each node, and for
/// each branch linear in its choices; the memory is linear in the nodes and the modules.
pub fn best(alloc: Global, problem: &Problem) -> Result<(Sequence<Choice>, Tree), SearchFault>
    requires { IsProblem problem.now }
    ensures least { IfOk result (λ r. IsLeast problem.now r.0) }
    ensures closes { IfOk result (λ r. Closes problem.now r.0 r.1.nodes) }
    ensures branches { IfOk result (λ r. BranchesOpen problem.now r.0 ([] ∷ []) r.1.nodes) }
    ensures few { IfOk result (λ r. HasFewOpen problem.now r.0) }
    ensures size { IfOk result (λ r. length r.1.nodes ≤ 2 ^ 20 + 1) }
    ensures limit { IfErr result (λ e. e ≡ SearchFault.BranchLimit → (cs : List Choice) × IsLeast problem.now cs × HasManyOpen problem.now cs) }
    ensures large { IfErr result (λ e. e ≡ SearchFault.BranchLimit → 9 < length problem.now.own) }
{
    let count = problem.own().len();
    let mut choices = vec![in alloc; Choice::A; count]?;
    let mut arena = Arena::new(alloc, problem)?;
    for _ in 0..=BRANCH_LIMIT {
        let path = choices.as_mut_slice();
        let nodes = arena.nodes.as_slice();
        let found = find(problem, nodes, arena.leasts.as_slice(), path);
        if found.depth == count {
            let tree = tree_of(alloc, nodes, arena.leasts.as_slice())?;
            return Ok((Sequence::new(choices), tree));
        }
        advance(problem, &mut arena, path, found)?;
    }
    Err(SearchFault::BranchLimit)
}
