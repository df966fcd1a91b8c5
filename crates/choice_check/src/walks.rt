//! A walk through the nodes of a tree.

ghost use Rattle.std.specs.Prelude.{◌≡◌, ◌+◌, ◌-◌, ◌^◌, ◌<◌, ◌≤◌, ◌==◌, cond, length, take, MatchResult, IfOk};
ghost use Rattle.choice_core.specs.Problems.{cost_of, IsProblem};
ghost use Rattle.choice_core.specs.Bound.{bound_of};
ghost use Rattle.choice_check.specs.Walks.{IsPath, GoesOn, Stops};

use crate::closing::closes;
use crate::faults::TreeFault;
use crate::paths::{advance, bound_with, count_choices, first_choice};
use choice_core::{Choice, Problem, TreeNode};

/// Where a walk stands: how many choices of the path the next prefix has that is due, how many
/// prefixes are due, the lowest number among the branches that still lack a child, the bound of that prefix, and
/// that of the prefix without its last choice.
#[derive(Clone, Copy)]
pub struct Walk {
    pub depth: usize,
    pub count: usize,
    pub lowest: u32,
    pub bound: u64,
    pub parent: u64,
}

/// The lowest number among the branches that lack a child, where one more branch begins: the others
/// lack one where more than one prefix is due.
fn lowest_below(walk: Walk, number: u32) -> u32
    ensures { result ≡ cond (walk.count == 1) number walk.lowest }
{
    if walk.count == 1 { number } else { walk.lowest }
}

/// Goes down from a branch to its first child.
fn down(
    problem: &Problem,
    choices: &[Choice],
    number: u32,
    path: &mut [Choice],
    walk: Walk,
) -> Result<Walk, TreeFault>
    requires problem { IsProblem problem.now }
    requires path { IsPath problem.now path.old walk.depth }
    requires bound { walk.bound ≡ bound_of problem.now (take walk.depth path.old) }
    requires some { 0 < walk.count }
    requires few { walk.count < 2 ^ 60 }
    requires lowest { walk.lowest ≤ number }
    ensures node { MatchResult result (λ w. GoesOn problem.now choices.now number TreeNode.Branch path.old walk path.new w) (λ f. Stops problem.now choices.now number TreeNode.Branch path.old walk f) }
    ensures path { IfOk result (λ w. IsPath problem.now path.new w.depth) }
    ensures bound { IfOk result (λ w. w.bound ≡ bound_of problem.now (take w.depth path.new)) }
    ensures parent { IfOk result (λ w. w.parent ≡ bound_of problem.now (take (w.depth - 1) path.new)) }
    ensures few { IfOk result (λ w. w.count ≤ walk.count + 3) }
    ensures lowest { IfOk result (λ w. w.lowest ≤ number) }
{
    let rows = problem.own();
    if walk.depth >= rows.len() {
        return Err(TreeFault::Shape(number));
    }
    let row = &rows[walk.depth];
    path[walk.depth] = first_choice(row);
    Ok(Walk {
        depth: walk.depth + 1,
        count: walk.count - 1 + count_choices(row),
        lowest: lowest_below(walk, number),
        bound: bound_with(problem, path, walk.depth, walk.bound),
        parent: walk.bound,
    })
}

/// Goes on behind a leaf.
fn past(
    problem: &Problem,
    choices: &[Choice],
    cost: u64,
    number: u32,
    value: u64,
    path: &mut [Choice],
    walk: Walk,
) -> Result<Walk, TreeFault>
    requires problem { IsProblem problem.now }
    requires cost { cost ≡ cost_of problem.now choices.now }
    requires path { IsPath problem.now path.old walk.depth }
    requires bound { walk.bound ≡ bound_of problem.now (take walk.depth path.old) }
    requires parent { walk.parent ≡ bound_of problem.now (take (walk.depth - 1) path.old) }
    requires some { 0 < walk.count }
    ensures node { MatchResult result (λ w. GoesOn problem.now choices.now number (TreeNode.Leaf value) path.old walk path.new w) (λ f. Stops problem.now choices.now number (TreeNode.Leaf value) path.old walk f) }
    ensures path { IfOk result (λ w. IsPath problem.now path.new w.depth) }
    ensures bound { IfOk result (λ w. w.bound ≡ bound_of problem.now (take w.depth path.new)) }
    ensures parent { IfOk result (λ w. w.parent ≡ bound_of problem.now (take (w.depth - 1) path.new)) }
    ensures few { IfOk result (λ w. w.count ≤ walk.count) }
    ensures lowest { IfOk result (λ w. w.lowest ≡ walk.lowest) }
{
    let prefix = &path[..walk.depth];
    if value != walk.bound || !closes(problem, choices, cost, prefix, walk.bound) {
        return Err(TreeFault::Leaf(number, walk.bound));
    }
    let next = advance(problem, path, walk.depth, walk.bound, walk.parent);
    Ok(Walk {
        depth: next.depth,
        count: walk.count - 1,
        lowest: walk.lowest,
        bound: next.bound,
        parent: next.parent,
    })
}

/// Goes on behind a node.
pub fn step(
    problem: &Problem,
    choices: &[Choice],
    cost: u64,
    number: u32,
    node: TreeNode,
    path: &mut [Choice],
    walk: Walk,
) -> Result<Walk, TreeFault>
    requires problem { IsProblem problem.now }
    requires cost { cost ≡ cost_of problem.now choices.now }
    requires path { IsPath problem.now path.old walk.depth }
    requires bound { walk.bound ≡ bound_of problem.now (take walk.depth path.old) }
    requires parent { walk.parent ≡ bound_of problem.now (take (walk.depth - 1) path.old) }
    requires few { walk.count < 2 ^ 60 }
    requires lowest { walk.lowest ≤ number }
    ensures node { MatchResult result (λ w. GoesOn problem.now choices.now number node path.old walk path.new w) (λ f. Stops problem.now choices.now number node path.old walk f) }
    ensures path { IfOk result (λ w. IsPath problem.now path.new w.depth) }
    ensures bound { IfOk result (λ w. w.bound ≡ bound_of problem.now (take w.depth path.new)) }
    ensures parent { IfOk result (λ w. w.parent ≡ bound_of problem.now (take (w.depth - 1) path.new)) }
    ensures few { IfOk result (λ w. w.count ≤ walk.count + 3) }
    ensures lowest { IfOk result (λ w. w.lowest ≤ number) }
{
    if walk.count == 0 {
        return Err(TreeFault::Shape(number));
    }
    match node {
        TreeNode::Branch => down(problem, choices, number, path, walk),
        TreeNode::Leaf(value) => past(problem, choices, cost, number, value, path, walk),
    }
}
