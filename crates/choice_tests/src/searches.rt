//! The search, and its trees.
ghost use Rattle.std.specs.Prelude.{◌≡◌, ◌<◌, ◌≤◌, ◌^◌, length, IfOk};
ghost use Rattle.choice_core.specs.declared.sharings.Sharing.{Sharing};
ghost use Rattle.choice_core.specs.declared.problems.Fan.{Fan};
ghost use Rattle.choice_core.specs.Problems.{HasChoice, IsAssignment, IsProblem, price_of, greatest_own, greatest_price};

use crate::samples::{THREE, fan, ladder, three};
use choice_check::check;
use choice_core::{Choice, Fan, Problem, Tree, TreeNode, cost};
use choice_search::{SearchFault, best};
use hy_bits::{Memory, Sequence};
use std::alloc::{AllocError, Global};
use std::process::Abort;
use std::test::Fail;

const CHOICES: [Choice; 4] = [Choice::A, Choice::Y, Choice::C, Choice::S];

/// The own costs of a module by a seed: at most 3, and Y is always allowed.
fn small_row(seed: u64) -> [Option<u64>; 4]
    ensures greatest { greatest_own result ≤ 3 }
    ensures some { HasChoice result }
{
    let first = if seed % 3 == 0 {
        None
    } else {
        Some(seed / 3 % 4)
    };
    let last = if seed / 13 % 3 == 0 {
        None
    } else {
        Some(seed / 39 % 4)
    };
    [first, Some(seed / 256 % 4), Some(seed / 1024 % 4), last]
}

/// Prices by a seed, at most 3.
fn small_price(seed: u64) -> [[u64; 3]; 3]
    ensures free { (f : Fan) → f.price ≡ result → (s : Sharing) → price_of f s s ≡ 0 }
    ensures greatest { (f : Fan) → f.price ≡ result → greatest_price f ≤ 3 }
{
    [
        [0, seed % 4, seed / 4 % 4],
        [seed / 16 % 4, 0, seed / 64 % 4],
        [seed / 256 % 4, seed / 1024 % 4, 0],
    ]
}

/// Four modules and five fans by a seed.
fn small(rt: &impl Abort, alloc: Global, seed: u64) -> Result<Problem, Memory>
    ensures problem { IfOk result (λ p. IsProblem p) }
    ensures count { IfOk result (λ p. length p.own ≡ 4) }
{
    let mut own = Vec::new(alloc);
    let mut random = seed;
    for _ in 0..4usize {
        random = random
            .wrapping_mul(6364136223846793005)
            .wrapping_add(1442695040888963407);
        own.push(small_row(random >> 40))?;
    }
    let mut fans = Vec::new(alloc);
    for (from, to, last) in [(0, 1, 2), (0, 3, 3), (1, 2, 3), (1, 3, 3), (2, 3, 3)] {
        random = random
            .wrapping_mul(6364136223846793005)
            .wrapping_add(1442695040888963407);
        assert!(rt; from < to && to < 4 && last < 4);
        fans.push(fan(alloc, from, to, last, small_price(random >> 40), 4)?)?;
    }
    Problem::of(alloc, Sequence::new(own), Sequence::new(fans))
}

/// The choices of this number, the first module's by the highest digit.
fn list_of(number: usize) -> [Choice; 4] {
    [
        CHOICES[number / 64 % 4],
        CHOICES[number / 16 % 4],
        CHOICES[number / 4 % 4],
        CHOICES[number % 4],
    ]
}

/// The place of a sharing of a choice among prices.
fn rank(choice: Choice) -> usize
    ensures { result < 3 }
{
    match choice {
        Choice::A => 0,
        Choice::C | Choice::S => 1,
        Choice::Y => 2,
    }
}

/// What a fan costs, by its own definition.
fn plain_fan(fan: &Fan, choices: &[Choice; 4]) -> u64 {
    let from = rank(choices.get(fan.from as usize).copied().unwrap_or(Choice::A));
    let mut reached = [false; 3];
    for consumer in fan.to.as_slice() {
        let to = choices
            .get(*consumer as usize)
            .copied()
            .unwrap_or(Choice::A);
        reached[rank(to)] = true;
    }
    let mut total = 0u64;
    for to in 0..3 {
        if reached[to] && to != from {
            total = total.saturating_add(fan.price[from][to]);
        }
    }
    total
}

/// What the choices cost, by its own definition, if they are allowed.
fn plain_cost(problem: &Problem, choices: &[Choice; 4]) -> Option<u64> {
    let mut total = 0u64;
    for (row, choice) in problem.own().iter().zip(choices.iter()) {
        total = total.saturating_add(row[choice.place()]?);
    }
    for fan in problem.fans() {
        total = total.saturating_add(plain_fan(fan, choices));
    }
    Some(total)
}

/// The first list of least cost, and that cost, by a walk over all lists.
fn plain_best(problem: &Problem) -> ([Choice; 4], u64) {
    let mut least = u64::MAX;
    let mut list = list_of(0);
    for number in 0..256 {
        let choices = list_of(number);
        if let Some(found) = plain_cost(problem, &choices) {
            if found < least {
                least = found;
                list = choices;
            }
        }
    }
    (list, least)
}

/// The tree of these nodes, with another one at a place.
fn altered(
    alloc: Global,
    nodes: &[TreeNode],
    place: usize,
    other: TreeNode,
) -> Result<Tree, AllocError>
    ensures { IfOk result (λ t. length t.nodes ≤ length nodes.now) }
{
    let mut list = Vec::new(alloc);
    for (number, node) in nodes.iter().enumerate() {
        list.push(if number == place { other } else { *node })?;
    }
    Ok(Tree {
        nodes: Sequence::new(list),
    })
}

/// What may not stand in place of a node: a leaf's number one higher or lower, the other kind of
/// node, and for a branch the leaf with the least cost too.
fn others(node: TreeNode, cost: u64) -> [Option<TreeNode>; 3] {
    match node {
        TreeNode::Branch => [Some(TreeNode::Leaf(0)), Some(TreeNode::Leaf(cost)), None],
        TreeNode::Leaf(0) => [Some(TreeNode::Leaf(1)), Some(TreeNode::Branch), None],
        TreeNode::Leaf(bound) => [
            Some(TreeNode::Leaf(bound.saturating_add(1))),
            Some(TreeNode::Leaf(bound.saturating_sub(1))),
            Some(TreeNode::Branch),
        ],
    }
}

/// What `best` finds, as far as the tests go on with it.
fn found(alloc: Global, problem: &Problem) -> Result<(Sequence<Choice>, Tree), SearchFault>
    requires { IsProblem problem.now }
    ensures assigned { IfOk result (λ found. IsAssignment problem.now found.0) }
    ensures few { IfOk result (λ found. length found.1.nodes < 2 ^ 32) }
{
    best(alloc, problem)
}

fn assert_choices(rt: &impl Abort, found: &[Choice], list: &[Choice]) {
    assert_eq!(rt; found, list);
}

fn assert_nodes(rt: &impl Abort, found: &Tree, nodes: &[TreeNode]) {
    assert_eq!(rt; found.nodes.as_slice(), nodes);
}

/// Alters one node of a tree in each way, and checks each tree that comes of it.
fn refuse_altered(
    rt: &impl Abort,
    alloc: Global,
    problem: &Problem,
    choices: &[Choice],
    nodes: &[TreeNode],
    place: usize,
) -> Result<(), AllocError>
    requires problem { IsProblem problem.now }
    requires assigned { IsAssignment problem.now choices.now }
    requires four { length problem.now.own ≡ 4 }
    requires few { length nodes.now < 2 ^ 32 }
    requires place { place < length nodes.now }
{
    for other in others(nodes[place], cost(problem, choices)) {
        let Some(node) = other else {
            return Ok(());
        };
        let tree = altered(alloc, nodes, place, node)?;
        let mut buffer = [Choice::A; 4];
        assert!(rt; check(problem, choices, &tree, &mut buffer).is_err());
    }
    Ok(())
}

/// Checks a tree, and each one that comes of it with one node altered.
fn compare_trees(
    rt: &impl Abort,
    alloc: Global,
    problem: &Problem,
    choices: &[Choice],
    tree: &Tree,
) -> Result<(), AllocError>
    requires problem { IsProblem problem.now }
    requires assigned { IsAssignment problem.now choices.now }
    requires four { length problem.now.own ≡ 4 }
    requires few { length tree.now.nodes < 2 ^ 32 }
{
    let mut buffer = [Choice::A; 4];
    assert_eq!(rt; check(problem, choices, tree, &mut buffer), Ok(()));
    let nodes = tree.nodes.as_slice();
    for place in 0..nodes.len() {
        refuse_altered(rt, alloc, problem, choices, nodes, place)?;
    }
    Ok(())
}

/// Compares what is found with a walk over all lists, and the tree with each altered one.
fn compare_best(rt: &impl Abort, alloc: Global, problem: &Problem) -> Result<(), Fail>
    requires problem { IsProblem problem.now }
    requires four { length problem.now.own ≡ 4 }
{
    let (choices, tree) = found(alloc, problem)?;
    let (list, least) = plain_best(problem);
    assert_choices(rt, choices.as_slice(), list.as_slice());
    assert_eq!(rt; cost(problem, choices.as_slice()), least);
    compare_trees(rt, alloc, problem, choices.as_slice(), &tree)?;
    Ok(())
}

#[test]
fn the_first_list_of_least_cost_is_found_and_its_tree_alone_passes(
    rt: HostRuntime,
) -> Result<(), Fail> {
    for seed in 0..300 {
        let problem = small(&rt, rt.alloc(), seed)?;
        compare_best(&rt, rt.alloc(), &problem)?;
    }
    Ok(())
}

#[test]
fn ties_go_by_the_first_choices(rt: HostRuntime) -> Result<(), Fail> {
    let problem = three(rt.alloc())?;
    let (choices, tree) = found(rt.alloc(), &problem)?;
    let first = [Choice::S, Choice::Y, Choice::Y];
    assert_choices(&rt, choices.as_slice(), first.as_slice());
    assert_nodes(&rt, &tree, THREE.as_slice());
    Ok(())
}

/// Whether all choices are Y.
fn all_yao(choices: &[Choice]) -> bool {
    choices.iter().all(|choice| *choice == Choice::Y)
}

#[test]
fn a_ladder_of_sixteen_leaves_takes_its_branches(rt: HostRuntime) -> Result<(), Fail> {
    let problem = ladder(rt.alloc(), 16)?;
    let (choices, tree) = found(rt.alloc(), &problem)?;
    assert_eq!(rt; choices.as_slice().len(), 33);
    assert!(rt; all_yao(choices.as_slice()));
    assert_eq!(rt; cost(&problem, choices.as_slice()), 8);
    assert_eq!(rt; tree.nodes.as_slice().len(), 352777);
    Ok(())
}

#[test]
fn a_ladder_of_twenty_leaves_has_too_many(rt: HostRuntime) -> Result<(), Fail> {
    let problem = ladder(rt.alloc(), 20)?;
    assert!(rt; matches!(found(rt.alloc(), &problem), Err(SearchFault::BranchLimit)));
    Ok(())
}
