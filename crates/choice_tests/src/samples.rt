//! Problems that several tests share.
ghost use Rattle.std.specs.Prelude.{◌≡◌, ◌≢◌, ◌+◌, ◌*◌, ◌<◌, ◌≤◌, List, length, All, IfOk, IsSome, [], ◌∷◌};
ghost use Rattle.choice_core.specs.declared.sharings.Choice.{Choice};
ghost use Rattle.choice_core.specs.declared.sharings.Sharing.{Sharing};
ghost use Rattle.choice_core.specs.declared.problems.Fan.{Fan};
ghost use Rattle.choice_core.specs.Problems.{own_of, price_of, Fits, IsAssignment, IsFan, IsProblem, greatest_own, greatest_price};

use choice_core::{Choice, Fan, Problem, TreeNode};
use hy_bits::{Memory, Sequence};
use std::alloc::{AllocError, Global};

/// The tree that shows the least list of `three`, S, Y, Y: the five branches are the empty prefix, Y, C, S, and S with Y.
pub const THREE: [TreeNode; 16] = [
    TreeNode::Branch,
    TreeNode::Branch,
    TreeNode::Leaf(2),
    TreeNode::Leaf(2),
    TreeNode::Leaf(2),
    TreeNode::Branch,
    TreeNode::Leaf(2),
    TreeNode::Leaf(2),
    TreeNode::Leaf(2),
    TreeNode::Branch,
    TreeNode::Branch,
    TreeNode::Leaf(1),
    TreeNode::Leaf(1),
    TreeNode::Leaf(1),
    TreeNode::Leaf(1),
    TreeNode::Leaf(1),
];

/// A fan with one consumer, or two.
pub fn fan(
    alloc: Global,
    from: u32,
    to: u32,
    last: u32,
    price: [[u64; 3]; 3],
    count: u32,
) -> Result<Fan, AllocError>
    requires below { from < to }
    requires within { to < count }
    requires last { last < count }
    requires free { (f : Fan) → f.price ≡ price → (s : Sharing) → price_of f s s ≡ 0 }
    ensures fan { IfOk result (λ f. IsFan count f) }
    ensures price { IfOk result (λ f. f.price ≡ price) }
{
    let mut consumers = Vec::new(alloc);
    consumers.push(to)?;
    if last > to {
        consumers.push(last)?;
    }
    Ok(Fan {
        from,
        to: Sequence::new(consumers),
        price,
    })
}

/// The fan from one module to another that costs 1000 between B and Y.
pub fn edge(alloc: Global, from: u32, to: u32, count: u32) -> Result<Fan, AllocError>
    requires below { from < to }
    requires within { to < count }
    ensures fan { IfOk result (λ f. IsFan count f) }
    ensures price { IfOk result (λ f. greatest_price f ≡ 1000) }
{
    let mut consumers = Vec::new(alloc);
    consumers.push(to)?;
    Ok(Fan {
        from,
        to: Sequence::new(consumers),
        price: [[0, 0, 0], [0, 0, 1000], [0, 1000, 0]],
    })
}

/// The own costs of a module of `ladder`.
fn row(number: u32, leaves: u32) -> [Option<u64>; 4]
    ensures greatest { greatest_own result ≡ 1000 }
    ensures some { (c : Choice) → c ≢ Choice.A → IsSome (own_of result c) }
{
    if number >= leaves {
        [None, Some(0), Some(0), Some(1000)]
    } else if number % 2 == 0 {
        [None, Some(0), Some(1), Some(1000)]
    } else {
        [None, Some(1), Some(0), Some(1000)]
    }
}

/// Leaves that would like Y and C in turn, each with an edge to a middle module of its own, and
/// each of these with an edge to the last module.
pub fn ladder(alloc: Global, leaves: u32) -> Result<Problem, Memory>
    requires { leaves ≤ 20 }
    ensures problem { IfOk result (λ p. IsProblem p) }
    ensures count { IfOk result (λ p. length p.own ≡ 2 * leaves + 1) }
    ensures boolean { IfOk result (λ p. (cs : List Choice) → All (λ c. c ≢ Choice.A) cs → length cs ≤ length p.own → Fits p.own cs) }
{
    let count = 2 * leaves + 1;
    let mut own = Vec::new(alloc);
    for number in 0..count {
        own.push(row(number, leaves))?;
    }
    let mut fans = Vec::new(alloc);
    for leaf in 0..leaves {
        fans.push(edge(alloc, leaf, leaves + leaf, count)?)?;
        fans.push(edge(alloc, leaves + leaf, 2 * leaves, count)?)?;
    }
    Problem::of(alloc, Sequence::new(own), Sequence::new(fans))
}

/// Three modules without A, and one fan that costs 1 from Y to B.
pub fn three(alloc: Global) -> Result<Problem, Memory>
    ensures problem { IfOk result (λ p. IsProblem p) }
    ensures assigned { IfOk result (λ p. IsAssignment p (Choice.S ∷ Choice.Y ∷ Choice.Y ∷ [])) }
    ensures three { IfOk result (λ p. length p.own ≡ 3) }
{
    let mut own = Vec::new(alloc);
    own.push([None, Some(1), Some(1), Some(0)])?;
    own.push([None, Some(0), Some(1), Some(1)])?;
    own.push([None, Some(1), Some(0), Some(0)])?;
    let mut consumers = Vec::new(alloc);
    consumers.push(2)?;
    let mut fans = Vec::new(alloc);
    fans.push(Fan {
        from: 1,
        to: Sequence::new(consumers),
        price: [[0, 0, 0], [0, 0, 0], [0, 1, 0]],
    })?;
    Problem::of(alloc, Sequence::new(own), Sequence::new(fans))
}
