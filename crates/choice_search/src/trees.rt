//! The tree of a search.

ghost use Rattle.std.specs.Prelude.{◌≡◌, ℕ, ◌+◌, ◌<◌, ◌≤◌, ◌^◌, List, [], ◌∷◌, ◌++◌, length, reverse, OnOk, IfOk, IfErr};
ghost use Rattle.std.specs.List.{range_with_len};
ghost use Rattle.choice_core.specs.declared.sharings.Choice.{Choice};
ghost use Rattle.choice_core.specs.declared.problems.Costs.{Costs};
ghost use Rattle.choice_core.specs.Least.{Closes};
ghost use Rattle.choice_search.specs.Answers.{BranchesOpen};
ghost use Rattle.choice_search.specs.Arenas.{IsArena, StandFor, HasBounds, IsShown};

use crate::arenas::Node;
use crate::faults::SearchFault;
use choice_core::{Tree, TreeNode};
use hy_bits::Sequence;
use std::alloc::Global;

/// Puts the numbers of the node's children onto the stack, the first one on top.
fn push_children(stack: &mut Vec<u32>, node: &Node) -> Result<(), SearchFault>
    requires { node.now.first + node.now.count < 2 ^ 32 }
    ensures children { OnOk result (stack.new.items ≡ stack.old.items ++ reverse (range_with_len node.now.first node.now.count)) }
    ensures memory { IfErr result (λ e. e ≡ SearchFault.Memory) }
{
    for number in (node.first..node.first + node.count).rev() {
        stack.push(number)?;
    }
    Ok(())
}

/// Writes a node of the tree, and puts the numbers of its children onto the stack.
fn visit(
    list: &mut Vec<TreeNode>,
    stack: &mut Vec<u32>,
    node: &Node,
    least: u64,
) -> Result<(), SearchFault>
    requires { 0 < node.now.count → node.now.first + node.now.count < 2 ^ 32 }
    ensures leaf { node.now.count ≡ 0 → OnOk result ((list.new.items ≡ list.old.items ++ TreeNode.Leaf least ∷ []) × (stack.new.items ≡ stack.old.items)) }
    ensures branch { 0 < node.now.count → OnOk result ((list.new.items ≡ list.old.items ++ TreeNode.Branch ∷ []) × (stack.new.items ≡ stack.old.items ++ reverse (range_with_len node.now.first node.now.count))) }
    ensures memory { IfErr result (λ e. e ≡ SearchFault.Memory) }
{
    if node.count == 0 {
        list.push(TreeNode::Leaf(least))?;
        return Ok(());
    }
    list.push(TreeNode::Branch)?;
    push_children(stack, node)
}

/// The prefixes of an arena as a tree: a branch for each that was split, and a leaf with its bound
/// for each that waits. The time is linear in the prefixes.
pub fn tree_of(alloc: Global, nodes: &[Node], leasts: &[u64]) -> Result<Tree, SearchFault>
    requires arena { IsArena nodes.now }
    requires few { length nodes.now < 2 ^ 32 }
    requires size { length leasts.now ≡ length nodes.now }
    ensures tree { IfOk result (λ t. (p : Costs) (prefixes : List (List Choice)) (cs : List Choice) → StandFor p prefixes nodes.now → HasBounds p prefixes nodes.now leasts.now → IsShown p cs prefixes nodes.now → Closes p cs t.nodes × BranchesOpen p cs ([] ∷ []) t.nodes) }
    ensures size { IfOk result (λ t. length t.nodes ≤ length nodes.now) }
    ensures memory { IfErr result (λ e. e ≡ SearchFault.Memory) }
{
    let mut list = Vec::new(alloc);
    let mut stack = Vec::new(alloc);
    stack.push(0u32)?;
    while let Some(number) = stack.pop() {
        let number = number as usize;
        visit(&mut list, &mut stack, &nodes[number], leasts[number])?;
    }
    Ok(Tree {
        nodes: Sequence::new(list),
    })
}
