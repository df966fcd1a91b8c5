//! The check of trees.
ghost use Rattle.std.specs.Prelude.{◌≤◌, ◌<◌, length, IfOk};

use crate::samples::{THREE, three};
use choice_check::{TreeFault, check};
use choice_core::{Choice, Tree, TreeNode};
use hy_bits::{Memory, Sequence};
use std::alloc::{AllocError, Global};
use std::test::Fail;

/// The tree of these nodes.
fn tree(alloc: Global, nodes: &[TreeNode]) -> Result<Tree, AllocError>
    ensures { IfOk result (λ t. length t.nodes ≤ length nodes.now) }
{
    let mut list = Vec::new(alloc);
    for node in nodes {
        list.push(*node)?;
    }
    Ok(Tree {
        nodes: Sequence::new(list),
    })
}

/// The tree that shows the least list of `three`, and one node more.
fn nodes() -> [TreeNode; 17] {
    let mut nodes = [TreeNode::Leaf(1); 17];
    for (place, node) in THREE.iter().enumerate() {
        nodes[place] = *node;
    }
    nodes
}

/// What the check of the first nodes says, after one node is changed.
fn answer(
    alloc: Global,
    count: usize,
    place: usize,
    node: TreeNode,
) -> Result<Result<(), TreeFault>, Memory>
    requires count { count ≤ 17 }
    requires place { place < 17 }
{
    let problem = three(alloc)?;
    let mut nodes = nodes();
    nodes[place] = node;
    let tree = tree(alloc, &nodes[..count])?;
    let choices = [Choice::S, Choice::Y, Choice::Y];
    let mut buffer = [Choice::A; 3];
    Ok(check(&problem, &choices, &tree, &mut buffer))
}

#[test]
fn the_tree_of_three_modules_closes_and_each_altered_one_is_refused(
    rt: HostRuntime,
) -> Result<(), Fail> {
    let surplus = TreeNode::Leaf(1);
    for (count, place, node, expected) in [
        (16, 16, surplus, Ok(())),
        (17, 16, surplus, Err(TreeFault::Shape(16))),
        (15, 16, surplus, Err(TreeFault::Shape(9))),
        (13, 16, surplus, Err(TreeFault::Shape(9))),
        (9, 16, surplus, Err(TreeFault::Shape(0))),
        (0, 16, surplus, Err(TreeFault::Shape(0))),
        (16, 2, TreeNode::Leaf(3), Err(TreeFault::Leaf(2, 2))),
        (16, 0, TreeNode::Leaf(0), Err(TreeFault::Leaf(0, 0))),
        (16, 10, TreeNode::Leaf(1), Err(TreeFault::Leaf(10, 1))),
        (16, 11, TreeNode::Branch, Err(TreeFault::Shape(11))),
        (16, 14, TreeNode::Branch, Err(TreeFault::Leaf(15, 2))),
    ] {
        assert!(rt; place < 17 && count <= 17);
        assert_eq!(rt; answer(rt.alloc(), count, place, node)?, expected);
    }
    Ok(())
}

#[test]
fn each_node_altered_alone_is_refused(rt: HostRuntime) -> Result<(), Fail> {
    for place in 0..16 {
        let right = nodes()[place];
        for bound in 0..4 {
            let leaf = TreeNode::Leaf(bound);
            let expected = leaf == right;
            assert_eq!(rt; answer(rt.alloc(), 16, place, leaf)?.is_ok(), expected);
        }
        let expected = right == TreeNode::Branch;
        assert_eq!(rt;
            answer(rt.alloc(), 16, place, TreeNode::Branch)?.is_ok(),
            expected
        );
    }
    Ok(())
}
