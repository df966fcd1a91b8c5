//! The tree that shows a least list of choices.

use hy_bits::Sequence;

/// A node: a branch has one child for each allowed choice of the next module, in order; a leaf
/// has the bound of its prefix.
#[derive(Clone, Copy, PartialEq, Eq, Debug)]
pub enum TreeNode {
    Branch,
    Leaf(u64),
}

/// The nodes in preorder; the root stands at the empty prefix.
#[derive(Drop)]
pub struct Tree {
    pub nodes: Sequence<TreeNode>,
}
