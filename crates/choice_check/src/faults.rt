//! What can be wrong with a tree.

/// Why a tree doesn't show the choices. Nodes are numbered in preorder from 0.
#[derive(Clone, Copy, PartialEq, Eq, Debug)]
pub enum TreeFault {
    /// The branch of this number stands at a complete prefix or lacks a child, or the node of this
    /// number is surplus, or is 0 and lacks.
    Shape(u32),
    /// The leaf of this number doesn't have the bound of its prefix, which is this, or its prefix
    /// doesn't close.
    Leaf(u32, u64),
}
