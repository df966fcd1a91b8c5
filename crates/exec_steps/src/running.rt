//! A run that is executed.
use c_place::Cells;
use word_graph::{Graph, Node};

/// A run of a program as words of a graph: the cells of all objects, whether a loop has passed its bound, and the words of the value that is returned.
#[derive(Drop)]
pub struct Running {
    pub graph: Graph,
    pub cells: Cells,
    pub past: Node,
    pub returned: Vec<Node>,
}
