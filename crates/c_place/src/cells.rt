//! The cells of objects.
ghost use Rattle.std.specs.Prelude.{◌≡◌};
ghost use Rattle.c_place.specs.Boards.{nodes_of, zero_of};

use crate::targets::Targets;
use hy_bits::Width;
use std::alloc::Global;
use std::marker::Model;
use std::mem;
use word_graph::Node;

/// What an object holds: a node for each cell, or a pointer.
#[derive(Debug, Drop)]
pub enum Held {
    Words(Vec<Node>),
    Pointer(Targets),
}

impl Held {
    ghost use Rattle.std.specs.Prelude.{◌≡◌, Some};
    ghost use Rattle.c_place.specs.Boards.{nodes_in};

    /// The nodes of the cells, of which a pointer has none.
    fn into_nodes(self, alloc: Global) -> Vec<Node>
        ensures { result.items ≡ nodes_in (Some self) }
    {
        match self {
            Held::Words(nodes) => nodes,
            Held::Pointer(_) => Vec::new(alloc),
        }
    }
}

/// Nodes that are 0, one of each width.
#[derive(Clone, Copy, Debug, PartialEq, Eq)]
pub struct Zeros {
    pub w1: Node,
    pub w8: Node,
    pub w16: Node,
    pub w32: Node,
    pub w64: Node,
}

/// All objects by their numbers.
#[derive(Debug, Drop)]
pub struct Board {
    pub zeros: Zeros,
    pub objects: Vec<Held>,
}

/// The cells of all objects of a program, as nodes of a graph.
#[derive(Debug, Drop)]
pub struct Cells {
    pub(crate) board: Board,
}

impl Model for Cells {
    ghost use Rattle.c_place.specs.declared.cells.Board.{Board};

    ghost Value = { Board };

    ghost view = { λ c. c.board };
}

impl Cells {
    ghost use Rattle.std.specs.Prelude.{◌≡◌, ◌<◌, length, set};
    ghost use Rattle.c_place.specs.declared.cells.Held.{Held};
    ghost use Rattle.c_place.specs.Boards.{nodes_of, zero_of};

    /// The cells of this board. It takes no memory.
    pub fn of(board: Board) -> Cells
        ensures { result ≡ board }
    {
        Cells { board }
    }

    /// The nodes of the cells of an object that is no pointer.
    pub(crate) fn nodes(&self, object: u32) -> &[Node]
        ensures { result.now ≡ nodes_of self.now object }
    {
        match self.board.objects.get(object as usize) {
            Some(Held::Words(nodes)) => nodes.as_slice(),
            _ => &[],
        }
    }

    /// A node of the width that is 0.
    pub(crate) fn zero(&self, width: Width) -> Node
        ensures { result ≡ zero_of self.now width }
    {
        match width {
            Width::W1 => self.board.zeros.w1,
            Width::W8 => self.board.zeros.w8,
            Width::W16 => self.board.zeros.w16,
            Width::W32 => self.board.zeros.w32,
            Width::W64 => self.board.zeros.w64,
        }
    }

    /// The nodes of the cells of an object, taken out of it.
    pub(crate) fn take_nodes(&mut self, alloc: Global, object: u32) -> Vec<Node>
        requires { object < length self.old.objects.items }
        ensures nodes { result.items ≡ nodes_of self.old object }
        ensures object { (h : Held) × (self.new.objects.items ≡ set self.old.objects.items object h) }
        ensures zeros { self.new.zeros ≡ self.old.zeros }
    {
        let held = mem::replace(
            &mut self.board.objects[object as usize],
            Held::Words(Vec::new(alloc)),
        );
        held.into_nodes(alloc)
    }

    /// Gives an object the nodes of its cells.
    pub(crate) fn put_nodes(&mut self, object: u32, nodes: Vec<Node>)
        requires { object < length self.old.objects.items }
        ensures objects { self.new.objects.items ≡ set self.old.objects.items object (Held.Words nodes) }
        ensures zeros { self.new.zeros ≡ self.old.zeros }
    {
        self.board.objects[object as usize] = Held::Words(nodes);
    }
}
