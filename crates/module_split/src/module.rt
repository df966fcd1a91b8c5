//! Modules and the edges between them.
ghost use Rattle.std.specs.Prelude.{◌≡◌};

use hy_bits::Sequence;
use std::marker::Model;

/// A list of nodes, by their places in the graph.
pub type Places = Sequence<u32>;

/// The two classes of modules: of the arithmetic class are those whose nodes all are, and all others are Boolean.
#[derive(Clone, Copy, PartialEq, Eq, Debug)]
pub enum Class {
    Arithmetic,
    Boolean,
}

/// A part of a graph. `class` is the arithmetic one where all of its nodes are of it, `layer` says how many changes of class or
/// region lie before it at most, and `region` where its first node comes from. `ins` are the nodes outside that it uses,
/// but for constants, and `outs` those of its nodes that are used outside or are results. All three lists ascend.
#[derive(Drop)]
pub struct Module {
    pub class: Class,
    pub layer: u32,
    pub region: u32,
    pub nodes: Places,
    pub ins: Places,
    pub outs: Places,
}

/// The nodes of the module `from` that the module `to` uses, ascending. There is at least one.
#[derive(Drop)]
pub struct EdgeWords {
    pub from: u32,
    pub to: u32,
    pub words: Places,
}

/// The modules of a graph by layer and then by first node, and the edges between them by `to` and then by `from`.
#[derive(Drop)]
pub struct Modules {
    list: Vec<Module>,
    edges: Vec<EdgeWords>,
}

impl Model for Modules {
    ghost use Rattle.module_split.specs.Pieces.{Pieces};

    ghost Value = { Pieces };

    ghost view = { λ m. record { list = m.list.items; edges = m.edges.items } };
}

impl Modules {
    /// The modules `list` and the edges `edges`. It takes no memory.
    pub fn new(list: Vec<Module>, edges: Vec<EdgeWords>) -> Modules
        ensures { result ≡ record { list = list.items; edges = edges.items } }
    {
        Modules { list, edges }
    }

    /// The modules, in order.
    pub fn list(&self) -> &[Module]
        ensures { result.now ≡ self.now.list }
    {
        self.list.as_slice()
    }

    /// The edges, in order.
    pub fn edges(&self) -> &[EdgeWords]
        ensures { result.now ≡ self.now.edges }
    {
        self.edges.as_slice()
    }
}
