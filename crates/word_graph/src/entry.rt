//! Nodes and what stands for them in a graph.
ghost use Rattle.std.specs.Prelude.{◌≡◌, ◌≤◌};
ghost use Rattle.word_graph.specs.Term.{arity, taken_by, entry_of, term_of, called_term};

use hy_bits::{Op, Width};

/// A node of a graph: its place in the list of entries, counted from 0.
#[derive(Clone, Copy, PartialEq, Eq, Debug)]
pub struct Node {
    pub index: u32,
}

/// A node as it stands in a graph: an operation whose result has the width `width`, over the nodes at the places `args`.
/// An `In` has the number of its input word in `number`, a `Const` its word. Arguments that the operation doesn't take
/// are 0, and so is the number of all other nodes. The region says where the node comes from; it is 0 for `In` and `Const`.
#[derive(Clone, Copy, PartialEq, Eq, Debug)]
pub struct Entry {
    pub op: Op,
    pub width: Width,
    pub args: [u32; 3],
    pub number: u64,
    pub region: u32,
}

/// What a node computes: an entry without its region. No two nodes of a graph have one term.
#[derive(Clone, Copy, PartialEq, Eq, Hash, Debug)]
pub struct Term {
    pub op: Op,
    pub width: Width,
    pub args: [u32; 3],
    pub number: u64,
}

impl Entry {
    /// The places of the nodes that it takes, in order.
    pub fn taken(&self) -> &[u32]
        ensures { result.now ≡ taken_by self.now }
    {
        &self.args[..arity(self.op)]
    }

    /// What the node computes.
    pub fn term(&self) -> Term
        ensures { result ≡ term_of self.now }
    {
        Term {
            op: self.op,
            width: self.width,
            args: self.args,
            number: self.number,
        }
    }
}

impl Term {
    /// The term of an operation over these nodes.
    pub fn of_call(op: Op, width: Width, args: &[Node], number: u64) -> Term
        ensures { result ≡ called_term op width args.now number }
    {
        let args = match args {
            [] => [0, 0, 0],
            [a] => [a.index, 0, 0],
            [a, b] => [a.index, b.index, 0],
            [a, b, c, ..] => [a.index, b.index, c.index],
        };
        Term {
            op,
            width,
            args,
            number,
        }
    }

    /// The entry of this term, of the region given where it is neither an input nor a constant.
    pub fn entry(&self, region: u32) -> Entry
        ensures { result ≡ entry_of self.now region }
    {
        let region = match self.op {
            Op::In | Op::Const => 0,
            _ => region,
        };
        Entry {
            op: self.op,
            width: self.width,
            args: self.args,
            number: self.number,
            region,
        }
    }
}

/// How many arguments an operation takes.
pub fn arity(op: Op) -> usize
    ensures value { result ≡ arity op }
    ensures few { result ≤ 3 }
{
    match op {
        Op::In | Op::Const => 0,
        Op::Neg | Op::Not | Op::Trunc | Op::ZeroExt | Op::SignExt => 1,
        Op::Sel => 3,
        _ => 2,
    }
}
