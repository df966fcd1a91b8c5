//! Graphs.
ghost use Rattle.std.specs.Prelude.{◌≡◌, ◌≢◌, ◌+◌, ◌<◌, ◌≤◌, ◌↔◌, [], List, ℕ, Some, false, length, slice_get, IsTrue, IfOk, IfErr, OnOk, OnErr};
ghost use Rattle.std.specs.List.{Contains};
ghost use Rattle.hy_bits.specs.declared.op.Op;
ghost use Rattle.word_graph.specs.Term.{NumberFits, Takes, WidthsFit, argument, called_term, terms_of, width_at};
ghost use Rattle.word_graph.specs.Meaning.{HasInput, InputsFit, IsTakenOver, term_value, value, value_over, values, words};
ghost use Rattle.word_graph.specs.Shape.{FitsAfter, IsGraph, constant_at, has_constants_only, node_limit};
ghost use Rattle.word_graph.specs.Folding.{reduced};
ghost use Rattle.word_graph.specs.Answer.{AddsIfWanted, IsNodeOf, LimitIff, SharesOrAdds, Wants};
ghost use Rattle.word_graph.specs.Growth.{Grows, GrowsIn, StopsWithin};
ghost use Rattle.word_graph.specs.Size.{term_size};

use crate::entry::{Entry, Node, Term, arity};
use crate::folding::{Outcome, constant_at, ones, reduced, width_at};
use hy_bits::{Inputs, Op, Width};
use indexmap::IndexSet;
use std::alloc::{AllocError, AllocFailed, Global};
use std::marker::Model;

/// Why a call made no node: the graph held as many nodes as it may, and this many they are, or memory ran out.
#[derive(Clone, Copy, PartialEq, Eq, Debug)]
pub enum GraphFault {
    NodeLimit(u32),
    Memory,
}

impl<T: Drop> From<AllocFailed<T>> for GraphFault {
    ghost use Rattle.word_graph.specs.declared.graph.GraphFault.TheVariants.{Memory};

    ghost from_gives = { λ _ e. e ≡ Memory };

    fn from(_e: AllocFailed<T>) -> GraphFault {
        GraphFault::Memory
    }
}

impl From<AllocError> for GraphFault {
    ghost use Rattle.word_graph.specs.declared.graph.GraphFault.TheVariants.{Memory};

    ghost from_gives = { λ _ e. e ≡ Memory };

    fn from(_e: AllocError) -> GraphFault {
        GraphFault::Memory
    }
}

/// The most nodes of a graph.
pub const NODE_LIMIT: u32 = 1 << 20;

/// A graph of words: a list of entries, each over earlier ones. Contracts see that list.
#[derive(Drop)]
pub struct Graph {
    entries: Vec<Entry>,
    terms: IndexSet<Term>,
}

impl Model for Graph {
    ghost use Rattle.std.specs.Prelude.{◌≡◌, List};
    ghost use Rattle.word_graph.specs.declared.entry.Entry.{Entry};
    ghost use Rattle.word_graph.specs.Shape.{IsGraph};
    ghost use Rattle.word_graph.specs.Term.{terms_of};

    ghost Value = { List Entry };

    ghost view = { λ g. g.entries.items };

    ghost invariant = { λ g. IsGraph g.entries.items × (g.terms.keys ≡ terms_of g.entries.items) };
}

/// The terms of the entries of a graph.
fn distinct_terms(alloc: Global, entries: &[Entry]) -> Result<IndexSet<Term>, GraphFault>
    requires { IsGraph entries.now }
    ensures terms { IfOk result (λ ts. ts.keys ≡ terms_of entries.now) }
    ensures memory { IfErr result (λ e. e ≡ GraphFault.Memory) }
{
    let mut terms = IndexSet::new(alloc);
    for entry in entries {
        terms.insert(entry.term())?;
    }
    Ok(terms)
}

/// Whether the widths of a term's arguments fit.
fn widths_fit(entries: &[Entry], term: &Term) -> bool
    ensures { IsTrue result ↔ WidthsFit term.now.op term.now.width (width_at entries.now (argument term.now 0)) (width_at entries.now (argument term.now 1)) (width_at entries.now (argument term.now 2)) }
{
    let [x, y, z] = term.args;
    let x = width_at(entries, x);
    let y = width_at(entries, y);
    let z = width_at(entries, z);
    let width = term.width;
    match term.op {
        Op::In | Op::Const => true,
        Op::Neg | Op::Not | Op::Shl | Op::ShrU | Op::ShrS => x == width,
        Op::LtU | Op::LtS | Op::Eq => width == Width::W1 && x == y,
        Op::Sel => x == Width::W1 && y == width && z == width,
        Op::Trunc => width.bits() < x.bits(),
        Op::ZeroExt | Op::SignExt => x.bits() < width.bits(),
        Op::Add | Op::Sub | Op::Mul | Op::DivU | Op::DivS => x == width && y == width,
        Op::RemU | Op::RemS | Op::And | Op::Or | Op::Xor => x == width && y == width,
    }
}

/// Whether a node of this operation may have the number.
fn number_fits(op: Op, width: Width, number: u64) -> bool
    ensures { IsTrue result ↔ NumberFits op width number }
{
    match op {
        Op::In => true,
        Op::Const => number <= ones(width),
        _ => number == 0,
    }
}

/// Whether the word that an entry names, where it is an input, is there and fits its width.
fn has_input(words: &[u64], entry: &Entry) -> bool
    ensures { IsTrue result ↔ HasInput words.now entry.now.op entry.now.width entry.now.number }
{
    match entry.op {
        Op::In => match words.get(entry.number as usize) {
            Some(word) => *word <= ones(entry.width),
            None => false,
        },
        _ => true,
    }
}

/// The value of a term, over the nodes before it, their values and the inputs' words.
fn value_over(entries: &[Entry], values: &[u64], inputs: &[u64], term: &Term) -> u64
    requires { IsTakenOver entries.now values.now inputs.now term.now }
    ensures { result ≡ value_over entries.now values.now inputs.now term.now }
{
    let [x, y, z] = term.args;
    let from = width_at(entries, x);
    let a = match term.op {
        Op::In => inputs.get(term.number as usize).copied().unwrap_or(0),
        Op::Const => term.number,
        _ => values.get(x as usize).copied().unwrap_or(0),
    };
    let b = values.get(y as usize).copied().unwrap_or(0);
    let c = values.get(z as usize).copied().unwrap_or(0);
    term.op.value(term.width, from, a, b, c)
}

impl Graph {
    /// The graph with no nodes. It takes no memory.
    pub fn new(alloc: Global) -> Graph
        ensures { result ≡ [] }
    {
        Graph {
            entries: Vec::new(alloc),
            terms: IndexSet::new(alloc),
        }
    }

    /// The graph of `entries`, with nothing simplified. Time grows with their number.
    ///
    /// # Errors
    ///
    /// Memory ran out.
    pub fn of(alloc: Global, entries: Vec<Entry>) -> Result<Graph, GraphFault>
        requires { IsGraph entries.items }
        ensures entries { IfOk result (λ g. g ≡ entries.items) }
        ensures memory { IfErr result (λ e. e ≡ GraphFault.Memory) }
    {
        let terms = distinct_terms(alloc, &entries)?;
        Ok(Graph { entries, terms })
    }

    /// The entries, in order. Node `k` is entry `k`.
    pub fn entries(&self) -> &[Entry]
        ensures value { result.now ≡ self.now }
        ensures graph { IsGraph self.now }
    {
        &self.entries
    }

    /// The word of a node that is a constant.
    pub fn constant_of(&self, node: Node) -> Option<u64>
        ensures { result ≡ constant_at self.now node.index }
    {
        constant_at(&self.entries, node.index)
    }

    /// Whether an operation of this width and number takes these nodes: whether they stand, are as many as it takes, and
    /// have fitting widths, and the number fits.
    pub fn takes(&self, op: Op, width: Width, args: &[Node], number: u64) -> bool
        ensures { IsTrue result ↔ Takes self.now op width args.now number }
    {
        let count = self.entries.len();
        let term = Term::of_call(op, width, args, number);
        args.len() == arity(op)
            && args.iter().all(|node| (node.index as usize) < count)
            && widths_fit(&self.entries, &term)
            && number_fits(op, width, number)
    }

    /// Whether each input that a node names is there and fits the node's width.
    pub fn fits(&self, inputs: &Inputs) -> bool
        ensures { IsTrue result ↔ InputsFit self.now inputs.now }
    {
        let words = inputs.words();
        self.entries.iter().all(|entry| has_input(words, entry))
    }

    /// The values of all nodes into `buffer`, in order, where the inputs are these words. Time grows with the number of
    /// nodes.
    pub fn value(&self, inputs: &Inputs, buffer: &mut [u64])
        requires inputs { InputsFit self.now inputs.now }
        requires places { length buffer.old ≡ length self.now }
        ensures { buffer.new ≡ values self.now inputs.now }
    {
        let entries = self.entries.as_slice();
        let words = inputs.words();
        for (place, entry) in entries.iter().enumerate() {
            let term = entry.term();
            let value = value_over(&entries[..place], &buffer[..place], words, &term);
            buffer[place] = value;
        }
    }

    /// The node of an operation over these nodes, whose result has the width `width`: one that stands, or a new one, of
    /// the region given, at the end of the list. An `In` takes the number of its word, a `Const` its word, and any other
    /// operation 0. What can be simplified without the inputs is. The answer is found by a look-up in constant time.
    ///
    /// # Errors
    ///
    /// `NodeLimit` where the graph holds `NODE_LIMIT` nodes and a new one is wanted; `Memory`. The graph is as before.
    pub fn node(
        &mut self,
        op: Op,
        width: Width,
        args: &[Node],
        number: u64,
        region: u32,
    ) -> Result<Node, GraphFault>
        requires { Takes self.old op width args.now number }

        // The answer, for all inputs that fit.
        ensures stands { IfOk result (λ n. n.index < length self.new) }
        ensures width { IfOk result (λ n. width_at self.new n.index ≡ width) }
        ensures value { IfOk result (λ n. (ins : List ℕ) → InputsFit self.old ins → value self.new ins n.index ≡ term_value ins (words self.old ins) (called_term op width args.now number)) }
        ensures answer { IfOk result (λ n. IsNodeOf self.new (reduced self.old (called_term op width args.now number)) n.index) }

        // The list: this one node more where it is wanted, whose circuit may be no greater than that of the operation.
        ensures list { OnOk result (AddsIfWanted self.old self.new (reduced self.old (called_term op width args.now number)) region) }
        ensures grows { Grows self.old self.new 1 (term_size self.old (called_term op width args.now number)) }
        ensures made { op ≢ Op.In → GrowsIn region self.old self.new 1 (term_size self.old (called_term op width args.now number)) }
        ensures graph { IsGraph self.new }

        // The limit comes exactly where as many nodes stand as may, and a new one is wanted.
        ensures stops { IfErr result (StopsWithin self.old self.new 1) }
        ensures limit { LimitIff result node_limit (Wants self.old (reduced self.old (called_term op width args.now number)) × (length self.old ≡ node_limit)) }
        ensures err { OnErr result (self.new ≡ self.old) }
    {
        let term = Term::of_call(op, width, args, number);
        match reduced(&self.entries, &term) {
            Outcome::Known(index) => Ok(Node { index }),
            Outcome::Makes(made) => {
                let node = self.found_or_made(made, region)?;
                Ok(node)
            }
        }
    }

    /// The node of this very term: one that stands, or a new one.
    fn found_or_made(&mut self, term: Term, region: u32) -> Result<Node, GraphFault>
        requires fits { FitsAfter self.old term }
        requires live { has_constants_only self.old term ≡ false }
        ensures list { OnOk result (SharesOrAdds self.old self.new term region) }
        ensures answer { IfOk result (λ n. slice_get (terms_of self.new) n.index ≡ Some term) }
        ensures graph { IsGraph self.new }
        ensures limit { LimitIff result node_limit (¬ Contains (terms_of self.old) term × (length self.old ≡ node_limit)) }
        ensures err { OnErr result (self.new ≡ self.old) }
    {
        if let Some(place) = self.terms.get_index_of(&term) {
            return Ok(Node {
                index: place as u32,
            });
        }
        let place = self.entries.len() as u32;
        if place == NODE_LIMIT {
            return Err(GraphFault::NodeLimit(NODE_LIMIT));
        }
        self.entries.push(term.entry(region))?;
        match self.terms.insert(term) {
            Ok(_) => Ok(Node { index: place }),
            Err(_) => {
                self.entries.pop();
                Err(GraphFault::Memory)
            }
        }
    }
}
