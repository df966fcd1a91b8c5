//! Graphs of words: what a program computes, for all inputs, as a list of operations on words. Equal nodes are one, and
//! what can be known of a node without its inputs is simplified as it is made.
//!
//! # Guarantees
//!
//! - `Graph::node` finds the node of an operation or adds it: it has the operation's value for all inputs, old nodes keep theirs, the
//!   graph stays tidy, and the limit comes exactly where it is full and a new node is wanted (`src/graph.rt`; read `specs/Term.antt`,
//!   `specs/Meaning.antt`, `specs/Folding.antt`, `specs/Answer.antt`, `specs/Growth.antt`).
//! - `Graph::value` gives the value of every node (`src/graph.rt`; read `specs/Meaning.antt`).
//! - `Graph::new`, `Graph::of` and `Graph::entries` make a graph of a list and lend it, with nothing folded (`src/graph.rt`; read
//!   `specs/Shape.antt`).
//! - `Graph::constant_of` gives the word of a constant (`src/graph.rt`; read `specs/Shape.antt`).
//! - `Graph::takes` and `Graph::fits` say yes exactly where a node may be asked for and where inputs fit (`src/graph.rt`; read
//!   `specs/Term.antt`, `specs/Meaning.antt`).
//! - `Entry::term` gives what a node computes as a key of a hash table, equal exactly where the two nodes compute the same
//!   (`src/entry.rt`; read `specs/Term.antt`).
//!
//! Laws that the crates above can import:
//!
//! | lemmas | on |
//! |---|---|
//! | `proofs/GrowthLaws.antt` | growth (`specs/Growth.antt`) composes by adding, keeps widths and values, and where it is of one region without inputs it keeps what inputs fit; a stop at the limit after growth is one from the start |
//! | `proofs/SizeLaws.antt` | the size of a graph (`specs/Size.antt`) is the sum of its nodes' sizes, that of some of its nodes is no greater, and a term has the same size in a prefix and in the whole |
//! | `proofs/PartLaws.antt` | a graph with some nodes left out (`specs/Part.antt`) has the same values, and no greater size |
//! | `proofs/EntryLaws.antt`, `proofs/RunLaws.antt` | what stands at a place, a node more, what a graph carries |
#![tactic(auto)]

mod entry;
mod folding;
mod graph;

pub use entry::{Entry, Node, Term};
pub use graph::{Graph, GraphFault, NODE_LIMIT};
