//! The parts of a bundle.
ghost use Rattle.std.specs.Prelude.{◌≡◌};
ghost use Rattle.choice_core.specs.Problems.{IsAssignment, cost_of};
ghost use Rattle.bundle_core.specs.Parts.{IsDraft};
ghost use Rattle.bundle_core.specs.Costs.{problem_of};
ghost use Rattle.bundle_core.specs.Whole.{IsBundle};

use choice_core::{Choice, Table, Tree};
use gate_net::Net;
use hy_bits::{Port, Sequence, Shape, Text};
use module_split::Modules;
use ring_net::RingNet;
use std::marker::Model;
use word_graph::{Graph, Node};

/// The circuits of a module: at A, where its class is the arithmetic one, and the compact and the shallow one of gates. Both
/// of these have one input for each bit of the module's `ins`, the lowest of a word first, and one output for each bit of its `outs`.
#[derive(Drop)]
pub struct Variant {
    pub ring: Option<RingNet>,
    pub compact: Net,
    pub shallow: Net,
}

/// A program as a graph of words, cut into modules that have their circuits, with what the parties' inputs and the
/// result are called. `results` are the bound word's node and those of the result's leaves. No rule holds of it yet.
#[derive(Drop)]
pub struct Parts {
    pub layers: u32,
    pub ports: Sequence<Port>,
    pub result: Shape,
    pub regions: Sequence<Text>,
    pub graph: Graph,
    pub results: Sequence<Node>,
    pub modules: Modules,
    pub variants: Sequence<Variant>,
    pub table: Table,
}

/// A bundle that has no choices yet.
#[derive(Drop)]
pub struct Draft {
    parts: Parts,
}

impl Model for Draft {
    ghost use Rattle.bundle_core.specs.declared.parts.Parts.{Parts};
    ghost use Rattle.hy_bits.specs.contracts.shape.Shape as shape;
    ghost use Rattle.std.specs.Coded.{codes};
    ghost use Rattle.bundle_core.specs.Parts.{IsDraft};

    ghost Value = { Parts };

    ghost coded = { Prim.hlevel (codes, shape.the_row.coded) };

    ghost view = { λ d. d.parts };

    ghost invariant = { λ d. IsDraft d.parts };
}

/// A draft with a choice for each module, their cost, and a tree that may show that no other choices cost less.
#[derive(Drop)]
pub struct Bundle {
    draft: Draft,
    choices: Sequence<Choice>,
    cost: u64,
    tree: Tree,
}

impl Model for Bundle {
    ghost use Rattle.bundle_core.specs.Whole.{Whole, IsBundle};
    ghost use Rattle.hy_bits.specs.contracts.shape.Shape as shape;
    ghost use Rattle.std.specs.Coded.{codes};

    ghost Value = { Whole };

    ghost coded = { Prim.hlevel (codes, shape.the_row.coded) };

    ghost view = { λ b. record { parts = b.draft; choices = b.choices; cost = b.cost; tree = b.tree } };

    ghost invariant = { λ b. IsBundle (record { parts = b.draft; choices = b.choices; cost = b.cost; tree = b.tree }) };
}

impl Draft {
    /// The draft of these parts. It takes no memory.
    pub fn of(parts: Parts) -> Draft
        requires { IsDraft parts }
        ensures { result ≡ parts }
    {
        Draft { parts }
    }

    /// The parts.
    pub fn parts(&self) -> &Parts
        ensures value { result.now ≡ self.now }
        ensures draft { IsDraft self.now }
    {
        &self.parts
    }

    /// The parts, given back without taking memory.
    pub fn into_parts(self) -> Parts
        ensures value { result ≡ self }
        ensures draft { IsDraft self }
    {
        self.parts
    }
}

impl Bundle {
    /// The bundle of these parts. It takes no memory.
    pub fn of(draft: Draft, choices: Sequence<Choice>, cost: u64, tree: Tree) -> Bundle
        requires choices { IsAssignment (problem_of draft) choices }
        requires cost { cost ≡ cost_of (problem_of draft) choices }
        ensures { result ≡ record { parts = draft; choices = choices; cost = cost; tree = tree } }
    {
        Bundle {
            draft,
            choices,
            cost,
            tree,
        }
    }

    /// The draft.
    pub fn draft(&self) -> &Draft
        ensures value { result.now ≡ self.now.parts }
        ensures bundle { IsBundle self.now }
    {
        &self.draft
    }

    /// The parts.
    pub fn parts(&self) -> &Parts
        ensures value { result.now ≡ self.now.parts }
        ensures bundle { IsBundle self.now }
    {
        self.draft.parts()
    }

    /// The choices, one for each module.
    pub fn choices(&self) -> &[Choice]
        ensures value { result.now ≡ self.now.choices }
        ensures bundle { IsBundle self.now }
    {
        self.choices.as_slice()
    }

    /// What the choices cost.
    pub fn cost(&self) -> u64
        ensures value { result ≡ self.now.cost }
        ensures bundle { IsBundle self.now }
    {
        self.cost
    }

    /// The tree.
    pub fn tree(&self) -> &Tree
        ensures value { result.now ≡ self.now.tree }
        ensures bundle { IsBundle self.now }
    {
        &self.tree
    }

    /// The draft, given back without taking memory.
    pub fn into_draft(self) -> Draft
        ensures value { result ≡ self.parts }
        ensures bundle { IsBundle self }
    {
        self.draft
    }
}
