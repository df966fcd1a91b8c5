//! In which sharings some module takes a node.
ghost use Rattle.std.specs.Prelude.{◌≡◌, ◌==◌, ◌&&◌, ◌<◌, false, replicate, length, slice_set, IfOk};
ghost use Rattle.std.specs.List.{list_any};
ghost use Rattle.module_split.specs.Cut.{is_result};
ghost use Rattle.choice_core.specs.Choices.{same_sharing, sharing_of};
ghost use Rattle.choice_core.specs.declared.sharings.Sharing.TheVariants.{Boolean};
ghost use Rattle.share_plan.specs.Inputs.{is_taken, is_wanted};
ghost use Rattle.share_plan.specs.Takers.{Adds, AreTakers, and_taker, has_taker, no_takers, takers_at};

use choice_core::{Choice, Sharing};
use hy_bits::Memory;
use module_split::Module;
use std::alloc::Global;
use word_graph::Node;

/// In which sharings some module takes a node.
#[derive(Clone, Copy)]
pub struct Takers {
    pub arithmetic: bool,
    pub boolean: bool,
    pub yao: bool,
}

impl Takers {
    ghost use Rattle.share_plan.specs.Takers.{and_taker, has_taker};

    /// Whether some module takes it in this sharing.
    pub fn has(&self, sharing: Sharing) -> bool
        ensures { result ≡ has_taker sharing self.now }
    {
        match sharing {
            Sharing::Arithmetic => self.arithmetic,
            Sharing::Boolean => self.boolean,
            Sharing::Yao => self.yao,
        }
    }

    /// The same, and one more that takes it in this sharing.
    fn and(self, sharing: Sharing) -> Takers
        ensures { result ≡ and_taker sharing self }
    {
        let mut takers = self;
        match sharing {
            Sharing::Arithmetic => takers.arithmetic = true,
            Sharing::Boolean => takers.boolean = true,
            Sharing::Yao => takers.yao = true,
        }
        takers
    }
}

/// The takers of a node.
pub fn takers_at(takers: &[Takers], node: usize) -> Takers
    ensures { result ≡ takers_at takers.now node }
{
    match takers.get(node) {
        Some(takers) => *takers,
        None => Takers {
            arithmetic: false,
            boolean: false,
            yao: false,
        },
    }
}

/// Some module takes the node in this sharing.
fn mark(takers: &mut [Takers], node: usize, sharing: Sharing)
    ensures { takers.new ≡ slice_set takers.old node (and_taker sharing (takers_at takers.old node)) }
{
    if node < takers.len() {
        takers[node] = takers_at(takers, node).and(sharing);
    }
}

/// A module takes these nodes in this sharing.
fn mark_each(takers: &mut [Takers], nodes: &[u32], sharing: Sharing)
    ensures { Adds takers.old takers.new (λ s k. same_sharing sharing s && list_any (λ used. used == k) nodes.now) }
{
    for node in nodes {
        mark(takers, *node as usize, sharing);
    }
}

/// Each module takes what it takes, in the sharing of its choice.
fn mark_modules(takers: &mut [Takers], list: &[Module], choices: &[Choice])
    requires { length choices.now ≡ length list.now }
    ensures { Adds takers.old takers.new (λ s k. is_taken s k list.now choices.now) }
{
    for (number, part) in list.iter().enumerate() {
        mark_each(takers, part.ins.as_slice(), choices[number].sharing());
    }
}

/// The results are taken at B.
fn mark_results(takers: &mut [Takers], results: &[Node])
    ensures { Adds takers.old takers.new (λ s k. same_sharing Boolean s && is_result results.now k) }
{
    for result_node in results {
        mark(takers, result_node.index as usize, Sharing::Boolean);
    }
}

/// For each of so many nodes in which sharings it is taken: by modules under these choices, and as a result at B.
pub fn takers_of(
    alloc: Global,
    count: usize,
    list: &[Module],
    choices: &[Choice],
    results: &[Node],
) -> Result<Vec<Takers>, Memory>
    requires { length choices.now ≡ length list.now }
    ensures { IfOk result (λ takers. AreTakers (is_wanted list.now choices.now results.now) count takers.items) }
{
    let none = Takers {
        arithmetic: false,
        boolean: false,
        yao: false,
    };
    let mut takers = vec![in alloc; none; count]?;
    mark_modules(takers.as_mut_slice(), list, choices);
    mark_results(takers.as_mut_slice(), results);
    Ok(takers)
}
