//! The prefixes that a search has made.

ghost use Rattle.std.specs.Prelude.{[], ◌∷◌, IfOk};
ghost use Rattle.choice_core.specs.Problems.{IsProblem};
ghost use Rattle.choice_search.specs.Arenas.{IsSearch};

use choice_core::{Choice, Problem, bound};
use std::alloc::{AllocError, AllocFailed, Global};

/// A prefix, by its last choice and the number of the prefix without it. The prefixes longer by one
/// choice have the numbers from `first` on; there are `count` of them, and none while it waits.
#[derive(Clone, Copy)]
pub struct Node {
    pub parent: u32,
    pub choice: Choice,
    pub first: u32,
    pub count: u32,
}

/// The prefixes that were made, the empty one first, and for each the least bound of those that
/// wait among it and what extends it.
#[derive(Drop)]
pub struct Arena {
    pub nodes: Vec<Node>,
    pub leasts: Vec<u64>,
}

impl Arena {
    /// The empty prefix alone.
    pub fn new(alloc: Global, problem: &Problem) -> Result<Arena, AllocError>
        requires { IsProblem problem.now }
        ensures { IfOk result (λ a. IsSearch problem.now ([] ∷ []) a.nodes.items a.leasts.items) }
    {
        let mut nodes = Vec::new(alloc);
        nodes.push(Node {
            parent: 0,
            choice: Choice::A,
            first: 0,
            count: 0,
        })?;
        let mut leasts = Vec::new(alloc);
        leasts.push(bound(problem, &[]))?;
        Ok(Arena { nodes, leasts })
    }
}
