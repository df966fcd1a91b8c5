//! The problem that a bundle sets: which choices cost least.
ghost use Rattle.std.specs.Prelude.{◌≡◌, IfOk};
ghost use Rattle.choice_core.specs.Problems.{IsProblem};
ghost use Rattle.bundle_core.specs.Costs.{problem_of};

use crate::fans::fans_of;
use crate::own::{rows_of, table_is_small};
use crate::parts::{Bundle, Draft};
use choice_core::Problem;
use hy_bits::{Memory, Sequence};
use std::alloc::Global;

impl Draft {
    /// What each choice of circuits costs: of the modules by themselves, counted in their circuits, and of the words that they hand
    /// on. Time grows with the numbers of gates and of words, and with that of comparisons to sort the words of each module by
    /// the modules that use them.
    ///
    /// # Errors
    ///
    /// Memory ran out.
    pub fn problem(&self, alloc: Global) -> Result<Problem, Memory>
        ensures value { IfOk result (λ p. p ≡ problem_of self.now) }
        ensures problem { IfOk result (λ p. IsProblem p) }
    {
        let parts = self.parts();
        let entries = parts.graph.entries();
        // For the proof: all costs together stay below 2^63.
        table_is_small(&parts.table);
        let rows = rows_of(alloc, &parts.table, parts.variants.as_slice())?;
        let fans = fans_of(alloc, &parts.table, entries, parts.modules.list())?;
        Problem::of(alloc, Sequence::new(rows), Sequence::new(fans))
    }
}

impl Bundle {
    /// The problem of the draft, as `Draft::problem` gives it.
    ///
    /// # Errors
    ///
    /// Memory ran out.
    pub fn problem(&self, alloc: Global) -> Result<Problem, Memory>
        ensures value { IfOk result (λ p. p ≡ problem_of self.now.parts) }
        ensures problem { IfOk result (λ p. IsProblem p) }
    {
        self.draft().problem(alloc)
    }
}
