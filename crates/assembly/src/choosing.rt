//! The least choices of a draft.
ghost use Rattle.std.specs.Prelude.{◌≡◌, [], ◌∷◌, IfErr, IfOk};
ghost use Rattle.choice_core.specs.Least.{Closes, IsLeast};
ghost use Rattle.choice_search.specs.Answers.{BranchesOpen};
ghost use Rattle.bundle_core.specs.Costs.{problem_of};
ghost use Rattle.assembly.specs.Choosing.{IsChosen};

use bundle_core::{Bundle, Draft};
use choice_core::cost;
use choice_search::{SearchFault, best};
use module_circuits::AssemblyFault;
use std::alloc::Global;

/// What comes of a search for the least choices.
#[derive(Drop)]
pub enum Search {
    /// The bundle of the least choices.
    Found(Bundle),
    /// The draft, where the search gave up.
    GivenUp(Draft),
}

/// The bundle of a draft and its least choices, or the draft, where there are too many prefixes to search.
pub fn choose(alloc: Global, draft: Draft) -> Result<Search, AssemblyFault>
    ensures chosen { IfOk result (IsChosen draft) }
    ensures memory { IfErr result (λ e. e ≡ AssemblyFault.Memory) }
{
    let problem = draft.problem(alloc)?;
    match best(alloc, &problem) {
        Ok((choices, tree)) => {
            let cost = cost(&problem, choices.as_slice());
            Ok(Search::Found(Bundle::of(draft, choices, cost, tree)))
        }
        Err(SearchFault::BranchLimit) => Ok(Search::GivenUp(draft)),
        Err(SearchFault::Memory) => Err(AssemblyFault::Memory),
    }
}
