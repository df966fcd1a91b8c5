//! Why a search ends without an answer.

ghost use Rattle.std.specs.Prelude.{◌≡◌};

use std::alloc::{AllocError, AllocFailed};

/// Why there is no least list.
#[derive(Clone, Copy, PartialEq, Eq, Debug)]
pub enum SearchFault {
    /// More than 2^18 prefixes that aren't complete don't close for the least list.
    BranchLimit,
    Memory,
}

impl From<AllocError> for SearchFault {
    ghost use Rattle.choice_search.specs.declared.faults.SearchFault.TheVariants.{Memory};

    ghost from_gives = { λ _ e. e ≡ Memory };

    fn from(_error: AllocError) -> SearchFault {
        SearchFault::Memory
    }
}

impl<T: Drop> From<AllocFailed<T>> for SearchFault {
    ghost use Rattle.choice_search.specs.declared.faults.SearchFault.TheVariants.{Memory};

    ghost from_gives = { λ _ e. e ≡ Memory };

    fn from(_error: AllocFailed<T>) -> SearchFault {
        SearchFault::Memory
    }
}

impl From<hy_bits::Memory> for SearchFault {
    ghost use Rattle.choice_search.specs.declared.faults.SearchFault.TheVariants.{Memory};

    ghost from_gives = { λ _ e. e ≡ Memory };

    fn from(_error: hy_bits::Memory) -> SearchFault {
        SearchFault::Memory
    }
}
