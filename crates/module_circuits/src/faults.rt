//! Why a bundle can't be assembled.

ghost use Rattle.std.specs.Prelude.{◌≡◌};

use std::alloc::{AllocError, AllocFailed};

/// Why there is no bundle.
#[derive(Clone, Copy, PartialEq, Eq, Debug)]
pub enum AssemblyFault {
    /// All compact circuits together, or all shallow ones, would have more gates than this limit.
    GateLimit(u32),
    Memory,
}

impl From<AllocError> for AssemblyFault {
    ghost use Rattle.module_circuits.specs.declared.faults.AssemblyFault.TheVariants.{Memory};

    ghost from_gives = { λ _ e. e ≡ Memory };

    fn from(_error: AllocError) -> AssemblyFault {
        AssemblyFault::Memory
    }
}

impl<T: Drop> From<AllocFailed<T>> for AssemblyFault {
    ghost use Rattle.module_circuits.specs.declared.faults.AssemblyFault.TheVariants.{Memory};

    ghost from_gives = { λ _ e. e ≡ Memory };

    fn from(_error: AllocFailed<T>) -> AssemblyFault {
        AssemblyFault::Memory
    }
}

impl From<hy_bits::Memory> for AssemblyFault {
    ghost use Rattle.module_circuits.specs.declared.faults.AssemblyFault.TheVariants.{Memory};

    ghost from_gives = { λ _ e. e ≡ Memory };

    fn from(_error: hy_bits::Memory) -> AssemblyFault {
        AssemblyFault::Memory
    }
}
