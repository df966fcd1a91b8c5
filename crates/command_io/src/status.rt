//! Statuses, and why a command has no line of its own.

use hy_bits::Memory;
use std::alloc::{AllocError, AllocFailed};

/// How a command ends: the program's exit status.
///
/// | status | meaning |
/// |---|---|
/// | 0 | the command's line is printed |
/// | 1 | the words are not of a command |
/// | 2 | a file could not be read or written |
/// | 3 | a fault of the source: too long, or of its tokens, its syntax or its types |
/// | 4 | the source has a construct of C that is left out |
/// | 5 | a limit is passed |
/// | 6 | a fault of the inputs |
/// | 9 | the sink failed |
/// | 10 | memory ran out |
#[derive(Clone, Copy, Debug, PartialEq, Eq)]
pub struct Status {
    pub code: u8,
}

/// A status with the line that goes with it.
#[derive(Debug, Drop)]
pub struct Line {
    pub code: u8,
    pub text: String,
}

/// Why a command has no line of its own.
#[derive(Debug, Drop)]
pub enum Stop {
    /// A fault, with its line.
    Fault(Line),
    /// Memory ran out.
    Memory,
}

impl From<Memory> for Stop {
    ghost use Rattle.std.specs.Prelude.{◌≡◌};
    ghost use Rattle.command_io.specs.declared.status.Stop.TheVariants.{Memory as WantOfMemory};

    ghost from_gives = { λ _ stop. stop ≡ WantOfMemory };

    fn from(_error: Memory) -> Stop {
        Stop::Memory
    }
}

impl From<AllocError> for Stop {
    ghost use Rattle.std.specs.Prelude.{◌≡◌};
    ghost use Rattle.command_io.specs.declared.status.Stop.TheVariants.{Memory as WantOfMemory};

    ghost from_gives = { λ _ stop. stop ≡ WantOfMemory };

    fn from(_error: AllocError) -> Stop {
        Stop::Memory
    }
}

impl<T: Drop> From<AllocFailed<T>> for Stop {
    ghost use Rattle.std.specs.Prelude.{◌≡◌};
    ghost use Rattle.command_io.specs.declared.status.Stop.TheVariants.{Memory as WantOfMemory};

    ghost from_gives = { λ _ stop. stop ≡ WantOfMemory };

    fn from(_error: AllocFailed<T>) -> Stop {
        Stop::Memory
    }
}
