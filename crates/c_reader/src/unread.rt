ghost use Rattle.std.specs.Prelude.{◌≡◌, if◌then◌else◌};

use hy_bits::Memory;
use std::alloc::{AllocError, AllocFailed};

/// Why nothing was read: the next token doesn't fit, or it fits and is nested too deeply, or memory ran out.
#[derive(Clone, Copy, Debug, PartialEq, Eq)]
pub enum Unread {
    Bad,
    Deep,
    Memory,
}

impl Unread {
    /// Why a token isn't taken where no level of nesting is left.
    pub fn without_level(fits: bool) -> Unread
        ensures { result ≡ (if fits then Unread.Deep else Unread.Bad) }
    {
        if fits { Unread::Deep } else { Unread::Bad }
    }
}

impl From<Memory> for Unread {
    ghost use Rattle.std.specs.Prelude.{◌≡◌};
    ghost use Rattle.c_reader.specs.declared.unread.Unread.TheVariants as unread;

    ghost from_gives = { λ _ e. e ≡ unread.Memory };

    fn from(_error: Memory) -> Unread {
        Unread::Memory
    }
}

impl From<AllocError> for Unread {
    ghost use Rattle.std.specs.Prelude.{◌≡◌};
    ghost use Rattle.c_reader.specs.declared.unread.Unread.TheVariants as unread;

    ghost from_gives = { λ _ e. e ≡ unread.Memory };

    fn from(_error: AllocError) -> Unread {
        Unread::Memory
    }
}

impl<T: Drop> From<AllocFailed<T>> for Unread {
    ghost use Rattle.std.specs.Prelude.{◌≡◌};
    ghost use Rattle.c_reader.specs.declared.unread.Unread.TheVariants as unread;

    ghost from_gives = { λ _ e. e ≡ unread.Memory };

    fn from(_error: AllocFailed<T>) -> Unread {
        Unread::Memory
    }
}
