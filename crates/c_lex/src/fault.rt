ghost use Rattle.std.specs.Prelude.{◌≡◌};

use c_tree::Place;
use hy_bits::Memory;
use std::alloc::{AllocError, AllocFailed};

/// Why a text has no tokens.
#[derive(Clone, Copy, Debug, PartialEq, Eq)]
pub enum LexKind {
    /// A byte that no text has there: outside literals and comments one of `\`, `` ` ``, `@`, `$`, a `#` that is not the
    /// first of its line, or a byte that is neither white space nor printed.
    BadByte,
    /// A number that is no literal or that no type has, a character constant of another form, or a string without an end
    /// on its line.
    BadLiteral,
    /// A comment without an end.
    OpenComment,
    /// A directive of another form, or a second definition of a name. Its place is that of the `#`.
    Directive,
    /// The definition of a name that stood earlier.
    LateMacro,
    /// The token with which those of the text and of all macros' lists are more than 2^20.
    Tokens,
    /// Memory ran out; the place says nothing.
    Memory,
}

/// The first fault of a text, with its place.
#[derive(Clone, Copy, Debug, PartialEq, Eq)]
pub struct LexFault {
    pub kind: LexKind,
    pub place: Place,
}

impl LexFault {
    /// A fault of this kind.
    pub fn new(kind: LexKind, place: Place) -> LexFault
        ensures { result ≡ record { kind = kind; place = place } }
    {
        LexFault { kind, place }
    }
}

impl From<Memory> for LexFault {
    ghost use Rattle.std.specs.Prelude.{◌≡◌};
    ghost use Rattle.c_lex.specs.declared.fault.LexKind.TheVariants as kinds;

    ghost from_gives = { λ _ fault. fault.kind ≡ kinds.Memory };

    fn from(_error: Memory) -> LexFault {
        LexFault {
            kind: LexKind::Memory,
            place: Place { line: 1, column: 1 },
        }
    }
}

impl From<AllocError> for LexFault {
    ghost use Rattle.std.specs.Prelude.{◌≡◌};
    ghost use Rattle.c_lex.specs.declared.fault.LexKind.TheVariants as kinds;

    ghost from_gives = { λ _ fault. fault.kind ≡ kinds.Memory };

    fn from(_error: AllocError) -> LexFault {
        LexFault::from(Memory)
    }
}

impl<T: Drop> From<AllocFailed<T>> for LexFault {
    ghost use Rattle.std.specs.Prelude.{◌≡◌};
    ghost use Rattle.c_lex.specs.declared.fault.LexKind.TheVariants as kinds;

    ghost from_gives = { λ _ fault. fault.kind ≡ kinds.Memory };

    fn from(_error: AllocFailed<T>) -> LexFault {
        LexFault::from(Memory)
    }
}
