//! Why a source has no typed program.

ghost use Rattle.std.specs.Prelude.{◌≡◌};

use c_conversions::{TypeFault, TypeKind};
use c_lex::{LexFault, LexKind};
use c_reader::SyntaxFault;

/// The first fault of a source: one of its tokens, of its syntax, or of its types, each at its place; or memory ran out.
#[derive(Debug, Drop)]
pub enum SourceFault {
    Lex(LexFault),
    Syntax(SyntaxFault),
    Types(TypeFault),
    Memory,
}

impl From<LexFault> for SourceFault {
    ghost use Rattle.std.specs.Prelude.{◌≡◌};
    ghost use Rattle.c_front.specs.Front.{of_lexing};

    ghost from_gives = { λ fault source. source ≡ of_lexing fault };

    fn from(fault: LexFault) -> SourceFault {
        match fault.kind {
            LexKind::Memory => SourceFault::Memory,
            _ => SourceFault::Lex(fault),
        }
    }
}

impl From<SyntaxFault> for SourceFault {
    ghost use Rattle.std.specs.Prelude.{◌≡◌};
    ghost use Rattle.c_front.specs.Front.{of_parsing};

    ghost from_gives = { λ fault source. source ≡ of_parsing fault };

    fn from(fault: SyntaxFault) -> SourceFault {
        match fault {
            SyntaxFault::Memory => SourceFault::Memory,
            other => SourceFault::Syntax(other),
        }
    }
}

impl From<TypeFault> for SourceFault {
    ghost use Rattle.std.specs.Prelude.{◌≡◌};
    ghost use Rattle.c_front.specs.Front.{of_typing};

    ghost from_gives = { λ fault source. source ≡ of_typing fault };

    fn from(fault: TypeFault) -> SourceFault {
        match fault.kind {
            TypeKind::Memory => SourceFault::Memory,
            _ => SourceFault::Types(fault),
        }
    }
}
