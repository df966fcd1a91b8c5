ghost use Rattle.std.specs.Prelude.{◌≡◌};

use hy_bits::Width;
use share_core::{Instr, InstrKind};

/// The instruction of the kind at the width, with zeros elsewhere.
pub fn instruction(kind: InstrKind, width: Width) -> Instr
    ensures { (result.kind ≡ kind) × (result.width ≡ width) }
{
    Instr {
        kind,
        number: 0,
        width,
        left: 0,
        right: 0,
        target: 0,
        value: 0,
    }
}
