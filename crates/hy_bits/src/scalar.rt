ghost use Rattle.std.specs.Prelude.{◌≡◌};

use crate::Width;

/// A scalar type of C: how many bits a value has, and whether it is read as signed. `B1` is `_Bool`.
#[derive(Clone, Copy, Debug, PartialEq, Eq, Hash)]
pub enum Scalar {
    B1,
    S8,
    U8,
    S16,
    U16,
    S32,
    U32,
    S64,
    U64,
}

impl Scalar {
    ghost use Rattle.std.specs.Prelude.{◌≡◌};
    ghost use Rattle.hy_bits.specs.Scalar.{scalar_width, is_signed};

    /// The width of its words.
    pub fn width(self) -> Width
        ensures { result ≡ scalar_width self }
    {
        match self {
            Scalar::B1 => Width::W1,
            Scalar::S8 | Scalar::U8 => Width::W8,
            Scalar::S16 | Scalar::U16 => Width::W16,
            Scalar::S32 | Scalar::U32 => Width::W32,
            Scalar::S64 | Scalar::U64 => Width::W64,
        }
    }

    /// Whether its words are read as signed numbers.
    pub fn signed(self) -> bool
        ensures { result ≡ is_signed self }
    {
        matches!(self, Scalar::S8 | Scalar::S16 | Scalar::S32 | Scalar::S64)
    }
}
