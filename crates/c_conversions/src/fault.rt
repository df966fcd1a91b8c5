ghost use Rattle.std.specs.Prelude.{◌≡◌};

use c_tree::Place;
use hy_bits::Memory;
use std::alloc::{AllocError, AllocFailed};

/// How a program breaks a rule of types.
#[derive(Clone, Copy, Debug, PartialEq, Eq)]
pub enum TypeKind {
    /// A name, tag or member that isn't declared, or a struct that isn't complete.
    Unknown,
    /// A name, tag, member or case value again in its scope, or a second `default`.
    Twice,
    /// Any rule that has no kind of its own.
    Mismatch,
    /// No constant expression where one is wanted, or one out of range.
    NotConstant,
    /// A loop without a bound.
    NoBound,
    /// A call of the function itself, or of `mpc_main`.
    Recursion,
    /// An order, a difference or a cast of pointers, a conversion to `_Bool`, the address of a pointer, or an array of pointers.
    PointerForm,
    /// No `mpc_main`, or one with a result or a parameter that isn't allowed.
    NoEntry,
    /// More than 2^16 cells.
    Cells,
    /// More than 2^20 visits of statements.
    Unroll,
    /// Memory ran out; the place says nothing.
    Memory,
}

/// The first rule of types that a program breaks, at its place.
#[derive(Clone, Copy, Debug, PartialEq, Eq)]
pub struct TypeFault {
    pub kind: TypeKind,
    pub place: Place,
}

impl TypeFault {
    /// A rule that is broken in this way at the place.
    pub fn new(kind: TypeKind, place: Place) -> TypeFault
        ensures { result ≡ record { kind = kind; place = place } }
    {
        TypeFault { kind, place }
    }
}

impl From<Memory> for TypeFault {
    ghost use Rattle.std.specs.Prelude.{◌≡◌};
    ghost use Rattle.c_conversions.specs.declared.fault.TypeKind.TheVariants as kinds;

    ghost from_gives = { λ _ fault. fault.kind ≡ kinds.Memory };

    fn from(_error: Memory) -> TypeFault {
        TypeFault {
            kind: TypeKind::Memory,
            place: Place { line: 1, column: 1 },
        }
    }
}

impl From<AllocError> for TypeFault {
    ghost use Rattle.std.specs.Prelude.{◌≡◌};
    ghost use Rattle.c_conversions.specs.declared.fault.TypeKind.TheVariants as kinds;

    ghost from_gives = { λ _ fault. fault.kind ≡ kinds.Memory };

    fn from(_error: AllocError) -> TypeFault {
        TypeFault::from(Memory)
    }
}

impl<T: Drop> From<AllocFailed<T>> for TypeFault {
    ghost use Rattle.std.specs.Prelude.{◌≡◌};
    ghost use Rattle.c_conversions.specs.declared.fault.TypeKind.TheVariants as kinds;

    ghost from_gives = { λ _ fault. fault.kind ≡ kinds.Memory };

    fn from(_error: AllocFailed<T>) -> TypeFault {
        TypeFault::from(Memory)
    }
}
