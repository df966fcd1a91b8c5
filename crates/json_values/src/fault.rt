use hy_bits::{Memory, Role, Text};
use std::alloc::{AllocError, AllocFailed};

/// What is wrong with a party's text.
#[derive(Clone, Copy, Debug, PartialEq, Eq)]
pub enum InputKind {
    /// The text is not one object of JSON.
    Json,
    /// A member that the ports ask for is not there.
    Missing,
    /// A member stands there for which there is no port or field.
    Extra,
    /// Something else stands in the place of a number, an array of this length or an object.
    Shape,
    /// A number is not read as a whole number of 64 bits.
    NotWhole,
    /// The scalar does not hold the number.
    Range,
    /// Memory ran out.
    Memory,
}

/// The first fault of the parties' texts: its kind, whose text it is in, and the path to its place, as `INPUT_A_p[2].x`.
/// The path of `Json` and of `Memory` is empty.
#[derive(Debug, Drop)]
pub struct InputFault {
    pub fault: InputKind,
    pub file: Role,
    pub name: Text,
}

/// A fault, with the path to its place from where the walk began.
#[derive(Drop)]
pub struct Fault {
    pub kind: InputKind,
    pub path: Text,
}

/// Why a walk over a value stops before its end.
#[derive(Drop)]
pub enum Stop {
    Fault(Fault),
    Memory,
}

impl From<Memory> for Stop {
    ghost use Rattle.std.specs.Prelude.{◌≡◌};
    ghost use Rattle.json_values.specs.declared.fault.Stop.TheVariants.{Memory as WantOfMemory};

    ghost from_gives = { λ _ stop. stop ≡ WantOfMemory };

    fn from(_error: Memory) -> Stop {
        Stop::Memory
    }
}

impl From<AllocError> for Stop {
    ghost use Rattle.std.specs.Prelude.{◌≡◌};
    ghost use Rattle.json_values.specs.declared.fault.Stop.TheVariants.{Memory as WantOfMemory};

    ghost from_gives = { λ _ stop. stop ≡ WantOfMemory };

    fn from(_error: AllocError) -> Stop {
        Stop::Memory
    }
}

impl<T: Drop> From<AllocFailed<T>> for Stop {
    ghost use Rattle.std.specs.Prelude.{◌≡◌};
    ghost use Rattle.json_values.specs.declared.fault.Stop.TheVariants.{Memory as WantOfMemory};

    ghost from_gives = { λ _ stop. stop ≡ WantOfMemory };

    fn from(_error: AllocFailed<T>) -> Stop {
        Stop::Memory
    }
}
