use hy_bits::{Memory, Text};
use std::alloc::AllocError;

/// Why a text is no cost table. A member inside another is named by both, as `a2b.32`.
#[derive(Debug, Drop)]
pub enum TableFault {
    /// The text is not JSON, or no object.
    Json,
    /// The member of this name is missing.
    Missing(Text),
    /// A cost table has no member of this name.
    Extra(Text),
    /// The member of this name is no whole number from 0 to 2^64 - 1, or no object where one is due.
    NotWhole(Text),
    /// The number of this name is 2^32 or more.
    TooLarge(Text),
    /// Memory ran out.
    Memory,
}

impl From<Memory> for TableFault {
    ghost use Rattle.std.specs.Prelude.{◌≡◌};
    ghost use Rattle.cost_table.specs.declared.fault.TableFault.TheVariants as faults;

    ghost from_gives = { λ _ fault. fault ≡ faults.Memory };

    fn from(_error: Memory) -> TableFault {
        TableFault::Memory
    }
}

impl From<AllocError> for TableFault {
    ghost use Rattle.std.specs.Prelude.{◌≡◌};
    ghost use Rattle.cost_table.specs.declared.fault.TableFault.TheVariants as faults;

    ghost from_gives = { λ _ fault. fault ≡ faults.Memory };

    fn from(_error: AllocError) -> TableFault {
        TableFault::Memory
    }
}
