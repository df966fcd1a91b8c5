ghost use Rattle.std.specs.Prelude.{◌≡◌, ℕ, ◌≤◌, ◌<◌, List, length, take, Option, vec_len, IfOk, OnOk, OnErr, IsErrOf, IsOk};
ghost use Rattle.std.specs.Io.KnownBytes.{WriteAppends};
ghost use Rattle.hy_io.specs.Outside.{Store, Rose, NoneFell, Same, Gives, ChangesOnly, IsWritten, IsPartlyWritten};

use hy_bits::Memory;
use std::alloc::Global;

/// Why a file was not read or written.
#[derive(Clone, Copy, Debug, PartialEq, Eq)]
pub enum FileError {
    /// The file system failed, or no file has the name.
    Failed,
    /// Memory ran out.
    Memory,
}

impl From<Memory> for FileError {
    ghost use Rattle.std.specs.Prelude.{◌≡◌};
    ghost use Rattle.hy_io.specs.declared.outside.FileError.TheVariants.{Memory as WantOfMemory};

    ghost from_gives = { λ _ e. e ≡ WantOfMemory };

    fn from(_error: Memory) -> FileError {
        FileError::Memory
    }
}

/// The sink took nothing of a piece.
#[derive(Clone, Copy, Debug, PartialEq, Eq)]
pub struct Failed;

/// Files by name.
pub trait Files {
    /// The bytes under each name, where the object tells them.
    ghost store: { Self → Option Store };

    /// How often a read of this name has failed. The count never falls, and stands still at its type's end.
    ghost failed_reads: { Self → List ℕ → ℕ };

    /// How often a write of this name has failed, likewise.
    ghost failed_writes: { Self → List ℕ → ℕ };

    /// The first `max` bytes of the named file, or all if it has fewer. A name that isn't there is a fault.
    fn read(&mut self, alloc: Global, name: &str, max: usize) -> Result<Vec<u8>, FileError>
        ensures bytes { IfOk result (λ bytes. Gives (store self.old) name.now max bytes.items) }
        ensures bound { IfOk result (λ bytes. vec_len bytes ≤ max) }
        ensures store { store self.new ≡ store self.old }
        ensures cause { IsErrOf result FileError.Failed → Rose (failed_reads self.old name.now) (failed_reads self.new name.now) }
        ensures reads { NoneFell (failed_reads self.old) (failed_reads self.new) }
        ensures writes { Same (failed_writes self.old) (failed_writes self.new) }
        ensures calm { OnOk result (Same (failed_reads self.old) (failed_reads self.new)) };

    /// Puts exactly these bytes under the name. After a fault the name holds a prefix of them or what was there;
    /// where memory ran out nothing has changed. All other names stay.
    fn write(&mut self, alloc: Global, name: &str, bytes: &[u8]) -> Result<(), FileError>
        ensures ok { OnOk result (ChangesOnly (store self.old) (store self.new) name.now (IsWritten bytes.now)) }
        ensures failed { IsErrOf result FileError.Failed → ChangesOnly (store self.old) (store self.new) name.now (IsPartlyWritten bytes.now) }
        ensures memory { IsErrOf result FileError.Memory → store self.new ≡ store self.old }
        ensures cause { IsErrOf result FileError.Failed → Rose (failed_writes self.old name.now) (failed_writes self.new name.now) }
        ensures writes { NoneFell (failed_writes self.old) (failed_writes self.new) }
        ensures reads { Same (failed_reads self.old) (failed_reads self.new) }
        ensures calm { OnOk result (Same (failed_writes self.old) (failed_writes self.new)) };
}

/// What takes bytes in order, as standard output does.
pub trait Sink {
    /// The bytes taken so far, where the object tells them.
    ghost taken: { Self → Option (List ℕ) };

    /// How often a call has failed. The count never falls, and stands still at its type's end.
    ghost faults: { Self → ℕ };

    /// Takes between one byte and all of a piece that isn't empty, and answers how many; of an empty piece 0. A
    /// failed call takes nothing.
    fn write(&mut self, piece: &[u8]) -> Result<usize, Failed>
        ensures bound { IfOk result (λ count. count ≤ length piece.now) }
        ensures progress { IfOk result (λ count. 0 < length piece.now → 0 < count) }
        ensures bytes { WriteAppends (taken self.old) (taken self.new) result piece.now }
        ensures empty { length piece.now ≡ 0 → IsOk result }
        ensures cause { OnErr result (Rose (faults self.old) (faults self.new)) }
        ensures faults { faults self.old ≤ faults self.new }
        ensures calm { OnOk result (faults self.new ≡ faults self.old) };
}
