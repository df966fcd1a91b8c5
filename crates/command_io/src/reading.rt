//! Files, read whole.

ghost use Rattle.std.specs.Prelude.{◌≡◌, ℕ, ◌+◌, ◌^◌, ◌<◌, IfOk, IfErr};
ghost use Rattle.hy_io.specs.Outside.{NoneFell};
ghost use Rattle.command_io.specs.Reading.{IsHeld, IsFileFault};
ghost use Rattle.command_io.specs.Ends.{OnLine};

use crate::lines::{file_fault, too_long};
use crate::status::{Line, Stop};
use hy_io::{FileError, Files};
use std::alloc::Global;

/// All the bytes of the file `name`, which has at most `most`. The time is linear in the bytes.
///
/// # Errors
///
/// The line of a fault of the file, with status 2; or of a file that is longer, with status `refusal`; or memory ran out.
pub fn read_file<F: Files>(
    alloc: Global,
    files: &mut F,
    name: &str,
    most: usize,
    refusal: u8,
) -> Result<Vec<u8>, Stop>
    requires { most < 2 ^ 32 }
    ensures bytes { IfOk result (λ bytes. IsHeld (F.store files.old) name.now most bytes.items) }
    ensures fault { IfErr result (λ stop. OnLine stop (IsFileFault (F.store files.old) (F.failed_reads files.old) (F.failed_reads files.new) name.now most refusal)) }
    ensures store { F.store files.new ≡ F.store files.old }
    ensures counts { NoneFell (F.failed_reads files.old) (F.failed_reads files.new) }
{
    match files.read(alloc, name, most + 1) {
        Ok(bytes) if bytes.len() <= most => Ok(bytes),
        Ok(_) => Err(Stop::Fault(Line {
            code: refusal,
            text: too_long(alloc, name)?,
        })),
        Err(FileError::Memory) => Err(Stop::Memory),
        Err(FileError::Failed) => Err(Stop::Fault(Line {
            code: 2,
            text: file_fault(alloc, name)?,
        })),
    }
}
