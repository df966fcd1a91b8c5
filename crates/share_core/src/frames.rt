ghost use Rattle.std.specs.Prelude.{◌≡◌, ℕ, List, ◌+◌, ◌^◌, ◌<◌, ◌++◌, length, IsOk, OnOk};
ghost use Rattle.share_core.specs.Frames.{frame_of, IsAnswer};

use crate::byte_numbers::{read_number, write_number};

/// Why bytes don't begin with the frame that is wanted.
#[derive(Clone, Copy, Debug, PartialEq, Eq)]
pub enum FrameFault {
    /// Fewer bytes stand than the head takes, or than it announces.
    Short,
    /// The head names another kind of instruction.
    Kind,
    /// The head announces another length.
    Length,
}

/// The number of bytes before a frame's payload.
pub const HEAD: usize = 5;

/// Writes the frame of `payload` into `out`: the code `kind` in one byte, the payload's length in four, lowest byte first, and the
/// payload.
pub fn frame(kind: u8, payload: &[u8], out: &mut [u8])
    requires short { length payload.now < 2 ^ 32 }
    requires room { length out.old ≡ length payload.now + 5 }
    ensures { out.new ≡ frame_of kind payload.now }
{
    let (head, body) = out.split_at_mut(HEAD);
    let (first, announced) = head.split_at_mut(1);
    first[0] = kind;
    write_number(payload.len() as u64, announced);
    body.copy_from_slice(payload);
}

/// Tells whether `bytes` begins with a frame of the code `kind` with `wanted` bytes of payload. Bytes after the frame aren't
/// looked at.
///
/// # Errors
///
/// The first of these: `Short` where the head isn't whole, `Kind` where it names another code, `Length` where it announces another
/// length, and `Short` where the payload isn't whole.
pub fn deframe(bytes: &[u8], kind: u8, wanted: u32) -> Result<(), FrameFault>
    ensures answer { IsAnswer bytes.now kind wanted result }
    ensures frame { (payload rest : List ℕ) →
        bytes.now ≡ frame_of kind payload ++ rest → length payload ≡ wanted →
        IsOk result }
{
    if bytes.len() < HEAD {
        return Err(FrameFault::Short);
    }
    if bytes[0] != kind {
        return Err(FrameFault::Kind);
    }
    if read_number(&bytes[1..HEAD]) != u64::from(wanted) {
        return Err(FrameFault::Length);
    }
    if bytes.len() - HEAD < wanted as usize {
        return Err(FrameFault::Short);
    }
    Ok(())
}
