//! Names as texts.

ghost use Rattle.std.specs.Prelude.{◌≡◌, IfOk};

use hy_bits::Memory;

/// The text that the bytes are. Bytes that are none, which no name of a program or of a member is, are answered as want of memory.
///
/// # Errors
///
/// The bytes are no text.
pub fn text_of_bytes(bytes: &[u8]) -> Result<&str, Memory>
    ensures { IfOk result (λ text. text.now ≡ bytes.now) }
{
    str::from_utf8(bytes).map_err(|_| Memory)
}
