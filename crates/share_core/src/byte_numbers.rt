ghost use Rattle.std.specs.Prelude.{◌≡◌, ◌^◌, ◌<◌, ◌≤◌, length};
ghost use Rattle.hy_bits.specs.declared.width.Width.{Width};
ghost use Rattle.share_core.specs.Bytes.{bytes, byte_count, number};

use hy_bits::Width;

/// How many bytes a word of width `w` takes in a message; a bit takes one.
pub fn byte_count(w: Width) -> usize
    ensures { result ≡ byte_count w }
{
    match w {
        Width::W1 | Width::W8 => 1,
        Width::W16 => 2,
        Width::W32 => 4,
        Width::W64 => 8,
    }
}

/// Writes the lowest bytes of `value`, lowest byte first, as many as `out` has room for. The time grows with the length of `out`.
pub fn write_number(value: u64, out: &mut [u8])
    ensures { out.new ≡ bytes (length out.old) value }
{
    let mut rest = value;
    for byte in out.iter_mut() {
        *byte = (rest % 256) as u8;
        rest /= 256;
    }
}

/// The number whose bytes `bytes` are, lowest byte first.
pub fn read_number(bytes: &[u8]) -> u64
    requires { length bytes.now ≤ 8 }
    ensures value { result ≡ number bytes.now }
    ensures small { result < 256 ^ length bytes.now }
{
    match bytes {
        [] => 0,
        [lowest, rest @ ..] => u64::from(*lowest) + 256 * read_number(rest),
    }
}
