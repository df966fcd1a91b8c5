ghost use Rattle.std.specs.Prelude.{◌≡◌};
ghost use Rattle.hy_bits.specs.Decimal.{number_of};

use itoa::Buffer;

/// The number below 2^64 whose decimal text this is: digits without a sign, and without a leading zero other than
/// that of `0` itself.
pub fn decimal_number(text: &[u8]) -> Option<u64>
    ensures { result ≡ number_of text.now }
{
    let Ok(digits) = str::from_utf8(text) else {
        return None;
    };
    let Ok(number) = digits.parse::<u64>() else {
        return None;
    };
    let mut buffer = Buffer::new();
    if buffer.format(number).as_bytes() == text {
        Some(number)
    } else {
        None
    }
}
