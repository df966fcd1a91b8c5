ghost use Rattle.std.specs.Prelude.{◌≡◌, ◌+◌, ◌-◌, ◌*◌, ◌/◌, ◌<◌, ◌≤◌, ◌^◌, Bool, List, ℕ, length, take, find, Option, None, Some, SomeIff};
ghost use Rattle.std.specs.Prelude.{IfSome};
ghost use Rattle.std.specs.List.{prefix_len};
ghost use Rattle.hy_bits.specs.declared.scalar.Scalar.{Scalar as ScalarType};
ghost use Rattle.c_scan.specs.Words.{is_among};
ghost use Rattle.c_scan.specs.Literals.{is_digit_of as is_digit_of_base, digit_value as value_of_digit, value_from, suffixes_of_unsigned, suffixes_of_long, suffixes_of_unsigned_long, suffix_of as suffix_of_text, types_of, has_number as has_the_number, typed as typed_number, integer_of_digits as integer_with_digits, integer_of_base as integer_with_base, integer_of as integer_with, escape as escaped_byte, is_plain as is_plain_byte, character_of as character_at};

use crate::bytes::is;
use hy_bits::Scalar;

/// What stands after the digits of an integer literal.
#[derive(Clone, Copy, Debug, PartialEq, Eq)]
pub enum Suffix {
    Plain,
    Unsigned,
    Long,
    UnsignedLong,
}

/// The value and the type of an integer literal, or none where the text is no literal or no type has its value.
pub fn integer_of(text: &[u8]) -> Option<(u64, Scalar)>
    ensures { result ≡ integer_with text.now }
{
    if text.starts_with(b"0x") {
        integer_of_base(16, &text[2..])
    } else if text.starts_with(b"0") {
        integer_of_base(8, text)
    } else {
        integer_of_base(10, text)
    }
}

/// The literal of digits of base 8, 10 or 16 and a suffix.
fn integer_of_base(base: u8, text: &[u8]) -> Option<(u64, Scalar)>
    requires low { 1 ≤ base }
    requires high { base ≤ 16 }
    ensures { result ≡ integer_with_base base text.now }
{
    let count = digits_length(base, text);
    integer_of_digits(base, &text[..count], &text[count..])
}

fn integer_of_digits(base: u8, digits: &[u8], suffix: &[u8]) -> Option<(u64, Scalar)>
    requires { 1 ≤ base }
    ensures { result ≡ integer_with_digits base digits.now suffix.now }
{
    if digits.is_empty() {
        return None;
    }
    let suffix = suffix_of(suffix)?;
    let value = value_of(base, digits)?;
    typed(value, base == 10, suffix)
}

/// The number of bytes before the first that is no digit of the base.
fn digits_length(base: u8, text: &[u8]) -> usize
    requires { base ≤ 16 }
    ensures value { result ≡ prefix_len (is_digit_of_base base) text.now }
    ensures bound { result ≤ length text.now }
{
    for (index, byte) in text.iter().enumerate() {
        if !is_digit_of(base, *byte) {
            return index;
        }
    }
    text.len()
}

fn is_digit_of(base: u8, byte: u8) -> bool
    requires { base ≤ 16 }
    ensures { result ≡ is_digit_of_base base byte }
{
    (48 <= byte && byte < 48 + base && byte <= 57)
        || (base == 16 && ((97 <= byte && byte <= 102) || (65 <= byte && byte <= 70)))
}

/// The number that a digit stands for; a letter stands for 10 to 15.
fn digit_value(byte: u8) -> u8
    ensures { result ≡ value_of_digit byte }
{
    if byte <= 57 {
        byte.saturating_sub(48)
    } else if byte <= 70 {
        byte.saturating_sub(55)
    } else {
        byte.saturating_sub(87)
    }
}

/// The number of these digits, if it is below 2^64.
fn value_of(base: u8, digits: &[u8]) -> Option<u64>
    requires { 1 ≤ base }
    ensures { SomeIff result (value_from base 0 digits.now < 2 ^ 64) (value_from base 0 digits.now) }
{
    let mut value = 0u64;
    for byte in digits {
        let shifted = value.checked_mul(u64::from(base))?;
        value = shifted.checked_add(u64::from(digit_value(*byte)))?;
    }
    Some(value)
}

/// What these bytes after the digits of a literal say, if anything.
fn suffix_of(text: &[u8]) -> Option<Suffix>
    ensures { result ≡ suffix_of_text text.now }
{
    if text.is_empty() {
        Some(Suffix::Plain)
    } else if is_unsigned(text) {
        Some(Suffix::Unsigned)
    } else if is_long(text) {
        Some(Suffix::Long)
    } else if is_unsigned_long(text) {
        Some(Suffix::UnsignedLong)
    } else {
        None
    }
}

fn is_unsigned(text: &[u8]) -> bool
    ensures { result ≡ is_among suffixes_of_unsigned text.now }
{
    is(text, b"u") || is(text, b"U")
}

fn is_long(text: &[u8]) -> bool
    ensures { result ≡ is_among suffixes_of_long text.now }
{
    is(text, b"l") || is(text, b"L") || is(text, b"ll") || is(text, b"LL")
}

fn is_unsigned_long(text: &[u8]) -> bool
    ensures { result ≡ is_among suffixes_of_unsigned_long text.now }
{
    is(text, b"ul")
        || is(text, b"uL")
        || is(text, b"ull")
        || is(text, b"uLL")
        || is(text, b"Ul")
        || is(text, b"UL")
        || is(text, b"Ull")
        || is(text, b"ULL")
        || is(text, b"lu")
        || is(text, b"lU")
        || is(text, b"Lu")
        || is(text, b"LU")
        || is(text, b"llu")
        || is(text, b"llU")
        || is(text, b"LLu")
        || is(text, b"LLU")
}

/// A value with the first type that has it, of those that a literal may have.
fn typed(value: u64, decimal: bool, suffix: Suffix) -> Option<(u64, Scalar)>
    ensures { result ≡ typed_number value (types_of decimal suffix) }
{
    match suffix {
        Suffix::Plain if decimal => first_typed(value, &[Scalar::S32, Scalar::S64]),
        Suffix::Plain => first_typed(value, &[Scalar::S32, Scalar::U32, Scalar::S64, Scalar::U64]),
        Suffix::Unsigned => first_typed(value, &[Scalar::U32, Scalar::U64]),
        Suffix::Long if decimal => first_typed(value, &[Scalar::S64]),
        Suffix::Long => first_typed(value, &[Scalar::S64, Scalar::U64]),
        Suffix::UnsignedLong => first_typed(value, &[Scalar::U64]),
    }
}

fn first_typed(value: u64, types: &[Scalar]) -> Option<(u64, Scalar)>
    ensures { result ≡ typed_number value types.now }
{
    for scalar in types {
        if has_number(value, *scalar) {
            return Some((value, *scalar));
        }
    }
    None
}

/// Whether a type has this number.
fn has_number(number: u64, scalar: Scalar) -> bool
    ensures { result ≡ has_the_number number scalar }
{
    match scalar {
        Scalar::B1 => number < 2,
        Scalar::S8 => number < 0x80,
        Scalar::U8 => number < 0x100,
        Scalar::S16 => number < 0x8000,
        Scalar::U16 => number < 0x1_0000,
        Scalar::S32 => number < 0x8000_0000,
        Scalar::U32 => number < 0x1_0000_0000,
        Scalar::S64 => number < 0x8000_0000_0000_0000,
        Scalar::U64 => true,
    }
}

/// The value and the length of the character constant that a text, whose first byte is a quote, begins with.
pub fn character_of(text: &[u8]) -> Option<(u8, usize)>
    ensures { result ≡ character_at text.now }
{
    match text {
        [_, b'\\', byte, b'\'', ..] => Some((escape(*byte)?, 4)),
        [_, byte, b'\'', ..] if is_plain(*byte) => Some((*byte, 3)),
        _ => None,
    }
}

/// What a byte after a backslash stands for.
fn escape(byte: u8) -> Option<u8>
    ensures { result ≡ escaped_byte byte }
{
    match byte {
        b'\'' | b'"' | b'?' | b'\\' => Some(byte),
        b'a' => Some(7),
        b'b' => Some(8),
        b'f' => Some(12),
        b'n' => Some(10),
        b'r' => Some(13),
        b't' => Some(9),
        b'v' => Some(11),
        b'0' => Some(0),
        _ => None,
    }
}

/// Whether a byte stands for itself in a character constant.
fn is_plain(byte: u8) -> bool
    ensures { result ≡ is_plain_byte byte }
{
    32 <= byte && byte <= 126 && byte != b'\'' && byte != b'\\'
}
