ghost use Rattle.std.specs.Prelude.{◌≡◌};
ghost use Rattle.std.specs.Str.{bytes_eq};
ghost use Rattle.c_tree.specs.Names.{is_digit as is_digit_byte, is_letter as is_letter_byte, is_word_byte as is_byte_of_word};
ghost use Rattle.c_scan.specs.Spelled.{is_blank as is_blank_byte};
ghost use Rattle.c_scan.specs.Pieces.{is_accepted as is_accepted_byte};

/// Tab, vertical tab, form feed, carriage return and space; the newline is one too, where it is asked for.
pub fn is_blank(byte: u8) -> bool
    ensures { result ≡ is_blank_byte byte }
{
    (9 <= byte && byte <= 13) || byte == b' '
}

/// White space and the printed bytes.
pub fn is_accepted(byte: u8) -> bool
    ensures { result ≡ is_accepted_byte byte }
{
    (9 <= byte && byte <= 13) || (32 <= byte && byte <= 126)
}

pub fn is_digit(byte: u8) -> bool
    ensures { result ≡ is_digit_byte byte }
{
    48 <= byte && byte <= 57
}

/// A letter or the underscore.
pub fn is_letter(byte: u8) -> bool
    ensures { result ≡ is_letter_byte byte }
{
    (65 <= byte && byte <= 90) || (97 <= byte && byte <= 122) || byte == b'_'
}

/// A letter, a digit or the underscore.
pub fn is_word_byte(byte: u8) -> bool
    ensures { result ≡ is_byte_of_word byte }
{
    is_letter(byte) || is_digit(byte)
}

/// Whether two texts are one.
pub fn is(text: &[u8], other: &[u8]) -> bool
    ensures { result ≡ bytes_eq text.now other.now }
{
    text == other
}
