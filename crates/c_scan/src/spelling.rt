ghost use Rattle.std.specs.Prelude.{◌≡◌, ◌+◌, ◌≤◌, ◌-◌, Bool, true, false, not, ◌==◌, length, IfSome};
ghost use Rattle.std.specs.List.{prefix_len};
ghost use Rattle.c_tree.specs.Names.{is_word_byte as is_byte_of_word};
ghost use Rattle.c_scan.specs.Spelled.{goes_on as goes_on_after};
ghost use Rattle.c_scan.specs.Lengths.{block_length as length_of_block, string_length as length_of_string, number_length as length_of_number};
ghost use Rattle.c_scan.specs.Pieces.{is_accepted as is_accepted_byte};

use crate::bytes::{is_accepted, is_word_byte};

/// The number of bytes of the word that a text begins with.
pub fn word_length(text: &[u8]) -> usize
    ensures value { result ≡ prefix_len is_byte_of_word text.now }
    ensures bound { result ≤ length text.now }
{
    for (index, byte) in text.iter().enumerate() {
        if !is_word_byte(*byte) {
            return index;
        }
    }
    text.len()
}

/// The number of bytes before the first newline.
pub fn line_length(text: &[u8]) -> usize
    ensures value { result ≡ prefix_len (λ byte. not (byte == 10)) text.now }
    ensures bound { result ≤ length text.now }
{
    for (index, byte) in text.iter().enumerate() {
        if *byte == b'\n' {
            return index;
        }
    }
    text.len()
}

/// The number of bytes before the first that is not accepted.
pub fn accepted_length(text: &[u8]) -> usize
    ensures value { result ≡ prefix_len is_accepted_byte text.now }
    ensures bound { result ≤ length text.now }
{
    for (index, byte) in text.iter().enumerate() {
        if !is_accepted(*byte) {
            return index;
        }
    }
    text.len()
}

/// The number of bytes of the number that a text begins with.
pub fn number_length(text: &[u8]) -> usize
    ensures value { result ≡ length_of_number 0 text.now }
    ensures bound { result ≤ length text.now }
{
    let mut last = 0;
    for (index, byte) in text.iter().enumerate() {
        if !goes_on(last, *byte) {
            return index;
        }
        last = *byte;
    }
    text.len()
}

/// Whether a number goes on with a byte after another one.
fn goes_on(last: u8, byte: u8) -> bool
    ensures { result ≡ goes_on_after last byte }
{
    is_word_byte(byte)
        || byte == b'.'
        || ((byte == b'+' || byte == b'-')
            && (last == b'e' || last == b'E' || last == b'p' || last == b'P'))
}

/// The number of bytes of a block comment after its opening, its end among them, if it ends.
pub fn block_length(text: &[u8]) -> Option<usize>
    ensures value { result ≡ length_of_block false text.now }
    ensures bound { IfSome result (λ count. count ≤ length text.now) }
{
    let mut star = false;
    for (index, byte) in text.iter().enumerate() {
        if *byte == b'/' && star {
            return Some(index + 1);
        }
        star = *byte == b'*';
    }
    None
}

/// The number of bytes of a string after its opening quote, its closing one among them, if it has one on its line.
pub fn string_length(text: &[u8]) -> Option<usize>
    ensures value { result ≡ length_of_string false text.now }
    ensures bound { IfSome result (λ count. count ≤ length text.now) }
{
    let mut taken = false;
    for (index, byte) in text.iter().enumerate() {
        if *byte == b'\n' {
            return None;
        }
        if *byte == b'"' && !taken {
            return Some(index + 1);
        }
        taken = *byte == b'\\' && !taken;
    }
    None
}
