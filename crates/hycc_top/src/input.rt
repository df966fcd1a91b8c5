ghost use Rattle.std.specs.Prelude.{◌≡◌, ℕ, List, MatchOption};
ghost use Rattle.hycc_top.specs.Input.{IsInput, IsWithoutNewline, framed};

use hy_bits::decimal_number;

/// The numbers of inputs are below this.
const NUMBER_END: u64 = 0x1_0000_0000;

/// The number that an input `{"NAME":n}` gives to the name, or none where the bytes are not of this form. One newline
/// may stand behind it.
pub fn input_number(name: &[u8], bytes: &[u8]) -> Option<u64>
    ensures { MatchOption result ((number : ℕ) → IsInput name.now bytes.now number → ⊥) (λ number. IsInput name.now bytes.now number) }
{
    let Some(digits) = between(without_newline(bytes), name) else {
        return None;
    };
    match decimal_number(digits) {
        Some(number) if number < NUMBER_END => Some(number),
        _ => None,
    }
}

/// The bytes without one last newline.
fn without_newline(bytes: &[u8]) -> &[u8]
    ensures { IsWithoutNewline bytes.entry.now result.now }
{
    match bytes.strip_suffix(b"\n") {
        Some(line) => line,
        None => bytes,
    }
}

/// What stands in a line between the name with its marks and the closing brace.
fn between<'a>(line: &'a [u8], name: &[u8]) -> Option<&'a [u8]>
    ensures { MatchOption result ((digits : List ℕ) → line.entry.now ≡ framed name.now digits → ⊥) (λ digits. line.entry.now ≡ framed name.now digits.now) }
{
    let Some(rest) = line.strip_prefix(b"{\"") else {
        return None;
    };
    let Some(rest) = rest.strip_prefix(name) else {
        return None;
    };
    let Some(rest) = rest.strip_prefix(b"\":") else {
        return None;
    };
    rest.strip_suffix(b"}")
}
