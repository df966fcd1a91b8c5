ghost use Rattle.std.specs.Prelude.{◌≡◌, ◌-◌, ◌<◌, nat_lt, if◌then◌else◌};
ghost use Rattle.hy_bits.specs.Scalar.{scalar_width};
ghost use Rattle.hy_bits.specs.Words.{modulus};
ghost use Rattle.serde_json.specs.View.{number_view};
ghost use Rattle.json_values.specs.Leaf.{above, below, number_word as word_of_number, word_of};

use crate::fault::InputKind;
use hy_bits::{Scalar, Width};
use serde_json::Number;

/// The word of a number in JSON, of this scalar.
pub fn number_word(scalar: Scalar, number: &Number) -> Result<u64, InputKind>
    ensures { result ≡ word_of_number scalar (number_view number.now) }
{
    let Some(number) = number.as_i128() else {
        return Err(InputKind::NotWhole);
    };
    match word_in(scalar, number) {
        Some(word) => Ok(word),
        None => Err(InputKind::Range),
    }
}

/// The word whose reading is this number, where the scalar holds it.
#[tactic(auto, using(crate::proofs::Leaves::word_from_zero, crate::proofs::Leaves::word_below_zero))]
fn word_in(scalar: Scalar, number: i128) -> Option<u64>
    ensures { result ≡ word_of scalar number }
{
    let magnitude = number.unsigned_abs();
    if number < 0 {
        word_below_zero(scalar, magnitude)
    } else {
        word_from_zero(scalar, magnitude)
    }
}

/// The word of a number from 0 on, where the scalar holds it.
fn word_from_zero(scalar: Scalar, number: u128) -> Option<u64>
    ensures { result ≡ (if nat_lt number (above scalar) then Some number else None) }
{
    let end = words_end(scalar.width());
    let above = if scalar.signed() { end / 2 } else { end };
    if number < above {
        Some(number as u64)
    } else {
        None
    }
}

/// The word of a number below 0 that is so far from it, where the scalar holds it.
fn word_below_zero(scalar: Scalar, magnitude: u128) -> Option<u64>
    requires { 0 < magnitude }
    ensures { result ≡ (if nat_lt (magnitude - 1) (below scalar) then Some (modulus (scalar_width scalar) - magnitude) else None) }
{
    let end = words_end(scalar.width());
    let below = if scalar.signed() { end / 2 } else { 0 };
    if magnitude <= below {
        Some((end - magnitude) as u64)
    } else {
        None
    }
}

/// The words of a width are the numbers below this.
pub fn words_end(width: Width) -> u128
    ensures { result ≡ modulus width }
{
    match width {
        Width::W1 => 0x2,
        Width::W8 => 0x100,
        Width::W16 => 0x1_0000,
        Width::W32 => 0x1_0000_0000,
        Width::W64 => 0x1_0000_0000_0000_0000,
    }
}
