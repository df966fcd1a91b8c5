ghost use Rattle.std.specs.Prelude.{◌≡◌};
ghost use Rattle.hy_bits.specs.Words.{modulus, IsWord};
ghost use Rattle.share_core.specs.Boolean.{odd, xor_of};

use hy_bits::{Width, truncate};

/// The lowest bit of a number.
pub(crate) fn is_odd(x: u64) -> bool
    ensures { result ≡ odd x }
{
    x % 2 == 1
}

/// The xor of any two numbers, as a word.
pub(crate) fn xor(w: Width, x: u64, y: u64) -> u64
    ensures value { result ≡ xor_of (modulus w) x y }
    ensures word { IsWord w result }
{
    truncate(w, x ^ y)
}
