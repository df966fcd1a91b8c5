ghost use Rattle.std.specs.Prelude.{◌≡◌, ◌≤◌, length};
ghost use Rattle.hy_bits.specs.Bits.{low_bits, number};
ghost use Rattle.hy_bits.specs.Words.{bits, IsWord};

use crate::width::Width;

/// Writes the bits of the word `a` into `out`, lowest first.
pub fn bits_of(w: Width, a: u64, out: &mut [bool])
    requires word { IsWord w a }
    requires places { length out.old ≡ bits w }
    ensures { out.new ≡ low_bits (bits w) a }
{
    let mut rest = a;
    for bit in out.iter_mut() {
        *bit = rest % 2 == 1;
        rest /= 2;
    }
}

/// The number whose bits are `bits`, lowest first.
pub fn word_of(bits: &[bool]) -> u64
    requires { length bits.now ≤ 64 }
    ensures { result ≡ number bits.now }
{
    let mut word: u64 = 0;
    for (place, bit) in bits.iter().enumerate() {
        word += u64::from(*bit) << place;
    }
    word
}
