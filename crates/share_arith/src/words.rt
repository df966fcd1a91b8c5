ghost use Rattle.std.specs.Prelude.{◌≡◌, ◌+◌, ◌-◌, ◌*◌, ◌%◌, List};
ghost use Rattle.hy_bits.specs.Words.{modulus, IsWord};
ghost use Rattle.share_core.specs.Arithmetic.{difference_of, negation_of, product_of, sum_of};
ghost use Rattle.share_arith.specs.Shares.{StandFor};

use hy_bits::{Width, truncate};

/// The two shares of a word that its owner makes with a dealt word: the dealt word, and the rest.
pub fn share(w: Width, x: u64, r: u64) -> (u64, u64)
    requires x { IsWord w x }
    requires r { IsWord w r }
    ensures own { result.0 ≡ r }
    ensures rest { result.1 ≡ (x + (modulus w - r)) % modulus w }
    ensures words { IsWord w result.0 × IsWord w result.1 }
    ensures opens { StandFor w result.0 result.1 x }
{
    (r, hy_bits::sub(w, x, r))
}

/// The word that two shares stand for.
pub fn opened(w: Width, x0: u64, x1: u64) -> u64
    requires first { IsWord w x0 }
    requires second { IsWord w x1 }
    ensures value { StandFor w x0 x1 result }
    ensures word { IsWord w result }
{
    hy_bits::add(w, x0, x1)
}

/// One party's share of a sum, from its shares of the two numbers.
pub fn add(w: Width, x: u64, y: u64) -> u64
    requires x { IsWord w x }
    requires y { IsWord w y }
    ensures value { result ≡ (x + y) % modulus w }
    ensures word { IsWord w result }
{
    sum(w, x, y)
}

/// The sum of any two numbers, as a word.
pub(crate) fn sum(w: Width, x: u64, y: u64) -> u64
    ensures value { result ≡ sum_of (modulus w) x y }
    ensures word { IsWord w result }
{
    hy_bits::add(w, truncate(w, x), truncate(w, y))
}

/// The difference of any two numbers, as a word.
pub(crate) fn difference(w: Width, x: u64, y: u64) -> u64
    ensures value { result ≡ difference_of (modulus w) x y }
    ensures word { IsWord w result }
{
    hy_bits::sub(w, truncate(w, x), truncate(w, y))
}

/// Zero minus any number, as a word.
pub(crate) fn negation(w: Width, x: u64) -> u64
    ensures value { result ≡ negation_of (modulus w) x }
    ensures word { IsWord w result }
{
    hy_bits::neg(w, truncate(w, x))
}

/// The product of any two numbers, as a word.
pub(crate) fn product(w: Width, x: u64, y: u64) -> u64
    ensures value { result ≡ product_of (modulus w) x y }
    ensures word { IsWord w result }
{
    hy_bits::mul(w, truncate(w, x), truncate(w, y))
}
