ghost use Rattle.std.specs.Prelude.{◌≡◌, ℕ, ◌+◌, ◌^◌, ◌<◌};
ghost use Rattle.hycc_top.specs.Source.{term_value, sum_in_c};
ghost use Rattle.hycc_top.specs.Shares.{Stand};

use crate::shares::Shares;
use crate::source::Term;
use hy_bits::Width;
use rand_core::Rng;

/// The width of the numbers that are summed.
const WIDTH: Width = Width::W32;

/// The sum of the terms for the two parties' numbers, computed on shares: each number is split by its owner with a
/// dealt word, each party adds its shares, a literal being P0's share and 0 P1's, and the two sums are opened.
pub fn opened_sum<R: Rng>(terms: &[Term], x: u64, y: u64, dealer: &mut R) -> u64
    requires x { x < 2 ^ 32 }
    requires y { y < 2 ^ 32 }
    ensures { result ≡ sum_in_c terms.now x y }
{
    let a = split(x, dealer);
    let b = split(y, dealer);
    let mut sum = Shares {
        first: 0,
        second: 0,
    };
    for term in terms {
        sum = added(sum, term_shares(*term, a, b));
    }
    share_arith::opened(WIDTH, sum.first, sum.second)
}

/// The shares of a number, made with a word of the dealer.
fn split<R: Rng>(number: u64, dealer: &mut R) -> Shares
    requires { number < 2 ^ 32 }
    ensures { Stand result.first result.second number }
{
    let word = dealer.next_u64() % 0x1_0000_0000;
    let (first, second) = share_arith::share(WIDTH, number, word);
    Shares { first, second }
}

/// The shares of a term: those of its number, or a literal as P0's share and 0 as P1's.
fn term_shares(term: Term, a: Shares, b: Shares) -> Shares
    ensures { (x y : ℕ) → Stand a.first a.second x → Stand b.first b.second y → Stand result.first result.second (term_value x y term) }
{
    match term {
        Term::A => a,
        Term::B => b,
        Term::Literal(number) => Shares {
            first: u64::from(number),
            second: 0,
        },
    }
}

/// Each party's sum of its shares.
fn added(x: Shares, y: Shares) -> Shares
    ensures { (u v : ℕ) → Stand x.first x.second u → Stand y.first y.second v → Stand result.first result.second (u + v) }
{
    Shares {
        first: share_arith::add(WIDTH, x.first, y.first),
        second: share_arith::add(WIDTH, x.second, y.second),
    }
}
