//! Sums and products of sizes, which stand still at 2^63.

ghost use Rattle.std.specs.Prelude.{◌≡◌};
ghost use Rattle.c_meaning.specs.Sizes as sizes;
ghost use Rattle.c_meaning.specs.SizeFolds.{saturated};
ghost use Rattle.c_sizes.specs.Totals.{totals_of, joined, repeated};

/// The size at which all sizes stand still.
pub const MOST: u64 = 1 << 63;

/// The statements that are visited, the nodes of the graph and the gates of their circuits, where 2^63 stands for more.
#[derive(Clone, Copy, Debug, PartialEq, Eq)]
pub struct Totals {
    pub visits: u64,
    pub nodes: u64,
    pub gates: u64,
}

/// A number that stands still at 2^63.
pub fn saturate(number: u64) -> u64
    ensures { result ≡ saturated number }
{
    if number > MOST { MOST } else { number }
}

/// Nothing.
#[tactic(auto, unfolding(crate::specs::Totals::totals_of))]
pub fn nothing() -> Totals
    ensures { result ≡ totals_of sizes.nothing }
{
    Totals {
        visits: 0,
        nodes: 0,
        gates: 0,
    }
}

/// A visit of a statement.
#[tactic(auto, unfolding(crate::specs::Totals::totals_of))]
pub fn visit() -> Totals
    ensures { result ≡ totals_of sizes.visit }
{
    Totals {
        visits: 1,
        nodes: 0,
        gates: 0,
    }
}

/// Two sizes together.
#[tactic(auto, unfolding(crate::specs::Totals::joined))]
pub fn plus(a: Totals, b: Totals) -> Totals
    ensures { result ≡ joined a b }
{
    Totals {
        visits: saturate(a.visits.saturating_add(b.visits)),
        nodes: saturate(a.nodes.saturating_add(b.nodes)),
        gates: saturate(a.gates.saturating_add(b.gates)),
    }
}

/// A size `number` times.
#[tactic(auto, unfolding(crate::specs::Totals::repeated))]
pub fn times(number: u64, a: Totals) -> Totals
    ensures { result ≡ repeated number a }
{
    Totals {
        visits: saturate(number.saturating_mul(a.visits)),
        nodes: saturate(number.saturating_mul(a.nodes)),
        gates: saturate(number.saturating_mul(a.gates)),
    }
}

/// Gates alone.
#[tactic(auto, unfolding(crate::specs::Totals::totals_of))]
pub fn gates_alone(gates: u32) -> Totals
    ensures { result ≡ totals_of (sizes.gates_alone gates) }
{
    Totals {
        visits: 0,
        nodes: 0,
        gates: u64::from(gates),
    }
}

/// The nodes and gates of so many tokens.
#[tactic(auto, unfolding(crate::specs::Totals::totals_of))]
pub fn tokens_size(tokens: u32) -> Totals
    ensures { result ≡ totals_of (sizes.tokens_size tokens) }
{
    Totals {
        visits: 0,
        nodes: 16 * u64::from(tokens),
        gates: 512 * u64::from(tokens),
    }
}
