ghost use Rattle.std.specs.Prelude.{◌<◌, ◌^◌};

/// One share of each party: two words of 32 bits.
#[derive(Clone, Copy)]
pub struct Shares {
    pub first: u64,
    pub second: u64,
    ghost first_word: { first < 2 ^ 32 },
    ghost second_word: { second < 2 ^ 32 },
}
