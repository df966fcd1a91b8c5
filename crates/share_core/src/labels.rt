/// A label of a garbled circuit: 128 bits in two words, `low` in bytes 0 to 7. The lowest bit of `low` is its permute bit.
#[derive(Clone, Copy, Debug, PartialEq, Eq)]
pub struct Label {
    pub low: u64,
    pub high: u64,
}

/// The free-XOR offset of a run, by which a wire's two labels differ, in two words as a `Label` is. P0 alone has it; its lowest bit
/// is 1.
#[derive(Clone, Copy, Debug, PartialEq, Eq)]
pub struct Offset {
    pub low: u64,
    pub high: u64,
}

impl Label {
    /// The label with zeros alone: P1's of a constant.
    pub const ZERO: Label = Label { low: 0, high: 0 };
}

impl Offset {
    /// What stands for the offset where there is none: at P1, and before it is dealt.
    pub const NONE: Offset = Offset { low: 0, high: 0 };
}
