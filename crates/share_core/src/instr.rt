ghost use Rattle.std.specs.Prelude.{◌≡◌, ℕ};
ghost use Rattle.hy_bits.specs.declared.turns.Role.{Role};

use hy_bits::{Role, Width};

/// What an instruction of a plan does. P0 and P1 at the end of an input's kind name its owner; Left and Right say on
/// which side an operation at A has a constant.
#[derive(Clone, Copy, Debug, PartialEq, Eq)]
pub enum InstrKind {
    /// The free-XOR offset of the run is dealt to P0.
    Offset,
    InAP0,
    InAP1,
    InBP0,
    InBP1,
    InYP0,
    /// P1's choice in oblivious transfers, for an input of its own, for its share at A, or for its share at B.
    ChooseIn,
    ChooseA,
    ChooseB,
    /// P0's answer to a choice: the messages of the oblivious transfers, labels for an input, labels for shares at A or at B, or
    /// words at A.
    AnswerIn,
    AnswerSharesA,
    AnswerSharesB,
    AnswerToA,
    /// All gates of one depth that need a message.
    LevelA,
    LevelB,
    LevelY,
    /// The carries of a sum of labels.
    Carries,
    OpenA,
    OpenB,
    OpenY,
    /// The gates of a level; they stand in a plan's `gates` alone.
    MulA,
    AndB,
    AndY,
    /// The instructions for which nothing is sent.
    AddA,
    AddLeft,
    AddRight,
    SubA,
    SubLeft,
    SubRight,
    MulLeft,
    MulRight,
    NegA,
    TruncA,
    Known,
    XorB,
    XorY,
    Y2B,
}

/// One instruction of a plan. `left` and `right` are codes over slots, or places and counts in lists of a plan; `target`
/// is a slot or a place; `value` is a constant, or an input's number.
#[derive(Clone, Copy, Debug, PartialEq, Eq)]
pub struct Instr {
    pub kind: InstrKind,
    pub number: u32,
    pub width: Width,
    pub left: u32,
    pub right: u32,
    pub target: u32,
    pub value: u64,
}

/// The words dealt to one role for one instruction or one gate of a level: from place 0 on, then zeros.
#[derive(Clone, Copy)]
pub struct Half {
    pub words: [u64; 512],
}

/// The dealt halves of one instruction.
pub trait Halves {
    ghost use Rattle.share_core.specs.declared.instr.Half.{Half};

    /// The role's half of the k-th gate.
    ghost meant: { Self → Role → ℕ → Half };

    /// The half that `role` has of the instruction's gate `k`; `k` is 0 for an instruction that is no level.
    fn half(&self, role: Role, k: u32) -> Half
        ensures { result ≡ meant self.now role k };
}
