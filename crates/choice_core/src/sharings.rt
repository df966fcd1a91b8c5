//! The choices of a module, and their sharings.

ghost use Rattle.std.specs.Prelude.{◌≡◌, ◌<◌};
ghost use Rattle.choice_core.specs.Choices.{place, sharing_of, rank};

/// The circuit of a module: the ring circuit at A, the compact Boolean circuit at Y, the compact
/// one at B (`C`), or the shallow one at B (`S`). Lists of choices are compared in this order.
#[derive(Clone, Copy, PartialEq, Eq, Debug)]
pub enum Choice {
    A,
    Y,
    C,
    S,
}

/// The sharings A, B and Y.
#[derive(Clone, Copy, PartialEq, Eq, Debug)]
pub enum Sharing {
    Arithmetic,
    Boolean,
    Yao,
}

impl Choice {
    /// The place in the order of choices.
    pub fn place(self) -> usize
        ensures is { result ≡ place self }
        ensures small { result < 4 }
    {
        match self {
            Choice::A => 0,
            Choice::Y => 1,
            Choice::C => 2,
            Choice::S => 3,
        }
    }

    /// The sharing of the choice's circuit.
    pub fn sharing(self) -> Sharing
        ensures { result ≡ sharing_of self }
    {
        match self {
            Choice::A => Sharing::Arithmetic,
            Choice::Y => Sharing::Yao,
            Choice::C | Choice::S => Sharing::Boolean,
        }
    }
}

impl Sharing {
    /// The place of the sharing among prices.
    pub fn rank(self) -> usize
        ensures is { result ≡ rank self }
        ensures small { result < 3 }
    {
        match self {
            Sharing::Arithmetic => 0,
            Sharing::Boolean => 1,
            Sharing::Yao => 2,
        }
    }
}
