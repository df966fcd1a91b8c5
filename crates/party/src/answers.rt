/// What a turn did.
#[derive(Clone, Copy, Debug, PartialEq, Eq)]
pub enum Turn {
    /// The party did its next half of an instruction.
    Moved,
    /// The party stands at a receive half, and its inbox is empty.
    Waits,
    /// The party has ended the last instruction.
    Done,
}
