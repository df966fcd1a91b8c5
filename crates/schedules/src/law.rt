ghost use Rattle.schedules.specs.Turns.{SchedulesAgree};

/// Two parties of a protocol, as proofs see them.
pub trait Protocol {
    ghost use Rattle.schedules.specs.Turns.{Protocol};

    /// What a party has between two instructions.
    type Local;

    /// The protocol: how many instructions there are, who sends a frame for which, and what a party has afterwards.
    ghost protocol: { Self → Protocol Self.Local };
}

/// The theorem of schedules, for proofs, of any protocol: after any list of steps the frames that were sent are the first ones of the plain
/// order, somebody can move unless both parties have ended, and there were no more moves than there are halves of instructions. Every list
/// of turns leads both parties to the end, which is that of the plain order.
pub fn schedule_law<P: Protocol>(parties: &P)
    ensures { SchedulesAgree (P.protocol parties.now) }
{}
