ghost use Rattle.pair_steps.specs.Pair.{BeginsAtStart, TurnsAreSteps};

/// For proofs: after any list of steps of the plan's protocol, a turn of a party, which stands as the protocol's state says and whose inbox
/// holds the frames that it may take, brings its state, its inbox and its outbox to where the protocol's step does; it answers that it moved
/// exactly where the protocol's party can move. Parties that have done nothing stand at the protocol's start.
pub fn pair_law()
    ensures begins { BeginsAtStart }
    ensures turns { TurnsAreSteps }
{}
