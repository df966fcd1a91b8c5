ghost use Rattle.dealer.specs.Drawing.{DrawnInTurn};

/// The law of words that are drawn from a source, for proofs: those of two instructions are those of the first, followed by those
/// that the second draws from what the first leaves.
pub fn drawing_law()
    ensures { DrawnInTurn }
{}
