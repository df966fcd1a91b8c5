ghost use Rattle.plan_sums.specs.Sums.{WithinStretch};

/// The law of stretches, for proofs: what is sent or drawn between two receive halves of a party is no more than in the greatest stretch.
pub fn stretch_law()
    ensures { WithinStretch }
{}
