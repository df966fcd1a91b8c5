ghost use Rattle.party.specs.Laws.{OpenedFit, WaitsStand};

/// What the machine keeps, for proofs: the word that an opening gives fits the opening's width, whatever was received, and a party that
/// stands at a receive half after a turn has just done the send half before it.
pub fn machine_states()
    ensures fit { OpenedFit }
    ensures stand { WaitsStand }
{}
