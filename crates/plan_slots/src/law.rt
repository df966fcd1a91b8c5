//! What slots keep.
ghost use Rattle.plan_slots.specs.Memory.{SlotsAgree};

/// By slots every step uses the values that it uses by shares, whatever the steps make of values, where each share that is used was made
/// before: slots are a renaming. It does nothing: callers cite what it ensures, of values of their own, `none` being the one that stands in
/// no place.
pub fn slots_agree<V: Drop>(none: V)
    ensures { SlotsAgree none }
{
    let _none = none;
}
