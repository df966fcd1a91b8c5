//! Whether a prefix closes.

ghost use Rattle.std.specs.Prelude.{◌≡◌, true, MatchBool};
ghost use Rattle.choice_core.specs.Problems.{cost_of};
ghost use Rattle.choice_core.specs.Bound.{bound_of};
ghost use Rattle.choice_core.specs.Least.{ClosesAt};
ghost use Rattle.choice_check.specs.Walks.{later};

use choice_core::{Choice, Problem};

/// Whether, at the first module where the lists differ, the first one has the later choice.
fn is_later(prefix: &[Choice], choices: &[Choice]) -> bool
    ensures { result ≡ later prefix.now choices.now }
{
    for (number, choice) in prefix.iter().enumerate() {
        if number >= choices.len() {
            return false;
        }
        let other = choices[number];
        if choice.place() != other.place() {
            return other.place() < choice.place();
        }
    }
    false
}

/// Whether the lists are the same: they are of one length, and neither is later.
fn is_whole(prefix: &[Choice], choices: &[Choice]) -> bool
    ensures { MatchBool result (prefix.now ≡ choices.now) (prefix.now ≡ choices.now → ⊥) }
{
    if prefix.len() != choices.len() {
        return false;
    }
    if is_later(prefix, choices) {
        return false;
    }
    !is_later(choices, prefix)
}

/// Whether a prefix of this bound closes for the choices of this cost.
pub fn closes(
    problem: &Problem,
    choices: &[Choice],
    cost: u64,
    prefix: &[Choice],
    bound: u64,
) -> bool
    requires cost { cost ≡ cost_of problem.now choices.now }
    requires bound { bound ≡ bound_of problem.now prefix.now }
    ensures { MatchBool result (ClosesAt problem.now choices.now prefix.now) (ClosesAt problem.now choices.now prefix.now → ⊥) }
{
    if cost < bound {
        return true;
    }
    if bound == cost && is_later(prefix, choices) {
        return true;
    }
    is_whole(prefix, choices)
}
