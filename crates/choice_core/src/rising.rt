//! By how much a bound rises with one more choice.

ghost use Rattle.std.specs.Prelude.{◌≡◌, ◌+◌, ◌^◌, ◌<◌, ◌≤◌, ◌++◌, length, sum_by, drop, filter, [], ◌∷◌};
ghost use Rattle.choice_core.specs.Problems.{Fits, IsProblem, touches};
ghost use Rattle.choice_core.specs.Bound.{bound_of};
ghost use Rattle.choice_core.specs.Growing.{before_last, lost, followed};
ghost use Rattle.choice_core.specs.Ahead.{IsAhead};

use crate::bounds::{dues, least_at, least_by, least_price};
use crate::problems::{Problem, own_cost};
use crate::sharings::Choice;

/// The least prices of the fans whose producer is the module, of those that touch it.
fn lost_sum(problem: &Problem, number: usize) -> u64
    requires problem { IsProblem problem.now }
    requires within { number < length problem.now.own }
    requires small { sum_by (lost problem.now.own number) (filter (λ f. touches f number) problem.now.fans) < 2 ^ 64 }
    ensures { result ≡ sum_by (lost problem.now.own number) (filter (λ f. touches f number) problem.now.fans) }
{
    let mut total = 0;
    for place in 0..problem.touching_count(number) {
        let fan = problem.touching_fan(number, place);
        if fan.from as usize == number {
            total += least_price(problem.own(), fan);
        }
    }
    total
}

/// The least that those modules add, each by itself, which the fans that touch the module of this number go on to. The
/// time is linear in the consumers of the fans that touch those modules.
fn followed(problem: &Problem, prefix: &[Choice], number: usize) -> u64
    requires problem { IsProblem problem.now }
    requires fits { Fits problem.now.own prefix.now }
    requires short { length prefix.now ≤ number + 1 }
    requires within { number < length problem.now.own }
    ensures { result ≡ followed problem.now prefix.now number (number + 1) (drop (number + 1) problem.now.own) }
{
    let mut total = 0;
    for next in problem.following(number) {
        total += least_at(problem, prefix, *next as usize);
    }
    total
}

/// What all choices of one module have in common, each put after the same prefix.
#[derive(Clone, Copy)]
pub struct Ahead {
    /// What each sharing at the module adds, by rank, to the fans whose first consumer past the prefix it is.
    pub dues: [u64; 3],
    /// What leaves the bound with the module's choice: the least that it adds, the least prices of its fans, and the
    /// least that those modules add which the fans that touch it go on to.
    pub falls: u64,
}

/// What all choices of the next module after the prefix have in common. It takes no memory. The time is linear in the
/// consumers of the fans that touch the module, and of those that touch the modules which these fans go on to.
pub fn look_ahead(problem: &Problem, prefix: &[Choice]) -> Ahead
    requires problem { IsProblem problem.now }
    requires fits { Fits problem.now.own prefix.now }
    requires short { length prefix.now < length problem.now.own }
    ensures { IsAhead problem.now prefix.now result }
{
    let number = prefix.len();
    let dues = dues(problem, prefix, number);
    let least = least_by(&problem.own()[number], &dues);
    Ahead {
        dues,
        falls: least + lost_sum(problem, number) + followed(problem, prefix, number),
    }
}

/// By how much the bound of a prefix exceeds that of the prefix without its last choice, by what the choices of its last
/// module have in common. It takes no memory. The time is linear in the consumers of the fans that touch the modules
/// which the fans that touch the last module go on to.
pub fn rise_by(problem: &Problem, ahead: &Ahead, prefix: &[Choice]) -> u64
    requires problem { IsProblem problem.now }
    requires some { 0 < length prefix.now }
    requires fits { Fits problem.now.own prefix.now }
    requires ahead { IsAhead problem.now (before_last prefix.now) ahead.now }
    ensures { bound_of problem.now (before_last prefix.now) + result ≡ bound_of problem.now prefix.now }
{
    let number = prefix.len() - 1;
    let choice = prefix[number];
    let own = own_cost(&problem.own()[number], choice).unwrap_or(0);
    let due = ahead.dues[choice.sharing().rank()];
    own + due + followed(problem, prefix, number) - ahead.falls
}

/// By how much the bound of a prefix exceeds that of the prefix without its last choice, in the time of `look_ahead`. It takes
/// no memory.
pub fn rise(problem: &Problem, prefix: &[Choice]) -> u64
    requires problem { IsProblem problem.now }
    requires some { 0 < length prefix.now }
    requires fits { Fits problem.now.own prefix.now }
    ensures { bound_of problem.now (before_last prefix.now) + result ≡ bound_of problem.now prefix.now }
{
    let ahead = look_ahead(problem, &prefix[..prefix.len() - 1]);
    rise_by(problem, &ahead, prefix)
}

/// The bound of a prefix with the choice S after it, by that with the choice C: the two circuits share alike, so the
/// bounds differ by the module's own costs. It takes constant time.
pub fn shallow_bound(problem: &Problem, prefix: &[Choice], compact_bound: u64) -> u64
    requires problem { IsProblem problem.now }
    requires compact { Fits problem.now.own (prefix.now ++ Choice.C ∷ []) }
    requires shallow { Fits problem.now.own (prefix.now ++ Choice.S ∷ []) }
    requires bound { compact_bound ≡ bound_of problem.now (prefix.now ++ Choice.C ∷ []) }
    ensures { result ≡ bound_of problem.now (prefix.now ++ Choice.S ∷ []) }
{
    let row = &problem.own()[prefix.len()];
    let compact = own_cost(row, Choice::C).unwrap_or(0);
    compact_bound - compact + own_cost(row, Choice::S).unwrap_or(0)
}
