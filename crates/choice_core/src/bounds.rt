//! The cost of a list of choices, and the bound of a prefix.

ghost use Rattle.std.specs.Prelude.{◌≡◌, ◌+◌, ◌*◌, ◌^◌, ◌<◌, ◌≤◌, cond, nat_lt, sum_by, option_map, length, drop, List, [], ◌++◌, slice_index_or};
ghost use Rattle.std.specs.Option.{option_and_then};
ghost use Rattle.choice_core.specs.Choices.{sharing_of};
ghost use Rattle.choice_core.specs.Problems.{Row, own_of, price_of, own_sum, fan_cost, cost_of, Fits, IsAssignment, IsFan, IsProblem, greatest_own, greatest_price};
ghost use Rattle.choice_core.specs.Bound.{lesser, least, due, least_at, least_past, least_price, bound_of};
ghost use Rattle.choice_core.specs.Growing.{entry_of, least_by};
ghost use Rattle.choice_core.specs.declared.sharings.Sharing.{Sharing};
ghost use Rattle.choice_core.specs.Least.{Closes, IsLeast};
ghost use Rattle.choice_core.specs.declared.sharings.Choice.{Choice};

use crate::problems::{Fan, Problem, own_cost};
use crate::sharings::{Choice, Sharing};
use crate::trees::Tree;

/// The own costs of the modules that have a choice.
fn own_sum(rows: &[[Option<u64>; 4]], choices: &[Choice]) -> u64
    requires fits { Fits rows.now choices.now }
    requires small { sum_by greatest_own rows.now < 2 ^ 63 }
    ensures { result ≡ own_sum rows.now choices.now }
{
    let mut total = 0;
    for (number, choice) in choices.iter().enumerate() {
        total += own_cost(&rows[number], *choice).unwrap_or(0);
    }
    total
}

/// The costs of all fans.
fn fans_sum(fans: &[Fan], choices: &[Choice]) -> u64
    requires { sum_by (λ f. 2 * greatest_price f) fans.now < 2 ^ 63 }
    ensures { result ≡ sum_by (λ f. fan_cost f choices.now) fans.now }
{
    let mut total = 0;
    for fan in fans {
        total += fan.cost(choices);
    }
    total
}

/// What a list of choices costs: the own costs of its modules, and for each fan the prices from
/// its producer's sharing to each other sharing that some consumer has, each once. The time is
/// linear in the modules and the fans' consumers.
pub fn cost(problem: &Problem, choices: &[Choice]) -> u64
    requires problem { IsProblem problem.now }
    requires assigned { IsAssignment problem.now choices.now }
    ensures cost { result ≡ cost_of problem.now choices.now }
    ensures small { result < 2 ^ 63 }
{
    own_sum(problem.own(), choices) + fans_sum(problem.fans(), choices)
}

/// The lesser of two numbers, where there are two.
#[tactic(auto, unfolding(crate::specs::Bound::lesser))]
fn lesser(a: Option<u64>, b: Option<u64>) -> Option<u64>
    ensures { result ≡ lesser a b }
{
    match (a, b) {
        (Some(a), Some(b)) => Some(a.min(b)),
        (Some(a), None) => Some(a),
        (None, b) => b,
    }
}

/// The least of four numbers, where there are any.
fn least(a: Option<u64>, y: Option<u64>, c: Option<u64>, s: Option<u64>) -> Option<u64>
    ensures { result ≡ lesser (lesser (lesser a y) c) s }
{
    lesser(lesser(lesser(a, y), c), s)
}

/// The sums of two lists of what each sharing adds.
fn plus(one: &[u64; 3], other: &[u64; 3]) -> [u64; 3]
    requires { (t : Sharing) → entry_of one.now t + entry_of other.now t < 2 ^ 64 }
    ensures { (t : Sharing) → entry_of result t ≡ entry_of one.now t + entry_of other.now t }
{
    let [arithmetic, boolean, yao] = *one;
    let [more_arithmetic, more_boolean, more_yao] = *other;
    [
        arithmetic + more_arithmetic,
        boolean + more_boolean,
        yao + more_yao,
    ]
}

/// What each sharing at the module of this number adds, by rank, to the fans whose first consumer past the
/// prefix it is. The time is linear in the consumers of the fans that touch the module.
pub fn dues(problem: &Problem, prefix: &[Choice], number: usize) -> [u64; 3]
    requires problem { IsProblem problem.now }
    requires within { number < length problem.now.own }
    ensures { (t : Sharing) → entry_of result t ≡ due problem.now.fans prefix.now number t }
{
    let mut dues = [0; 3];
    for place in 0..problem.touching_count(number) {
        let fan = problem.touching_fan(number, place);
        if fan.next_from(prefix.len()) == Some(number) {
            dues = plus(&dues, &fan.further(prefix));
        }
    }
    dues
}

/// The own cost of a choice with what its sharing adds, if the choice is allowed.
fn with_due(row: &[Option<u64>; 4], choice: Choice, due: u64) -> Option<u64>
    requires { greatest_own row.now + due < 2 ^ 64 }
    ensures { result ≡ option_map (λ own. own + due) (own_of row.now choice) }
{
    let own = own_cost(row, choice)?;
    Some(own + due)
}

/// The least that a module adds, by what each sharing there adds.
pub fn least_by(row: &[Option<u64>; 4], entry: &[u64; 3]) -> u64
    requires { (t : Sharing) → greatest_own row.now + entry_of entry.now t < 2 ^ 64 }
    ensures { result ≡ least_by row.now entry.now }
{
    let [arithmetic, boolean, yao] = *entry;
    least(
        with_due(row, Choice::A, arithmetic),
        with_due(row, Choice::Y, yao),
        with_due(row, Choice::C, boolean),
        with_due(row, Choice::S, boolean),
    )
    .unwrap_or(0)
}

/// The least that the module of this number adds to the cost, in the time of `dues`.
pub fn least_at(problem: &Problem, prefix: &[Choice], number: usize) -> u64
    requires problem { IsProblem problem.now }
    requires within { number < length problem.now.own }
    ensures { result ≡ least_at problem.now.fans prefix.now number (slice_index_or problem.now.own number []) }
{
    least_by(&problem.own()[number], &dues(problem, prefix, number))
}

/// The least that the modules past the prefix add to the cost, each by itself.
fn least_past(problem: &Problem, prefix: &[Choice]) -> u64
    requires problem { IsProblem problem.now }
    requires fits { Fits problem.now.own prefix.now }
    ensures { result ≡ least_past problem.now.fans prefix.now (length prefix.now) (drop (length prefix.now) problem.now.own) }
{
    let mut total = 0;
    for number in prefix.len()..problem.own().len() {
        total += least_at(problem, prefix, number);
    }
    total
}

/// The price to the sharing of a choice, if the choice is allowed.
fn price_to(row: &[Option<u64>; 4], choice: Choice, fan: &Fan, from: Sharing) -> Option<u64>
    ensures { result ≡ option_map (λ _. price_of fan.now from (sharing_of choice)) (own_of row.now choice) }
{
    let _own = own_cost(row, choice)?;
    Some(fan.price(from, choice.sharing()))
}

/// The least price from the sharing of a choice to any of a consumer, if the choice is allowed.
fn least_from(
    producer: &[Option<u64>; 4],
    choice: Choice,
    consumer: &[Option<u64>; 4],
    fan: &Fan,
) -> Option<u64>
    ensures { result ≡ option_and_then (λ _. least (λ d. option_map (λ _. price_of fan.now (sharing_of choice) (sharing_of d)) (own_of consumer.now d))) (own_of producer.now choice) }
{
    let _own = own_cost(producer, choice)?;
    let from = choice.sharing();
    least(
        price_to(consumer, Choice::A, fan, from),
        price_to(consumer, Choice::Y, fan, from),
        price_to(consumer, Choice::C, fan, from),
        price_to(consumer, Choice::S, fan, from),
    )
}

/// The least price of a fan over the choices of its producer and of its first consumer.
pub fn least_price(rows: &[[Option<u64>; 4]], fan: &Fan) -> u64
    requires { IsFan (length rows.now) fan.now }
    ensures { result ≡ least_price rows.now fan.now }
{
    let producer = &rows[fan.from as usize];
    let consumer = &rows[fan.to.as_slice()[0] as usize];
    least(
        least_from(producer, Choice::A, consumer, fan),
        least_from(producer, Choice::Y, consumer, fan),
        least_from(producer, Choice::C, consumer, fan),
        least_from(producer, Choice::S, consumer, fan),
    )
    .unwrap_or(0)
}

/// The least prices of the fans whose producer is past the prefix.
fn unplaced_sum(problem: &Problem, prefix: &[Choice]) -> u64
    requires problem { IsProblem problem.now }
    requires fits { Fits problem.now.own prefix.now }
    ensures { result ≡ sum_by (λ f. cond (nat_lt f.from (length prefix.now)) 0 (least_price problem.now.own f)) problem.now.fans }
{
    let mut total = 0;
    for fan in problem.fans() {
        if fan.from as usize >= prefix.len() {
            total += least_price(problem.own(), fan);
        }
    }
    total
}

/// A bound on the cost of each list of choices that begins with the prefix, as `least_past` and
/// `least_price` say it: the cost so far, the least that each further module adds, and the least
/// price of each fan whose producer is past the prefix. The time is that of one pass over the
/// consumers of the fans that touch it, for each module past the prefix.
pub fn bound(problem: &Problem, prefix: &[Choice]) -> u64
    requires problem { IsProblem problem.now }
    requires fits { Fits problem.now.own prefix.now }
    ensures bound { result ≡ bound_of problem.now prefix.now }
    ensures small { result < 2 ^ 63 }
{
    let own = own_sum(problem.own(), prefix);
    let fans = fans_sum(problem.fans(), prefix);
    own + fans + least_past(problem, prefix) + unplaced_sum(problem, prefix)
}

/// A longer prefix has no lesser bound.
pub fn bound_never_falls(problem: &Problem, prefix: &[Choice])
    requires { IsProblem problem.now }
    ensures { (rest : List Choice) → Fits problem.now.own (prefix.now ++ rest) → bound_of problem.now prefix.now ≤ bound_of problem.now (prefix.now ++ rest) }
{}

/// The bound of a complete list is its cost.
pub fn bound_ends_at_cost(problem: &Problem, choices: &[Choice])
    requires problem { IsProblem problem.now }
    requires assigned { IsAssignment problem.now choices.now }
    ensures { bound_of problem.now choices.now ≡ cost_of problem.now choices.now }
{}

/// The bound of a prefix is at most the cost of each complete list that extends it.
pub fn bound_lies_below(problem: &Problem, prefix: &[Choice])
    requires { IsProblem problem.now }
    ensures { (rest : List Choice) → IsAssignment problem.now (prefix.now ++ rest) → bound_of problem.now prefix.now ≤ cost_of problem.now (prefix.now ++ rest) }
{}

/// A problem has one least list of choices.
pub fn least_is_one(problem: &Problem, choices: &[Choice], others: &[Choice])
    requires first { IsLeast problem.now choices.now }
    requires second { IsLeast problem.now others.now }
    ensures { choices.now ≡ others.now }
{}

/// A tree that closes for a list of choices shows that the list is the least one, whoever made
/// the tree.
pub fn closing_tree_shows_least(problem: &Problem, choices: &[Choice], tree: &Tree)
    requires problem { IsProblem problem.now }
    requires assigned { IsAssignment problem.now choices.now }
    requires closes { Closes problem.now choices.now tree.now.nodes }
    ensures { IsLeast problem.now choices.now }
{}
