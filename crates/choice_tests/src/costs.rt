//! Costs and bounds.
ghost use Rattle.std.specs.Prelude.{◌≡◌, ◌≢◌, ◌+◌, ◌<◌, ◌≤◌, ◌^◌, List, length, All, IfOk};
ghost use Rattle.choice_core.specs.declared.sharings.Choice.{Choice};
ghost use Rattle.choice_core.specs.Problems.{Fits, IsAssignment, IsProblem};

use crate::samples::{edge, ladder};
use choice_core::{Choice, Fan, Problem, bound, cost, rise};
use hy_bits::{Memory, Sequence};
use std::alloc::{AllocError, Global};
use std::process::Abort;
use std::test::Fail;

/// What the choices cost on the ladder, by its own definition.
fn ladder_cost(leaves: usize, choices: &[Choice]) -> u64 {
    let mut total = 0u64;
    for (number, choice) in choices.iter().enumerate() {
        let own = match choice {
            Choice::A => u64::MAX,
            Choice::Y if number < leaves => (number % 2) as u64,
            Choice::C if number < leaves => (1 - number % 2) as u64,
            Choice::Y | Choice::C => 0,
            Choice::S => 1000,
        };
        total = total.saturating_add(own);
    }
    for leaf in 0..leaves {
        let last = choices.len().saturating_sub(1);
        for (from, to) in [
            (leaf, leaves.saturating_add(leaf)),
            (leaves.saturating_add(leaf), last),
        ] {
            let from_yao = matches!(choices.get(from), Some(Choice::Y));
            let to_yao = matches!(choices.get(to), Some(Choice::Y));
            if from_yao != to_yao {
                total = total.saturating_add(1000);
            }
        }
    }
    total
}

/// The choices but A, by number.
fn letter(number: usize) -> Choice
    ensures { result ≢ Choice.A }
{
    match number % 3 {
        0 => Choice::Y,
        1 => Choice::C,
        _ => Choice::S,
    }
}

/// Writes the list of this number over Y, C and S, the first module's choice by the last digit.
fn write_list(number: usize, choices: &mut [Choice])
    ensures { All (λ c. c ≢ Choice.A) choices.new }
{
    let mut rest = number;
    for choice in choices.iter_mut() {
        *choice = letter(rest);
        rest /= 3;
    }
}

/// The cost of every list of `count` choices over Y, C and S, in the order of their numbers.
fn all_costs(
    rt: &impl Abort,
    alloc: Global,
    problem: &Problem,
    leaves: usize,
    choices: &mut [Choice],
    lists: usize,
) -> Result<Vec<u64>, AllocError>
    requires problem { IsProblem problem.now }
    requires whole { length choices.old ≡ length problem.now.own }
    requires boolean { (cs : List Choice) → All (λ c. c ≢ Choice.A) cs → length cs ≤ length problem.now.own → Fits problem.now.own cs }
{
    let mut costs = Vec::new(alloc);
    for number in 0..lists {
        write_list(number, choices);
        let found = cost(problem, choices);
        assert_eq!(rt; found, ladder_cost(leaves, choices));
        costs.push(found)?;
    }
    Ok(costs)
}

/// Compares the bound of each prefix of one length with the least cost below it.
fn compare_bounds(rt: &impl Abort, problem: &Problem, least: &[u64], prefix: &mut [Choice])
    requires problem { IsProblem problem.now }
    requires short { length prefix.old ≤ length problem.now.own }
    requires boolean { (cs : List Choice) → All (λ c. c ≢ Choice.A) cs → length cs ≤ length problem.now.own → Fits problem.now.own cs }
{
    for (number, least) in least.iter().enumerate() {
        write_list(number, prefix);
        assert!(rt;
            bound(problem, prefix) <= *least,
            "prefix {number} of {} choices",
            prefix.len()
        );
    }
}

/// Grows the bound along a list of choices, and compares it with the plain one.
fn compare_growth(rt: &impl Abort, problem: &Problem, choices: &[Choice])
    requires problem { IsProblem problem.now }
    requires fits { Fits problem.now.own choices.now }
{
    let mut grown = bound(problem, &choices[..0]);
    for count in 0..choices.len() {
        let prefix = &choices[..count + 1];
        grown = grown.saturating_add(rise(problem, prefix));
        assert_eq!(rt; grown, bound(problem, prefix));
    }
}

/// The least cost below each prefix, from those below the prefixes longer by one choice.
fn one_shorter(alloc: Global, longer: &[u64]) -> Result<Vec<u64>, AllocError> {
    let third = longer.len() / 3;
    let mut least = Vec::new(alloc);
    for number in 0..third {
        least.push(least_of_three(longer, number, third))?;
    }
    Ok(least)
}

/// The least of the numbers in a place, and one and two steps after it.
fn least_of_three(numbers: &[u64], place: usize, step: usize) -> u64 {
    let first = number_at(numbers, Some(place));
    let second = number_at(numbers, place.checked_add(step));
    let last = number_at(numbers, place.checked_add(step.saturating_mul(2)));
    first.min(second).min(last)
}

fn number_at(numbers: &[u64], place: Option<usize>) -> u64 {
    match place {
        Some(place) if place < numbers.len() => numbers[place],
        _ => 0,
    }
}

/// The costs of all lists on a ladder, and the bounds of all prefixes.
fn compare_ladder(rt: &impl Abort, alloc: Global, leaves: u32, lists: usize) -> Result<(), Fail>
    requires { leaves ≤ 4 }
{
    let problem = ladder(alloc, leaves)?;
    let count = 2 * leaves as usize + 1;
    let mut choices = [Choice::Y; 9];
    let mut least = all_costs(
        rt,
        alloc,
        &problem,
        leaves as usize,
        &mut choices[..count],
        lists,
    )?;
    for size in (0..=count).rev() {
        compare_bounds(rt, &problem, least.as_slice(), &mut choices[..size]);
        if size > 0 {
            least = one_shorter(alloc, least.as_slice())?;
        }
    }
    assert_eq!(rt; least.as_slice(), [u64::from(leaves / 2)].as_slice());
    Ok(())
}

#[test]
fn costs_are_the_ladder_s_and_bounds_lie_below_them(rt: HostRuntime) -> Result<(), Fail> {
    compare_ladder(&rt, rt.alloc(), 0, 3)?;
    compare_ladder(&rt, rt.alloc(), 1, 27)?;
    compare_ladder(&rt, rt.alloc(), 2, 243)?;
    compare_ladder(&rt, rt.alloc(), 3, 2187)?;
    compare_ladder(&rt, rt.alloc(), 4, 19683)?;
    Ok(())
}

#[test]
fn a_ladder_of_sixteen_leaves_costs_eight_at_yao(rt: HostRuntime) -> Result<(), Fail> {
    let problem = ladder(rt.alloc(), 16)?;
    let mut choices = [Choice::Y; 33];
    write_list(0, &mut choices);
    assert_eq!(rt; cost(&problem, &choices), 8);
    assert_eq!(rt; bound(&problem, &choices), 8);
    Ok(())
}

#[test]
fn a_bound_grows_as_the_plain_one(rt: HostRuntime) -> Result<(), Fail> {
    let problem = ladder(rt.alloc(), 3)?;
    let mut choices = [Choice::Y; 7];
    for number in 0..2187 {
        write_list(number, &mut choices);
        compare_growth(&rt, &problem, &choices);
    }
    Ok(())
}

/// One module with as many fans as there are others: each other one uses one of them, or the first
/// of them uses all. Each module would like Y.
fn star(alloc: Global, leaves: u32, shared: bool) -> Result<Problem, Memory>
    requires some { 0 < leaves }
    requires few { leaves < 2 ^ 20 }
    ensures problem { IfOk result (λ p. IsProblem p) }
    ensures count { IfOk result (λ p. length p.own ≡ leaves + 1) }
    ensures boolean { IfOk result (λ p. (cs : List Choice) → All (λ c. c ≢ Choice.A) cs → length cs ≤ length p.own → Fits p.own cs) }
{
    let count = leaves + 1;
    let mut own = Vec::new(alloc);
    for _ in 0..count {
        own.push([None, Some(0), Some(5000), Some(5000)])?;
    }
    let mut fans = Vec::new(alloc);
    for leaf in 0..leaves {
        fans.push(edge(alloc, 0, consumer(leaf, shared), count)?)?;
    }
    Problem::of(alloc, Sequence::new(own), Sequence::new(fans))
}

/// The consumer of a fan of `star`.
fn consumer(leaf: u32, shared: bool) -> u32
    requires { leaf < 2 ^ 20 }
    ensures some { 0 < result }
    ensures within { result ≤ leaf + 1 }
{
    if shared { 1 } else { leaf + 1 }
}

/// C for the first module of `star`, and Y for the others.
fn star_choices(alloc: Global, leaves: u32) -> Result<Vec<Choice>, AllocError>
    ensures others { IfOk result (λ cs. All (λ c. c ≢ Choice.A) cs.items) }
    ensures count { IfOk result (λ cs. length cs.items ≡ leaves + 1) }
{
    let mut choices = Vec::new(alloc);
    choices.push(Choice::C)?;
    for _ in 0..leaves {
        choices.push(Choice::Y)?;
    }
    Ok(choices)
}

/// Grows the bound of a star along a list of choices, and reckons its first rise hundreds of times.
fn compare_star(rt: &impl Abort, problem: &Problem, choices: &[Choice], first: u64)
    requires problem { IsProblem problem.now }
    requires some { 0 < length choices.now }
    requires assigned { IsAssignment problem.now choices.now }
{
    let mut grown = bound(problem, &choices[..0]);
    assert_eq!(rt; grown, 0);
    for count in 0..choices.len() {
        grown = grown.saturating_add(rise(problem, &choices[..count + 1]));
    }
    assert_eq!(rt; grown, cost(problem, choices));
    for _ in 0..300usize {
        assert_eq!(rt; rise(problem, &choices[..1]), first);
    }
}

#[test]
fn a_rise_at_twenty_thousand_fans_takes_no_time_of_pairs(rt: HostRuntime) -> Result<(), Fail> {
    for (shared, first) in [(false, 20_005_000), (true, 10_000)] {
        let problem = star(rt.alloc(), 20_000, shared)?;
        let choices = star_choices(rt.alloc(), 20_000)?;
        compare_star(&rt, &problem, choices.as_slice(), first);
        assert_eq!(rt; cost(&problem, choices.as_slice()), 20_005_000);
    }
    Ok(())
}

/// Whether a fan goes from one module to another one alone.
fn is_edge(fan: &Fan, from: u32, to: u32) -> bool {
    fan.from == from && is_only(fan.to.as_slice(), to)
}

/// Whether a list has one number alone.
fn is_only(numbers: &[u32], number: u32) -> bool {
    match numbers {
        [only] => *only == number,
        _ => false,
    }
}

#[test]
fn a_middle_module_is_touched_by_its_two_edges(rt: HostRuntime) -> Result<(), Fail> {
    let problem = ladder(rt.alloc(), 2)?;
    assert_eq!(rt; problem.touching_count(2), 2);
    assert!(rt; is_edge(problem.touching_fan(2, 0), 0, 2));
    assert!(rt; is_edge(problem.touching_fan(2, 1), 2, 4));
    Ok(())
}

#[test]
fn each_module_is_followed_by_those_that_its_fans_go_on_to(rt: HostRuntime) -> Result<(), Fail> {
    let problem = ladder(rt.alloc(), 2)?;
    assert!(rt; is_only(problem.following(0), 2));
    assert!(rt; is_only(problem.following(2), 4));
    assert_eq!(rt; problem.following(4).len(), 0);
    Ok(())
}
