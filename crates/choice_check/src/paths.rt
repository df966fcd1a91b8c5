//! The allowed choices of a module, and paths through them.

ghost use Rattle.std.specs.Prelude.{◌≡◌, ◌+◌, ◌-◌, ◌<◌, ◌≤◌, cond, is_some, nat_lt, length, slice_set, take, [], ◌∷◌, MatchOption, IsSome};
ghost use Rattle.choice_core.specs.Choices.{place};
ghost use Rattle.choice_core.specs.Problems.{own_of, HasChoice, IsProblem};
ghost use Rattle.choice_core.specs.Bound.{bound_of};
ghost use Rattle.choice_check.specs.Walks.{choices_from, row_of, siblings, IsPath};

use choice_core::{Choice, Problem, rise, shallow_bound};

/// The choice of a place in the order A, Y, C, S.
fn choice_at(number: usize) -> Choice
    requires { number < 4 }
    ensures { place result ≡ number }
{
    match number {
        0 => Choice::A,
        1 => Choice::Y,
        2 => Choice::C,
        _ => Choice::S,
    }
}

/// The first allowed choice whose place is at least `low`.
fn next_choice(row: &[Option<u64>; 4], low: usize) -> Option<Choice>
    ensures some { MatchOption result (choices_from row.now low ≡ []) (λ c. choices_from row.now low ≡ c ∷ choices_from row.now (place c + 1)) }
    ensures allowed { MatchOption result (Unit {0}) (λ c. IsSome (own_of row.now c)) }
{
    for number in low..4 {
        if row[number].is_some() {
            return Some(choice_at(number));
        }
    }
    None
}

/// The first allowed choice.
pub fn first_choice(row: &[Option<u64>; 4]) -> Choice
    requires { HasChoice row.now }
    ensures first { choices_from row.now 0 ≡ result ∷ choices_from row.now (place result + 1) }
    ensures allowed { IsSome (own_of row.now result) }
{
    next_choice(row, 0).unwrap_or(Choice::A)
}

/// One for a choice that is allowed.
fn one(own: Option<u64>) -> usize
    ensures { result ≡ cond (is_some own) 1 0 }
{
    match own {
        Some(_) => 1,
        None => 0,
    }
}

/// How many choices are allowed.
pub fn count_choices(row: &[Option<u64>; 4]) -> usize
    ensures count { result ≡ length (choices_from row.now 0) }
    ensures few { result ≤ 4 }
{
    let [a, y, c, s] = *row;
    one(a) + one(y) + one(c) + one(s)
}

/// The bound of the path's first choices with the one of this number, from that without it.
pub fn bound_with(problem: &Problem, path: &[Choice], number: usize, bound: u64) -> u64
    requires problem { IsProblem problem.now }
    requires path { IsPath problem.now path.now (number + 1) }
    requires bound { bound ≡ bound_of problem.now (take number path.now) }
    ensures { result ≡ bound_of problem.now (take (number + 1) path.now) }
{
    bound + rise(problem, &path[..number + 1])
}

/// The bound of the path's first choices without the one of this number, from that with it.
fn bound_without(problem: &Problem, path: &[Choice], number: usize, bound: u64) -> u64
    requires problem { IsProblem problem.now }
    requires path { IsPath problem.now path.now (number + 1) }
    requires bound { bound ≡ bound_of problem.now (take (number + 1) path.now) }
    ensures { result ≡ bound_of problem.now (take number path.now) }
{
    bound - rise(problem, &path[..number + 1])
}

/// The bound of the path's first choices without the last of them, where there are any, by their own bound.
fn parent_bound(problem: &Problem, path: &[Choice], depth: usize, bound: u64) -> u64
    requires problem { IsProblem problem.now }
    requires path { IsPath problem.now path.now depth }
    requires bound { bound ≡ bound_of problem.now (take depth path.now) }
    ensures { result ≡ bound_of problem.now (take (depth - 1) path.now) }
{
    if depth == 0 {
        return bound;
    }
    bound_without(problem, path, depth - 1, bound)
}

/// The bound of the path's first choices with another one in place of the one of this number, by that with it and that of
/// those before it. The other choice is written into the path.
fn bound_beside(
    problem: &Problem,
    path: &mut [Choice],
    number: usize,
    choice: Choice,
    bound: u64,
    parent: u64,
) -> u64
    requires problem { IsProblem problem.now }
    requires path { IsPath problem.now path.old (number + 1) }
    requires allowed { IsSome (own_of (row_of problem.now number) choice) }
    requires bound { bound ≡ bound_of problem.now (take (number + 1) path.old) }
    requires parent { parent ≡ bound_of problem.now (take number path.old) }
    ensures path { path.new ≡ slice_set path.old number choice }
    ensures bound { result ≡ bound_of problem.now (take (number + 1) path.new) }
{
    let before = path[number];
    path[number] = choice;
    match (before, choice) {
        (Choice::C, Choice::S) => shallow_bound(problem, &path[..number], bound),
        _ => bound_with(problem, path, number, parent),
    }
}

/// The next prefix that is due: how many of the path's choices it has, 0 where none is due, its bound, and that of the
/// prefix without its last choice.
#[derive(Clone, Copy)]
pub struct Next {
    pub depth: usize,
    pub bound: u64,
    pub parent: u64,
}

/// Makes the path's first choices those of the next prefix that is due after them. The time is that of `rise` for each choice
/// that it drops but the last, and for one more; where S comes in place of C there is none more.
pub fn advance(
    problem: &Problem,
    path: &mut [Choice],
    depth: usize,
    bound: u64,
    parent: u64,
) -> Next
    requires problem { IsProblem problem.now }
    requires path { IsPath problem.now path.old depth }
    requires bound { bound ≡ bound_of problem.now (take depth path.old) }
    requires parent { parent ≡ bound_of problem.now (take (depth - 1) path.old) }
    ensures path { IsPath problem.now path.new result.depth }
    ensures next { siblings problem.now path.old depth ≡ cond (nat_lt 0 result.depth) (take result.depth path.new ∷ siblings problem.now path.new result.depth) [] }
    ensures bound { result.bound ≡ bound_of problem.now (take result.depth path.new) }
    ensures parent { result.parent ≡ bound_of problem.now (take (result.depth - 1) path.new) }
{
    let rows = problem.own();
    let mut bound = bound;
    let mut parent = parent;
    for number in (0..depth).rev() {
        if let Some(choice) = next_choice(&rows[number], path[number].place() + 1) {
            let bound = bound_beside(problem, path, number, choice, bound, parent);
            return Next {
                depth: number + 1,
                bound,
                parent,
            };
        }
        bound = parent;
        parent = parent_bound(problem, path, number, bound);
    }
    Next {
        depth: 0,
        bound,
        parent,
    }
}
