//! The prefixes longer by one choice.

ghost use Rattle.std.specs.Prelude.{◌≡◌, ◌+◌, ◌^◌, ◌<◌, ◌∷◌, [], ◌++◌, cond, is_some, length, option_map, take, slice_index, slice_index_or, IsSome, OnOk, IfErr};
ghost use Rattle.choice_core.specs.declared.sharings.Choice.{Choice};
ghost use Rattle.choice_core.specs.Ahead.{IsAhead};
ghost use Rattle.choice_core.specs.Problems.{own_of, Fits, IsProblem};
ghost use Rattle.choice_core.specs.Bound.{bound_of};
ghost use Rattle.choice_search.specs.Arenas.{choices_at, listed, with_children, with_bounds, split_at};

use crate::arenas::{Arena, Node};
use crate::faults::SearchFault;
use crate::finding::Found;
use choice_core::{Ahead, Choice, Problem, look_ahead, rise_by, shallow_bound};

/// The bound of a prefix, the path's first choices, with one more choice, by what all choices there have in common. That
/// choice is written into the path.
fn bound_with(
    problem: &Problem,
    path: &mut [Choice],
    depth: usize,
    ahead: &Ahead,
    bound: u64,
    choice: Choice,
) -> u64
    requires problem { IsProblem problem.now }
    requires size { length path.old ≡ length problem.now.own }
    requires short { depth < length problem.now.own }
    requires fits { Fits problem.now.own (take depth path.old) }
    requires ahead { IsAhead problem.now (take depth path.old) ahead.now }
    requires bound { bound ≡ bound_of problem.now (take depth path.old) }
    requires allowed { IsSome (own_of (slice_index_or problem.now.own depth []) choice) }
    ensures bound { result ≡ bound_of problem.now (take depth path.old ++ choice ∷ []) }
    ensures path { take depth path.new ≡ take depth path.old }
{
    path[depth] = choice;
    bound + rise_by(problem, ahead, &path[..depth + 1])
}

/// The same where the choice is allowed.
fn bound_if_allowed(
    problem: &Problem,
    path: &mut [Choice],
    depth: usize,
    ahead: &Ahead,
    bound: u64,
    choice: Choice,
) -> Option<u64>
    requires problem { IsProblem problem.now }
    requires size { length path.old ≡ length problem.now.own }
    requires short { depth < length problem.now.own }
    requires fits { Fits problem.now.own (take depth path.old) }
    requires ahead { IsAhead problem.now (take depth path.old) ahead.now }
    requires bound { bound ≡ bound_of problem.now (take depth path.old) }
    ensures bound { result ≡ option_map (λ _. bound_of problem.now (take depth path.old ++ choice ∷ [])) (own_of (slice_index_or problem.now.own depth []) choice) }
    ensures path { take depth path.new ≡ take depth path.old }
{
    let _own = problem.own()[depth][choice.place()]?;
    Some(bound_with(problem, path, depth, ahead, bound, choice))
}

/// The bound with the choice S, where it is allowed: by the bound with C where that is allowed too.
fn bound_if_shallow(
    problem: &Problem,
    path: &mut [Choice],
    depth: usize,
    ahead: &Ahead,
    bound: u64,
    compact: Option<u64>,
) -> Option<u64>
    requires problem { IsProblem problem.now }
    requires size { length path.old ≡ length problem.now.own }
    requires short { depth < length problem.now.own }
    requires fits { Fits problem.now.own (take depth path.old) }
    requires ahead { IsAhead problem.now (take depth path.old) ahead.now }
    requires bound { bound ≡ bound_of problem.now (take depth path.old) }
    requires compact { compact ≡ option_map (λ _. bound_of problem.now (take depth path.old ++ Choice.C ∷ [])) (own_of (slice_index_or problem.now.own depth []) Choice.C) }
    ensures bound { result ≡ option_map (λ _. bound_of problem.now (take depth path.old ++ Choice.S ∷ [])) (own_of (slice_index_or problem.now.own depth []) Choice.S) }
{
    let Some(compact) = compact else {
        return bound_if_allowed(problem, path, depth, ahead, bound, Choice::S);
    };
    let _own = problem.own()[depth][Choice::S.place()]?;
    Some(shallow_bound(problem, &path[..depth], compact))
}

/// The bounds of a prefix, the path's first choices, with each choice that is allowed after it.
fn bounds_after(
    problem: &Problem,
    path: &mut [Choice],
    depth: usize,
    bound: u64,
) -> [Option<u64>; 4]
    requires problem { IsProblem problem.now }
    requires size { length path.old ≡ length problem.now.own }
    requires short { depth < length problem.now.own }
    requires fits { Fits problem.now.own (take depth path.old) }
    requires bound { bound ≡ bound_of problem.now (take depth path.old) }
    ensures { (c : Choice) → own_of result c ≡ option_map (λ _. bound_of problem.now (take depth path.old ++ c ∷ [])) (own_of (slice_index_or problem.now.own depth []) c) }
{
    let ahead = look_ahead(problem, &path[..depth]);
    let arithmetic = bound_if_allowed(problem, path, depth, &ahead, bound, Choice::A);
    let yao = bound_if_allowed(problem, path, depth, &ahead, bound, Choice::Y);
    let compact = bound_if_allowed(problem, path, depth, &ahead, bound, Choice::C);
    let shallow = bound_if_shallow(problem, path, depth, &ahead, bound, compact);
    [arithmetic, yao, compact, shallow]
}

impl Arena {
    /// Adds a prefix that waits.
    fn add(&mut self, node: Node, bound: u64) -> Result<(), SearchFault>
        ensures nodes { OnOk result (self.new.nodes.items ≡ self.old.nodes.items ++ node ∷ []) }
        ensures leasts { OnOk result (self.new.leasts.items ≡ self.old.leasts.items ++ bound ∷ []) }
        ensures memory { IfErr result (λ e. e ≡ SearchFault.Memory) }
    {
        self.nodes.push(node)?;
        self.leasts.push(bound)?;
        Ok(())
    }

    /// Adds the prefix of the found one and this choice, of the bound that it then has, if there is one.
    fn extend_by(
        &mut self,
        found: Found,
        bound: Option<u64>,
        choice: Choice,
    ) -> Result<(), SearchFault>
        requires { found.number < 2 ^ 32 }
        ensures nodes { OnOk result (self.new.nodes.items ≡ with_children self.old.nodes.items found.number (cond (is_some bound) (choice ∷ []) [])) }
        ensures leasts { OnOk result (self.new.leasts.items ≡ self.old.leasts.items ++ listed bound) }
        ensures memory { IfErr result (λ e. e ≡ SearchFault.Memory) }
    {
        let Some(bound) = bound else {
            return Ok(());
        };
        let node = Node {
            parent: found.number as u32,
            choice,
            first: 0,
            count: 0,
        };
        self.add(node, bound)
    }

    /// Adds one prefix for each choice that the module after a prefix allows, in order.
    fn extend(
        &mut self,
        problem: &Problem,
        path: &mut [Choice],
        found: Found,
    ) -> Result<(), SearchFault>
        requires problem { IsProblem problem.now }
        requires size { length path.old ≡ length problem.now.own }
        requires short { found.depth < length problem.now.own }
        requires fits { Fits problem.now.own (take found.depth path.old) }
        requires number { found.number < length self.old.leasts.items }
        requires bound { slice_index self.old.leasts.items found.number ≡ bound_of problem.now (take found.depth path.old) }
        requires few { found.number < 2 ^ 32 }
        ensures nodes { OnOk result (self.new.nodes.items ≡ with_children self.old.nodes.items found.number (choices_at problem.now (take found.depth path.old))) }
        ensures leasts { OnOk result (self.new.leasts.items ≡ with_bounds problem.now self.old.leasts.items (take found.depth path.old) (choices_at problem.now (take found.depth path.old))) }
        ensures memory { IfErr result (λ e. e ≡ SearchFault.Memory) }
    {
        let bound = self.leasts[found.number];
        let bounds = bounds_after(problem, path, found.depth, bound);
        for choice in [Choice::A, Choice::Y, Choice::C, Choice::S] {
            self.extend_by(found, bounds[choice.place()], choice)?;
        }
        Ok(())
    }

    /// Splits a waiting prefix that isn't complete, whose choices are the first ones of the path:
    /// makes one prefix for each choice that its next module allows, in order.
    pub fn split(
        &mut self,
        problem: &Problem,
        path: &mut [Choice],
        found: Found,
    ) -> Result<(), SearchFault>
        requires problem { IsProblem problem.now }
        requires size { length path.old ≡ length problem.now.own }
        requires short { found.depth < length problem.now.own }
        requires fits { Fits problem.now.own (take found.depth path.old) }
        requires number { found.number < length self.old.nodes.items }
        requires leasts { length self.old.leasts.items ≡ length self.old.nodes.items }
        requires bound { slice_index self.old.leasts.items found.number ≡ bound_of problem.now (take found.depth path.old) }
        requires few { length self.old.nodes.items + 4 < 2 ^ 32 }
        ensures nodes { OnOk result (self.new.nodes.items ≡ split_at self.old.nodes.items found.number (choices_at problem.now (take found.depth path.old))) }
        ensures leasts { OnOk result (self.new.leasts.items ≡ with_bounds problem.now self.old.leasts.items (take found.depth path.old) (choices_at problem.now (take found.depth path.old))) }
        ensures memory { IfErr result (λ e. e ≡ SearchFault.Memory) }
    {
        let first = self.nodes.len();
        self.extend(problem, path, found)?;
        let count = self.nodes.len() - first;
        let node = self.nodes[found.number];
        self.nodes[found.number] = Node {
            first: first as u32,
            count: count as u32,
            ..node
        };
        Ok(())
    }
}
