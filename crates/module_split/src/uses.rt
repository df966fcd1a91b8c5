//! Who uses whom, which nodes lie in which module, and what a module uses of others.
ghost use Rattle.std.specs.Prelude.{◌≡◌, ◌<◌, ◌≤◌, ◌^◌, ℕ, List, length, filter, IfOk, OnOk};
ghost use Rattle.std.specs.List.{All};
ghost use Rattle.word_graph.specs.Term.{taken_by};
ghost use Rattle.word_graph.specs.Shape.{IsGraph, node_limit};
ghost use Rattle.module_split.specs.Lists.{at};
ghost use Rattle.module_split.specs.Cut.{nodes_of};
ghost use Rattle.module_split.specs.Steps.{AddsCrossing, AddsUser, AreUsers, IsBelow, IsDistinct, crosses_in, number_at, other_than};

use crate::lists::Lists;
use hy_bits::Memory;
use std::alloc::Global;
use word_graph::Entry;

/// The number of a node's module, if it lies in one.
pub fn number_at(numbers: &[Option<usize>], place: u32) -> Option<usize>
    ensures { result ≡ number_at numbers.now place }
{
    match numbers.get(place as usize) {
        Some(number) => *number,
        None => None,
    }
}

/// Adds a node to the users of each node that it takes, once.
fn add_user(users: &mut Lists, entry: &Entry, user: u32) -> Result<(), Memory>
    requires { All (λ k. k < length users.old) (taken_by entry.now) }
    ensures { OnOk result (AddsUser users.old users.new entry.now user) }
{
    for place in entry.taken() {
        users.add_once(*place as usize, user)?;
    }
    Ok(())
}

/// The users of each node, ascending.
pub fn users_of(alloc: Global, entries: &[Entry]) -> Result<Lists, Memory>
    requires { IsGraph entries.now }
    ensures { IfOk result (AreUsers entries.now) }
{
    let mut users = Lists::new(alloc, entries.len())?;
    for (user, entry) in entries.iter().enumerate() {
        add_user(&mut users, entry, user as u32)?;
    }
    Ok(users)
}

/// The nodes of each module, ascending.
pub fn nodes_of(alloc: Global, numbers: &[Option<usize>], count: usize) -> Result<Lists, Memory>
    requires few { length numbers.now ≤ node_limit }
    requires below { All (IsBelow count) numbers.now }
    ensures count { IfOk result (λ nodes. length nodes ≡ count) }
    ensures nodes { IfOk result (λ nodes. (m : ℕ) → m < count → at nodes m ≡ nodes_of numbers.now m) }
{
    let mut nodes = Lists::new(alloc, count)?;
    for (place, number) in numbers.iter().enumerate() {
        if let Some(module) = number {
            nodes.add(*module, place as u32)?;
        }
    }
    Ok(nodes)
}

/// The module of a user, where it is not the node's own.
fn other_module(own: Option<usize>, user: Option<usize>) -> Option<usize>
    ensures { result ≡ other_than own user }
{
    match user {
        Some(module) => {
            if own == Some(module) {
                None
            } else {
                Some(module)
            }
        }
        None => None,
    }
}

/// Adds a node to the list of each module other than its own that has one of its users, once.
fn add_crossing(
    lists: &mut Lists,
    place: u32,
    users: &[u32],
    numbers: &[Option<usize>],
) -> Result<(), Memory>
    requires { All (IsBelow (length lists.old)) numbers.now }
    ensures { OnOk result (AddsCrossing lists.old lists.new numbers.now users.now place) }
{
    let own = number_at(numbers, place);
    for user in users {
        let number = number_at(numbers, *user);
        if let Some(module) = other_module(own, number) {
            lists.add_once(module, place)?;
        }
    }
    Ok(())
}

/// Which of the nodes at these places each module uses without having them, in their order.
pub fn crossings(
    alloc: Global,
    places: &[u32],
    users: &Lists,
    numbers: &[Option<usize>],
    count: usize,
) -> Result<Lists, Memory>
    requires stand { All (λ k. k < length users.now) places.now }
    requires distinct { IsDistinct places.now }
    requires below { All (IsBelow count) numbers.now }
    ensures count { IfOk result (λ lists. length lists ≡ count) }
    ensures lists { IfOk result (λ lists. (m : ℕ) → m < count → at lists m ≡ filter (crosses_in users.now numbers.now m) places.now) }
{
    let mut lists = Lists::new(alloc, count)?;
    for place in places {
        add_crossing(&mut lists, *place, users.get(*place as usize), numbers)?;
    }
    Ok(lists)
}
