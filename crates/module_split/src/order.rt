//! The order of modules, and the number of each node's module.
ghost use Rattle.word_graph.specs.Shape.{node_limit};
ghost use Rattle.std.specs.Prelude.{◌≡◌, ◌≤◌, ◌^◌, length, map, IfOk, OnOk};
ghost use Rattle.std.specs.List.{All, filter_map};
ghost use Rattle.module_split.specs.Homes.{IsLowGroup};
ghost use Rattle.module_split.specs.Cut.{different_after, number_in, numbers_of, order_of};
ghost use Rattle.module_split.specs.Steps.{group_at, layer_number};

use crate::homes::Group;
use crate::uses::nodes_of;
use hy_bits::Memory;
use indexmap::IndexSet;
use std::alloc::Global;

/// The layer of a group.
fn layer_number(group: &Option<Group>) -> Option<usize>
    ensures { result ≡ layer_number group.now }
{
    match group {
        Some(group) => Some(group.layer as usize),
        None => None,
    }
}

/// The layer of each node's group.
fn layers_of(alloc: Global, groups: &[Option<Group>]) -> Result<Vec<Option<usize>>, Memory>
    ensures { IfOk result (λ numbers. numbers.items ≡ map layer_number groups.now) }
{
    let mut numbers = Vec::with_capacity(alloc, groups.len())?;
    for group in groups {
        numbers.push(layer_number(group))?;
    }
    Ok(numbers)
}

/// The group of a node.
fn group_at(groups: &[Option<Group>], node: u32) -> Option<Group>
    ensures { result ≡ group_at groups.now node }
{
    match groups.get(node as usize) {
        Some(group) => *group,
        None => None,
    }
}

/// Adds the groups of these nodes that are new, in order.
fn add_groups(
    order: &mut IndexSet<Group>,
    groups: &[Option<Group>],
    nodes: &[u32],
) -> Result<(), Memory>
    ensures { OnOk result (order.new.keys ≡ different_after order.old.keys (filter_map (group_at groups.now) nodes.now)) }
{
    for node in nodes {
        if let Some(group) = group_at(groups, *node) {
            order.insert(group)?;
        }
    }
    Ok(())
}

/// The groups of the modules, by layer and then by first node. Time grows with the number of nodes and of layers, since the
/// nodes are put into the lists of their layers first.
pub fn order_of(
    alloc: Global,
    layers: u32,
    groups: &[Option<Group>],
) -> Result<IndexSet<Group>, Memory>
    requires limit { length groups.now ≤ node_limit }
    requires low { All (IsLowGroup layers) groups.now }
    ensures { IfOk result (λ order. order.keys ≡ order_of layers groups.now) }
{
    let numbers = layers_of(alloc, groups)?;
    let count = layers as usize;
    let nodes = nodes_of(alloc, &numbers, count)?;
    let mut order = IndexSet::new(alloc);
    for layer in 0..count {
        add_groups(&mut order, groups, nodes.get(layer))?;
    }
    Ok(order)
}

/// The number of the module of a group.
fn number_in(order: &IndexSet<Group>, group: &Option<Group>) -> Option<usize>
    ensures { result ≡ number_in order.now.keys group.now }
{
    match group {
        Some(group) => order.get_index_of(group),
        None => None,
    }
}

/// The number of each node's module.
pub fn numbers_of(
    alloc: Global,
    order: &IndexSet<Group>,
    groups: &[Option<Group>],
) -> Result<Vec<Option<usize>>, Memory>
    ensures { IfOk result (λ numbers. numbers.items ≡ numbers_of order.now.keys groups.now) }
{
    let mut numbers = Vec::with_capacity(alloc, groups.len())?;
    for group in groups {
        numbers.push(number_in(order, group))?;
    }
    Ok(numbers)
}
