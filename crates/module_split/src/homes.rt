//! Where each node belongs: its class, its layer and its group.
ghost use Rattle.std.specs.Prelude.{◌≡◌, ◌<◌, ◌≤◌, map, IfOk};
ghost use Rattle.std.specs.List.{All};
ghost use Rattle.module_split.specs.Homes.{IsLow, IsLowGroup, group_of, home_at, home_of, homes_of, is_arithmetic, is_ring, layer_of, layer_over};

use hy_bits::{Memory, Op};
use std::alloc::Global;
use word_graph::Entry;

/// What the nodes of a module have in common: the class, whether it is the arithmetic one, the layer and the region.
#[derive(Clone, Copy, PartialEq, Eq, Hash, Debug)]
pub struct Group {
    pub ring: bool,
    pub layer: u32,
    pub region: u32,
}

/// Where a node belongs: inputs and constants lie in no module.
#[derive(Clone, Copy, PartialEq, Eq, Debug)]
pub enum Home {
    Input,
    Constant,
    Inside(Group),
}

impl Home {
    /// Whether this is an input, or of the arithmetic class.
    pub fn is_arithmetic(self) -> bool
        ensures { result ≡ is_arithmetic self }
    {
        match self {
            Home::Input => true,
            Home::Constant => false,
            Home::Inside(group) => group.ring,
        }
    }
}

/// The home of the node at a place.
pub fn home_at(homes: &[Home], place: u32) -> Home
    ensures value { result ≡ home_at homes.now place }
{
    match homes.get(place as usize) {
        Some(home) => *home,
        None => Home::Constant,
    }
}

/// Whether a node is of the arithmetic class, over the homes of the nodes before it.
fn is_ring(homes: &[Home], entry: &Entry) -> bool
    ensures { result ≡ is_ring homes.now entry.now }
{
    let first = home_at(homes, entry.args[0]);
    entry.width.bits() >= 8
        && match entry.op {
            Op::Add | Op::Sub | Op::Mul | Op::Neg => true,
            Op::Trunc => first.is_arithmetic(),
            _ => false,
        }
}

/// The layer of a node of this class and region over a node of this home.
fn layer_over(ring: bool, region: u32, home: Home) -> u32
    requires { IsLow 64 home }
    ensures value { result ≡ layer_over ring region home }
    ensures low { result ≤ 64 }
{
    match home {
        Home::Input | Home::Constant => 0,
        Home::Inside(group) => {
            if group.ring == ring && group.region == region {
                group.layer
            } else {
                group.layer + 1
            }
        }
    }
}

/// The layer of a node over the homes of the nodes before it.
fn layer_of(layers: u32, homes: &[Home], entry: &Entry) -> u32
    requires some { 0 < layers }
    requires low { All (IsLow 64) homes.now }
    ensures value { result ≡ layer_of layers homes.now entry.now }
    ensures low { result < layers }
{
    let ring = is_ring(homes, entry);
    let mut layer = 0;
    for place in entry.taken() {
        let home = home_at(homes, *place);
        layer = layer.max(layer_over(ring, entry.region, home));
    }
    layer.min(layers - 1)
}

/// The home of a node over the homes of the nodes before it.
fn home_of(layers: u32, homes: &[Home], entry: &Entry) -> Home
    requires some { 0 < layers }
    requires low { All (IsLow 64) homes.now }
    ensures value { result ≡ home_of layers homes.now entry.now }
    ensures low { IsLow layers result }
{
    match entry.op {
        Op::In => Home::Input,
        Op::Const => Home::Constant,
        _ => Home::Inside(Group {
            ring: is_ring(homes, entry),
            layer: layer_of(layers, homes, entry),
            region: entry.region,
        }),
    }
}

/// The homes of all nodes.
pub fn homes_of(alloc: Global, layers: u32, entries: &[Entry]) -> Result<Vec<Home>, Memory>
    requires some { 0 < layers }
    requires few { layers ≤ 64 }
    ensures homes { IfOk result (λ homes. homes.items ≡ homes_of layers entries.now) }
    ensures low { IfOk result (λ homes. All (IsLow layers) homes.items) }
{
    let mut homes = Vec::new(alloc);
    for entry in entries {
        let home = home_of(layers, &homes, entry);
        homes.push(home)?;
    }
    Ok(homes)
}

/// The group of a node of this home.
fn group_of(layers: u32, home: Home) -> Option<Group>
    requires some { 0 < layers }
    requires low { IsLow layers home }
    ensures value { result ≡ group_of layers home }
    ensures low { IsLowGroup layers result }
{
    match home {
        Home::Input | Home::Constant => None,
        Home::Inside(group) => {
            if group.layer == layers - 1 {
                Some(Group {
                    ring: false,
                    layer: group.layer,
                    region: 0,
                })
            } else {
                Some(group)
            }
        }
    }
}

/// The groups of all nodes, by their homes.
pub fn groups_of(alloc: Global, layers: u32, homes: &[Home]) -> Result<Vec<Option<Group>>, Memory>
    requires some { 0 < layers }
    requires low { All (IsLow layers) homes.now }
    ensures groups { IfOk result (λ groups. groups.items ≡ map (group_of layers) homes.now) }
    ensures low { IfOk result (λ groups. All (IsLowGroup layers) groups.items) }
{
    let mut groups = Vec::with_capacity(alloc, homes.len())?;
    for home in homes {
        groups.push(group_of(layers, *home))?;
    }
    Ok(groups)
}
