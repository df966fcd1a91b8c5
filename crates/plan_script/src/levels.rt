//! The gates of a module by depth.
ghost use Rattle.std.specs.Prelude.{◌≡◌, ◌==◌, ◌+◌, ◌^◌, ◌<◌, ◌≤◌, ◌++◌, ◌∷◌, [], ℕ, filter, length, max, replicate, slice_index, slice_set, IfOk, OnOk};
ghost use Rattle.std.specs.List.{All, fold};
ghost use Rattle.module_split.specs.Cut.{below};
ghost use Rattle.plan_script.specs.Levels.{by_depth, gate_at, is_product, level_kind, places_at, with_depth, with_gate, with_level, with_level_from, with_local, with_product};
ghost use Rattle.plan_script.specs.Buckets.{AreBuckets, bucket_at};

use crate::script::{Script, count};
use choice_core::Sharing;
use hy_bits::{Memory, Sequence, Width};
use share_core::{Instr, InstrKind};
use std::alloc::Global;

/// Whether a gate needs a message.
fn is_product(kind: InstrKind) -> bool
    ensures { result ≡ is_product kind }
{
    match kind {
        InstrKind::MulA | InstrKind::AndB | InstrKind::AndY => true,
        _ => false,
    }
}

/// The kind of a level.
fn level_kind(sharing: Sharing) -> InstrKind
    ensures { result ≡ level_kind sharing }
{
    match sharing {
        Sharing::Arithmetic => InstrKind::LevelA,
        Sharing::Boolean => InstrKind::LevelB,
        Sharing::Yao => InstrKind::LevelY,
    }
}

/// The gate at a place.
fn gate_at(gates: &[Instr], place: u32) -> Instr
    ensures { result ≡ gate_at gates.now place }
{
    match gates.get(place as usize) {
        Some(gate) => *gate,
        None => Instr {
            kind: InstrKind::Known,
            number: 0,
            width: Width::W1,
            left: 0,
            right: 0,
            target: 0,
            value: 0,
        },
    }
}

/// Puts the gate at a place into the level that comes next, where it needs a message.
#[tactic(auto, unfolding(crate::specs::Levels::with_product))]
fn add_product(
    script: &mut Script,
    sharing: Sharing,
    gates: &[Instr],
    place: u32,
) -> Result<(), Memory>
    ensures { OnOk result (script.new ≡ with_product sharing gates.now script.old place) }
{
    let gate = gate_at(gates, place);
    if is_product(gate.kind) {
        script.add_gate(sharing, gate)?;
    }
    Ok(())
}

/// Puts the gates at these places that need a message into the level that comes next.
fn add_products(
    script: &mut Script,
    sharing: Sharing,
    gates: &[Instr],
    places: &[u32],
) -> Result<(), Memory>
    ensures { OnOk result (script.new ≡ fold (with_product sharing gates.now) script.old places.now) }
{
    for place in places {
        add_product(script, sharing, gates, *place)?;
    }
    Ok(())
}

/// Puts the level of the gates from `first` on, if there are any.
#[tactic(auto, unfolding(crate::specs::Levels::with_level_from))]
fn add_level_from(script: &mut Script, sharing: Sharing, first: u32) -> Result<(), Memory>
    ensures { OnOk result (script.new ≡ with_level_from sharing first script.old) }
{
    let end = count(script.gates().len())?;
    if end != first {
        script.put(Instr {
            kind: level_kind(sharing),
            number: 0,
            width: Width::W1,
            left: first,
            right: end.saturating_sub(first),
            target: 0,
            value: 0,
        })?;
    }
    Ok(())
}

/// Puts the level of the gates at these places that need a message, if there are any.
#[tactic(auto, unfolding(crate::specs::Levels::with_level))]
fn add_level(
    script: &mut Script,
    sharing: Sharing,
    gates: &[Instr],
    places: &[u32],
) -> Result<(), Memory>
    ensures { OnOk result (script.new ≡ with_level sharing gates.now places.now script.old) }
{
    let first = count(script.gates().len())?;
    add_products(script, sharing, gates, places)?;
    add_level_from(script, sharing, first)
}

/// Puts the gate at a place as an instruction, where it needs no message.
#[tactic(auto, unfolding(crate::specs::Levels::with_local))]
fn add_local(script: &mut Script, gates: &[Instr], place: u32) -> Result<(), Memory>
    ensures { OnOk result (script.new ≡ with_local gates.now script.old place) }
{
    let gate = gate_at(gates, place);
    if !is_product(gate.kind) {
        script.put(gate)?;
    }
    Ok(())
}

/// Puts the gates at these places that need no message, one instruction each.
fn add_locals(script: &mut Script, gates: &[Instr], places: &[u32]) -> Result<(), Memory>
    ensures { OnOk result (script.new ≡ fold (with_local gates.now) script.old places.now) }
{
    for place in places {
        add_local(script, gates, *place)?;
    }
    Ok(())
}

/// Puts the gates of one depth, whose places these are.
#[tactic(auto, unfolding(crate::specs::Levels::with_depth))]
fn add_depth(
    script: &mut Script,
    sharing: Sharing,
    gates: &[Instr],
    depths: &[u32],
    depth: u32,
    places: &[u32],
) -> Result<(), Memory>
    requires { places.now ≡ places_at depths.now depth }
    ensures { OnOk result (script.new ≡ with_depth sharing gates.now depths.now script.old depth) }
{
    let _count = depths.len();
    let _depth = depth;
    add_level(script, sharing, gates, places)?;
    add_locals(script, gates, places)
}

/// The greatest of some depths.
fn greatest(depths: &[u32]) -> u32
    ensures value { result ≡ fold max 0 depths.now }
    ensures most { All (λ d. d ≤ result) depths.now }
    ensures few { result < 2 ^ 32 }
{
    let mut most = 0;
    for depth in depths {
        most = most.max(*depth);
    }
    most
}

/// As many empty lists.
pub fn empty_lists(alloc: Global, count: usize) -> Result<Vec<Sequence<u32>>, Memory>
    ensures { IfOk result (λ lists. lists.items ≡ replicate count []) }
{
    let mut lists = Vec::with_capacity(alloc, count)?;
    for _ in 0..count {
        lists.push(Sequence::new(Vec::new(alloc)))?;
    }
    Ok(lists)
}

/// Puts a place after those of its depth.
fn add_place(buckets: &mut [Sequence<u32>], depth: usize, place: u32) -> Result<(), Memory>
    requires { depth < length buckets.old }
    ensures { OnOk result (buckets.new ≡ slice_set buckets.old depth (bucket_at buckets.old depth ++ place ∷ [])) }
{
    buckets[depth].push(place)?;
    Ok(())
}

/// Puts each place after those of its depth.
fn fill_buckets(buckets: &mut [Sequence<u32>], depths: &[u32]) -> Result<(), Memory>
    requires below { All (λ d. d < length buckets.old) depths.now }
    requires empty { AreBuckets depths.now 0 (length buckets.old) buckets.old }
    ensures { OnOk result (AreBuckets depths.now (length depths.now) (length buckets.old) buckets.new) }
{
    for (place, depth) in depths.iter().enumerate() {
        add_place(buckets, *depth as usize, count(place)?)?;
    }
    Ok(())
}

/// The places of the gates by their depth.
fn buckets_of(alloc: Global, depths: &[u32], count: usize) -> Result<Vec<Sequence<u32>>, Memory>
    requires { All (λ d. d < count) depths.now }
    ensures { IfOk result (λ buckets. AreBuckets depths.now (length depths.now) count buckets.items) }
{
    let mut buckets = empty_lists(alloc, count)?;
    fill_buckets(buckets.as_mut_slice(), depths)?;
    Ok(buckets)
}

/// Puts the gates of each depth, whose places these are.
fn add_depths(
    script: &mut Script,
    sharing: Sharing,
    gates: &[Instr],
    depths: &[u32],
    buckets: &[Sequence<u32>],
) -> Result<(), Memory>
    requires few { length buckets.now ≤ 2 ^ 32 }
    requires buckets { AreBuckets depths.now (length depths.now) (length buckets.now) buckets.now }
    ensures { OnOk result (script.new ≡ fold (with_depth sharing gates.now depths.now) script.old (below (length buckets.now))) }
{
    for (depth, places) in buckets.iter().enumerate() {
        add_depth(
            script,
            sharing,
            gates,
            depths,
            depth as u32,
            places.as_slice(),
        )?;
    }
    Ok(())
}

/// Puts the gates `gates` of a circuit, which have these depths, depth by depth. Time grows with their number and with the greatest depth.
///
/// # Errors
///
/// Memory ran out.
#[tactic(auto, unfolding(crate::specs::Levels::by_depth))]
pub fn add_by_depth(
    alloc: Global,
    script: &mut Script,
    sharing: Sharing,
    gates: &[Instr],
    depths: &[u32],
) -> Result<(), Memory>
    ensures { OnOk result (script.new ≡ by_depth sharing gates.now depths.now script.old) }
{
    let count = greatest(depths) as usize + 1;
    let buckets = buckets_of(alloc, depths, count)?;
    add_depths(script, sharing, gates, depths, &buckets)
}
