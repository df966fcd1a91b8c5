//! Words of nodes: their conversions, and their codes as inputs of circuits.
ghost use Rattle.std.specs.Prelude.{◌≡◌, ◌+◌, ◌++◌, [], drop, length, slice_index, slice_set, IfOk, OnOk};
ghost use Rattle.std.specs.List.{fold};
ghost use Rattle.word_graph.specs.Term.{width_at};
ghost use Rattle.plan_script.specs.Buckets.{bucket_at};
ghost use Rattle.share_plan.specs.Inbound.{AreInbound};
ghost use Rattle.share_plan.specs.Modules.{bit_codes, codes_from, hold_bits, hold_word, with_word, word_codes};

use crate::held::{Held, held_at, hold, make};
use choice_core::Sharing;
use hy_bits::{Memory, Sequence, Width};
use module_split::EdgeWords;
use plan_script::{Script, convert, empty_lists, sum};
use std::alloc::Global;
use word_graph::Entry;

/// The width of a node.
pub fn width_at(entries: &[Entry], node: u32) -> Width
    ensures { result ≡ width_at entries.now node }
{
    match entries.get(node as usize) {
        Some(entry) => entry.width,
        None => Width::W1,
    }
}

/// Puts the words `words` after the others.
fn add_words(list: &mut Sequence<u32>, words: &[u32]) -> Result<(), Memory>
    ensures { OnOk result (list.new ≡ list.old ++ words.now) }
{
    for word in words {
        list.push(*word)?;
    }
    Ok(())
}

/// Puts the words of an edge after those that go to the same module.
fn add_edge(lists: &mut [Sequence<u32>], edge: &EdgeWords) -> Result<(), Memory>
    ensures { OnOk result (lists.new ≡ slice_set lists.old edge.now.to (bucket_at lists.old edge.now.to ++ edge.now.words)) }
{
    let to = edge.to as usize;
    if to < lists.len() {
        add_words(&mut lists[to], edge.words.as_slice())?;
    }
    Ok(())
}

/// Puts the words of each edge after those that go to the same module.
fn add_edges(lists: &mut [Sequence<u32>], edges: &[EdgeWords]) -> Result<(), Memory>
    requires { AreInbound [] (length lists.old) lists.old }
    ensures { OnOk result (AreInbound edges.now (length lists.old) lists.new) }
{
    for edge in edges {
        add_edge(lists, edge)?;
    }
    Ok(())
}

/// For each of `count` modules the words that it takes from others, by producer and then by word.
pub fn inbound(
    alloc: Global,
    edges: &[EdgeWords],
    count: usize,
) -> Result<Vec<Sequence<u32>>, Memory>
    ensures { IfOk result (λ words. AreInbound edges.now count words.items) }
{
    let mut words = empty_lists(alloc, count)?;
    add_edges(words.as_mut_slice(), edges)?;
    Ok(words)
}

/// Converts the word of a node to the sharing `to`, unless it is held there.
#[tactic(auto, unfolding(crate::specs::Modules::with_word))]
fn take_word(
    script: &mut Script,
    held: &mut [Held],
    entries: &[Entry],
    to: Sharing,
    node: u32,
) -> Result<(), Memory>
    ensures { OnOk result (record { script = script.new; held = held.new } ≡ with_word entries.now to (record { script = script.old; held = held.old }) node) }
{
    let word = held_at(held, node as usize);
    match word.held_in(to) {
        Some(_) => {}
        None => {
            if let Some(from) = word.maker {
                let at = word.place_in(from);
                let there = convert(script, from, to, width_at(entries, node), at)?;
                hold(held, node as usize, to, there);
            }
        }
    }
    Ok(())
}

/// Converts the words of these nodes to the sharing `to`, in order, without those that are held there.
pub fn take_words(
    script: &mut Script,
    held: &mut [Held],
    entries: &[Entry],
    to: Sharing,
    nodes: &[u32],
) -> Result<(), Memory>
    ensures { OnOk result (record { script = script.new; held = held.new } ≡ fold (with_word entries.now to) (record { script = script.old; held = held.old }) nodes.now) }
{
    for node in nodes {
        take_word(script, held, entries, to, *node)?;
    }
    Ok(())
}

/// The code at a place; past the last one 0.
fn code_at(codes: &[u32], place: u32, offset: u32) -> u32
    ensures { result ≡ slice_index codes.now (place + offset) }
{
    let place = place as usize + offset as usize;
    codes.get(place).copied().unwrap_or(0)
}

/// Puts `count` codes from a place on after others.
fn add_codes(out: &mut Vec<u32>, codes: &[u32], place: u32, count: u32) -> Result<(), Memory>
    ensures { OnOk result (out.new.items ≡ out.old.items ++ codes_from codes.now place count) }
{
    for offset in 0..count {
        out.push(code_at(codes, place, offset))?;
    }
    Ok(())
}

/// The codes of the bits of these nodes' words, at B or at Y.
pub fn bit_codes(
    alloc: Global,
    script: &Script,
    held: &[Held],
    entries: &[Entry],
    sharing: Sharing,
    nodes: &[u32],
) -> Result<Vec<u32>, Memory>
    ensures { IfOk result (λ out. out.items ≡ bit_codes entries.now sharing (record { script = script.now; held = held.now }) nodes.now) }
{
    let codes = script.codes();
    let mut out = Vec::new(alloc);
    for node in nodes {
        let place = held_at(held, *node as usize).place_in(sharing);
        add_codes(&mut out, codes, place, width_at(entries, *node).bits())?;
    }
    Ok(out)
}

/// The codes of these nodes' words at A.
pub fn word_codes(alloc: Global, held: &[Held], nodes: &[u32]) -> Result<Vec<u32>, Memory>
    ensures { IfOk result (λ out. out.items ≡ word_codes held.now nodes.now) }
{
    let mut out = Vec::with_capacity(alloc, nodes.len())?;
    for node in nodes {
        out.push(held_at(held, *node as usize).place_in(Sharing::Arithmetic))?;
    }
    Ok(out)
}

/// A module makes the words of these nodes at B or at Y, whose codes stand from a place on, one word after another.
#[tactic(auto, unfolding(crate::specs::Modules::hold_bits))]
pub fn make_bits(
    held: &mut [Held],
    entries: &[Entry],
    sharing: Sharing,
    nodes: &[u32],
    place: u32,
) -> Result<(), Memory>
    ensures { OnOk result (held.new ≡ (fold (hold_bits entries.now sharing) (place, held.old) nodes.now).1) }
{
    let mut next = place;
    for node in nodes {
        make(held, *node as usize, sharing, next);
        next = sum(next, width_at(entries, *node).bits())?;
    }
    Ok(())
}

/// A module makes the words of these nodes at A, which have these codes.
#[tactic(auto, unfolding(crate::specs::Modules::hold_word))]
pub fn make_words(held: &mut [Held], nodes: &[u32], codes: &[u32])
    ensures { held.new ≡ (fold (hold_word codes.now) (0, held.old) nodes.now).1 }
{
    for (number, node) in nodes.iter().enumerate() {
        let code = codes.get(number).copied().unwrap_or(0);
        make(held, *node as usize, Sharing::Arithmetic, code);
    }
}

/// What is left of a list from a place on.
pub fn rest_of(list: &[u32], place: usize) -> &[u32]
    ensures { result.now ≡ drop place list.now }
{
    if place <= list.len() {
        &list[place..]
    } else {
        &[]
    }
}
