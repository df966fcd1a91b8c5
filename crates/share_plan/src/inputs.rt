//! Inputs: the instructions that share them.
ghost use Rattle.std.specs.Prelude.{◌≡◌, ℕ, ◌<◌, [], None, Some, cond, get_or, length, IfOk, OnOk};
ghost use Rattle.std.specs.Option.{option_or};
ghost use Rattle.share_plan.specs.Owned.{one_more};
ghost use Rattle.plan_script.specs.Script.{instr};
ghost use Rattle.share_plan.specs.Inputs.{input, input_A_kind, input_B_kind, input_Y, input_if, inputs_if, is_input, with_inputs, with_leaf_at};
ghost use Rattle.share_plan.specs.Takers.{has_taker, takers_at};
ghost use Rattle.share_plan.specs.Leaves.{AreInputNodes};

use crate::held::{Held, hold};
use crate::takers::{Takers, takers_at};
use crate::words::width_at;
use choice_core::Sharing;
use hy_bits::{Memory, Op, Role, Width};
use plan_script::{Script, count, instr, sum};
use share_core::{Instr, InstrKind};
use std::alloc::Global;
use word_graph::Entry;

/// The instruction of an input of this number among its owner's.
fn input_instr(kind: InstrKind, width: Width, number: u32) -> Instr
    ensures { result ≡ instr kind width 0 0 0 number }
{
    instr(kind, width, 0, u64::from(number))
}

/// The kind of an input at A.
fn input_a_kind(role: Role) -> InstrKind
    ensures { result ≡ input_A_kind role }
{
    match role {
        Role::P0 => InstrKind::InAP0,
        Role::P1 => InstrKind::InAP1,
    }
}

/// The kind of an input at B.
fn input_b_kind(role: Role) -> InstrKind
    ensures { result ≡ input_B_kind role }
{
    match role {
        Role::P0 => InstrKind::InBP0,
        Role::P1 => InstrKind::InBP1,
    }
}

/// Puts an input at Y, and tells the place of its codes.
fn add_input_y(script: &mut Script, role: Role, w: Width, number: u32) -> Result<u32, Memory>
    ensures { IfOk result (λ at. record { script = script.new; at = at } ≡ input_Y role w number script.old) }
{
    match role {
        Role::P0 => script.make_bits(w.bits(), input_instr(InstrKind::InYP0, w, number)),
        Role::P1 => {
            script.put(input_instr(InstrKind::ChooseIn, w, number))?;
            script.make_bits(w.bits(), input_instr(InstrKind::AnswerIn, w, 0))
        }
    }
}

/// Puts an input in a sharing, and tells where it stands.
#[tactic(auto, unfolding(crate::specs::Inputs::input))]
fn add_input(
    script: &mut Script,
    sharing: Sharing,
    role: Role,
    w: Width,
    number: u32,
) -> Result<u32, Memory>
    ensures { IfOk result (λ at. record { script = script.new; at = at } ≡ input sharing role w number script.old) }
{
    match sharing {
        Sharing::Arithmetic => script.make_word(input_instr(input_a_kind(role), w, number)),
        Sharing::Boolean => {
            let kind = input_b_kind(role);
            script.make_bits(w.bits(), input_instr(kind, w, number))
        }
        Sharing::Yao => add_input_y(script, role, w, number),
    }
}

/// Puts the input that is a node in a sharing, where it is wanted there.
fn add_input_if(
    script: &mut Script,
    held: &mut [Held],
    wanted: bool,
    sharing: Sharing,
    role: Role,
    w: Width,
    node: u32,
    number: u32,
) -> Result<(), Memory>
    ensures { OnOk result (record { script = script.new; held = held.new } ≡ input_if wanted sharing role w node number (record { script = script.old; held = held.old })) }
{
    if wanted {
        let at = add_input(script, sharing, role, w, number)?;
        hold(held, node as usize, sharing, at);
    }
    Ok(())
}

/// Puts the input that is a node in each sharing in which it has takers.
fn add_inputs_if(
    script: &mut Script,
    held: &mut [Held],
    takers: Takers,
    role: Role,
    w: Width,
    node: u32,
    number: u32,
) -> Result<(), Memory>
    ensures { OnOk result (record { script = script.new; held = held.new } ≡ inputs_if (λ sharing. has_taker sharing takers) role w node number (record { script = script.old; held = held.old })) }
{
    let at_a = takers.arithmetic;
    let at_b = takers.boolean;
    let at_y = takers.yao;
    add_input_if(
        script,
        held,
        at_a,
        Sharing::Arithmetic,
        role,
        w,
        node,
        number,
    )?;
    add_input_if(script, held, at_b, Sharing::Boolean, role, w, node, number)?;
    add_input_if(script, held, at_y, Sharing::Yao, role, w, node, number)
}

/// How many leaves before some leaf belong to each party.
#[derive(Clone, Copy)]
struct Owned {
    first: u32,
    second: u32,
}

impl Owned {
    ghost use Rattle.share_plan.specs.Owned.{owned_by};

    /// How many belong to a party.
    fn by(&self, role: Role) -> u32
        ensures { result ≡ owned_by role self.now }
    {
        match role {
            Role::P0 => self.first,
            Role::P1 => self.second,
        }
    }
}

/// One more leaf of a party.
fn one_more(owned: &Owned, role: Role) -> Result<Owned, Memory>
    ensures { IfOk result (λ more. more ≡ one_more role owned.now) }
{
    let mut more = *owned;
    match role {
        Role::P0 => more.first = sum(more.first, 1)?,
        Role::P1 => more.second = sum(more.second, 1)?,
    }
    Ok(more)
}

/// The node that is the input of a leaf, if there is one.
fn node_at(nodes: &[Option<u32>], leaf: usize) -> Option<u32>
    ensures { result ≡ get_or nodes.now leaf None }
{
    match nodes.get(leaf) {
        Some(node) => *node,
        None => None,
    }
}

/// Puts the input of a leaf in each sharing in which it has takers, where it is a node.
#[tactic(auto, unfolding(crate::specs::Inputs::with_leaf))]
fn add_leaf(
    script: &mut Script,
    held: &mut [Held],
    entries: &[Entry],
    takers: &[Takers],
    role: Role,
    number: u32,
    node: Option<u32>,
) -> Result<(), Memory>
    ensures { OnOk result (record { script = script.new; held = held.new } ≡ with_leaf_at (λ sharing node. has_taker sharing (takers_at takers.now node)) entries.now role number node (record { script = script.old; held = held.old })) }
{
    match node {
        Some(node) => {
            let w = width_at(entries, node);
            let takers = takers_at(takers, node as usize);
            add_inputs_if(script, held, takers, role, w, node, number)
        }
        None => Ok(()),
    }
}

/// Puts the inputs of all leaves, in order, which have these owners and are these nodes.
#[tactic(auto, unfolding(crate::specs::Inputs::with_leaf))]
pub fn add_inputs(
    script: &mut Script,
    held: &mut [Held],
    entries: &[Entry],
    takers: &[Takers],
    owners: &[Role],
    nodes: &[Option<u32>],
) -> Result<(), Memory>
    requires size { length nodes.now ≡ length owners.now }
    requires nodes { AreInputNodes entries.now nodes.now }
    ensures { OnOk result (record { script = script.new; held = held.new } ≡ with_inputs (λ sharing node. has_taker sharing (takers_at takers.now node)) entries.now owners.now (record { script = script.old; held = held.old })) }
{
    let mut owned = Owned {
        first: 0,
        second: 0,
    };
    for (leaf, role) in owners.iter().enumerate() {
        let node = node_at(nodes, leaf);
        let number = owned.by(*role);
        add_leaf(script, held, entries, takers, *role, number, node)?;
        owned = one_more(&owned, *role)?;
    }
    Ok(())
}

/// Notes that a node is the input of its leaf, unless an earlier one is.
fn note_input(nodes: &mut [Option<u32>], entry: &Entry, place: u32)
    ensures size { length nodes.new ≡ length nodes.old }
    ensures each { (leaf : ℕ) → leaf < length nodes.old → get_or nodes.new leaf None ≡ option_or (get_or nodes.old leaf None) (cond (is_input leaf entry.now.op entry.now.number) (Some place) None) }
{
    if let Op::In = entry.op {
        if entry.number < nodes.len() as u64 {
            let leaf = entry.number as usize;
            if let None = nodes[leaf] {
                nodes[leaf] = Some(place);
            }
        }
    }
}

/// Notes each node that is an input.
fn note_inputs(nodes: &mut [Option<u32>], entries: &[Entry]) -> Result<(), Memory>
    requires { AreInputNodes [] nodes.old }
    ensures size { length nodes.new ≡ length nodes.old }
    ensures nodes { OnOk result (AreInputNodes entries.now nodes.new) }
{
    for (place, entry) in entries.iter().enumerate() {
        note_input(nodes, entry, count(place)?);
    }
    Ok(())
}

/// For each of so many leaves the node that is its input.
pub fn input_nodes(
    alloc: Global,
    entries: &[Entry],
    leaves: usize,
) -> Result<Vec<Option<u32>>, Memory>
    ensures size { IfOk result (λ nodes. length nodes.items ≡ leaves) }
    ensures nodes { IfOk result (λ nodes. AreInputNodes entries.now nodes.items) }
{
    let mut nodes = vec![in alloc; None; leaves]?;
    note_inputs(nodes.as_mut_slice(), entries)?;
    Ok(nodes)
}
