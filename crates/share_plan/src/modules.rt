//! Modules: the gates of the chosen circuit of each.
ghost use Rattle.std.specs.Prelude.{◌≡◌, ◌+◌, ◌≤◌, [], drop, length, map, IfOk, OnOk};
ghost use Rattle.std.specs.List.{fold};
ghost use Rattle.gate_net.specs.Meaning.{as_levels, wires};
ghost use Rattle.ring_net.specs.Ring.{IsRing};
ghost use Rattle.share_plan.specs.Inbound.{AreInbound};
ghost use Rattle.plan_script.specs.Gates.{lit_code, net_instrs, ring_instrs, variable_code};
ghost use Rattle.share_plan.specs.Modules.{net_depths, net_script, ring_depths, ring_script, with_gates, with_module, with_modules, with_net, with_out, with_ring, words_into};

use crate::held::Held;
use crate::words::{bit_codes, inbound, make_bits, make_words, rest_of, take_words, word_codes};
use bundle_core::{Parts, Variant};
use choice_core::{Choice, Sharing};
use gate_net::{Lit, Net};
use hy_bits::{Memory, Sequence};
use module_split::Module;
use plan_script::{Script, add_by_depth, count, lit_code, net_instrs, ring_instrs, variable_code};
use ring_net::RingNet;
use std::alloc::Global;
use word_graph::Entry;

/// Puts the gates of a circuit at B or at Y whose inputs have these codes, depth by depth.
#[tactic(auto, using(crate::proofs::CodeLaws::drop_wire))]
fn add_net_gates(
    alloc: Global,
    script: &mut Script,
    sharing: Sharing,
    net: &Net,
    ins: &[u32],
) -> Result<(), Memory>
    ensures { OnOk result (script.new ≡ net_script sharing net.now ins.now script.old) }
{
    let gates = net_instrs(alloc, sharing, ins, script.shares(), net.gates())?;
    let levels = net.levels(alloc)?;
    let depths = rest_of(&levels, net.ins() as usize);
    script.add_shares(count(net.gates().len())?)?;
    add_by_depth(alloc, script, sharing, &gates, depths)
}

/// Puts the code of an output after the others.
#[tactic(auto, unfolding(crate::specs::Modules::with_out))]
fn add_out(script: &mut Script, ins: &[u32], base: u32, out: Lit) -> Result<(), Memory>
    ensures { OnOk result (script.new ≡ with_out ins.now base script.old out) }
{
    script.add_code(lit_code(ins, base, out)?)
}

/// Puts the codes of these outputs after the others.
fn add_outs(script: &mut Script, ins: &[u32], base: u32, outs: &[Lit]) -> Result<(), Memory>
    ensures { OnOk result (script.new ≡ fold (with_out ins.now base) script.old outs.now) }
{
    for out in outs {
        add_out(script, ins, base, *out)?;
    }
    Ok(())
}

/// Puts a module's circuit at B or at Y, whose inputs are at hand.
#[tactic(auto, unfolding(crate::specs::Modules::with_net))]
fn add_net(
    alloc: Global,
    script: &mut Script,
    held: &mut [Held],
    entries: &[Entry],
    sharing: Sharing,
    part: &Module,
    net: &Net,
) -> Result<(), Memory>
    ensures { OnOk result (record { script = script.new; held = held.new } ≡ with_net entries.now sharing part.now net.now (record { script = script.old; held = held.old })) }
{
    let ins = bit_codes(alloc, script, held, entries, sharing, part.ins.as_slice())?;
    let base = script.shares();
    add_net_gates(alloc, script, sharing, net, &ins)?;
    let place = count(script.codes().len())?;
    add_outs(script, &ins, base, net.outs())?;
    make_bits(held, entries, sharing, part.outs.as_slice(), place)
}

/// Puts the gates of a circuit at A whose inputs have these codes, depth by depth.
fn add_ring_gates(
    alloc: Global,
    script: &mut Script,
    ring: &RingNet,
    ins: &[u32],
) -> Result<(), Memory>
    ensures { OnOk result (script.new ≡ ring_script ring.now ins.now script.old) }
{
    let gates = ring_instrs(alloc, ins, script.shares(), ring)?;
    let depths = ring.depths(alloc)?;
    let depths = rest_of(&depths, ring.ins().len());
    script.add_shares(count(ring.gates().len())?)?;
    add_by_depth(alloc, script, Sharing::Arithmetic, &gates, depths)
}

/// The codes of these outputs of a circuit at A.
fn out_codes(alloc: Global, ins: &[u32], base: u32, outs: &[u32]) -> Result<Vec<u32>, Memory>
    ensures { IfOk result (λ codes. codes.items ≡ map (variable_code ins.now base) outs.now) }
{
    let mut codes = Vec::with_capacity(alloc, outs.len())?;
    for out in outs {
        codes.push(variable_code(ins, base, *out)?)?;
    }
    Ok(codes)
}

/// Puts a module's circuit at A, whose inputs are at hand.
#[tactic(auto, unfolding(crate::specs::Modules::with_ring))]
fn add_ring(
    alloc: Global,
    script: &mut Script,
    held: &mut [Held],
    part: &Module,
    ring: &RingNet,
) -> Result<(), Memory>
    ensures { OnOk result (record { script = script.new; held = held.new } ≡ with_ring part.now ring.now (record { script = script.old; held = held.old })) }
{
    let ins = word_codes(alloc, held, part.ins.as_slice())?;
    let base = script.shares();
    add_ring_gates(alloc, script, ring, &ins)?;
    let codes = out_codes(alloc, &ins, base, ring.outs())?;
    make_words(held, part.outs.as_slice(), &codes);
    Ok(())
}

/// Puts the chosen circuit of a module whose words are at hand.
fn add_gates(
    alloc: Global,
    script: &mut Script,
    held: &mut [Held],
    entries: &[Entry],
    part: &Module,
    variant: &Variant,
    choice: Choice,
) -> Result<(), Memory>
    ensures { OnOk result (record { script = script.new; held = held.new } ≡ with_gates entries.now part.now variant.now choice (record { script = script.old; held = held.old })) }
{
    match choice {
        Choice::A => match &variant.ring {
            Some(ring) => add_ring(alloc, script, held, part, ring),
            None => Ok(()),
        },
        Choice::Y => {
            let net = &variant.compact;
            add_net(alloc, script, held, entries, Sharing::Yao, part, net)
        }
        Choice::C => {
            let net = &variant.compact;
            add_net(alloc, script, held, entries, Sharing::Boolean, part, net)
        }
        Choice::S => {
            let net = &variant.shallow;
            add_net(alloc, script, held, entries, Sharing::Boolean, part, net)
        }
    }
}

/// Puts a module: the conversions of the words `words` that it takes from others, and its chosen circuit.
#[tactic(auto, unfolding(crate::specs::Modules::with_module))]
fn add_module(
    alloc: Global,
    script: &mut Script,
    held: &mut [Held],
    entries: &[Entry],
    part: &Module,
    variant: &Variant,
    choice: Choice,
    words: &[u32],
) -> Result<(), Memory>
    ensures { OnOk result (record { script = script.new; held = held.new } ≡ with_module entries.now words.now part.now variant.now choice (record { script = script.old; held = held.old })) }
{
    take_words(script, held, entries, choice.sharing(), words)?;
    add_gates(alloc, script, held, entries, part, variant, choice)
}

/// Puts each module, which takes these words from others.
fn add_each(
    alloc: Global,
    script: &mut Script,
    held: &mut [Held],
    parts: &Parts,
    choices: &[Choice],
    words: &[Sequence<u32>],
) -> Result<(), Memory>
    requires variants { length parts.now.variants ≡ length parts.now.modules.list }
    requires choices { length choices.now ≡ length parts.now.modules.list }
    requires words { AreInbound parts.now.modules.edges (length parts.now.modules.list) words.now }
    ensures { OnOk result (record { script = script.new; held = held.new } ≡ with_modules parts.now.graph parts.now.modules.edges 0 parts.now.modules.list parts.now.variants choices.now (record { script = script.old; held = held.old })) }
{
    let entries = parts.graph.entries();
    let variants = parts.variants.as_slice();
    for (number, part) in parts.modules.list().iter().enumerate() {
        let variant = &variants[number];
        let words = words[number].as_slice();
        let choice = choices[number];
        add_module(alloc, script, held, entries, part, variant, choice, words)?;
    }
    Ok(())
}

/// Puts all modules, in order.
pub fn add_modules(
    alloc: Global,
    script: &mut Script,
    held: &mut [Held],
    parts: &Parts,
    choices: &[Choice],
) -> Result<(), Memory>
    requires variants { length parts.now.variants ≡ length parts.now.modules.list }
    requires choices { length choices.now ≡ length parts.now.modules.list }
    ensures { OnOk result (record { script = script.new; held = held.new } ≡ with_modules parts.now.graph parts.now.modules.edges 0 parts.now.modules.list parts.now.variants choices.now (record { script = script.old; held = held.old })) }
{
    let words = inbound(alloc, parts.modules.edges(), parts.modules.list().len())?;
    add_each(alloc, script, held, parts, choices, &words)
}
