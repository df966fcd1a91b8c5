//! What a bundle computes.
ghost use Rattle.std.specs.Prelude.{◌≡◌, ◌+◌, ◌*◌, ◌≤◌, ◌<◌, ◌++◌, ◌∷◌, ◌/◌, ℕ, false, drop, get_or, length, map, slice_get, slice_index_or, IfOk, OnOk, Some};
ghost use Rattle.std.specs.List.{All};
ghost use Rattle.hy_bits.specs.Bits.{low_bits, number};
ghost use Rattle.hy_bits.specs.Words.{bits, IsWord};
ghost use Rattle.hy_bits.specs.Shape.{FitPorts, leaves_of_ports};
ghost use Rattle.word_graph.specs.Shape.{IsGraph};
ghost use Rattle.gate_net.specs.Circuit.{Stands};
ghost use Rattle.gate_net.specs.Meaning.{as_bits, reading};
ghost use Rattle.gate_net.specs.Spelled.{values};
ghost use Rattle.ring_net.specs.Ring.{AreWordsOf};
ghost use Rattle.module_split.specs.declared.module.Module.{Module};
ghost use Rattle.word_graph.specs.declared.entry.Node.{Node};
ghost use Rattle.choice_core.specs.Problems.{IsAssignment};
ghost use Rattle.bundle_core.specs.Parts.{AreVariants, FitsBits, FitsClass, FitsRing, IsVariant, IsLeaf, bits_of_widths, widths_at};
ghost use Rattle.bundle_core.specs.Meaning.{after_module, after_modules, bits_of_words, given_word, given_words, net_words, put_words, ring_words, value, words_at, words_of_bits};
ghost use Rattle.bundle_core.specs.Room.{FitsBuffer, FitsNodes, FitsRoom, ring_variables};
ghost use Rattle.bundle_core.specs.Costs.{problem_of};
ghost use Rattle.bundle_core.specs.declared.parts.Variant.{Variant};

use crate::parts::{Bundle, Draft, Variant};
use choice_core::Choice;
use gate_net::{Lit, Net};
use hy_bits::{Inputs, Memory, Op, Width, bits_of, word_of};
use module_split::Module;
use ring_net::RingNet;
use std::alloc::Global;
use word_graph::{Entry, Node};

/// The word of a node before any module.
fn given_word(inputs: &[u64], entry: &Entry) -> u64
    ensures { result ≡ given_word inputs.now entry.now.op entry.now.number }
{
    match entry.op {
        Op::In => inputs.get(entry.number as usize).copied().unwrap_or(0),
        Op::Const => entry.number,
        _ => 0,
    }
}

/// The words of all nodes before any module.
fn given_words(alloc: Global, entries: &[Entry], inputs: &[u64]) -> Result<Vec<u64>, Memory>
    ensures { IfOk result (λ words. words.items ≡ given_words entries.now inputs.now) }
{
    let mut words = Vec::with_capacity(alloc, entries.len())?;
    for entry in entries {
        words.push(given_word(inputs, entry))?;
    }
    Ok(words)
}

/// Puts the bits of a word, lowest first, after others.
fn push_bits(out: &mut Vec<bool>, w: Width, word: u64) -> Result<(), Memory>
    requires { IsWord w word }
    ensures { OnOk result (out.new.items ≡ out.old.items ++ low_bits (bits w) word) }
{
    let mut room = [false; 64];
    let places = w.bits() as usize;
    bits_of(w, word, &mut room[..places]);
    out.extend_from_slice(&room[..places])?;
    Ok(())
}

/// The bits of the words of some nodes into `out`, in place of what it held.
fn bits_of_words(
    entries: &[Entry],
    places: &[u32],
    words: &[u64],
    out: &mut Vec<bool>,
) -> Result<(), Memory>
    requires stand { All (λ k. k < length entries.now) places.now }
    requires words { FitsNodes entries.now words.now }
    ensures { OnOk result (out.new.items ≡ bits_of_words (widths_at entries.now places.now) (words_at words.now places.now)) }
{
    out.clear();
    for place in places {
        let place = *place as usize;
        push_bits(out, entries[place].width, words[place])?;
    }
    Ok(())
}

/// The bit of a wire, over the bits of the variables. Wire 0 is the constant.
fn wire_bit(variables: &[bool], wire: usize) -> bool
    requires { wire ≤ length variables.now }
    ensures { result ≡ slice_index_or (false ∷ variables.now) wire false }
{
    if wire == 0 {
        false
    } else {
        variables[wire - 1]
    }
}

/// The bit of a literal, over the bits of the variables.
fn literal_bit(variables: &[bool], l: Lit) -> bool
    requires { l.code < 2 * (1 + length variables.now) }
    ensures { result ≡ reading as_bits (false ∷ variables.now) l }
{
    let bit = wire_bit(variables, l.code as usize / 2);
    if l.is_complement() { !bit } else { bit }
}

/// The bits of the outputs of a circuit into `outs`, in place of what it held.
fn net_bits(
    net: &Net,
    ins: &[bool],
    variables: &mut [bool],
    outs: &mut Vec<bool>,
) -> Result<(), Memory>
    requires bits { length ins.now ≡ net.now.ins }
    requires places { length variables.old ≡ net.now.ins + length net.now.gates }
    ensures { OnOk result (outs.new.items ≡ values net.now ins.now net.now.outs) }
{
    net.value(ins, variables);
    outs.clear();
    for out in net.outs() {
        outs.push(literal_bit(variables, *out))?;
    }
    Ok(())
}

/// Puts the words that the bits spell at the places of their nodes.
fn put_bits(entries: &[Entry], places: &[u32], bits: &[bool], words: &mut [u64])
    requires stand { All (λ k. k < length entries.now) places.now }
    requires count { length bits.now ≡ bits_of_widths (widths_at entries.now places.now) }
    requires words { length words.old ≡ length entries.now }
    ensures { words.new ≡ put_words words.old places.now (words_of_bits (widths_at entries.now places.now) bits.now) }
{
    let mut rest = bits;
    for place in places {
        let place = *place as usize;
        let count = entries[place].width.bits() as usize;
        words[place] = word_of(&rest[..count]);
        rest = &rest[count..];
    }
}

/// The words of some nodes into `out`, in place of what it held.
fn words_at(places: &[u32], words: &[u64], out: &mut Vec<u64>) -> Result<(), Memory>
    requires { All (λ k. k < length words.now) places.now }
    ensures { OnOk result (out.new.items ≡ words_at words.now places.now) }
{
    out.clear();
    for place in places {
        out.push(words[*place as usize])?;
    }
    Ok(())
}

/// Puts the words of these variables at the places of their nodes.
fn put_words(places: &[u32], outs: &[u32], variables: &[u64], words: &mut [u64])
    requires stand { All (λ k. k < length words.old) places.now }
    requires outs { All (λ k. k < length variables.now) outs.now }
    requires count { length outs.now ≡ length places.now }
    ensures { words.new ≡ put_words words.old places.now (words_at variables.now outs.now) }
{
    for (number, place) in places.iter().enumerate() {
        words[*place as usize] = variables[outs[number] as usize];
    }
}

/// How many variables the larger one of a module's circuits of gates has.
fn bits_needed(variant: &Variant) -> usize
    ensures compact { variant.now.compact.ins + length variant.now.compact.gates ≤ result }
    ensures shallow { variant.now.shallow.ins + length variant.now.shallow.gates ≤ result }
{
    let compact = variant.compact.ins() as usize + variant.compact.gates().len();
    let shallow = variant.shallow.ins() as usize + variant.shallow.gates().len();
    compact.max(shallow)
}

/// How many variables a module's ring circuit has, if there is one.
fn words_needed(variant: &Variant) -> usize
    ensures { result ≡ ring_variables variant.now.ring }
{
    match &variant.ring {
        Some(ring) => ring.ins().len() + ring.gates().len(),
        None => 0,
    }
}

/// A place for each variable of each of these circuits of gates, one circuit at a time.
fn bits_for(alloc: Global, variants: &[Variant]) -> Result<Vec<bool>, Memory>
    ensures { IfOk result (λ bits. All (λ (v : Variant). FitsBuffer (length bits.items) v) variants.now) }
{
    let mut most = 0;
    for variant in variants {
        most = most.max(bits_needed(variant));
    }
    Ok(vec![in alloc; false; most]?)
}

/// A place for each variable of each of these ring circuits, one circuit at a time.
fn values_for(alloc: Global, variants: &[Variant]) -> Result<Vec<u64>, Memory>
    ensures { IfOk result (λ values. All (λ (v : Variant). ring_variables v.ring ≤ length values.items) variants.now) }
{
    let mut most = 0;
    for variant in variants {
        most = most.max(words_needed(variant));
    }
    Ok(vec![in alloc; 0; most]?)
}

/// Lists that circuits take their inputs from and give their outputs into, used again by each module.
#[derive(Drop)]
struct Lists {
    in_bits: Vec<bool>,
    out_bits: Vec<bool>,
    in_words: Vec<u64>,
}

/// The words of all nodes after a module that takes a circuit of gates.
fn run_net(
    entries: &[Entry],
    part: &Module,
    net: &Net,
    words: &mut [u64],
    lists: &mut Lists,
    variables: &mut [bool],
) -> Result<(), Memory>
    requires ins { All (λ k. k < length entries.now) part.now.ins }
    requires outs { All (λ k. k < length entries.now) part.now.outs }
    requires words { FitsNodes entries.now words.old }
    requires net { FitsBits (widths_at entries.now part.now.ins) (widths_at entries.now part.now.outs) net.now }
    requires room { net.now.ins + length net.now.gates ≤ length variables.old }
    ensures { OnOk result (words.new ≡ put_words words.old part.now.outs (net_words net.now (widths_at entries.now part.now.ins) (widths_at entries.now part.now.outs) (words_at words.old part.now.ins))) }
{
    bits_of_words(entries, part.ins.as_slice(), words, &mut lists.in_bits)?;
    let count = net.ins() as usize + net.gates().len();
    let variables = &mut variables[..count];
    net_bits(net, &lists.in_bits, variables, &mut lists.out_bits)?;
    put_bits(entries, part.outs.as_slice(), &lists.out_bits, words);
    Ok(())
}

/// The words of all nodes after a module that takes a ring circuit.
fn run_ring(
    entries: &[Entry],
    part: &Module,
    ring: &RingNet,
    words: &mut [u64],
    lists: &mut Lists,
    variables: &mut [u64],
) -> Result<(), Memory>
    requires ins { All (λ k. k < length entries.now) part.now.ins }
    requires outs { All (λ k. k < length entries.now) part.now.outs }
    requires words { FitsNodes entries.now words.old }
    requires ring { FitsRing (widths_at entries.now part.now.ins) (widths_at entries.now part.now.outs) ring.now }
    requires room { length ring.now.ins + length ring.now.gates ≤ length variables.old }
    ensures { OnOk result (words.new ≡ put_words words.old part.now.outs (ring_words (Some ring.now) (words_at words.old part.now.ins))) }
{
    let _size = entries.len();
    words_at(part.ins.as_slice(), words, &mut lists.in_words)?;
    let count = ring.ins().len() + ring.gates().len();
    let variables = &mut variables[..count];
    ring.value(&lists.in_words, variables);
    put_words(part.outs.as_slice(), ring.outs(), variables, words);
    Ok(())
}

/// The words of all nodes after a module that takes the chosen one of its circuits.
fn run_module(
    entries: &[Entry],
    part: &Module,
    variant: &Variant,
    choice: Choice,
    words: &mut [u64],
    lists: &mut Lists,
    bits: &mut [bool],
    values: &mut [u64],
) -> Result<(), Memory>
    requires ins { All (λ k. k < length entries.now) part.now.ins }
    requires outs { All (λ k. k < length entries.now) part.now.outs }
    requires words { FitsNodes entries.now words.old }
    requires variant { IsVariant entries.now part.now variant.now }
    requires room { FitsRoom (length bits.old) (length values.old) variant.now }
    ensures { OnOk result (words.new ≡ after_module entries.now part.now variant.now choice words.old) }
{
    match choice {
        Choice::A => match &variant.ring {
            Some(ring) => run_ring(entries, part, ring, words, lists, values),
            None => Ok(()),
        },
        Choice::Y | Choice::C => run_net(entries, part, &variant.compact, words, lists, bits),
        Choice::S => run_net(entries, part, &variant.shallow, words, lists, bits),
    }
}

/// The words of all nodes after all modules, in order.
fn run_each(
    entries: &[Entry],
    list: &[Module],
    variants: &[Variant],
    choices: &[Choice],
    words: &mut [u64],
    lists: &mut Lists,
    bits: &mut [bool],
    values: &mut [u64],
) -> Result<(), Memory>
    requires ins { All (λ (part : Module). All (λ k. k < length entries.now) part.ins) list.now }
    requires outs { All (λ (part : Module). All (λ k. k < length entries.now) part.outs) list.now }
    requires words { FitsNodes entries.now words.old }
    requires variants { AreVariants entries.now list.now variants.now }
    requires choices { length choices.now ≡ length variants.now }
    requires bits { All (λ (v : Variant). FitsBuffer (length bits.old) v) variants.now }
    requires values { All (λ (v : Variant). ring_variables v.ring ≤ length values.old) variants.now }
    ensures { OnOk result (words.new ≡ after_modules entries.now list.now variants.now choices.now words.old) }
{
    for (number, part) in list.iter().enumerate() {
        let variant = &variants[number];
        let choice = choices[number];
        run_module(entries, part, variant, choice, words, lists, bits, values)?;
    }
    Ok(())
}

/// The words of all nodes after all modules, in buffers that serve all of them.
fn run_modules(
    alloc: Global,
    entries: &[Entry],
    list: &[Module],
    variants: &[Variant],
    choices: &[Choice],
    words: &mut [u64],
) -> Result<(), Memory>
    requires ins { All (λ (part : Module). All (λ k. k < length entries.now) part.ins) list.now }
    requires outs { All (λ (part : Module). All (λ k. k < length entries.now) part.outs) list.now }
    requires words { FitsNodes entries.now words.old }
    requires variants { AreVariants entries.now list.now variants.now }
    requires choices { length choices.now ≡ length variants.now }
    ensures { OnOk result (words.new ≡ after_modules entries.now list.now variants.now choices.now words.old) }
{
    let mut bits = bits_for(alloc, variants)?;
    let mut values = values_for(alloc, variants)?;
    let mut lists = Lists {
        in_bits: Vec::with_capacity(alloc, bits.len())?,
        out_bits: Vec::new(alloc),
        in_words: Vec::with_capacity(alloc, values.len())?,
    };
    let bits = bits.as_mut_slice();
    let values = values.as_mut_slice();
    run_each(
        entries, list, variants, choices, words, &mut lists, bits, values,
    )
}

/// The words of the results, where those of all nodes are given.
fn words_of(alloc: Global, results: &[Node], words: &[u64]) -> Result<Vec<u64>, Memory>
    requires { All (λ (node : Node). node.index < length words.now) results.now }
    ensures { IfOk result (λ out. out.items ≡ map (λ (node : Node). get_or words.now node.index 0) results.now) }
{
    let mut out = Vec::with_capacity(alloc, results.len())?;
    for node in results {
        out.push(words[node.index as usize])?;
    }
    Ok(out)
}

/// What the circuits of a draft give.
fn meaning_of(
    alloc: Global,
    draft: &Draft,
    choices: &[Choice],
    inputs: &Inputs,
) -> Result<Vec<u64>, Memory>
    requires choices { length choices.now ≡ length draft.now.variants }
    requires inputs { FitPorts draft.now.ports inputs.now }
    ensures { IfOk result (λ words. words.items ≡ value draft.now choices.now inputs.now) }
{
    let parts = draft.parts();
    let entries = parts.graph.entries();
    let variants = parts.variants.as_slice();
    let mut words = given_words(alloc, entries, inputs.words())?;
    run_modules(
        alloc,
        entries,
        parts.modules.list(),
        variants,
        choices,
        &mut words,
    )?;
    words_of(alloc, parts.results.as_slice(), &words)
}

impl Bundle {
    /// What the circuits give under the choices `choices`, one for each module, where the inputs are the words `inputs`: the bound
    /// word, and then the output words. Time grows with the numbers of nodes, of gates and of words.
    ///
    /// # Errors
    ///
    /// Memory ran out.
    pub fn meaning(
        &self,
        alloc: Global,
        choices: &[Choice],
        inputs: &Inputs,
    ) -> Result<Vec<u64>, Memory>
        requires choices { IsAssignment (problem_of self.now.parts) choices.now }
        requires inputs { FitPorts self.now.parts.ports inputs.now }
        ensures { IfOk result (λ words. words.items ≡ value self.now.parts choices.now inputs.now) }
    {
        meaning_of(alloc, self.draft(), choices, inputs)
    }
}
