//! Openings: what the parties tell each other at the end.
ghost use Rattle.std.specs.Prelude.{◌≡◌, slice_get, OnOk};
ghost use Rattle.std.specs.List.{fold};
ghost use Rattle.share_plan.specs.Planned.{open_kind, open_word, opened_as, opened_in, with_opening};

use crate::held::{Held, held_at};
use crate::words::width_at;
use choice_core::Sharing;
use hy_bits::{Memory, Op};
use plan_script::{Script, instr};
use share_core::InstrKind;
use word_graph::{Entry, Node};

/// The kind of an opening.
fn open_kind(sharing: Sharing) -> InstrKind
    ensures { result ≡ open_kind sharing }
{
    match sharing {
        Sharing::Arithmetic => InstrKind::OpenA,
        Sharing::Boolean => InstrKind::OpenB,
        Sharing::Yao => InstrKind::OpenY,
    }
}

/// The sharing that a node is opened in, whose word a module makes in the sharing `maker`. A constant is not opened.
fn opened_in(entries: &[Entry], node: u32, maker: Option<Sharing>) -> Option<Sharing>
    ensures { result ≡ opened_in (slice_get entries.now node) maker }
{
    let entry = entries.get(node as usize)?;
    match entry.op {
        Op::In => Some(Sharing::Boolean),
        Op::Const => None,
        _ => maker,
    }
}

/// Puts the opening of a result.
#[tactic(auto, unfolding(crate::specs::Planned::with_opening))]
fn add_opening(
    script: &mut Script,
    entries: &[Entry],
    held: &[Held],
    node: Node,
) -> Result<(), Memory>
    ensures { OnOk result (script.new ≡ with_opening entries.now held.now script.old node) }
{
    let word = held_at(held, node.index as usize);
    match opened_in(entries, node.index, word.maker) {
        Some(sharing) => {
            let w = width_at(entries, node.index);
            let at = word.place_in(sharing);
            script.put(instr(open_kind(sharing), w, at, 0))
        }
        None => Ok(()),
    }
}

/// Puts the openings of the results, in order, without constants.
pub fn add_openings(
    script: &mut Script,
    entries: &[Entry],
    held: &[Held],
    results: &[Node],
) -> Result<(), Memory>
    ensures { OnOk result (script.new ≡ fold (with_opening entries.now held.now) script.old results.now) }
{
    for node in results {
        add_opening(script, entries, held, *node)?;
    }
    Ok(())
}
