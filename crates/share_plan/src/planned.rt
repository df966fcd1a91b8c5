//! The list of instructions of a bundle.
ghost use Rattle.std.specs.Prelude.{◌≡◌, length, IfOk, OnOk};
ghost use Rattle.hy_bits.specs.Ports.{owners};
ghost use Rattle.share_plan.specs.Inputs.{is_wanted, with_inputs};
ghost use Rattle.share_plan.specs.Planned.{begun, script_of};

use crate::held::Held;
use crate::inputs::{add_inputs, input_nodes};
use crate::modules::add_modules;
use crate::openings::add_openings;
use crate::owners::owners_of;
use crate::takers::takers_of;
use bundle_core::{Bundle, Parts};
use choice_core::Choice;
use hy_bits::{Memory, Width};
use plan_script::{Script, instr};
use share_core::InstrKind;
use std::alloc::Global;

/// Puts the inputs.
fn add_all_inputs(
    alloc: Global,
    script: &mut Script,
    held: &mut [Held],
    parts: &Parts,
    choices: &[Choice],
) -> Result<(), Memory>
    requires choices { length choices.now ≡ length parts.now.modules.list }
    requires held { length held.old ≡ length parts.now.graph }
    ensures { OnOk result (record { script = script.new; held = held.new } ≡ with_inputs (is_wanted parts.now.modules.list choices.now parts.now.results) parts.now.graph (owners parts.now.ports) (record { script = script.old; held = held.old })) }
{
    let entries = parts.graph.entries();
    let owners = owners_of(alloc, parts.ports.as_slice())?;
    let nodes = input_nodes(alloc, entries, owners.len())?;
    let takers = takers_of(
        alloc,
        entries.len(),
        parts.modules.list(),
        choices,
        parts.results.as_slice(),
    )?;
    add_inputs(script, held, entries, &takers, &owners, &nodes)?;
    Ok(())
}

/// Puts the offset, the inputs, the modules and the openings of a bundle's parts under these choices.
fn add_all(
    alloc: Global,
    script: &mut Script,
    held: &mut [Held],
    parts: &Parts,
    choices: &[Choice],
) -> Result<(), Memory>
    requires variants { length parts.now.variants ≡ length parts.now.modules.list }
    requires choices { length choices.now ≡ length parts.now.modules.list }
    requires begun { record { script = script.old; held = held.old } ≡ begun parts.now.graph }
    ensures { OnOk result (script.new ≡ script_of parts.now choices.now) }
{
    add_all_inputs(alloc, script, held, parts, choices)?;
    add_modules(alloc, script, held, parts, choices)?;
    let entries = parts.graph.entries();
    add_openings(script, entries, held, parts.results.as_slice())
}

/// The list of instructions of a bundle's parts under these choices.
fn script_under(alloc: Global, parts: &Parts, choices: &[Choice]) -> Result<Script, Memory>
    requires variants { length parts.now.variants ≡ length parts.now.modules.list }
    requires choices { length choices.now ≡ length parts.now.modules.list }
    ensures { IfOk result (λ script. script ≡ script_of parts.now choices.now) }
{
    let mut script = Script::new(alloc);
    script.put(instr(InstrKind::Offset, Width::W1, 0, 0))?;
    let mut held = vec![in alloc; Held::nowhere(); parts.graph.entries().len()]?;
    add_all(alloc, &mut script, held.as_mut_slice(), parts, choices)?;
    Ok(script)
}

/// The list of instructions of a bundle, under its choices. Time grows with the numbers of nodes, gates, words and codes.
///
/// # Errors
///
/// Memory ran out, or so many shares or codes would take more than there is.
pub fn script_of(alloc: Global, bundle: &Bundle) -> Result<Script, Memory>
    ensures { IfOk result (λ script. script ≡ script_of bundle.now.parts bundle.now.choices) }
{
    script_under(alloc, bundle.parts(), bundle.choices())
}
