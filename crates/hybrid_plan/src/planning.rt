//! Plans of bundles.
ghost use Rattle.std.specs.Prelude.{◌≡◌, ℕ, List, map, IfOk};
ghost use Rattle.share_plan.specs.Planned.{script_of};
ghost use Rattle.plan_slots.specs.Renamed.{renamed};
ghost use Rattle.hybrid_plan.specs.Levels.{LevelsMatch};
ghost use Rattle.hybrid_plan.specs.Plans.{IsPlanOf};

use crate::plans::Plan;
use bundle_core::Bundle;
use hy_bits::{Memory, Sequence};
use plan_figures::figures_of;
use plan_script::Script;
use plan_slots::{renamed_codes, renamed_instrs, slots_of};
use share_plan::script_of;
use std::alloc::Global;

/// The plan of a list of instructions.
fn plan_of(alloc: Global, script: &Script) -> Result<Plan, Memory>
    requires { (slots : List ℕ) → LevelsMatch (map (renamed slots) script.now.instrs) (map (renamed slots) script.now.gates) }
    ensures { IfOk result (λ plan. IsPlanOf script.now plan) }
{
    let figures = figures_of(alloc, script.instrs(), script.gates())?;
    let slots = slots_of(alloc, script)?;
    let of_shares = slots.of_shares.as_slice();
    let instrs = Sequence::new(renamed_instrs(alloc, of_shares, script.instrs())?);
    let gates = Sequence::new(renamed_instrs(alloc, of_shares, script.gates())?);
    let codes = Sequence::new(renamed_codes(alloc, of_shares, script.codes())?);
    Ok(Plan::of(instrs, gates, codes, slots.count, figures))
}

/// The plan of a bundle under its choices. Time grows with the numbers of nodes, gates, words and codes.
///
/// # Errors
///
/// Memory ran out, or so many shares or codes would take more than there is.
pub fn plan(alloc: Global, bundle: &Bundle) -> Result<Plan, Memory>
    ensures { IfOk result (λ plan. IsPlanOf (script_of bundle.now.parts bundle.now.choices) plan) }
{
    let script = script_of(alloc, bundle)?;
    plan_of(alloc, &script)
}
