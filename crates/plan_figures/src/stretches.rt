//! The greatest stretch of a list of instructions.
ghost use Rattle.std.specs.Prelude.{◌≡◌, IfOk};
ghost use Rattle.plan_figures.specs.Figures.{greatest_stretch};
ghost use Rattle.plan_figures.specs.Walk.{walk_step};

use crate::sizes::sum;
use hy_bits::Memory;

/// An instruction by its weight, and whether the party receives at it.
#[derive(Clone, Copy)]
pub struct Step {
    pub weight: u64,
    pub receives: bool,
}

/// The weight so far of the stretch that is begun, and the greatest of those before it.
#[derive(Clone, Copy)]
struct Walk {
    weight: u64,
    most: u64,
}

/// One more instruction.
#[tactic(auto, unfolding(crate::specs::Walk::walk_step))]
fn walk_step(walk: &Walk, step: &Step) -> Result<Walk, Memory>
    ensures { IfOk result (λ w. w ≡ walk_step walk.now step.now) }
{
    let total = sum(walk.weight, step.weight)?;
    if step.receives {
        Ok(Walk {
            weight: step.weight,
            most: walk.most.max(total),
        })
    } else {
        Ok(Walk {
            weight: total,
            most: walk.most,
        })
    }
}

/// The greatest weight of a stretch.

pub fn greatest_stretch(steps: &[Step]) -> Result<u64, Memory>
    ensures { IfOk result (λ n. n ≡ greatest_stretch steps.now) }
{
    let mut walk = Walk { weight: 0, most: 0 };
    for step in steps {
        walk = walk_step(&walk, step)?;
    }
    Ok(walk.most.max(walk.weight))
}
