//! Slots for all shares of a list of instructions.
ghost use Rattle.std.specs.Prelude.{◌≡◌, ◌==◌, ◌++◌, ◌+◌, ◌<◌, ◌≤◌, ℕ, [], drop, length, IfOk, OnOk};
ghost use Rattle.std.specs.List.{fold};
ghost use Rattle.plan_slots.specs.Allocation.{hold};
ghost use Rattle.plan_slots.specs.LastTouches.{release_last};
ghost use Rattle.plan_slots.specs.Slotting.{IsSlotting};
ghost use Rattle.plan_slots.specs.Renamed.{touches_of};

use crate::allocation::Allocation;
use crate::last_touches::last_touches;
use crate::operands::{add_made, add_used};
use hy_bits::{Memory, Sequence};
use plan_script::{Script, count};
use std::alloc::Global;

/// A slot for each share, and how many slots there are.
#[derive(Drop)]
pub struct Slots {
    pub of_shares: Sequence<u32>,
    pub count: u32,
}

/// Gives each of these shares a slot.
fn hold_all(allocation: &mut Allocation, shares: &[u32]) -> Result<(), Memory>
    ensures { OnOk result (allocation.new ≡ fold hold allocation.old shares.now) }
{
    for share in shares {
        allocation.hold(*share)?;
    }
    Ok(())
}

/// Gives the slot of a share back, where no later instruction touches it.
#[tactic(auto, unfolding(crate::specs::LastTouches::release_last))]
fn release_last(
    allocation: &mut Allocation,
    last: &[u32],
    number: u32,
    share: u32,
) -> Result<(), Memory>
    ensures { OnOk result (allocation.new ≡ release_last last.now number allocation.old share) }
{
    let place = share as usize;
    if place < last.len() && last[place] == number {
        allocation.release(share)?;
    }
    Ok(())
}

/// Gives back the slots of those of these shares that no later instruction touches.
fn release_all(
    allocation: &mut Allocation,
    last: &[u32],
    number: u32,
    shares: &[u32],
) -> Result<(), Memory>
    ensures { OnOk result (allocation.new ≡ fold (release_last last.now number) allocation.old shares.now) }
{
    for share in shares {
        release_last(allocation, last, number, *share)?;
    }
    Ok(())
}

/// A slot for each share of a list of instructions, as few slots as shares are live at one instruction. Time grows with the numbers of
/// instructions, gates and codes.
///
/// # Errors
///
/// Memory ran out.
pub fn slots_of(alloc: Global, script: &Script) -> Result<Slots, Memory>
    ensures { IfOk result (λ s. IsSlotting script.now.shares (touches_of script.now) s.of_shares s.count) }
{
    let last = last_touches(alloc, script)?;
    let mut allocation = Allocation::new(alloc, script.shares())?;
    let mut touched = Vec::new(alloc);
    for (number, instr) in script.instrs().iter().enumerate() {
        touched.clear();
        add_made(&mut touched, script.gates(), script.codes(), instr)?;
        hold_all(&mut allocation, &touched)?;
        add_used(&mut touched, script.gates(), script.codes(), instr)?;
        release_all(&mut allocation, &last, count(number)?, &touched)?;
    }
    let of_shares = Sequence::new(allocation.slots(alloc)?);
    let count = allocation.count();
    Ok(Slots { of_shares, count })
}
