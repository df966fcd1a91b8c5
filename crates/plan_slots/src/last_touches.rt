//! At which instruction a share is made or used last.
ghost use Rattle.std.specs.Prelude.{◌≡◌, ℕ, ◌<◌, length, slice_index, if◌then◌else◌, IfOk, OnOk};
ghost use Rattle.plan_slots.specs.Lives.{is_among};
ghost use Rattle.plan_slots.specs.LastTouches.{AreLast};
ghost use Rattle.plan_slots.specs.Renamed.{touches_of};

use crate::operands::{add_made, add_used};
use hy_bits::Memory;
use plan_script::{Script, count};
use std::alloc::Global;

/// Notes that an instruction touches these shares.
fn note(last: &mut [u32], shares: &[u32], number: u32)
    ensures size { length last.new ≡ length last.old }
    ensures each { (s : ℕ) → s < length last.old → slice_index last.new s ≡ (if is_among shares.now s then number else slice_index last.old s) }
{
    for share in shares {
        let place = *share as usize;
        if place < last.len() {
            last[place] = number;
        }
    }
}

/// Notes for each share the last instruction that makes or uses it.
fn note_all(alloc: Global, last: &mut [u32], script: &Script) -> Result<(), Memory>
    ensures size { length last.new ≡ length last.old }
    ensures last { OnOk result (AreLast (touches_of script.now) last.new) }
{
    let mut touched = Vec::new(alloc);
    for (number, instr) in script.instrs().iter().enumerate() {
        touched.clear();
        add_made(&mut touched, script.gates(), script.codes(), instr)?;
        add_used(&mut touched, script.gates(), script.codes(), instr)?;
        note(last, &touched, count(number)?);
    }
    Ok(())
}

/// For each share the last instruction that makes or uses it.
pub fn last_touches(alloc: Global, script: &Script) -> Result<Vec<u32>, Memory>
    ensures size { IfOk result (λ last. length last.items ≡ script.now.shares) }
    ensures last { IfOk result (λ last. AreLast (touches_of script.now) last.items) }
{
    let mut last = vec![in alloc; 0; script.shares() as usize]?;
    note_all(alloc, last.as_mut_slice(), script)?;
    Ok(last)
}
