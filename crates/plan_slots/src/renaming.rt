//! Instructions over slots in the place of shares.
ghost use Rattle.std.specs.Prelude.{◌≡◌, map, IfOk};
ghost use Rattle.plan_slots.specs.Renamed.{renamed, renamed_code, renamed_number, slot_at};

use crate::operands::{Form, left_form, right_form, target_form};
use hy_bits::Memory;
use plan_script::share_code;
use share_core::Instr;
use std::alloc::Global;

/// The slot of a share.
fn slot_at(slots: &[u32], share: u32) -> u32
    ensures { result ≡ slot_at slots.now share }
{
    slots.get(share as usize).copied().unwrap_or(0)
}

/// The code of a share's slot; constants stay.
#[tactic(auto, unfolding(crate::specs::Renamed::renamed_code))]
fn renamed_code(slots: &[u32], code: u32) -> Result<u32, Memory>
    ensures { IfOk result (λ renamed. renamed ≡ renamed_code slots.now code) }
{
    if code < 2 {
        Ok(code)
    } else {
        let slot = slot_at(slots, code / 2 - 1);
        Ok(share_code(slot)? + code % 2)
    }
}

/// A number of an instruction, over slots; places of codes stay.
fn renamed_number(slots: &[u32], form: Form, number: u32) -> Result<u32, Memory>
    ensures { IfOk result (λ renamed. renamed ≡ renamed_number slots.now form number) }
{
    match form {
        Form::Share => Ok(slot_at(slots, number)),
        Form::Code => renamed_code(slots, number),
        Form::Nothing | Form::Word | Form::Block => Ok(number),
    }
}

/// An instruction over the slots of its shares.
///
/// # Errors
///
/// Memory ran out: codes of so many slots would take more than there is.
#[tactic(auto, unfolding(crate::specs::Renamed::renamed))]
pub fn renamed(slots: &[u32], instr: &Instr) -> Result<Instr, Memory>
    ensures { IfOk result (λ i. i ≡ renamed slots.now instr.now) }
{
    Ok(Instr {
        left: renamed_number(slots, left_form(instr.kind), instr.left)?,
        right: renamed_number(slots, right_form(instr.kind), instr.right)?,
        target: renamed_number(slots, target_form(instr.kind), instr.target)?,
        ..*instr
    })
}

/// Codes over slots in the place of codes over shares.
///
/// # Errors
///
/// Memory ran out.
pub fn renamed_codes(alloc: Global, slots: &[u32], codes: &[u32]) -> Result<Vec<u32>, Memory>
    ensures { IfOk result (λ renamed. renamed.items ≡ map (renamed_code slots.now) codes.now) }
{
    let mut renamed = Vec::with_capacity(alloc, codes.len())?;
    for code in codes {
        renamed.push(renamed_code(slots, *code)?)?;
    }
    Ok(renamed)
}

/// Instructions over slots in the place of instructions over shares.
///
/// # Errors
///
/// Memory ran out.
pub fn renamed_instrs(alloc: Global, slots: &[u32], instrs: &[Instr]) -> Result<Vec<Instr>, Memory>
    ensures { IfOk result (λ renamed_list. renamed_list.items ≡ map (renamed slots.now) instrs.now) }
{
    let mut list = Vec::with_capacity(alloc, instrs.len())?;
    for instr in instrs {
        list.push(renamed(slots, instr)?)?;
    }
    Ok(list)
}
