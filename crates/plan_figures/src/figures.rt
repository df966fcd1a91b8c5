//! The numbers of a plan.
ghost use Rattle.std.specs.Prelude.{◌≡◌, IfOk};
ghost use Rattle.std.specs.List.{count_by, sum_by};
ghost use Rattle.share_core.specs.Machine.{words_drawn};
ghost use Rattle.share_core.specs.Roles.{other};
ghost use Rattle.plan_figures.specs.Figures.{bytes_sent, figures_of, frame_count, frame_length, is_round, receives, steps_of, stretch_bytes, stretch_words};

use crate::sizes::{frame_length, sum, words_drawn};
use crate::stretches::{Step, greatest_stretch};
use hy_bits::{Memory, Role};
use share_core::Instr;
use std::alloc::Global;

/// The numbers of a plan: how many frames are received, how many bytes each party sends, the most words drawn in a stretch of either
/// party, the most bytes that each party sends in a stretch of its own, and in how many instructions some party sends.
#[derive(Clone, Copy, PartialEq, Eq, Debug)]
pub struct Figures {
    pub receives: u64,
    pub bytes: [u64; 2],
    pub stretch_words: u64,
    pub stretch_bytes: [u64; 2],
    pub rounds: u64,
}

/// The other party.
fn other(role: Role) -> Role
    ensures { result ≡ other role }
{
    match role {
        Role::P0 => Role::P1,
        Role::P1 => Role::P0,
    }
}

/// How many frames are sent for an instruction.
fn frame_count(instr: &Instr) -> u64
    ensures { result ≡ frame_count instr.now }
{
    let first = if instr.kind.has_frame(Role::P0) { 1 } else { 0 };
    let second = if instr.kind.has_frame(Role::P1) { 1 } else { 0 };
    first + second
}

/// Whether some party sends.
fn is_round(instr: &Instr) -> bool
    ensures { result ≡ is_round instr.now }
{
    instr.kind.has_frame(Role::P0) || instr.kind.has_frame(Role::P1)
}

/// How many frames are received.
fn receives(instrs: &[Instr]) -> Result<u64, Memory>
    ensures { IfOk result (λ n. n ≡ sum_by frame_count instrs.now) }
{
    let mut total = 0;
    for instr in instrs {
        total = sum(total, frame_count(instr))?;
    }
    Ok(total)
}

/// In how many instructions some party sends.
fn rounds(instrs: &[Instr]) -> Result<u64, Memory>
    ensures { IfOk result (λ n. n ≡ count_by is_round instrs.now) }
{
    let mut total = 0;
    for instr in instrs {
        total = sum(total, if is_round(instr) { 1 } else { 0 })?;
    }
    Ok(total)
}

/// How many bytes the role sends.
fn bytes_sent(instrs: &[Instr], gates: &[Instr], role: Role) -> Result<u64, Memory>
    ensures { IfOk result (λ n. n ≡ bytes_sent instrs.now gates.now role) }
{
    let mut total = 0;
    for instr in instrs {
        total = sum(total, frame_length(instr, gates, role)?)?;
    }
    Ok(total)
}

/// The most words drawn in a stretch of the role.
fn stretch_words(
    alloc: Global,
    instrs: &[Instr],
    gates: &[Instr],
    role: Role,
) -> Result<u64, Memory>
    ensures { IfOk result (λ n. n ≡ stretch_words instrs.now gates.now role) }
{
    let mut steps = Vec::with_capacity(alloc, instrs.len())?;
    for instr in instrs {
        let weight = words_drawn(instr, gates)?;
        let receives = instr.kind.has_frame(other(role));
        steps.push(Step { weight, receives })?;
    }
    greatest_stretch(&steps)
}

/// The most bytes that the role sends in a stretch of its own.
fn stretch_bytes(
    alloc: Global,
    instrs: &[Instr],
    gates: &[Instr],
    role: Role,
) -> Result<u64, Memory>
    ensures { IfOk result (λ n. n ≡ stretch_bytes instrs.now gates.now role) }
{
    let mut steps = Vec::with_capacity(alloc, instrs.len())?;
    for instr in instrs {
        let weight = frame_length(instr, gates, role)?;
        let receives = instr.kind.has_frame(other(role));
        steps.push(Step { weight, receives })?;
    }
    greatest_stretch(&steps)
}

/// The numbers of the plan with these instructions and gates. Time grows with the numbers of both.
///
/// # Errors
///
/// Memory ran out, or 64 bits don't hold a number.
pub fn figures_of(alloc: Global, instrs: &[Instr], gates: &[Instr]) -> Result<Figures, Memory>
    ensures { IfOk result (λ f. f ≡ figures_of instrs.now gates.now) }
{
    let words_a = stretch_words(alloc, instrs, gates, Role::P0)?;
    let words_b = stretch_words(alloc, instrs, gates, Role::P1)?;
    Ok(Figures {
        receives: receives(instrs)?,
        bytes: [
            bytes_sent(instrs, gates, Role::P0)?,
            bytes_sent(instrs, gates, Role::P1)?,
        ],
        stretch_words: words_a.max(words_b),
        stretch_bytes: [
            stretch_bytes(alloc, instrs, gates, Role::P0)?,
            stretch_bytes(alloc, instrs, gates, Role::P1)?,
        ],
        rounds: rounds(instrs)?,
    })
}
