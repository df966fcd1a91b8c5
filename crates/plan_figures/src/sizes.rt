//! What an instruction sends, and how many words are drawn for it.
ghost use Rattle.std.specs.Prelude.{◌≡◌, ◌+◌, ◌^◌, ◌<◌, IfOk};
ghost use Rattle.share_core.specs.Dealing.{drawn};
ghost use Rattle.share_core.specs.Levels.{gates_of, is_level, level_drawn, level_sent};
ghost use Rattle.share_core.specs.Machine.{payload_length, words_drawn};
ghost use Rattle.plan_figures.specs.Figures.{frame_length};

use hy_bits::{Memory, Role};
use share_core::{Instr, InstrKind};

/// The sum of two numbers.
///
/// # Errors
///
/// 64 bits don't hold it.
pub fn sum(a: u64, b: u64) -> Result<u64, Memory>
    ensures { IfOk result (λ sum. sum ≡ a + b) }
{
    match a.checked_add(b) {
        Some(sum) => Ok(sum),
        None => Err(Memory),
    }
}

/// The gates of a level.
pub fn gates_of<'g>(level: &Instr, gates: &'g [Instr]) -> &'g [Instr]
    ensures { result.now ≡ gates_of level.now gates.now }
{
    let left = level.left as usize;
    let right = level.right as usize;
    if gates.len() <= left {
        &[]
    } else if gates.len() - left <= right {
        &gates[left..]
    } else {
        &gates[left..left + right]
    }
}

/// Whether an instruction is a level.
pub fn is_level(kind: InstrKind) -> bool
    ensures { result ≡ is_level kind }
{
    match kind {
        InstrKind::LevelA | InstrKind::LevelB | InstrKind::LevelY => true,
        _ => false,
    }
}

/// How many bytes the role sends for these gates.
fn gates_sent(gates: &[Instr], role: Role) -> Result<u64, Memory>
    ensures { IfOk result (λ n. n ≡ level_sent role gates.now) }
{
    let mut total = 0;
    for gate in gates {
        total = sum(total, u64::from(gate.sent(role)))?;
    }
    Ok(total)
}

/// The length of the payload that the role sends.
fn payload_length(instr: &Instr, gates: &[Instr], role: Role) -> Result<u64, Memory>
    ensures { IfOk result (λ n. n ≡ payload_length instr.now gates.now role) }
{
    if is_level(instr.kind) {
        gates_sent(gates_of(instr, gates), role)
    } else {
        Ok(u64::from(instr.sent(role)))
    }
}

/// The length of the frame that the role sends, with its head; 0 where it sends none.
pub fn frame_length(instr: &Instr, gates: &[Instr], role: Role) -> Result<u64, Memory>
    ensures { IfOk result (λ n. n ≡ frame_length gates.now role instr.now) }
{
    if instr.kind.has_frame(role) {
        sum(5, payload_length(instr, gates, role)?)
    } else {
        Ok(0)
    }
}

/// How many words are drawn for an instruction that is no level, or for a gate.
fn drawn(instr: &Instr) -> u64
    ensures { result ≡ drawn instr.now.kind instr.now.width }
{
    let bits = u64::from(instr.width.bits());
    match instr.kind {
        InstrKind::Offset => 2,
        InstrKind::InAP0 | InstrKind::InAP1 | InstrKind::InBP0 | InstrKind::InBP1 => 1,
        InstrKind::InYP0 => 2 * bits,
        InstrKind::ChooseIn | InstrKind::ChooseA | InstrKind::ChooseB => 1,
        InstrKind::AnswerIn => 6 * bits,
        InstrKind::AnswerSharesA | InstrKind::AnswerSharesB => 8 * bits,
        InstrKind::AnswerToA => 3 * bits,
        InstrKind::MulA => 5,
        InstrKind::AndB => 1,
        _ => 0,
    }
}

/// How many words are drawn for these gates.
fn gates_drawn(gates: &[Instr]) -> Result<u64, Memory>
    ensures { IfOk result (λ n. n ≡ level_drawn gates.now) }
{
    let mut total = 0;
    for gate in gates {
        total = sum(total, drawn(gate))?;
    }
    Ok(total)
}

/// How many words are drawn for an instruction.
pub fn words_drawn(instr: &Instr, gates: &[Instr]) -> Result<u64, Memory>
    ensures { IfOk result (λ n. n ≡ words_drawn instr.now gates.now) }
{
    if is_level(instr.kind) {
        gates_drawn(gates_of(instr, gates))
    } else {
        Ok(drawn(instr))
    }
}
