//! Conversions of a word from one sharing to another.
ghost use Rattle.std.specs.Prelude.{◌≡◌, IfOk, OnOk};
ghost use Rattle.plan_script.specs.Script.{instr};
ghost use Rattle.plan_script.specs.Conversions.{a_to_b, a_to_y, b_to_a, b_to_y, conversion, y_to_a, y_to_b};

use crate::script::Script;
use choice_core::Sharing;
use hy_bits::{Memory, Width};
use share_core::{Instr, InstrKind};

/// An instruction that takes the word at `left`.
pub fn instr(kind: InstrKind, width: Width, left: u32, value: u64) -> Instr
    ensures { result ≡ instr kind width left 0 0 value }
{
    Instr {
        kind,
        number: 0,
        width,
        left,
        right: 0,
        target: 0,
        value,
    }
}

/// Y2B.
#[tactic(auto, unfolding(crate::specs::Conversions::y_to_b))]
fn y_to_b(script: &mut Script, w: Width, at: u32) -> Result<u32, Memory>
    ensures { IfOk result (λ to. record { script = script.new; at = to } ≡ y_to_b w at script.old) }
{
    script.make_bits(w.bits(), instr(InstrKind::Y2B, w, at, 0))
}

/// B2A: a choice and its answer.
#[tactic(auto, unfolding(crate::specs::Conversions::b_to_a))]
fn b_to_a(script: &mut Script, w: Width, at: u32) -> Result<u32, Memory>
    ensures { IfOk result (λ to. record { script = script.new; at = to } ≡ b_to_a w at script.old) }
{
    script.put(instr(InstrKind::ChooseB, w, at, 0))?;
    script.make_word(instr(InstrKind::AnswerToA, w, at, 0))
}

/// B2Y: a choice and its answer.
#[tactic(auto, unfolding(crate::specs::Conversions::b_to_y))]
fn b_to_y(script: &mut Script, w: Width, at: u32) -> Result<u32, Memory>
    ensures { IfOk result (λ to. record { script = script.new; at = to } ≡ b_to_y w at script.old) }
{
    script.put(instr(InstrKind::ChooseB, w, at, 0))?;
    script.make_bits(w.bits(), instr(InstrKind::AnswerSharesB, w, at, 0))
}

/// A2Y: a choice, its answer, and the carries of a sum.
#[tactic(auto, unfolding(crate::specs::Conversions::a_to_y, crate::specs::Conversions::carried))]
fn a_to_y(script: &mut Script, w: Width, at: u32) -> Result<u32, Memory>
    ensures { IfOk result (λ to. record { script = script.new; at = to } ≡ a_to_y w at script.old) }
{
    script.put(instr(InstrKind::ChooseA, w, at, 0))?;
    let block = script.make_bits(2 * w.bits(), instr(InstrKind::AnswerSharesA, w, at, 0))?;
    let first = u64::from(script.garbled());
    let sum = script.make_bits(w.bits(), instr(InstrKind::Carries, w, block, first))?;
    script.garble(w.bits() - 1)?;
    Ok(sum)
}

/// A2B: A2Y, then Y2B.
#[tactic(auto, unfolding(crate::specs::Conversions::a_to_b))]
fn a_to_b(script: &mut Script, w: Width, at: u32) -> Result<u32, Memory>
    ensures { IfOk result (λ to. record { script = script.new; at = to } ≡ a_to_b w at script.old) }
{
    let at_y = a_to_y(script, w, at)?;
    y_to_b(script, w, at_y)
}

/// Y2A: Y2B, then B2A.
#[tactic(auto, unfolding(crate::specs::Conversions::y_to_a))]
fn y_to_a(script: &mut Script, w: Width, at: u32) -> Result<u32, Memory>
    ensures { IfOk result (λ to. record { script = script.new; at = to } ≡ y_to_a w at script.old) }
{
    let at_b = y_to_b(script, w, at)?;
    b_to_a(script, w, at_b)
}

/// The conversion of the word at `at` between two sharings, and where it stands then. Between equal ones there is nothing to do.
pub fn convert(
    script: &mut Script,
    from: Sharing,
    to: Sharing,
    w: Width,
    at: u32,
) -> Result<u32, Memory>
    ensures { IfOk result (λ there. record { script = script.new; at = there } ≡ conversion from to w at script.old) }
{
    match (from, to) {
        (Sharing::Arithmetic, Sharing::Boolean) => a_to_b(script, w, at),
        (Sharing::Arithmetic, Sharing::Yao) => a_to_y(script, w, at),
        (Sharing::Boolean, Sharing::Arithmetic) => b_to_a(script, w, at),
        (Sharing::Boolean, Sharing::Yao) => b_to_y(script, w, at),
        (Sharing::Yao, Sharing::Arithmetic) => y_to_a(script, w, at),
        (Sharing::Yao, Sharing::Boolean) => y_to_b(script, w, at),
        (Sharing::Arithmetic, Sharing::Arithmetic) => Ok(at),
        (Sharing::Boolean, Sharing::Boolean) => Ok(at),
        (Sharing::Yao, Sharing::Yao) => Ok(at),
    }
}
