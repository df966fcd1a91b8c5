//! The shares that an instruction makes and uses.
ghost use Rattle.std.specs.Prelude.{◌≡◌, ◌+◌, ◌++◌, ◌*◌, ℕ, map, slice_index, IfOk, OnOk};
ghost use Rattle.std.specs.List.{flat_map};
ghost use Rattle.share_core.specs.declared.instr.Instr.{Instr};
ghost use Rattle.plan_slots.specs.Operands.{left_form, made_by, operands, right_form, share_in, shares_at, shares_named, target_form, used_by};

use hy_bits::{Memory, Width};
use plan_figures::{gates_of, is_level};
use share_core::{Instr, InstrKind};

/// What a number of an instruction is: nothing, the number of a share, the code of one, the place of a word's codes, or that of two words'
/// codes.
#[derive(Clone, Copy)]
pub enum Form {
    Nothing,
    Share,
    Code,
    Word,
    Block,
}

/// What `left` is in an instruction of a kind.
pub fn left_form(kind: InstrKind) -> Form
    ensures { result ≡ left_form kind }
{
    match kind {
        InstrKind::ChooseA | InstrKind::AnswerSharesA | InstrKind::OpenA => Form::Code,
        InstrKind::ChooseB | InstrKind::AnswerSharesB | InstrKind::AnswerToA => Form::Word,
        InstrKind::OpenB | InstrKind::OpenY | InstrKind::Y2B => Form::Word,
        InstrKind::Carries => Form::Block,
        InstrKind::MulA | InstrKind::AndB | InstrKind::AndY => Form::Code,
        InstrKind::AddA | InstrKind::AddRight => Form::Code,
        InstrKind::SubA | InstrKind::SubRight => Form::Code,
        InstrKind::MulRight | InstrKind::NegA | InstrKind::TruncA => Form::Code,
        InstrKind::XorB | InstrKind::XorY => Form::Code,
        _ => Form::Nothing,
    }
}

/// What `right` is in an instruction of a kind.
pub fn right_form(kind: InstrKind) -> Form
    ensures { result ≡ right_form kind }
{
    match kind {
        InstrKind::MulA | InstrKind::AndB | InstrKind::AndY => Form::Code,
        InstrKind::AddA | InstrKind::AddLeft => Form::Code,
        InstrKind::SubA | InstrKind::SubLeft => Form::Code,
        InstrKind::MulLeft | InstrKind::XorB | InstrKind::XorY => Form::Code,
        _ => Form::Nothing,
    }
}

/// What `target` is in an instruction of a kind.
pub fn target_form(kind: InstrKind) -> Form
    ensures { result ≡ target_form kind }
{
    match kind {
        InstrKind::InAP0 | InstrKind::InAP1 | InstrKind::AnswerToA => Form::Share,
        InstrKind::MulA | InstrKind::AndB | InstrKind::AndY => Form::Share,
        InstrKind::AddA | InstrKind::AddLeft | InstrKind::AddRight => Form::Share,
        InstrKind::SubA | InstrKind::SubLeft | InstrKind::SubRight => Form::Share,
        InstrKind::MulLeft | InstrKind::MulRight | InstrKind::NegA => Form::Share,
        InstrKind::TruncA | InstrKind::Known => Form::Share,
        InstrKind::XorB | InstrKind::XorY => Form::Share,
        InstrKind::InBP0 | InstrKind::InBP1 | InstrKind::InYP0 => Form::Word,
        InstrKind::AnswerIn | InstrKind::AnswerSharesB => Form::Word,
        InstrKind::Carries | InstrKind::Y2B => Form::Word,
        InstrKind::AnswerSharesA => Form::Block,
        _ => Form::Nothing,
    }
}

/// Puts the share of a code after others; a constant has none.
fn add_share(out: &mut Vec<u32>, code: u32) -> Result<(), Memory>
    ensures { OnOk result (out.new.items ≡ out.old.items ++ share_in code) }
{
    if code >= 2 {
        out.push(code / 2 - 1)?;
    }
    Ok(())
}

/// The code at a place; past the last one 0.
fn code_at(codes: &[u32], place: u32, offset: u32) -> u32
    ensures { result ≡ slice_index codes.now (place + offset) }
{
    let place = place as usize + offset as usize;
    codes.get(place).copied().unwrap_or(0)
}

/// Puts the shares of `count` codes from a place on after others.
fn add_shares(out: &mut Vec<u32>, codes: &[u32], place: u32, count: u32) -> Result<(), Memory>
    ensures { OnOk result (out.new.items ≡ out.old.items ++ shares_at codes.now place count) }
{
    for offset in 0..count {
        add_share(out, code_at(codes, place, offset))?;
    }
    Ok(())
}

/// Puts the shares that a number of an instruction stands for after others.
fn add_named(
    out: &mut Vec<u32>,
    codes: &[u32],
    w: Width,
    form: Form,
    number: u32,
) -> Result<(), Memory>
    ensures { OnOk result (out.new.items ≡ out.old.items ++ shares_named codes.now w form number) }
{
    match form {
        Form::Nothing => {}
        Form::Share => out.push(number)?,
        Form::Code => add_share(out, number)?,
        Form::Word => add_shares(out, codes, number, w.bits())?,
        Form::Block => add_shares(out, codes, number, 2 * w.bits())?,
    }
    Ok(())
}

/// Puts the shares that an instruction uses, which is no level, after others.
fn add_operands(out: &mut Vec<u32>, codes: &[u32], instr: &Instr) -> Result<(), Memory>
    ensures { OnOk result (out.new.items ≡ out.old.items ++ operands codes.now instr.now) }
{
    let w = instr.width;
    add_named(out, codes, w, left_form(instr.kind), instr.left)?;
    add_named(out, codes, w, right_form(instr.kind), instr.right)
}

/// Puts the shares that gates make after others.
fn add_targets(out: &mut Vec<u32>, gates: &[Instr]) -> Result<(), Memory>
    ensures { OnOk result (out.new.items ≡ out.old.items ++ map (λ (gate : Instr). gate.target) gates.now) }
{
    for gate in gates {
        out.push(gate.target)?;
    }
    Ok(())
}

/// Puts the shares that gates use after others.
fn add_all_operands(out: &mut Vec<u32>, codes: &[u32], gates: &[Instr]) -> Result<(), Memory>
    ensures { OnOk result (out.new.items ≡ out.old.items ++ flat_map (operands codes.now) gates.now) }
{
    for gate in gates {
        add_operands(out, codes, gate)?;
    }
    Ok(())
}

/// Puts the shares that an instruction makes after others.
pub fn add_made(
    out: &mut Vec<u32>,
    gates: &[Instr],
    codes: &[u32],
    instr: &Instr,
) -> Result<(), Memory>
    ensures { OnOk result (out.new.items ≡ out.old.items ++ made_by gates.now codes.now instr.now) }
{
    if is_level(instr.kind) {
        add_targets(out, gates_of(instr, gates))
    } else {
        let form = target_form(instr.kind);
        add_named(out, codes, instr.width, form, instr.target)
    }
}

/// Puts the shares that an instruction uses after others.
pub fn add_used(
    out: &mut Vec<u32>,
    gates: &[Instr],
    codes: &[u32],
    instr: &Instr,
) -> Result<(), Memory>
    ensures { OnOk result (out.new.items ≡ out.old.items ++ used_by gates.now codes.now instr.now) }
{
    if is_level(instr.kind) {
        add_all_operands(out, codes, gates_of(instr, gates))
    } else {
        add_operands(out, codes, instr)
    }
}
