//! Faults of inputs.

ghost use Rattle.std.specs.Prelude.{◌≡◌, IfOk, string_bytes};
ghost use Rattle.fault_lines.specs.Faults as spec;
ghost use Rattle.fault_lines.specs.Faults.{IsLineOf};

use crate::text::text_of_bytes;
use command_io::{Line, quoted};
use hy_bits::{Memory, Role};
use json_values::{InputFault, InputKind};
use std::alloc::Global;

/// The status and the line of the fault of an input.
///
/// # Errors
///
/// Memory ran out, now or as the fault tells.
pub fn input_fault(alloc: Global, fault: &InputFault) -> Result<Line, Memory>
    ensures { IfOk result (λ line. IsLineOf 6 (spec.input_line fault.now) line) }
{
    let word = input_word(fault.fault);
    let file = file_word(fault.file);
    let text = match fault.fault {
        InputKind::Memory => return Err(Memory),
        InputKind::Json => { format!(in alloc; "{{\"fault\":\"{word}\",\"file\":\"{file}\"}}\n")? }
        _ => {
            let name = quoted(alloc, text_of_bytes(fault.name.as_bytes())?)?;
            format!(in alloc; "{{\"fault\":\"{word}\",\"file\":\"{file}\",\"name\":{name}}}\n")?
        }
    };
    Ok(Line { code: 6, text })
}

/// The name of a fault of an input.
fn input_word(kind: InputKind) -> &'static str
    ensures { result.now ≡ spec.input_word kind }
{
    match kind {
        InputKind::Json => "Input.Json",
        InputKind::Missing => "Input.Missing",
        InputKind::Extra => "Input.Extra",
        InputKind::Shape => "Input.Shape",
        InputKind::NotWhole => "Input.NotWhole",
        InputKind::Range => "Input.Range",
        InputKind::Memory => "Memory",
    }
}

/// The name of a party's file.
fn file_word(role: Role) -> &'static str
    ensures { result.now ≡ spec.file_word role }
{
    match role {
        Role::P0 => "a",
        Role::P1 => "b",
    }
}
