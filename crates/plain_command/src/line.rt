//! The line of a run.

ghost use Rattle.std.specs.Prelude.{◌≡◌, IfOk, string_bytes};
ghost use Rattle.serde_json.specs.Written.{compact_text};
ghost use Rattle.json_values.specs.Text.{text_value};
ghost use Rattle.plain_command.specs.Lines as spec;

use c_meaning::{Bound, Run, Undefined, UndefinedAt};
use hy_bits::{Memory, Shape};
use json_values::text_of;
use std::alloc::Global;

/// The line of a run whose result has the shape. The time is linear in the words, but for the members of an object, each of which is put
/// in the order of their names.
///
/// # Errors
///
/// Memory ran out.
pub fn plain_line(alloc: Global, shape: &Shape, run: &Run) -> Result<String, Memory>
    ensures { IfOk result (λ line. string_bytes line ≡ spec.plain_line shape.now run.now) }
{
    let bound = bound_digit(run.bound);
    let out = out_text(alloc, shape, run.words.as_slice())?;
    let undefined = undefined_text(alloc, run.undefined)?;
    Ok(format!(in alloc; "{{\"bound\":{bound},\"out\":{out},\"undefined\":{undefined}}}\n")?)
}

/// The result as JSON.
fn out_text(alloc: Global, shape: &Shape, words: &[u64]) -> Result<String, Memory>
    ensures { IfOk result (λ text. string_bytes text ≡ compact_text (text_value shape.now words.now)) }
{
    let value = text_of(alloc, shape, words)?;
    Ok(value.to_string(alloc)?)
}

/// The bound word as a digit: 1 where a loop passed its bound.
fn bound_digit(bound: Bound) -> &'static str
    ensures { result.now ≡ spec.bound_digit bound }
{
    match bound {
        Bound::Kept => "0",
        Bound::Passed => "1",
    }
}

/// The first undefined operation: its kind, line and column.
fn undefined_text(alloc: Global, undefined: Option<UndefinedAt>) -> Result<String, Memory>
    ensures { IfOk result (λ text. string_bytes text ≡ spec.undefined_text undefined) }
{
    match undefined {
        None => Ok(String::from_str(alloc, "null")?),
        Some(at) => {
            let kind = kind_word(at.kind);
            let line = at.place.line;
            let column = at.place.column;
            Ok(format!(in alloc; "[\"{kind}\",{line},{column}]")?)
        }
    }
}

/// The name of a kind of undefined operation.
fn kind_word(kind: Undefined) -> &'static str
    ensures { result.now ≡ spec.kind_word kind }
{
    match kind {
        Undefined::Overflow => "Overflow",
        Undefined::Divide => "Divide",
        Undefined::Shift => "Shift",
        Undefined::Bounds => "Bounds",
        Undefined::PointerRange => "PointerRange",
        Undefined::Unset => "Unset",
        Undefined::Dead => "Dead",
        Undefined::NoResult => "NoResult",
    }
}
