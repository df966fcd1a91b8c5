//! Lines of faults of words and files.

ghost use Rattle.std.specs.Prelude.{◌≡◌, IfOk, string_bytes};
ghost use Rattle.json.specs.Print.{quoted as json_quoted};
ghost use Rattle.command_io.specs.Lines.{words_line, file_fault_line, too_long_line};

use hy_bits::Memory;
use serde_json::Value;
use std::alloc::Global;

/// The line of words that are of no command.
///
/// # Errors
///
/// Memory ran out.
pub fn words_fault(alloc: Global) -> Result<String, Memory>
    ensures { IfOk result (λ line. string_bytes line ≡ words_line) }
{
    Ok(String::from_str(alloc, "{\"fault\":\"Words\"}\n")?)
}

/// The line of a fault of the file `name`.
///
/// # Errors
///
/// Memory ran out.
pub fn file_fault(alloc: Global, name: &str) -> Result<String, Memory>
    ensures { IfOk result (λ line. string_bytes line ≡ file_fault_line name.now) }
{
    let name = quoted(alloc, name)?;
    Ok(format!(in alloc; "{{\"fault\":\"FileFault\",\"name\":{name}}}\n")?)
}

/// The line of the file `name`, which is longer than it may be.
///
/// # Errors
///
/// Memory ran out.
pub fn too_long(alloc: Global, name: &str) -> Result<String, Memory>
    ensures { IfOk result (λ line. string_bytes line ≡ too_long_line name.now) }
{
    let name = quoted(alloc, name)?;
    Ok(format!(in alloc; "{{\"fault\":\"TooLong\",\"name\":{name}}}\n")?)
}

/// The text as JSON writes it.
///
/// # Errors
///
/// Memory ran out.
pub fn quoted(alloc: Global, text: &str) -> Result<String, Memory>
    ensures { IfOk result (λ line. string_bytes line ≡ json_quoted text.now) }
{
    let value = Value::String(String::from_str(alloc, text)?);
    Ok(value.to_string(alloc)?)
}
