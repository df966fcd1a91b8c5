ghost use Rattle.std.specs.Prelude.{◌≡◌, IfOk, string_bytes};
ghost use Rattle.hycc_top.specs.Lines.{run_line, form_line};

use command_io::quoted;
use hy_bits::Memory;
use std::alloc::Global;

/// The line of a run that opened this number.
pub fn run(alloc: Global, out: u64) -> Result<String, Memory>
    ensures { IfOk result (λ line. string_bytes line ≡ run_line out) }
{
    Ok(format!(in alloc; "{{\"bound\":0,\"out\":{out}}}\n")?)
}

/// The line of a file of this name that is not of its form.
pub fn form_fault(alloc: Global, name: &str) -> Result<String, Memory>
    ensures { IfOk result (λ line. string_bytes line ≡ form_line name.now) }
{
    let name = quoted(alloc, name)?;
    Ok(format!(in alloc; "{{\"fault\":\"Form\",\"name\":{name}}}\n")?)
}
