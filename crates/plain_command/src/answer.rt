//! The answer of a source and two inputs.

ghost use Rattle.std.specs.Prelude.{◌≡◌, ◌≢◌, ◌^◌, ◌<◌, length, MatchResult, string_bytes};
ghost use Rattle.c_front.specs.declared.fault.SourceFault.TheVariants.{Memory as NoMemory};
ghost use Rattle.json_values.specs.declared.fault.InputKind.TheVariants as input;
ghost use Rattle.command_io.specs.declared.status.Stop.TheVariants.{Memory as WantOfMemory};
ghost use Rattle.command_io.specs.Ends.{OnLine};
ghost use Rattle.fault_lines.specs.Faults as faults;
ghost use Rattle.plain_command.specs.Endings.{HasRun, IsAnswer};

use crate::line::plain_line;
use c_front::{SourceFault, front};
use c_plain::run;
use command_io::{Line, Stop};
use fault_lines::{input_fault, source_fault};
use json_values::{InputFault, InputKind, inputs_of};
use std::alloc::Global;

/// The line of the source's program on the inputs, or of the first fault.
///
/// # Errors
///
/// The line of the first fault of the source, then of `a`, then of `b`; or memory ran out.
pub fn answer(
    alloc: Global,
    source: &[u8],
    bound: Option<u32>,
    a: &[u8],
    b: &[u8],
) -> Result<Line, Stop>
    requires { length source.now < 2 ^ 31 }
    ensures line { MatchResult result
        (λ line. IsAnswer source.now bound a.now b.now line.code (string_bytes line.text))
        (λ stop. OnLine stop (IsAnswer source.now bound a.now b.now)) }
    ensures whole { HasRun source.now bound a.now b.now → MatchResult result (λ line. line.code ≡ 0) (λ stop. stop ≡ WantOfMemory) }
{
    let parts = match front(alloc, source, bound) {
        Ok(parts) => parts,
        Err(fault) => return Err(source_stop(alloc, &fault)),
    };
    let inputs = match inputs_of(alloc, a, b, parts.ports.as_slice()) {
        Ok(inputs) => inputs,
        Err(fault) => return Err(input_stop(alloc, &fault)),
    };
    let run = run(alloc, &parts, &inputs)?;
    Ok(Line {
        code: 0,
        text: plain_line(alloc, &parts.result, &run)?,
    })
}

/// The end of a source that has a fault.
fn source_stop(alloc: Global, fault: &SourceFault) -> Stop
    ensures told { OnLine result (λ code line. (fault.now ≢ NoMemory) × (code ≡ faults.source_code fault.now) × (line ≡ faults.source_line fault.now)) }
    ensures memory { fault.now ≡ NoMemory → result ≡ WantOfMemory }
{
    match fault {
        SourceFault::Memory => Stop::Memory,
        SourceFault::Lex(_) | SourceFault::Syntax(_) | SourceFault::Types(_) => {
            match source_fault(alloc, fault) {
                Ok(line) => Stop::Fault(line),
                Err(_) => Stop::Memory,
            }
        }
    }
}

/// The end of inputs that have a fault.
fn input_stop(alloc: Global, fault: &InputFault) -> Stop
    ensures told { OnLine result (λ code line. (fault.now.fault ≢ input.Memory) × (code ≡ 6) × (line ≡ faults.input_line fault.now)) }
    ensures memory { fault.now.fault ≡ input.Memory → result ≡ WantOfMemory }
{
    match fault.fault {
        InputKind::Memory => Stop::Memory,
        _ => match input_fault(alloc, fault) {
            Ok(line) => Stop::Fault(line),
            Err(_) => Stop::Memory,
        },
    }
}
