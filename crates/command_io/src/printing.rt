//! The end of a command.

ghost use Rattle.std.specs.Prelude.{◌≡◌, ◌≢◌, ◌<◌, length, take, MatchResult};
ghost use Rattle.std.specs.String.{string_bytes};
ghost use Rattle.std.specs.Io.KnownBytes.{Appends};
ghost use Rattle.hy_io.specs.Outside.{Rose};
ghost use Rattle.command_io.specs.Ends.{OnLine, Concludes, Prints};

use crate::status::{Line, Status, Stop};
use hy_io::{Failed, Sink};

/// Prints the line of an outcome, and answers its status. The time is linear in the line, where the sink takes it in pieces that
/// are not too small.
pub fn conclude<S: Sink>(outcome: Result<Line, Stop>, sink: &mut S) -> Status
    ensures { Concludes outcome (S.taken sink.old) (S.taken sink.new) (S.faults sink.old) (S.faults sink.new) result.code }
{
    match outcome {
        Ok(line) => print(&line, sink),
        Err(Stop::Fault(line)) => print(&line, sink),
        Err(Stop::Memory) => Status { code: 10 },
    }
}

/// Writes a line whole, or up to the fault of the sink.
fn print<S: Sink>(line: &Line, sink: &mut S) -> Status
    ensures { Prints line.now.code (string_bytes line.now.text) (S.taken sink.old) (S.taken sink.new) (S.faults sink.old) (S.faults sink.new) result.code }
{
    let text = line.text.as_bytes();
    let mut written = 0;
    while written < text.len() {
        match sink.write(&text[written..]) {
            Ok(count) => written += count,
            Err(Failed) => return Status { code: 9 },
        }
    }
    Status { code: line.code }
}
