//! The command over files and a sink.

ghost use Rattle.std.specs.Prelude.{◌≡◌, ℕ, ◌⊎◌, List, MatchResult, string_bytes};
ghost use Rattle.command_io.specs.declared.status.Stop.TheVariants.{Memory as WantOfMemory};
ghost use Rattle.command_io.specs.Ends.{Calm, Ends, OnLine};
ghost use Rattle.plain_command.specs.Endings.{HasPlainJob, IsPlainEnding};

use crate::answer::answer;
use command_io::{Line, Status, Stop, conclude, read_file};
use hy_io::{Files, Sink};
use std::alloc::Global;

/// The files of a source and of two parties' inputs by their names, and the bound of loops that have none of their own.
#[derive(Debug, Drop)]
pub struct Plain {
    pub source: String,
    pub a: String,
    pub b: String,
    pub bound: Option<u32>,
}

/// The most bytes of a source.
const MOST_SOURCE: usize = 0x10_0000;

/// The most bytes of an input.
const MOST_INPUT: usize = 0x40_0000;

/// Runs the program of the source on the parties' inputs, and prints the line of the run or of the first fault. The time is that of
/// [`c_front::front`] and of the run, which grows with the operations that the program does.
pub fn plain_with<F: Files, S: Sink>(
    alloc: Global,
    job: &Plain,
    files: &mut F,
    sink: &mut S,
) -> Status
    // The line of a run is that of C's run, and each other one has its cause; it is printed whole, or up to a fault of the sink.
    ensures ends { Ends (IsPlainEnding (F.store files.old) (F.failed_reads files.old) (F.failed_reads files.new) (string_bytes job.now.source) (string_bytes job.now.a) (string_bytes job.now.b) job.now.bound)
        (S.taken sink.old) (S.taken sink.new) (S.faults sink.old) (S.faults sink.new) result.code }

    // A job of the form ends well or wants memory, where no device has a fault.
    ensures complete { HasPlainJob (F.store files.old) (string_bytes job.now.source) (string_bytes job.now.a) (string_bytes job.now.b) job.now.bound
        → ((name : List ℕ) → Calm (F.failed_reads files.old name) (F.failed_reads files.new name))
        → Calm (S.faults sink.old) (S.faults sink.new)
        → (result.code ≡ 0) ⊎ (result.code ≡ 10) }

    // The files are as before.
    ensures store { F.store files.new ≡ F.store files.old }
{
    let outcome = run(alloc, job, files);
    conclude(outcome, sink)
}

/// The line of the job.
///
/// # Errors
///
/// The line of the first fault; or memory ran out.
fn run<F: Files>(alloc: Global, job: &Plain, files: &mut F) -> Result<Line, Stop>
    ensures ending { MatchResult result
        (λ line. IsPlainEnding (F.store files.old) (F.failed_reads files.old) (F.failed_reads files.new) (string_bytes job.now.source) (string_bytes job.now.a) (string_bytes job.now.b) job.now.bound line.code (string_bytes line.text))
        (λ stop. OnLine stop (IsPlainEnding (F.store files.old) (F.failed_reads files.old) (F.failed_reads files.new) (string_bytes job.now.source) (string_bytes job.now.a) (string_bytes job.now.b) job.now.bound)) }
    ensures complete { HasPlainJob (F.store files.old) (string_bytes job.now.source) (string_bytes job.now.a) (string_bytes job.now.b) job.now.bound
        → ((name : List ℕ) → Calm (F.failed_reads files.old name) (F.failed_reads files.new name))
        → MatchResult result (λ line. line.code ≡ 0) (λ stop. stop ≡ WantOfMemory) }
    ensures store { F.store files.new ≡ F.store files.old }
{
    let source = read_file(alloc, files, job.source.as_str(), MOST_SOURCE, 3)?;
    let a = read_file(alloc, files, job.a.as_str(), MOST_INPUT, 6)?;
    let b = read_file(alloc, files, job.b.as_str(), MOST_INPUT, 6)?;
    answer(alloc, &source, job.bound, &a, &b)
}
