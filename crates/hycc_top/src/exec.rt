ghost use Rattle.std.specs.Prelude.{◌≡◌, ℕ, ◌⊎◌, List, string_bytes, IfOk, IfErr, MatchResult};
ghost use Rattle.hy_io.specs.Outside.{Rose, Gives, NoneFell};
ghost use Rattle.command_io.specs.Lines.{file_fault_line};
ghost use Rattle.command_io.specs.Ends.{Calm, Ends, OnLine};
ghost use Rattle.hycc_top.specs.Endings.{IsEnding, HasJob};
ghost use Rattle.hycc_top.specs.Inner.{IsLineOf};

use crate::line;
use crate::outcome::{Outcome, outcome_of};
use command_io::{Line, Status, Stop, conclude, file_fault};
use hy_bits::Memory;
use hy_io::{FileError, Files, Sink};
use rand_core::Rng;
use std::alloc::Global;

/// A run: the names of the source and of the two parties' inputs.
#[derive(Drop)]
pub struct Exec {
    pub source: String,
    pub a: String,
    pub b: String,
}

/// One more than the most bytes that a source or an input may have.
const READ_AT_MOST: usize = 0x10_0001;

/// Runs the source on the two parties' numbers by arithmetic shares, whose words the dealer gives, and prints the sum,
/// or the first fault. It takes time linear in the three texts.
pub fn exec_with<F: Files, S: Sink, R: Rng + Drop>(
    alloc: Global,
    job: &Exec,
    files: &mut F,
    sink: &mut S,
    mut dealer: R,
) -> Status
    // The line of a run is the sum in C, and each other one has its cause; it is printed whole, or up to a fault of the sink.
    ensures ends { Ends (IsEnding (F.store files.old) (F.failed_reads files.old) (F.failed_reads files.new) (string_bytes job.now.source) (string_bytes job.now.a) (string_bytes job.now.b))
        (S.taken sink.old) (S.taken sink.new) (S.faults sink.old) (S.faults sink.new) result.code }

    // A job of the form ends well or wants memory, where no device has a fault.
    ensures complete { HasJob (F.store files.old) (string_bytes job.now.source) (string_bytes job.now.a) (string_bytes job.now.b)
        → ((name : List ℕ) → Calm (F.failed_reads files.old name) (F.failed_reads files.new name))
        → Calm (S.faults sink.old) (S.faults sink.new)
        → (result.code ≡ 0) ⊎ (result.code ≡ 10) }

    // The files are as before.
    ensures store { F.store files.new ≡ F.store files.old }
{
    let outcome = run(alloc, job, files, &mut dealer);
    conclude(outcome, sink)
}

/// The status and the line of a run.
fn run<F: Files, R: Rng>(
    alloc: Global,
    job: &Exec,
    files: &mut F,
    dealer: &mut R,
) -> Result<Line, Stop>
    ensures ending { MatchResult result
        (λ line. IsEnding (F.store files.old) (F.failed_reads files.old) (F.failed_reads files.new) (string_bytes job.now.source) (string_bytes job.now.a) (string_bytes job.now.b) line.code (string_bytes line.text))
        (λ stop. OnLine stop (IsEnding (F.store files.old) (F.failed_reads files.old) (F.failed_reads files.new) (string_bytes job.now.source) (string_bytes job.now.a) (string_bytes job.now.b))) }
    ensures store { F.store files.new ≡ F.store files.old }
{
    let source = read(alloc, files, job.source.as_str())?;
    let a = read(alloc, files, job.a.as_str())?;
    let b = read(alloc, files, job.b.as_str())?;
    let outcome = outcome_of(alloc, &source, &a, &b, dealer)?;
    Ok(line_of(alloc, job, outcome)?)
}

/// The status and the line of an outcome.
fn line_of(alloc: Global, job: &Exec, outcome: Outcome) -> Result<Line, Memory>
    ensures { IfOk result (λ line. IsLineOf outcome (string_bytes job.now.source) (string_bytes job.now.a) (string_bytes job.now.b) line.code (string_bytes line.text)) }
{
    match outcome {
        Outcome::Sum(out) => Ok(Line {
            code: 0,
            text: line::run(alloc, out)?,
        }),
        Outcome::SourceForm => Ok(Line {
            code: 3,
            text: line::form_fault(alloc, job.source.as_str())?,
        }),
        Outcome::AForm => Ok(Line {
            code: 6,
            text: line::form_fault(alloc, job.a.as_str())?,
        }),
        Outcome::BForm => Ok(Line {
            code: 6,
            text: line::form_fault(alloc, job.b.as_str())?,
        }),
    }
}

/// The first bytes of a file, one more than it may have; a fault has its line.
fn read<F: Files>(alloc: Global, files: &mut F, name: &str) -> Result<Vec<u8>, Stop>
    ensures bytes { IfOk result (λ bytes. Gives (F.store files.old) name.now READ_AT_MOST bytes.items) }
    ensures fault { IfErr result (λ stop. OnLine stop (λ code line. (code ≡ 2) × Rose (F.failed_reads files.old name.now) (F.failed_reads files.new name.now) × (line ≡ file_fault_line name.now))) }
    ensures store { F.store files.new ≡ F.store files.old }
    ensures counts { NoneFell (F.failed_reads files.old) (F.failed_reads files.new) }
{
    match files.read(alloc, name, READ_AT_MOST) {
        Ok(bytes) => Ok(bytes),
        Err(FileError::Memory) => Err(Stop::Memory),
        Err(FileError::Failed) => Err(Stop::Fault(Line {
            code: 2,
            text: file_fault(alloc, name)?,
        })),
    }
}
