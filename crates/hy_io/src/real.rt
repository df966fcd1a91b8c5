ghost use Rattle.std.specs.Prelude.{◌≤◌, None, IfOk, vec_len};

use crate::counts::next;
use crate::{Failed, FileError, Files, Sink};
use std::alloc::Global;
use std::io::{ErrorKind, Read, Write};
use std::{fs, io, rt};

/// The operating system's files. Nothing is told of what they hold. The two counts of faults are those of all names
/// together; they rise at each fault and stay at the last value of `u64`.
#[derive(Drop)]
pub struct RealFiles<R> {
    runtime: R,
    failed_reads: u64,
    failed_writes: u64,
}

impl<R: rt::Files> RealFiles<R> {
    pub fn new(runtime: R) -> RealFiles<R> {
        RealFiles {
            runtime,
            failed_reads: 0,
            failed_writes: 0,
        }
    }
}

impl<R: rt::Files> Files for RealFiles<R> {
    ghost store = { λ _. None };

    ghost failed_reads = { λ files _. files.failed_reads };

    ghost failed_writes = { λ files _. files.failed_writes };

    fn read(&mut self, alloc: Global, name: &str, max: usize) -> Result<Vec<u8>, FileError> {
        match read_up_to(&self.runtime, alloc, name, max) {
            Ok(bytes) => Ok(bytes),
            Err(error) => {
                let error = file_error(&error);
                if error == FileError::Failed {
                    self.failed_reads = next(self.failed_reads);
                }
                Err(error)
            }
        }
    }

    fn write(&mut self, _alloc: Global, name: &str, bytes: &[u8]) -> Result<(), FileError> {
        match write_all(&self.runtime, name, bytes) {
            Ok(()) => Ok(()),
            Err(_) => {
                self.failed_writes = next(self.failed_writes);
                Err(FileError::Failed)
            }
        }
    }
}

/// The first `max` bytes of the named file, or all if it has fewer.
fn read_up_to<R: rt::Files>(
    runtime: &R,
    alloc: Global,
    name: &str,
    max: usize,
) -> io::Result<Vec<u8>>
    ensures { IfOk result (λ bytes. vec_len bytes ≤ max) }
{
    let mut bytes = Vec::new(alloc);
    fs::open(runtime, name)?
        .take(max as u64)
        .read_to_end(&mut bytes)?;
    bytes.truncate(max);
    Ok(bytes)
}

/// Makes the named file hold these bytes.
fn write_all<R: rt::Files>(runtime: &R, name: &str, bytes: &[u8]) -> io::Result<()> {
    fs::create(runtime, name)?.write_all(bytes)
}

/// What an error of the operating system is to the layers above.
fn file_error(error: &io::Error) -> FileError {
    if error.kind() == ErrorKind::OutOfMemory {
        FileError::Memory
    } else {
        FileError::Failed
    }
}

/// Standard output. Nothing is told of what it holds. The count of faults rises at each and stays at the last value
/// of `u64`.
#[derive(Drop)]
pub struct RealSink<R> {
    runtime: R,
    faults: u64,
}

impl<R: Print> RealSink<R> {
    pub fn new(runtime: R) -> RealSink<R> {
        RealSink { runtime, faults: 0 }
    }
}

impl<R: Print> Sink for RealSink<R> {
    ghost taken = { λ _. None };

    ghost faults = { λ sink. sink.faults };

    fn write(&mut self, piece: &[u8]) -> Result<usize, Failed> {
        if piece.is_empty() {
            return Ok(0);
        }
        match self.runtime.write_some(piece) {
            Ok(count) if count > 0 => Ok(count),
            _ => {
                self.faults = next(self.faults);
                Err(Failed)
            }
        }
    }
}
