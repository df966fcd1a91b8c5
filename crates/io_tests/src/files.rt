use crate::rows::{bytes_of, parts};
use crate::table::{FAILING, MEMORY, REAL, ROWS, SINK};
use hy_bits::{Memory, Text};
use hy_io::{Failed, FileError, Files, MemFiles, MemSink, RealFiles, RealSink, Sink};
use std::alloc::Global;
use std::process::Abort;
use std::test::Fail;

/// Two files, `a` with 4 bytes and `b` with none.
fn two_files(alloc: Global, fails: &[u64]) -> Result<MemFiles, Memory> {
    let mut files = Vec::new(alloc);
    files.push((
        Text::copy_of(alloc, b"a")?,
        Vec::from_slice(alloc, b"abcd")?,
    ))?;
    files.push((Text::copy_of(alloc, b"b")?, Vec::new(alloc)))?;
    MemFiles::new(alloc, files, Vec::from_slice(alloc, fails)?)
}

/// What a read gives in print.
fn shown(alloc: Global, answer: Result<Vec<u8>, FileError>) -> Result<Vec<u8>, Fail> {
    match answer {
        Ok(bytes) => Ok(bytes),
        Err(FileError::Failed) => Ok(Vec::from_slice(alloc, b"failed")?),
        Err(FileError::Memory) => Err("memory ran out".into()),
    }
}

/// What a write gives in print.
fn told(alloc: Global, answer: Result<(), FileError>) -> Result<Vec<u8>, Fail> {
    match answer {
        Ok(()) => Ok(Vec::from_slice(alloc, b"written")?),
        Err(FileError::Failed) => Ok(Vec::from_slice(alloc, b"failed")?),
        Err(FileError::Memory) => Err("memory ran out".into()),
    }
}

/// What the call of a row, through the trait as the layers above make it, gives: a read its bytes.
fn call<F: Files>(files: &mut F, alloc: Global, row: &str) -> Result<Vec<u8>, Fail> {
    let (call, rest) = row.split_once(' ').ok_or("a call")?;
    let (name, what) = rest.split_once(' ').ok_or("a name")?;
    if call == "read" {
        let max = what.parse::<usize>()?;
        shown(alloc, files.read(alloc, name, max))
    } else {
        let bytes = bytes_of(alloc, what)?;
        told(alloc, files.write(alloc, name, bytes.as_slice()))
    }
}

/// Makes the calls of a table, one after another.
fn compare_calls<F: Files>(
    rt: &impl Abort,
    files: &mut F,
    alloc: Global,
    table: &str,
    rows: u32,
) -> Result<(), Fail> {
    let mut count = 0u32;
    for row in table.lines() {
        let (text, want) = parts(row)?;
        let found = call(files, alloc, text)?;
        let want = bytes_of(alloc, want)?;
        assert_eq!(rt; found.as_slice(), want.as_slice(), "{row}");
        count = count.saturating_add(1);
    }
    assert_eq!(rt; count, rows);
    Ok(())
}

#[test]
fn files_in_memory_are_read_and_written(rt: HostRuntime) -> Result<(), Fail> {
    let mut files = two_files(rt.alloc(), &[])?;
    compare_calls(&rt, &mut files, rt.alloc(), MEMORY, ROWS[4])
}

#[test]
fn files_in_memory_fail_at_the_numbered_calls(rt: HostRuntime) -> Result<(), Fail> {
    let mut files = two_files(rt.alloc(), &[1, 3, 4])?;
    compare_calls(&rt, &mut files, rt.alloc(), FAILING, ROWS[5])
}

#[test]
fn real_files_hold_what_was_written(rt: HostRuntime) -> Result<(), Fail> {
    let alloc = rt.alloc();
    let mut files = RealFiles::new(rt);
    compare_calls(&rt, &mut files, alloc, REAL, ROWS[6])
}

fn send<S: Sink>(sink: &mut S, piece: &[u8]) -> Result<usize, Failed> {
    sink.write(piece)
}

/// What a write gives in print.
fn sent<S: Sink>(alloc: Global, sink: &mut S, piece: &str) -> Result<String, Fail> {
    match send(sink, piece.as_bytes()) {
        Ok(count) => Ok(format!(in alloc; "{count}")?),
        Err(Failed) => Ok(String::from_str(alloc, "failed")?),
    }
}

#[test]
fn a_sink_in_memory_takes_steps_until_it_is_full(rt: HostRuntime) -> Result<(), Fail> {
    let alloc = rt.alloc();
    let mut sink = MemSink::new(alloc, 7, 3, Vec::from_slice(alloc, &[1])?)?;
    let mut count = 0u32;
    for row in SINK.lines() {
        let (piece, want) = parts(row)?;
        assert_eq!(rt; sent(alloc, &mut sink, piece)?.as_str(), want, "{row}");
        count = count.saturating_add(1);
    }
    assert_eq!(rt; count, ROWS[7]);
    assert_eq!(rt; sink.taken(), b"abcdefg".as_slice());
    Ok(())
}

#[test]
fn standard_output_takes_bytes(rt: HostRuntime) {
    let mut sink = RealSink::new(rt);
    assert!(rt; send(&mut sink, b"") == Ok(0));
    assert!(rt; send(&mut sink, b"taken\n").is_ok());
}
