ghost use Rattle.std.specs.Prelude.{◌≡◌, ℕ, ◌<◌, ◌≤◌, ◌/◌, length, vec_len, List, map, take, IfSome, Some, None, false, true, IfOk, OnOk, OnErr, IsErrOf, MatchOption, is_some, if◌then◌else◌};
ghost use Rattle.std.specs.Option.{option_map};
ghost use Rattle.hy_io.specs.Outside.{next as next_count};
ghost use Rattle.hy_io.specs.Disk.{FirstAt, file_named, changed, held, read_faults, write_faults, fails_now, readable, after_call, with_failed_read, after_failed_read, rewritten, put, after_write, handed};

use crate::counts::next;
use crate::file::File;
use crate::{FileError, Files};
use hy_bits::{Memory, Text};
use std::alloc::Global;
use std::marker::Model;

/// Files in memory. Of its calls, counted from 0, those whose numbers it was given fail, and reads of names that
/// aren't there; a write that fails keeps the first half of its bytes. A call that memory ran out for isn't counted.
///
/// A call costs time linear in the number of files and in the bytes that it copies.
#[derive(Drop)]
pub struct MemFiles {
    files: Vec<File>,
    absent_reads: u64,
    absent_writes: u64,
    calls: u64,
    fails: Vec<u64>,
}

impl Model for MemFiles {
    ghost use Rattle.hy_io.specs.Disk.{Disk};

    ghost Value = { Disk };

    ghost view = { λ m. record {
      files = m.files.items;
      absent_reads = m.absent_reads;
      absent_writes = m.absent_writes;
      calls = m.calls;
      fails = m.fails.items;
    } };
}

impl MemFiles {
    /// These files, of which calls with the numbers in `fails` fail. Of two files with one name the first counts.
    pub fn new(
        alloc: Global,
        files: Vec<(Text, Vec<u8>)>,
        fails: Vec<u64>,
    ) -> Result<MemFiles, Memory>
        ensures { IfOk result (λ disk. disk ≡ record {
          files = map handed files.items;
          absent_reads = 0;
          absent_writes = 0;
          calls = 0;
          fails = fails.items;
        }) }
    {
        let mut made = Vec::with_capacity(alloc, files.len())?;
        for (name, bytes) in files {
            made.push(File {
                name,
                bytes: Text::new(bytes),
                failed_reads: 0,
                failed_writes: 0,
            })?;
        }
        Ok(MemFiles {
            files: made,
            absent_reads: 0,
            absent_writes: 0,
            calls: 0,
            fails,
        })
    }
}

impl Files for MemFiles {
    ghost store = { λ disk. Some (held disk) };

    ghost failed_reads = { read_faults };

    ghost failed_writes = { write_faults };

    fn read(&mut self, alloc: Global, name: &str, max: usize) -> Result<Vec<u8>, FileError>
        ensures ok { IfOk result (λ bytes. option_map (take max) (readable self.old name.now) ≡ Some bytes.items) }
        ensures bound { IfOk result (λ bytes. vec_len bytes ≤ max) }
        ensures after { OnOk result (self.new ≡ after_call self.old) }
        ensures failed { IsErrOf result FileError.Failed → readable self.old name.now ≡ None }
        ensures after_failed { IsErrOf result FileError.Failed → self.new ≡ after_failed_read self.old name.now }
        ensures memory { IsErrOf result FileError.Memory → self.new ≡ self.old }
    {
        if !self.fails.contains(&self.calls) {
            let bytes = read_file(alloc, &self.files, name.as_bytes(), max)?;
            if let Some(bytes) = bytes {
                self.calls = next(self.calls);
                return Ok(bytes);
            }
        }
        if !count_failed_read(&mut self.files, name.as_bytes()) {
            self.absent_reads = next(self.absent_reads);
        }
        self.calls = next(self.calls);
        Err(FileError::Failed)
    }

    fn write(&mut self, alloc: Global, name: &str, bytes: &[u8]) -> Result<(), FileError>
        ensures ok { OnOk result (fails_now self.old ≡ false) }
        ensures after { OnOk result (self.new ≡ after_write self.old name.now bytes.now) }
        ensures failed { IsErrOf result FileError.Failed → fails_now self.old ≡ true }
        ensures after_failed { IsErrOf result FileError.Failed → self.new ≡ after_write self.old name.now bytes.now }
        ensures memory { IsErrOf result FileError.Memory → self.new ≡ self.old }
    {
        let fails = self.fails.contains(&self.calls);
        let fresh = File {
            name: Text::copy_of(alloc, name.as_bytes())?,
            bytes: Text::new(Vec::new(alloc)),
            failed_reads: self.absent_reads,
            failed_writes: self.absent_writes,
        };
        put(alloc, &mut self.files, fresh, bytes, fails)?;
        self.calls = next(self.calls);
        if fails {
            Err(FileError::Failed)
        } else {
            Ok(())
        }
    }
}

/// A copy of the first `max` bytes of the file of this name, or of all if it has fewer; none where there is no file.
fn read_file(
    alloc: Global,
    files: &[File],
    name: &[u8],
    max: usize,
) -> Result<Option<Vec<u8>>, Memory>
    ensures value { IfOk result (λ found. option_map (λ bytes. bytes.items) found ≡ option_map (λ f. take max f.bytes) (file_named name.now files.now)) }
    ensures bound { IfOk result (λ found. IfSome found (λ bytes. vec_len bytes ≤ max)) }
{
    match place_of(files, name) {
        Some(place) => Ok(Some(first(alloc, files[place].bytes.as_bytes(), max)?)),
        None => Ok(None),
    }
}

/// Counts a failed read of the file of this name, and tells whether there is one.
fn count_failed_read(files: &mut [File], name: &[u8]) -> bool
    ensures files { files.new ≡ changed with_failed_read name.now files.old }
    ensures found { result ≡ is_some (file_named name.now files.old) }
{
    let Some(place) = place_of(files, name) else {
        return false;
    };
    let file = &mut files[place];
    file.failed_reads = next(file.failed_reads);
    true
}

/// Writes the bytes, or where the write fails the first half of them, to the file of the fresh file's name. Where there
/// is none it is the fresh one, put behind the others.
fn put(
    alloc: Global,
    files: &mut Vec<File>,
    mut fresh: File,
    bytes: &[u8],
    fails: bool,
) -> Result<(), Memory>
    ensures ok { OnOk result (files.new.items ≡ put (rewritten bytes.now fails) fresh files.old.items) }
    ensures err { OnErr result (files.new.items ≡ files.old.items) }
{
    let kept = kept(alloc, bytes, fails)?;
    match place_of(files, fresh.name.as_bytes()) {
        Some(place) => rewrite(&mut files[place], kept, fails),
        None => {
            rewrite(&mut fresh, kept, fails);
            files.push(fresh)?;
        }
    }
    Ok(())
}

/// What a write leaves of these bytes: all of them, or the first half where it fails.
fn kept(alloc: Global, bytes: &[u8], fails: bool) -> Result<Text, Memory>
    ensures { IfOk result (λ text. text ≡ (if fails then take (length bytes.now / 2) bytes.now else bytes.now)) }
{
    if fails {
        Text::copy_of(alloc, &bytes[..bytes.len() / 2])
    } else {
        Text::copy_of(alloc, bytes)
    }
}

/// Makes the file hold these bytes, and counts the fault if it is one.
fn rewrite(file: &mut File, bytes: Text, fails: bool)
    ensures name { file.new.name ≡ file.old.name }
    ensures bytes { file.new.bytes ≡ bytes }
    ensures reads { file.new.failed_reads ≡ file.old.failed_reads }
    ensures writes { file.new.failed_writes ≡ (if fails then next_count file.old.failed_writes else file.old.failed_writes) }
{
    file.bytes = bytes;
    if fails {
        file.failed_writes = next(file.failed_writes);
    }
}

/// The place of the first file of this name.
fn place_of(files: &[File], name: &[u8]) -> Option<usize>
    ensures { MatchOption result (file_named name.now files.now ≡ None) (λ place. (place < length files.now) × FirstAt name.now files.now place) }
{
    for (place, file) in files.iter().enumerate() {
        if file.name.is(name) {
            return Some(place);
        }
    }
    None
}

/// A copy of the first `max` bytes, or of all if there are fewer.
fn first(alloc: Global, bytes: &[u8], max: usize) -> Result<Vec<u8>, Memory>
    ensures value { IfOk result (λ copy. copy.items ≡ take max bytes.now) }
    ensures bound { IfOk result (λ copy. vec_len copy ≤ max) }
{
    let length = bytes.len().min(max);
    let copy = Vec::from_slice(alloc, &bytes[..length])?;
    Ok(copy)
}
