//! Commands over files in memory.

use hy_bits::{Memory, Text};
use hy_io::{MemFiles, MemSink};
use hycc_top::hycc;
use std::alloc::Global;

/// What a command did: its status and the bytes that the sink then held.
#[derive(Drop)]
pub struct Done {
    pub code: u8,
    pub taken: Vec<u8>,
}

/// The files `s`, `a` and `b`, of which the calls with these numbers fail.
pub fn files(
    alloc: Global,
    source: &str,
    a: &str,
    b: &str,
    fails: &[u64],
) -> Result<MemFiles, Memory> {
    let mut files = Vec::new(alloc);
    for (name, bytes) in [("s", source), ("a", a), ("b", b)] {
        files.push((
            Text::copy_of(alloc, name.as_bytes())?,
            Vec::from_slice(alloc, bytes.as_bytes())?,
        ))?;
    }
    MemFiles::new(alloc, files, Vec::from_slice(alloc, fails)?)
}

/// Runs these words, which bars part, over the files.
pub fn command(alloc: Global, words: &str, mut files: MemFiles) -> Result<Done, Memory> {
    let mut owned = Vec::new(alloc);
    for word in words.split('|') {
        owned.push(String::from_str(alloc, word)?)?;
    }
    let mut sink = MemSink::new(alloc, 4096, 7, Vec::new(alloc))?;
    let status = hycc(alloc, &owned, &mut files, &mut sink);
    Ok(Done {
        code: status.code,
        taken: Vec::from_slice(alloc, sink.taken())?,
    })
}
