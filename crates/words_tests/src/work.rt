ghost use Rattle.std.specs.Prelude.{◌≤◌};

use hy_bits::Memory;
use sha2::{Digest, Sha256};
use std::alloc::Global;
use std::test::Fail;
use work_gen::{Work, work};

/// Numbers, each with the SHA-256 of its source, the inputs of A and of B, and the table, as another program gives them for
/// files that were written by hand.
const DIGESTS: &str = "\
1 de81a197620f86596b85dc54e9a9852bc974187c342a63bc12883e6b0a1d0ae3 8e1bd87c9eacf17970d0d9deb31f6c3faa0bde71dcc075e5f2c3e9b6e6747aa5 \
b8c33cb8e37e622b23f68b575022cc99666b396d40df39711161765396c63fcd f92386fa68404b45fe2ac409066e1fb0d6c4d329d0e693f0da6d763d1c9c6d9c
256 48e5bf4020b6b3d1b6f8bbd7485f5e07409d2b887374b2e0f583cb208faf0a95 8701536d0037e6351b030cbc61cd0406c79e34da7242b5ae1d62a63820ba7bb1 \
b8c33cb8e37e622b23f68b575022cc99666b396d40df39711161765396c63fcd f92386fa68404b45fe2ac409066e1fb0d6c4d329d0e693f0da6d763d1c9c6d9c
";

/// The SHA-256 of a text, in hexadecimal.
fn digest(alloc: Global, text: &[u8]) -> Result<String, Fail> {
    Ok(hex::encode(alloc, Sha256::digest(text).as_slice())?)
}

/// The texts of a number, or that memory ran out.
fn work_of(alloc: Global, number: u32) -> Result<Work, Fail>
    requires least { 1 ≤ number }
    requires most { number ≤ 256 }
{
    match work(alloc, number) {
        Ok(work) => Ok(work),
        Err(Memory) => Err("memory".into()),
    }
}

#[test]
fn texts_have_these_digests(rt: HostRuntime) -> Result<(), Fail> {
    let alloc = rt.alloc();
    for row in DIGESTS.lines() {
        let (number, expected) = row.split_once(' ').ok_or("a number and digests")?;
        let number: u32 = number.parse()?;
        if number < 1 || number > 256 {
            return Err("a number of work".into());
        }
        let work = work_of(alloc, number)?;
        let source = digest(alloc, work.source.as_slice())?;
        let a = digest(alloc, work.a.as_slice())?;
        let b = digest(alloc, work.b.as_slice())?;
        let table = digest(alloc, work.table.as_slice())?;
        let found = format!(in alloc; "{source} {a} {b} {table}")?;
        assert_eq!(rt; found.as_str(), expected, "{number}");
    }
    Ok(())
}
