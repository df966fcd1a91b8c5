//! The command `plain`.

use crate::plain_rows::{COUNT, ROWS};
use crate::runs::{command, files};
use std::alloc::{AllocError, Global};
use std::test::Fail;

/// The next part of a row, and what follows it.
fn part(row: &str) -> Result<(&str, &str), Fail> {
    Ok(row.split_once('`').ok_or("a part of a row")?)
}

#[test]
fn programs_run_as_c_says_and_first_faults_are_told(rt: HostRuntime) -> Result<(), Fail> {
    let alloc = rt.alloc();
    let mut count = 0u32;
    for row in ROWS.split('@') {
        let (name, rest) = part(row.trim_start())?;
        let (source, rest) = part(rest)?;
        let (a, rest) = part(rest)?;
        let (b, rest) = part(rest)?;
        let (more, rest) = part(rest)?;
        let (code, line) = part(rest)?;
        let words = format!(in alloc; "hycc|plain|s|a|b{more}")?;
        let done = command(alloc, words.as_str(), files(alloc, source, a, b, &[])?)?;
        assert_eq!(rt;
            format!(in alloc; "{}", done.code)?.as_str(),
            code,
            "{name}"
        );
        assert_eq!(rt;
            done.taken.as_slice(),
            format!(in alloc; "{line}\n")?.as_bytes(),
            "{name}"
        );
        count = count.saturating_add(1);
    }
    assert_eq!(rt; count, COUNT);
    Ok(())
}

#[test]
fn words_of_plain_that_are_none_are_refused(rt: HostRuntime) -> Result<(), Fail> {
    let alloc = rt.alloc();
    for words in [
        "hycc|plain|s|a",
        "hycc|plain|s|a|b|c",
        "hycc|plain|s|a|b|--bound",
        "hycc|plain|s|a|b|--bound|03",
        "hycc|plain|s|a|b|--bound|1048577",
        "hycc|plain|s|a|b|--layers|3",
    ] {
        let done = command(alloc, words, files(alloc, "", "", "", &[])?)?;
        assert_eq!(rt; done.code, 1, "{words}");
        assert_eq!(rt;
            done.taken.as_slice(),
            b"{\"fault\":\"Words\"}\n".as_slice()
        );
    }
    Ok(())
}

/// So many blanks.
fn blanks(alloc: Global, count: u32) -> Result<String, AllocError> {
    let mut text = String::new(alloc);
    for _ in 0..count {
        text.push(' ')?;
    }
    Ok(text)
}

#[test]
fn files_of_plain_that_fail_or_are_too_long_are_named_in_their_order(
    rt: HostRuntime,
) -> Result<(), Fail> {
    let alloc = rt.alloc();
    for (call, line) in [
        (0, "{\"fault\":\"FileFault\",\"name\":\"s\"}\n"),
        (1, "{\"fault\":\"FileFault\",\"name\":\"a\"}\n"),
        (2, "{\"fault\":\"FileFault\",\"name\":\"b\"}\n"),
    ] {
        let done = command(
            alloc,
            "hycc|plain|s|a|b",
            files(alloc, "", "", "", &[call])?,
        )?;
        assert_eq!(rt; done.code, 2);
        assert_eq!(rt; done.taken.as_slice(), line.as_bytes());
    }
    for (source, a, code, line) in [
        (
            0x10_0001,
            0x40_0001,
            3,
            "{\"fault\":\"TooLong\",\"name\":\"s\"}\n",
        ),
        (
            0x10_0000,
            0x40_0001,
            6,
            "{\"fault\":\"TooLong\",\"name\":\"a\"}\n",
        ),
        (
            0x10_0000,
            0x40_0000,
            3,
            "{\"at\":[1,1048577],\"fault\":\"Type.NoEntry\"}\n",
        ),
    ] {
        let source = blanks(alloc, source)?;
        let a = blanks(alloc, a)?;
        let files = files(alloc, source.as_str(), a.as_str(), "{}", &[])?;
        let done = command(alloc, "hycc|plain|s|a|b", files)?;
        assert_eq!(rt; done.code, code);
        assert_eq!(rt; done.taken.as_slice(), line.as_bytes());
    }
    Ok(())
}
