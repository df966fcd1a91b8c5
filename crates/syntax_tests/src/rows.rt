//! Short texts with their trees or their first faults.

use crate::source::{Source, printed_text};
use crate::table::{COUNT, TABLE};
use std::alloc::Global;
use std::test::Fail;

/// Whether a fault is wanted.
fn is_fault(want: &str) -> bool {
    want.starts_with("Expected ") || want.starts_with("Construct ") || want.starts_with("Deep ")
}

/// A text whose lines end at each `$`.
fn lines_of(alloc: Global, text: &str) -> Result<String, Fail> {
    let mut lines = String::new(alloc);
    for (index, line) in text.split('$').enumerate() {
        if index > 0 {
            lines.push_str("\n")?;
        }
        lines.push_str(line)?;
    }
    Ok(lines)
}

/// What a row of a section gives, and what it should. A section's head has what stands around its texts and around their
/// trees in print; that of whole texts has nothing.
fn row(alloc: Global, head: &str, line: &str) -> Result<(String, String), Fail> {
    let (text, want) = line.split_once(" => ").ok_or("a text and its tree")?;
    let Some((around, print)) = head.split_once('@') else {
        let found = printed_text(alloc, lines_of(alloc, text)?.as_str())?;
        return Ok((found, String::from_str(alloc, want)?));
    };
    let around = around.split_once('|').ok_or("what stands around a text")?;
    let (before, after) = print.split_once('|').ok_or("what stands around a tree")?;
    let found = Source::new(alloc, around, text)?.printed(alloc)?;
    if is_fault(want) {
        return Ok((found, String::from_str(alloc, want)?));
    }
    Ok((found, format!(in alloc; "{before}{want}{after}")?))
}

#[test]
fn texts_have_these_trees_or_faults(rt: HostRuntime) -> Result<(), Fail> {
    let mut head = "";
    let mut count = 0u32;
    for line in TABLE.lines() {
        match line.strip_prefix('@') {
            Some(new) => head = new,
            None => {
                let (found, want) = row(rt.alloc(), head, line)?;
                assert_eq!(rt; found, want, "{line}");
                count = count.saturating_add(1);
            }
        }
    }
    assert_eq!(rt; count, COUNT);
    Ok(())
}
