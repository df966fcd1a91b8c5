ghost use Rattle.std.specs.Prelude.{◌<◌, ◌^◌, length};

use crate::table::{ROWS, TEXTS};
use c_lex::{LexFault, LexKind, tokens};
use c_tree::{Place, Token, TokenKind};
use std::alloc::Global;
use std::test::Fail;

/// A token in print.
fn printed_token(alloc: Global, token: &Token) -> Result<String, Fail> {
    let Place { line, column } = token.place;
    let kind = token.kind;
    let text = str::from_utf8(token.text.as_bytes())?;
    match kind {
        TokenKind::End => Ok(format!(in alloc; "{line}:{column} End")?),
        TokenKind::Integer | TokenKind::Character | TokenKind::Bound => {
            let number = token.number;
            let scalar = token.scalar;
            Ok(format!(in alloc; "{line}:{column} {kind:?} {text} {number} {scalar:?}  ")?)
        }
        _ => Ok(format!(in alloc; "{line}:{column} {kind:?} {text}  ")?),
    }
}

/// The tokens of a text in print, or its fault.
fn printed(alloc: Global, text: &[u8]) -> Result<String, Fail>
    requires { length text.now < 2 ^ 31 }
{
    let found = match tokens(alloc, text) {
        Ok(found) => found,
        Err(LexFault { kind, place }) => {
            let Place { line, column } = place;
            return Ok(format!(in alloc; "{kind:?} {line}:{column}")?);
        }
    };
    let mut all = String::new(alloc);
    for token in found.as_slice() {
        let token = printed_token(alloc, token)?;
        all.push_str(token.as_str())?;
    }
    Ok(all)
}

/// The bytes of a text of the table.
fn bytes_of(alloc: Global, text: &str) -> Result<Vec<u8>, Fail> {
    let mut bytes = Vec::new(alloc);
    for (index, part) in text.split('~').enumerate() {
        if index == 0 {
            bytes.extend_from_slice(part.as_bytes())?;
        } else {
            let (code, rest) = part.split_at_checked(2).ok_or("two digits")?;
            bytes.push(u8::from_str_radix(code, 16)?)?;
            bytes.extend_from_slice(rest.as_bytes())?;
        }
    }
    Ok(bytes)
}

#[test]
fn texts_have_these_tokens_or_faults(rt: HostRuntime) -> Result<(), Fail> {
    let mut rows = 0u32;
    for line in TEXTS.lines() {
        let (text, want) = line.split_once(" => ").ok_or("a text and its tokens")?;
        let text = bytes_of(rt.alloc(), text)?;
        assert!(rt; text.len() < 1000);
        let want = bytes_of(rt.alloc(), want)?;
        assert_eq!(rt;
            printed(rt.alloc(), &text)?.as_bytes(),
            want.as_slice(),
            "{line}"
        );
        rows = rows.saturating_add(1);
    }
    assert_eq!(rt; rows, ROWS);
    Ok(())
}

/// A macro of 1000 tokens, and so many uses of it on the next line.
fn uses(alloc: Global, count: u32) -> Result<String, Fail> {
    let mut text = String::from_str(alloc, "#define M ")?;
    for _ in 0..1000 {
        text.push_str(";")?;
    }
    text.push_str("\n")?;
    for _ in 0..count {
        text.push_str("M ")?;
    }
    Ok(text)
}

#[test]
fn more_than_2_to_the_20_tokens_are_too_many(rt: HostRuntime) -> Result<(), Fail> {
    let alloc = rt.alloc();
    let most = uses(alloc, 1047)?;
    assert!(rt; most.len() < 10000);
    let found = tokens(alloc, most.as_bytes());
    assert_eq!(rt;
        found.ok().map(|found| found.as_slice().len()),
        Some(1_047_001)
    );
    let more = uses(alloc, 1048)?;
    assert!(rt; more.len() < 10000);
    let fault = LexFault {
        kind: LexKind::Tokens,
        place: Place {
            line: 2,
            column: 2095,
        },
    };
    assert!(rt; tokens(alloc, more.as_bytes()).err() == Some(fault));
    Ok(())
}

/// The text `first`, and after it `part` as often as it fits into 2^20 bytes.
fn long_text(alloc: Global, first: &str, part: &str) -> Result<String, Fail> {
    let mut text = String::from_str(alloc, first)?;
    let times = (0x10_0000usize.saturating_sub(first.len()))
        .checked_div(part.len())
        .unwrap_or(0);
    for _ in 0..times {
        text.push_str(part)?;
    }
    Ok(text)
}

#[test]
fn the_longest_source_is_scanned_once(rt: HostRuntime) -> Result<(), Fail> {
    let alloc = rt.alloc();
    for (first, part, kind, column) in [
        // no string ends on the line, wherever it begins
        ("\"", "\\\"", LexKind::BadLiteral, 1),
        ("a\"", "\\\"", LexKind::BadLiteral, 2),
        ("", "'", LexKind::BadLiteral, 1),
        // each third opening closes a comment, and leaves a mark; the last comment stays open
        ("", "/*", LexKind::OpenComment, 1_048_573),
    ] {
        let text = long_text(alloc, first, part)?;
        assert!(rt; text.len() < 0x20_0000);
        let found = tokens(alloc, text.as_bytes()).err();
        let place = Place { line: 1, column };
        let expected = Some(LexFault { kind, place });
        assert!(rt; found == expected, "{first}{part}");
    }
    Ok(())
}

/// Macros of which each is twice the one before, up to 2^17 tokens, and `count` uses of the last.
fn nested_uses(alloc: Global, count: u32) -> Result<String, Fail> {
    let mut text = String::from_str(alloc, "#define A0 ;\n")?;
    for number in 1..=17u32 {
        let below = number.saturating_sub(1);
        text.push_str(format!(in alloc; "#define A{number} A{below} A{below}\n")?.as_str())?;
    }
    for _ in 0..count {
        text.push_str("A17 ")?;
    }
    Ok(text)
}

#[test]
fn nested_macros_are_replaced_up_to_the_limit(rt: HostRuntime) -> Result<(), Fail> {
    let alloc = rt.alloc();
    // the lists have 2^18 - 1 tokens, and each use 2^17
    let most = nested_uses(alloc, 6)?;
    assert!(rt; most.len() < 10000);
    let found = tokens(alloc, most.as_bytes()).ok();
    assert_eq!(rt; found.map(|found| found.as_slice().len()), Some(786_433));
    let more = nested_uses(alloc, 7)?;
    assert!(rt; more.len() < 10000);
    let place = Place {
        line: 19,
        column: 25,
    };
    let kind = LexKind::Tokens;
    assert!(rt; tokens(alloc, more.as_bytes()).err() == Some(LexFault { kind, place }));
    Ok(())
}
