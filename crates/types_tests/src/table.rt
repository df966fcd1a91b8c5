//! That typing says of each row's program what the row wants.

use crate::rows::ROWS;
use c_conversions::TypeKind;
use c_lex::tokens;
use c_meaning::TypedParts;
use c_programs::program_parts;
use c_syntax::parse;
use std::alloc::Global;
use std::test::Fail;

/// The name of a kind of fault.
fn name_of(kind: TypeKind) -> &'static str {
    match kind {
        TypeKind::Unknown => "Unknown",
        TypeKind::Twice => "Twice",
        TypeKind::Mismatch => "Mismatch",
        TypeKind::NotConstant => "NotConstant",
        TypeKind::NoBound => "NoBound",
        TypeKind::Recursion => "Recursion",
        TypeKind::PointerForm => "PointerForm",
        TypeKind::NoEntry => "NoEntry",
        TypeKind::Cells => "Cells",
        TypeKind::Unroll => "Unroll",
        TypeKind::Memory => "Memory",
    }
}

/// The sizes of a typed program.
fn sizes_of(alloc: Global, parts: &TypedParts) -> Result<String, Fail> {
    let objects = parts.objects.len();
    let functions = parts.functions.len();
    let ports = parts.ports.len();
    let TypedParts {
        visits,
        nodes,
        gates,
        cells,
        ..
    } = parts;
    Ok(format!(in alloc; "ok {visits} {nodes} {gates} {cells} {objects} {functions} {ports}")?)
}

/// What typing says of a text, where `bound` is that of loops without one.
fn typing_of(alloc: Global, text: &str, bound: Option<u32>) -> Result<String, Fail> {
    if text.len() >= 1 << 31 {
        return Err("a shorter text".into());
    }
    let program = parse(alloc, &tokens(alloc, text.as_bytes())?)?;
    match program_parts(alloc, &program, bound) {
        Ok(parts) => sizes_of(alloc, &parts),
        Err(fault) => {
            let name = name_of(fault.kind);
            let place = fault.place;
            Ok(format!(in alloc; "{name} {}:{}", place.line, place.column)?)
        }
    }
}

/// That typing says of a row's program what the row wants.
fn row_holds(alloc: Global, row: &str) -> Result<(), Fail> {
    let Some((head, text)) = row.split_once('\n') else {
        return Err("a row with a text".into());
    };
    let (bound, want) = match head.strip_prefix("bound 3: ") {
        Some(want) => (Some(3), want),
        None => (None, head),
    };
    let found = typing_of(alloc, text, bound)?;
    if found.as_str() == want {
        return Ok(());
    }
    Err(format!(in alloc; "{found}, and not {want}: {text}")?.into())
}

#[test]
fn short_programs_have_their_sizes_or_first_faults(rt: HostRuntime) -> Result<(), Fail> {
    let mut count = 0u32;
    for row in ROWS.split("\n@@ ") {
        row_holds(rt.alloc(), row)?;
        count = count.wrapping_add(1);
    }
    assert!(rt; count > 250);
    Ok(())
}
