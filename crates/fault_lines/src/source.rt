//! Faults of sources.

ghost use Rattle.std.specs.Prelude.{◌≡◌, IfOk, string_bytes};
ghost use Rattle.fault_lines.specs.Faults as spec;
ghost use Rattle.fault_lines.specs.Faults.{IsLineOf};

use crate::text::text_of_bytes;
use c_conversions::{TypeFault, TypeKind};
use c_front::SourceFault;
use c_lex::{LexFault, LexKind};
use c_reader::SyntaxFault;
use c_tree::Place;
use command_io::{Line, Stop, quoted};
use hy_bits::{Memory, Text};
use std::alloc::Global;

/// The status and the line of the fault of a source.
///
/// # Errors
///
/// Memory ran out, now or as the fault tells.
pub fn source_fault(alloc: Global, fault: &SourceFault) -> Result<Line, Memory>
    ensures { IfOk result (λ line. IsLineOf (spec.source_code fault.now) (spec.source_line fault.now) line) }
{
    match fault {
        SourceFault::Lex(fault) => at_place(
            alloc,
            lexing_code(fault.kind),
            lexing_word(fault.kind),
            fault.place,
        ),
        SourceFault::Syntax(SyntaxFault::Expected(place)) => {
            at_place(alloc, 3, "Syntax.Expected", *place)
        }
        SourceFault::Syntax(SyntaxFault::Construct(word, place)) => construct(alloc, word, *place),
        SourceFault::Syntax(SyntaxFault::Deep(place)) => at_place(alloc, 5, "Limit.Deep", *place),
        SourceFault::Types(fault) => at_place(
            alloc,
            typing_code(fault.kind),
            typing_word(fault.kind),
            fault.place,
        ),
        SourceFault::Syntax(SyntaxFault::Memory) | SourceFault::Memory => Err(Memory),
    }
}

/// The status of a fault of tokens.
fn lexing_code(kind: LexKind) -> u8
    ensures { result ≡ spec.lexing_code kind }
{
    match kind {
        LexKind::Tokens => 5,
        _ => 3,
    }
}

/// The name of a fault of tokens.
fn lexing_word(kind: LexKind) -> &'static str
    ensures { result.now ≡ spec.lexing_word kind }
{
    match kind {
        LexKind::BadByte => "Lex.BadByte",
        LexKind::BadLiteral => "Lex.BadLiteral",
        LexKind::OpenComment => "Lex.OpenComment",
        LexKind::Directive => "Lex.Directive",
        LexKind::LateMacro => "Lex.LateMacro",
        LexKind::Tokens => "Limit.Tokens",
        LexKind::Memory => "Memory",
    }
}

/// The status of a fault of types.
fn typing_code(kind: TypeKind) -> u8
    ensures { result ≡ spec.typing_code kind }
{
    match kind {
        TypeKind::Cells | TypeKind::Unroll => 5,
        _ => 3,
    }
}

/// The name of a fault of types.
fn typing_word(kind: TypeKind) -> &'static str
    ensures { result.now ≡ spec.typing_word kind }
{
    match kind {
        TypeKind::Unknown => "Type.Unknown",
        TypeKind::Twice => "Type.Twice",
        TypeKind::Mismatch => "Type.Mismatch",
        TypeKind::NotConstant => "Type.NotConstant",
        TypeKind::NoBound => "Type.NoBound",
        TypeKind::Recursion => "Type.Recursion",
        TypeKind::PointerForm => "Type.PointerForm",
        TypeKind::NoEntry => "Type.NoEntry",
        TypeKind::Cells => "Limit.Cells",
        TypeKind::Unroll => "Limit.Unroll",
        TypeKind::Memory => "Memory",
    }
}

/// The line of a fault at a place.
fn at_place(alloc: Global, code: u8, word: &str, place: Place) -> Result<Line, Memory>
    ensures { IfOk result (λ line. IsLineOf code (spec.place_line word.now place) line) }
{
    let Place { line, column } = place;
    let text = format!(in alloc; "{{\"at\":[{line},{column}],\"fault\":\"{word}\"}}\n")?;
    Ok(Line { code, text })
}

/// The line of a construct that is left out.
fn construct(alloc: Global, word: &Text, place: Place) -> Result<Line, Memory>
    ensures { IfOk result (λ line. IsLineOf 4 (spec.construct_line word.now place) line) }
{
    let Place { line, column } = place;
    let word = quoted(alloc, text_of_bytes(word.as_bytes())?)?;
    let text = format!(in alloc;
        "{{\"at\":[{line},{column}],\"fault\":\"Construct\",\"word\":{word}}}\n"
    )?;
    Ok(Line { code: 4, text })
}
