ghost use Rattle.std.specs.Prelude.{◌≡◌, ◌+◌, ◌<◌, ◌≤◌, ◌++◌, ◌^◌, length, None, OnOk, IsTrue};
ghost use Rattle.std.specs.Str.{bytes_eq};
ghost use Rattle.c_lex.specs.Names.{is_noted, noted_all, list_of};
ghost use Rattle.c_lex.specs.Macros.{moved, stands_for, replaced, names_of, first_fault as first_fault_of};
ghost use Rattle.c_lex.specs.Directives.{nothing_read, begins as begins_with, spells as spells_text, is_header as is_a_header, opens_at_once as opens_directly, define as define_by, defined as defined_by, bound as bound_by, pragma as pragma_by, directive as directive_by, plain as plain_by, with_bound as with_bound_of, unless_fault as unless_fault_of, step};
ghost use Rattle.c_lex.specs.Answer.{Gives};
ghost use Rattle.c_lex.specs.Inner.{read_of, put_after, filled};

use crate::fault::{LexFault, LexKind};
use crate::macros::Macros;
use crate::names::Names;
use c_scan::Piece;
use c_tree::{Place, Token, TokenKind};
use hy_bits::{Memory, Scalar, Text, decimal_number};
use std::alloc::Global;

/// The most tokens of a text and of its macros' lists together.
const MOST_TOKENS: usize = 0x10_0000;

/// The greatest number of a bound.
const GREATEST_BOUND: u64 = 0x10_0000;

/// What the lines so far have made.
#[derive(Drop)]
pub struct Reader {
    /// Their tokens.
    pub made: Vec<Token>,
    macros: Macros,
    /// The names that stood in a line or in a macro's list.
    seen: Names,
    /// How many tokens may follow.
    room: usize,
}

impl Reader {
    ghost use Rattle.std.specs.Prelude.{◌≡◌};
    ghost use Rattle.c_lex.specs.Directives.{nothing_read, define as define_by, defined as defined_by, bound as bound_by, pragma as pragma_by, directive as directive_by, plain as plain_by, with_bound as with_bound_of, unless_fault as unless_fault_of, step};
    ghost use Rattle.c_lex.specs.Answer.{Gives};
    ghost use Rattle.c_lex.specs.Inner.{read_of};

    /// Before the first line.
    pub fn new(alloc: Global) -> Reader
        ensures { read_of result ≡ nothing_read }
    {
        Reader {
            made: Vec::new(alloc),
            macros: Macros::new(alloc),
            seen: Names::new(alloc),
            room: MOST_TOKENS,
        }
    }

    /// After one more line.
    pub fn line(self, alloc: Global, line: &[Piece]) -> Result<Reader, LexFault>
        ensures { Gives read_of result (step (read_of self) line.now) }
    {
        match line {
            [] => Ok(self),
            [Piece::Hash(place), rest @ ..] => self.directive(alloc, *place, rest),
            _ => self.plain(alloc, line),
        }
    }

    /// After a line that is no directive.
    fn plain(self, alloc: Global, line: &[Piece]) -> Result<Reader, LexFault>
        ensures { Gives read_of result (plain_by (read_of self) line.now) }
    {
        let Reader {
            made,
            macros,
            mut seen,
            room,
        } = self;
        let (made, room) = replace(alloc, &macros, line, made, room)?;
        note_names(alloc, &mut seen, line)?;
        Ok(Reader {
            made,
            macros,
            seen,
            room,
        })
    }

    /// After a line that begins with a `#` at this place, from after it.
    fn directive(self, alloc: Global, place: Place, line: &[Piece]) -> Result<Reader, LexFault>
        ensures { Gives read_of result (directive_by (read_of self) place line.now) }
    {
        let [_, rest @ ..] = line else {
            return Ok(self);
        };
        if begins(line, b"include") {
            if is_header(rest) {
                Ok(self)
            } else {
                Err(LexFault::new(LexKind::Directive, place))
            }
        } else if begins(line, b"define") {
            self.define(alloc, place, rest)
        } else if begins(line, b"pragma") {
            self.pragma(alloc, place, rest)
        } else {
            Err(LexFault::new(LexKind::Directive, place))
        }
    }

    /// After a `#define`, from after that word.
    fn define(self, alloc: Global, place: Place, line: &[Piece]) -> Result<Reader, LexFault>
        ensures { Gives read_of result (define_by (read_of self) place line.now) }
    {
        match line {
            [Piece::Token(name), list @ ..]
                if name.kind == TokenKind::Name
                    && !opens_at_once(name, list)
                    && self.macros.list_of(name.text.as_bytes()).is_none() => {
                self.defined(alloc, name, list)
            }
            _ => Err(LexFault::new(LexKind::Directive, place)),
        }
    }

    /// After the definition of a name that has no list yet.
    fn defined(self, alloc: Global, name: &Token, list: &[Piece]) -> Result<Reader, LexFault>
        requires { list_of self.macros name.now.text ≡ None }
        ensures { Gives read_of result (defined_by (read_of self) name.now list.now) }
    {
        let Reader {
            made,
            mut macros,
            mut seen,
            room,
        } = self;
        if seen.has(name.text.as_bytes()) || has_name(list, name.text.as_bytes()) {
            return Err(LexFault::new(LexKind::LateMacro, name.place));
        }
        let (tokens, room) = replace(alloc, &macros, list, Vec::new(alloc), room)?;
        macros.define(alloc, name.text.as_bytes(), tokens)?;
        note_names(alloc, &mut seen, list)?;
        Ok(Reader {
            made,
            macros,
            seen,
            room,
        })
    }

    /// After a `#pragma`, from after that word.
    fn pragma(self, alloc: Global, place: Place, line: &[Piece]) -> Result<Reader, LexFault>
        ensures { Gives read_of result (pragma_by (read_of self) place line.now) }
    {
        if begins(line, b"bound") {
            self.bound(alloc, place, &line[1..])
        } else {
            self.unless_fault(first_fault(line))
        }
    }

    /// The fault, if there is one.
    fn unless_fault(self, found: Option<LexFault>) -> Result<Reader, LexFault>
        ensures { Gives read_of result (unless_fault_of (read_of self) found) }
    {
        match found {
            Some(LexFault { kind, place }) => Err(LexFault::new(kind, place)),
            None => Ok(self),
        }
    }

    /// After a `#pragma bound`, from after these words.
    fn bound(self, alloc: Global, place: Place, line: &[Piece]) -> Result<Reader, LexFault>
        ensures { Gives read_of result (bound_by (read_of self) place line.now) }
    {
        match line {
            [Piece::Token(token)] => match decimal_number(token.text.as_bytes()) {
                Some(number) if number <= GREATEST_BOUND => self.with_bound(
                    alloc,
                    place,
                    token.text.as_bytes(),
                    number,
                ),
                _ => Err(LexFault::new(LexKind::Directive, place)),
            },
            _ => Err(LexFault::new(LexKind::Directive, place)),
        }
    }

    /// After a bound of this number.
    fn with_bound(
        self,
        alloc: Global,
        place: Place,
        text: &[u8],
        number: u64,
    ) -> Result<Reader, LexFault>
        ensures { Gives read_of result (with_bound_of (read_of self) place text.now number self.room) }
    {
        let Reader {
            mut made,
            macros,
            seen,
            room,
        } = self;
        if room == 0 {
            return Err(LexFault::new(LexKind::Tokens, place));
        }
        made.push(Token {
            kind: TokenKind::Bound,
            text: Text::copy_of(alloc, text)?,
            number,
            scalar: Scalar::S32,
            place,
        })?;
        Ok(Reader {
            made,
            macros,
            seen,
            room: room - 1,
        })
    }
}

/// Puts the tokens that the pieces of a line stand for after others, and tells the room that is left. It takes time
/// linear in the pieces and in the tokens made.
fn replace(
    alloc: Global,
    macros: &Macros,
    pieces: &[Piece],
    mut out: Vec<Token>,
    mut room: usize,
) -> Result<(Vec<Token>, usize), LexFault>
    ensures { Gives (λ r. (r.0.items, r.1)) result (filled out.items room (replaced macros.now room pieces.now)) }
{
    for piece in pieces {
        match piece {
            Piece::Line => {}
            Piece::Token(token) => room = put(alloc, macros, token, &mut out, room)?,
            Piece::Hash(place) | Piece::BadByte(place) => {
                return Err(LexFault::new(LexKind::BadByte, *place));
            }
            Piece::BadLiteral(place) => {
                return Err(LexFault::new(LexKind::BadLiteral, *place));
            }
        }
    }
    Ok((out, room))
}

/// Puts the tokens that a token stands for after others, and tells the room that is left.
fn put(
    alloc: Global,
    macros: &Macros,
    token: &Token,
    out: &mut Vec<Token>,
    room: usize,
) -> Result<usize, LexFault>
    ensures { Gives (λ left. (out.new.items, left)) result (put_after out.old.items room token.now.place (stands_for macros.now token.now)) }
{
    if token.kind == TokenKind::Name {
        if let Some(list) = macros.list_of(token.text.as_bytes()) {
            return put_list(alloc, list, token.place, out, room);
        }
    }
    if room == 0 {
        return Err(LexFault::new(LexKind::Tokens, token.place));
    }
    out.push(token.copy_at(alloc, token.place)?)?;
    Ok(room - 1)
}

/// Puts a macro's list, used at this place, after others, and tells the room that is left.
fn put_list(
    alloc: Global,
    list: &[Token],
    place: Place,
    out: &mut Vec<Token>,
    room: usize,
) -> Result<usize, LexFault>
    ensures { Gives (λ left. (out.new.items, left)) result (put_after out.old.items room place (moved place list.now)) }
{
    if room < list.len() {
        return Err(LexFault::new(LexKind::Tokens, place));
    }
    copy_list(alloc, list, place, out)?;
    Ok(room - list.len())
}

/// Copies a list of tokens after others, all to this place.
fn copy_list(
    alloc: Global,
    list: &[Token],
    place: Place,
    out: &mut Vec<Token>,
) -> Result<(), Memory>
    ensures { OnOk result (out.new.items ≡ out.old.items ++ moved place list.now) }
{
    for token in list {
        out.push(token.copy_at(alloc, place)?)?;
    }
    Ok(())
}

/// Notes the names among pieces before the first fault.
fn note_names(alloc: Global, seen: &mut Names, pieces: &[Piece]) -> Result<(), Memory>
    ensures { OnOk result (seen.new ≡ noted_all seen.old (names_of pieces.now)) }
{
    for piece in pieces {
        match piece {
            Piece::Line => {}
            Piece::Token(token) => {
                if token.kind == TokenKind::Name {
                    seen.note(alloc, token.text.as_bytes())?;
                }
            }
            _ => return Ok(()),
        }
    }
    Ok(())
}

/// Whether this is a name among pieces before the first fault.
fn has_name(pieces: &[Piece], name: &[u8]) -> bool
    ensures { result ≡ is_noted (names_of pieces.now) name.now }
{
    for piece in pieces {
        match piece {
            Piece::Line => {}
            Piece::Token(token) => {
                if token.kind == TokenKind::Name && is(name, token.text.as_bytes()) {
                    return true;
                }
            }
            _ => return false,
        }
    }
    false
}

fn is(text: &[u8], other: &[u8]) -> bool
    ensures { result ≡ bytes_eq text.now other.now }
{
    text == other
}

/// The first fault among pieces.
fn first_fault(pieces: &[Piece]) -> Option<LexFault>
    ensures { result ≡ first_fault_of pieces.now }
{
    for piece in pieces {
        match piece {
            Piece::Line | Piece::Token(_) => {}
            Piece::Hash(place) | Piece::BadByte(place) => {
                return Some(LexFault::new(LexKind::BadByte, *place));
            }
            Piece::BadLiteral(place) => {
                return Some(LexFault::new(LexKind::BadLiteral, *place));
            }
        }
    }
    None
}

/// Whether a line's first token has this text.
fn begins(line: &[Piece], text: &[u8]) -> bool
    ensures value { result ≡ begins_with text.now line.now }
    ensures some { IsTrue result → 1 ≤ length line.now }
{
    match line {
        [Piece::Token(token), ..] => token.text.is(text),
        _ => false,
    }
}

/// Whether a `(` stands directly after a name.
fn opens_at_once(name: &Token, list: &[Piece]) -> bool
    ensures { result ≡ opens_directly name.now list.now }
{
    match list {
        [Piece::Token(token), ..] => {
            token.text.is(b"(")
                && token.place.line == name.place.line
                && u64::from(token.place.column)
                    == u64::from(name.place.column) + name.text.as_bytes().len() as u64
        }
        _ => false,
    }
}

/// Whether the pieces are one of the three headers that may be included.
fn is_header(pieces: &[Piece]) -> bool
    ensures { result ≡ is_a_header pieces.now }
{
    match pieces {
        [Piece::Token(token), ..] => {
            let line = token.place.line;
            let column = u64::from(token.place.column);
            spells(line, column, b"<stdint.h>", pieces)
                || spells(line, column, b"<inttypes.h>", pieces)
                || spells(line, column, b"<stdbool.h>", pieces)
        }
        _ => false,
    }
}

/// Whether pieces spell this text on this line from this column on, without a blank.
fn spells(line: u32, mut column: u64, mut text: &[u8], pieces: &[Piece]) -> bool
    requires { column + length text.now < 2 ^ 64 }
    ensures { result ≡ spells_text line column text.now pieces.now }
{
    for piece in pieces {
        match piece {
            Piece::Token(token)
                if token.place.line == line
                    && u64::from(token.place.column) == column
                    && text.starts_with(token.text.as_bytes()) => {
                let count = token.text.as_bytes().len();
                column += count as u64;
                text = &text[count..];
            }
            _ => return false,
        }
    }
    text.is_empty()
}
