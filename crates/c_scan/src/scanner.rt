ghost use Rattle.std.specs.Prelude.{◌≡◌, ◌<◌, ◌≤◌, ◌+◌, ◌^◌, ℕ, true, Option, None, length, drop, false, IfOk, IsTrue};
ghost use Rattle.std.specs.List.{list_all};
ghost use Rattle.c_scan.specs.Pieces.{word_front as front_of_word, number_front as front_of_number, string_piece as piece_of_string, plain_token as token_of_kind, cut_of, Cut};
ghost use Rattle.c_scan.specs.Spelled.{begins_number as begins_a_number};
ghost use Rattle.c_scan.specs.Lengths.{constant_front as front_of_character, quoted_front as front_of_string, marked_front as front_of_mark, mark_length as length_of_mark, closed_front as front_of_block, front_at, string_length as length_of_string, block_length as length_of_block, AreEndless};
ghost use Rattle.c_scan.specs.Literals.{character_of as character_at};
ghost use Rattle.c_scan.specs.Places.{AreSpelled};
ghost use Rattle.c_scan.specs.Good.{is_good};

use crate::bytes::{is_blank, is_digit, is_letter};
use crate::literal::{character_of, integer_of};
use crate::piece::{Front, Piece, Scan};
use crate::place::{after, further};
use crate::spelling::{
    accepted_length, block_length, line_length, number_length, string_length, word_length,
};
use crate::words::{is_reserved, mark_length};
use c_tree::{Place, Token, TokenKind};
use hy_bits::{Memory, Scalar, Text};
use std::alloc::Global;

/// The pieces of a text of fewer than 2^31 bytes. The time is linear in the text, whatever it is: a line is searched for a
/// string's end once past the first string that has none.
///
/// # Errors
///
/// Memory ran out.
pub fn scan(alloc: Global, text: &[u8]) -> Result<Scan, Memory>
    requires { length text.now < 2 ^ 31 }
    // The pieces are those of the definition, each the longest that begins at its place.
    ensures pieces { IfOk result (λ scan. record { pieces = scan.pieces.items; unclosed = scan.unclosed; end = scan.end } ≡ cut_of text.now) }
    // The tokens among them are as those of a list of tokens must be.
    ensures tokens { IfOk result (λ scan. list_all is_good scan.pieces.items ≡ true) }
    // Each stands in the text at its place, byte by byte.
    ensures spelled { IfOk result (λ scan. AreSpelled text.now scan.pieces.items) }
{
    cut(alloc, text)
}

/// The pieces, by the definition alone.
fn cut(alloc: Global, text: &[u8]) -> Result<Scan, Memory>
    requires { length text.now < 2 ^ 31 }
    ensures pieces { IfOk result (λ scan. record { pieces = scan.pieces.items; unclosed = scan.unclosed; end = scan.end } ≡ cut_of text.now) }
{
    let mut pieces = Vec::new(alloc);
    let mut place = Place { line: 1, column: 1 };
    let mut inside = 0;
    let mut endless = 0;
    for (index, byte) in text.iter().enumerate() {
        if inside > 0 {
            inside -= 1;
        } else {
            endless = endless_from(text, index, endless);
            match front_of(alloc, place, &text[index..], index < endless)? {
                Front::Blank(count) => inside = count.saturating_sub(1),
                Front::Piece(piece, count) => {
                    pieces.push(piece)?;
                    inside = count.saturating_sub(1);
                }
                Front::Unclosed => {
                    return Ok(Scan {
                        pieces,
                        unclosed: Some(place),
                        end: place,
                    });
                }
            }
        }
        place = after(place, *byte);
    }
    Ok(Scan {
        pieces,
        unclosed: None,
        end: place,
    })
}

/// Up to where no string that begins at `index` or after it ends on its line, where that is known up to `endless`. A
/// string is searched only where nothing is known of its quote, so a line is searched once past its first string without
/// an end.
fn endless_from(text: &[u8], index: usize, endless: usize) -> usize
    requires within { index < length text.now }
    requires known { AreEndless text.now index endless }
    ensures { AreEndless text.now index result }
{
    if endless <= index && text[index] == b'"' {
        index + endless_length(&text[index..])
    } else {
        endless
    }
}

/// The bytes up to the line's end of a text that begins with a string without an end, and 0 where its string ends.
fn endless_length(text: &[u8]) -> usize
    ensures endless { AreEndless text.now 0 result }
    ensures within { result ≤ length text.now }
{
    match text {
        [_, rest @ ..] if string_length(rest).is_none() => line_length(text),
        _ => 0,
    }
}

/// What a text, of which this place is the first byte's, begins with. A string that it begins with is known not to end on
/// its line where `endless` is true.
fn front_of(alloc: Global, place: Place, text: &[u8], endless: bool) -> Result<Front, Memory>
    requires column { place.column + length text.now < 2 ^ 32 }
    requires endless { IsTrue endless → AreEndless text.now 0 1 }
    ensures { IfOk result (λ front. front ≡ front_at place text.now) }
{
    let Some(byte) = text.first() else {
        return Ok(Front::Blank(1));
    };
    let byte = *byte;
    if byte == b'\n' {
        Ok(Front::Piece(Piece::Line, 1))
    } else if is_blank(byte) {
        Ok(Front::Blank(1))
    } else if text.starts_with(b"//") {
        Ok(Front::Blank(line_length(text)))
    } else if text.starts_with(b"/*") {
        Ok(block_front(&text[2..]))
    } else if is_letter(byte) {
        word_front(alloc, place, &text[..word_length(text)])
    } else if begins_number(text) {
        number_front(alloc, place, &text[..number_length(text)])
    } else if byte == b'\'' {
        character_front(alloc, place, text)
    } else if byte == b'"' {
        string_front(alloc, place, text, endless)
    } else if byte == b'#' {
        Ok(Front::Piece(Piece::Hash(place), 1))
    } else {
        mark_front(alloc, place, text)
    }
}

/// A block comment whose bytes after its opening begin this text.
fn block_front(text: &[u8]) -> Front
    ensures { result ≡ front_of_block (length_of_block false text.now) }
{
    match block_length(text) {
        Some(following) => Front::Blank(2 + following),
        None => Front::Unclosed,
    }
}

/// Whether a text begins with a digit, or with a point and a digit.
fn begins_number(text: &[u8]) -> bool
    ensures { result ≡ begins_a_number text.now }
{
    match text {
        [first, second, ..] => is_digit(*first) || (*first == b'.' && is_digit(*second)),
        [first] => is_digit(*first),
        [] => false,
    }
}

/// A whole name or reserved word.
fn word_front(alloc: Global, place: Place, word: &[u8]) -> Result<Front, Memory>
    ensures { IfOk result (λ front. front ≡ front_of_word place word.now) }
{
    let kind = if is_reserved(word) {
        TokenKind::Word
    } else {
        TokenKind::Name
    };
    let token = plain_token(alloc, kind, place, word)?;
    Ok(Front::Piece(Piece::Token(token), word.len()))
}

/// A whole number.
fn number_front(alloc: Global, place: Place, number: &[u8]) -> Result<Front, Memory>
    ensures { IfOk result (λ front. front ≡ front_of_number place number.now) }
{
    match integer_of(number) {
        Some((value, scalar)) => {
            let token = Token {
                kind: TokenKind::Integer,
                text: Text::copy_of(alloc, number)?,
                number: value,
                scalar,
                place,
            };
            Ok(Front::Piece(Piece::Token(token), number.len()))
        }
        None => Ok(Front::Piece(Piece::BadLiteral(place), number.len())),
    }
}

/// What a text begins with whose first byte is a `'`.
fn character_front(alloc: Global, place: Place, text: &[u8]) -> Result<Front, Memory>
    ensures { IfOk result (λ front. front ≡ front_of_character place text.now (character_at text.now)) }
{
    match character_of(text) {
        Some((value, count)) => {
            let token = Token {
                kind: TokenKind::Character,
                text: Text::copy_of(alloc, &text[..count])?,
                number: u64::from(value),
                scalar: Scalar::S32,
                place,
            };
            Ok(Front::Piece(Piece::Token(token), count))
        }
        None => Ok(Front::Piece(Piece::BadLiteral(place), 1)),
    }
}

/// What a text begins with whose first byte is a `"`, which is known not to be closed on its line where `endless` is true.
fn string_front(alloc: Global, place: Place, text: &[u8], endless: bool) -> Result<Front, Memory>
    requires some { 1 ≤ length text.now }
    requires column { place.column + length text.now < 2 ^ 32 }
    requires endless { IsTrue endless → length_of_string false (drop 1 text.now) ≡ None }
    ensures { IfOk result (λ front. front ≡ front_of_string place text.now (length_of_string false (drop 1 text.now))) }
{
    if endless {
        return Ok(Front::Piece(Piece::BadLiteral(place), 1));
    }
    match string_length(&text[1..]) {
        Some(following) => {
            let piece = string_piece(alloc, place, &text[..1 + following])?;
            Ok(Front::Piece(piece, 1 + following))
        }
        None => Ok(Front::Piece(Piece::BadLiteral(place), 1)),
    }
}

/// A whole string.
fn string_piece(alloc: Global, place: Place, string: &[u8]) -> Result<Piece, Memory>
    requires column { place.column + length string.now < 2 ^ 32 }
    ensures { IfOk result (λ piece. piece ≡ piece_of_string place string.now) }
{
    let accepted = accepted_length(string);
    if accepted < string.len() {
        return Ok(Piece::BadByte(further(place, accepted)));
    }
    let token = plain_token(alloc, TokenKind::Str, place, string)?;
    Ok(Piece::Token(token))
}

/// What a text begins with that begins with no word and no literal.
fn mark_front(alloc: Global, place: Place, text: &[u8]) -> Result<Front, Memory>
    ensures { IfOk result (λ front. front ≡ front_of_mark place text.now (length_of_mark text.now)) }
{
    let count = mark_length(text);
    if count == 0 {
        return Ok(Front::Piece(Piece::BadByte(place), 1));
    }
    let token = plain_token(alloc, TokenKind::Mark, place, &text[..count])?;
    Ok(Front::Piece(Piece::Token(token), count))
}

/// A token of this kind that is no literal.
fn plain_token(alloc: Global, kind: TokenKind, place: Place, text: &[u8]) -> Result<Token, Memory>
    ensures { IfOk result (λ token. token ≡ token_of_kind kind place text.now) }
{
    Ok(Token {
        kind,
        text: Text::copy_of(alloc, text)?,
        number: 0,
        scalar: Scalar::S32,
        place,
    })
}
