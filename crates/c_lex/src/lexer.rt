ghost use Rattle.std.specs.Prelude.{◌≡◌, ◌<◌, ◌≤◌, ◌^◌, ◌++◌, ◌∷◌, [], true, length, IfOk, IfErr, ◌≢◌, Ok, Err};
ghost use Rattle.std.specs.List.{list_all};
ghost use Rattle.c_lex.specs.Lines.{lines_of};
ghost use Rattle.c_lex.specs.Directives.{nothing_read, steps};
ghost use Rattle.c_lex.specs.Lexing.{tokens_of, end_token};
ghost use Rattle.c_lex.specs.Typedefs.{named};
ghost use Rattle.c_tree.specs.TokenLists.{is_inner};
ghost use Rattle.c_lex.specs.Answer.{Gives};
ghost use Rattle.c_lex.specs.Inner.{read_of};

use crate::fault::{LexFault, LexKind};
use crate::reader::Reader;
use crate::typedefs::name_types;
use c_scan::{Piece, scan};
use c_tree::{Place, Token, TokenKind, Tokens};
use hy_bits::{Scalar, Text};
use std::alloc::Global;

/// The tokens of the text `bytes`, of fewer than 2^31 bytes. The time is linear in the text, and in the tokens that are made with
/// the bytes of their texts; the memory is for both.
///
/// # Errors
///
/// The first fault of the text with its place, or want of memory, of which the place says nothing.
pub fn tokens(alloc: Global, bytes: &[u8]) -> Result<Tokens, LexFault>
    requires { length bytes.now < 2 ^ 31 }
    // The tokens are those that the definition gives the text.
    ensures ok { IfOk result (λ tokens. tokens_of bytes.now ≡ Ok tokens) }
    // A fault other than want of memory is the definition's, with its place.
    ensures fault { IfErr result (λ fault. fault.kind ≢ LexKind.Memory → tokens_of bytes.now ≡ Err fault) }
{
    let scan = scan(alloc, bytes)?;
    let reader = read(alloc, &scan.pieces)?;
    match scan.unclosed {
        Some(place) => Err(LexFault::new(LexKind::OpenComment, place)),
        None => closed(alloc, reader.made, scan.end),
    }
}

/// The tokens of all lines with the names of types, and the end.
fn closed(alloc: Global, mut made: Vec<Token>, end: Place) -> Result<Tokens, LexFault>
    requires inner { list_all is_inner made.items ≡ true }
    requires few { length made.items ≤ 2 ^ 20 }
    ensures ok { IfOk result (λ tokens. tokens ≡ named made.items ++ end_token end ∷ []) }
    ensures fault { IfErr result (λ fault. fault.kind ≡ LexKind.Memory) }
{
    name_types(alloc, &mut made)?;
    made.push(Token {
        kind: TokenKind::End,
        text: Text::new(Vec::new(alloc)),
        number: 0,
        scalar: Scalar::S32,
        place: end,
    })?;
    Ok(Tokens::new(made))
}

/// What the lines of a text make.
fn read(alloc: Global, pieces: &[Piece]) -> Result<Reader, LexFault>
    ensures { Gives read_of result (steps nothing_read (lines_of pieces.now)) }
{
    let mut reader = Reader::new(alloc);
    let mut start = 0;
    for (index, piece) in pieces.iter().enumerate() {
        if let Piece::Line = piece {
            reader = reader.line(alloc, &pieces[start..index])?;
            start = index + 1;
        }
    }
    reader.line(alloc, &pieces[start..])
}
