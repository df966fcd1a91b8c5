//! Tokens that are tried in the place of a faulty one.

ghost use Rattle.std.specs.Prelude.{◌≡◌, ◌∷◌, [], IfOk};
ghost use Rattle.c_reader.specs.Samples as spec;

use c_tree::{Place, Token, TokenKind};
use hy_bits::{Memory, Scalar, Text};
use std::alloc::Global;

/// A token that may be tried: the name `x`, the number 1, `{` and `;`.
#[derive(Clone, Copy, Debug, PartialEq, Eq)]
pub enum Sample {
    Name,
    Number,
    Brace,
    Semicolon,
}

/// A token at the first place of a text.
fn token(alloc: Global, kind: TokenKind, text: &str, number: u64) -> Result<Token, Memory>
    ensures { IfOk result (λ t. t ≡ spec.token_of kind text.now number) }
{
    Ok(Token {
        kind,
        text: Text::copy_of(alloc, text.as_bytes())?,
        number,
        scalar: Scalar::S32,
        place: Place { line: 1, column: 1 },
    })
}

/// The end of a text.
pub fn end(alloc: Global) -> Result<Token, Memory>
    ensures { IfOk result (λ t. t ≡ spec.end_token) }
{
    token(alloc, TokenKind::End, "", 0)
}

impl Sample {
    /// The token itself.
    fn token(self, alloc: Global) -> Result<Token, Memory>
        ensures { IfOk result (λ t. t ≡ spec.sample_of self) }
    {
        match self {
            Sample::Name => token(alloc, TokenKind::Name, "x", 0),
            Sample::Number => token(alloc, TokenKind::Integer, "1", 1),
            Sample::Brace => token(alloc, TokenKind::Mark, "{", 0),
            Sample::Semicolon => token(alloc, TokenKind::Mark, ";", 0),
        }
    }

    /// The token and the end of a text after it.
    pub fn with_end(self, alloc: Global) -> Result<[Token; 2], Memory>
        ensures { IfOk result (λ tokens. tokens ≡ spec.sample_of self ∷ spec.end_token ∷ []) }
    {
        Ok([self.token(alloc)?, end(alloc)?])
    }
}
