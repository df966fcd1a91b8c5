//! What single tokens are.

ghost use Rattle.std.specs.Prelude.{◌≡◌, map};
ghost use Rattle.c_reader.specs.Tokens as spec;

use c_tree::{Token, TokenKind};

/// Whether a token is of this kind.
#[tactic(auto, unfolding(crate::specs::Tokens::is_kind))]
pub fn is_kind(kind: TokenKind, token: &Token) -> bool
    ensures { result ≡ spec.is_kind kind token.now }
{
    token.kind == kind
}

/// Whether a token is of this kind and spelled so.
#[tactic(auto, unfolding(crate::specs::Tokens::is_spelled))]
fn is_spelled(kind: TokenKind, text: &str, token: &Token) -> bool
    ensures { result ≡ spec.is_spelled kind text.now token.now }
{
    is_kind(kind, token) && token.text.is(text.as_bytes())
}

/// Whether a token is this mark.
pub fn is_mark(text: &str, token: &Token) -> bool
    ensures { result ≡ spec.is_mark text.now token.now }
{
    is_spelled(TokenKind::Mark, text, token)
}

/// Whether a token is this reserved word.
pub fn is_word(text: &str, token: &Token) -> bool
    ensures { result ≡ spec.is_word text.now token.now }
{
    is_spelled(TokenKind::Word, text, token)
}

/// What a table has for a text: the first entry that is spelled so.
#[tactic(auto, unfolding(crate::specs::Tokens::found_in))]
pub fn found_in<T: Copy>(entries: &[(&str, T)], text: &[u8]) -> Option<T>
    ensures { result ≡ spec.found_in (map (λ e. (e.0.now, e.1)) entries.now) text.now }
{
    for (spelling, value) in entries {
        if text == spelling.as_bytes() {
            return Some(*value);
        }
    }
    None
}

/// What a table has for the text of a token of a kind.
#[tactic(auto, unfolding(crate::specs::Tokens::found_of))]
pub fn found_of<T: Copy>(kind: TokenKind, entries: &[(&str, T)], token: &Token) -> Option<T>
    ensures { result ≡ spec.found_of kind (map (λ e. (e.0.now, e.1)) entries.now) token.now }
{
    if is_kind(kind, token) {
        found_in(entries, token.text.as_bytes())
    } else {
        None
    }
}
