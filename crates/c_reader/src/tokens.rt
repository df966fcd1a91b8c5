//! What the next token is, and the readers of one token.

ghost use Rattle.std.specs.Prelude.{◌≡◌, IfOk};
ghost use Rattle.c_reader.specs.Outcome.{Gives, sees};
ghost use Rattle.c_reader.specs.Tokens as spec;

use crate::cursor::Cursor;
use crate::tables::{is_kind, is_mark, is_word};
use crate::unread::Unread;
use c_tree::{Identifier, Place, Token, TokenKind};
use hy_bits::{Memory, Text};
use std::alloc::Global;

impl<'a> Cursor<'a> {
    /// Whether the next token is of this kind.
    pub fn sees_kind(&self, kind: TokenKind) -> bool
        ensures { result ≡ sees (spec.is_kind kind) self.now }
    {
        is_kind(kind, self.peek())
    }

    /// Whether the next token is this mark.
    pub fn sees_mark(&self, text: &str) -> bool
        ensures { result ≡ sees (spec.is_mark text.now) self.now }
    {
        is_mark(text, self.peek())
    }

    /// Whether the next token is this reserved word.
    pub fn sees_word(&self, text: &str) -> bool
        ensures { result ≡ sees (spec.is_word text.now) self.now }
    {
        is_word(text, self.peek())
    }

    /// Takes a mark.
    pub fn mark(&mut self, text: &str, left: u32) -> Result<(), Unread>
        ensures { Gives (spec.read_mark text.now left self.old) result self.new }
    {
        let token = self.peek();
        self.take(is_mark(text, token), left)?;
        Ok(())
    }

    /// Takes a mark, and tells its place.
    pub fn mark_at(&mut self, text: &str, left: u32) -> Result<Place, Unread>
        ensures { Gives (spec.read_mark_at text.now left self.old) result self.new }
    {
        let token = self.peek();
        self.take(is_mark(text, token), left)?;
        Ok(token.place)
    }

    /// Takes a reserved word.
    pub fn word(&mut self, text: &str, left: u32) -> Result<(), Unread>
        ensures { Gives (spec.read_word text.now left self.old) result self.new }
    {
        let token = self.peek();
        self.take(is_word(text, token), left)?;
        Ok(())
    }

    /// Takes a reserved word, and tells its place.
    pub fn word_at(&mut self, text: &str, left: u32) -> Result<Place, Unread>
        ensures { Gives (spec.read_word_at text.now left self.old) result self.new }
    {
        let token = self.peek();
        self.take(is_word(text, token), left)?;
        Ok(token.place)
    }

    /// Takes a name that no `typedef` declares.
    pub fn name(&mut self, alloc: Global, left: u32) -> Result<Identifier, Unread>
        ensures { Gives (spec.read_name left self.old) result self.new }
    {
        let token = self.peek();
        self.take(is_kind(TokenKind::Name, token), left)?;
        Ok(named(alloc, token)?)
    }

    /// Takes a name that a `typedef` declares.
    pub fn type_name(&mut self, alloc: Global, left: u32) -> Result<Identifier, Unread>
        ensures { Gives (spec.read_type_name left self.old) result self.new }
    {
        let token = self.peek();
        self.take(is_kind(TokenKind::TypeName, token), left)?;
        Ok(named(alloc, token)?)
    }
}

/// The name that a token is, with its place.
fn named(alloc: Global, token: &Token) -> Result<Identifier, Memory>
    ensures { IfOk result (λ name. name ≡ spec.named_of token.now) }
{
    let text = Text::copy_of(alloc, token.text.as_bytes())?;
    Ok(Identifier {
        place: token.place,
        text,
    })
}
