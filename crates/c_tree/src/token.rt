ghost use Rattle.std.specs.Prelude.{◌≡◌, length, IfOk};
ghost use Rattle.c_tree.specs.TokenLists.{IsTokenList};

use hy_bits::{Memory, Scalar, Text};
use std::alloc::Global;
use std::marker::Model;

/// A place in a text: its line and its column, both counted from 1. A column counts bytes.
#[derive(Clone, Copy, Debug, PartialEq, Eq)]
pub struct Place {
    pub line: u32,
    pub column: u32,
}

/// What a token is.
#[derive(Clone, Copy, Debug, PartialEq, Eq)]
pub enum TokenKind {
    /// A reserved word.
    Word,
    /// A name that no `typedef` declares.
    Name,
    /// A name after the end of the `typedef` that declares it.
    TypeName,
    /// An integer literal.
    Integer,
    /// A character constant.
    Character,
    /// A string literal.
    Str,
    /// An operator or another mark.
    Mark,
    /// The bound of a loop, from a `#pragma bound` line.
    Bound,
    /// The end of the text.
    End,
}

/// A token. `text` has its bytes as they are spelled, quotes among them; that of a bound is its number's, that of the
/// end is empty. `number` is the value of a literal, as a word of its `scalar`, or of a bound; elsewhere it is 0, and
/// `scalar` is `S32` where the token is no literal. `place` is that of the first byte; a token that stands for a macro
/// has the place where the macro is used, a bound that of its line's `#`, and the end that after the last byte.
#[derive(Debug, Drop)]
pub struct Token {
    pub kind: TokenKind,
    pub text: Text,
    pub number: u64,
    pub scalar: Scalar,
    pub place: Place,
}

impl Token {
    /// A copy of the token that stands at this place.
    pub fn copy_at(&self, alloc: Global, place: Place) -> Result<Token, Memory>
        ensures { IfOk result (λ copy. copy ≡ record self.now { place = place }) }
    {
        let text = Text::copy_of(alloc, self.text.as_bytes())?;
        Ok(Token {
            kind: self.kind,
            text,
            number: self.number,
            scalar: self.scalar,
            place,
        })
    }
}

/// The tokens of a text in order, fewer than 2^32, of which the last, and no other, is the end. A name's text is a name
/// (C11 6.4.2.1), a literal's number is a word of its scalar, and a bound is at most 2^20.
#[derive(Debug, Drop)]
pub struct Tokens {
    list: Vec<Token>,
}

impl Model for Tokens {
    ghost use Rattle.std.specs.Prelude.{List};
    ghost use Rattle.c_tree.specs.declared.token.Token.{Token};
    ghost use Rattle.c_tree.specs.TokenLists.{IsTokenList};

    ghost Value = { List Token };

    ghost view = { λ t. t.list.items };

    ghost invariant = { λ t. IsTokenList t.list.items };
}

impl Tokens {
    /// The tokens of this list. It takes no memory.
    pub fn new(list: Vec<Token>) -> Tokens
        requires { IsTokenList list.items }
        ensures { result ≡ list.items }
    {
        Tokens { list }
    }

    /// The tokens in order.
    pub fn as_slice(&self) -> &[Token]
        ensures list { result.now ≡ self.now }
        ensures tokens { IsTokenList result.now }
    {
        self.list.as_slice()
    }

    /// The list of tokens, given back without taking memory.
    pub fn into_list(self) -> Vec<Token>
        ensures list { result.items ≡ self }
        ensures tokens { IsTokenList result.items }
    {
        self.list
    }
}
