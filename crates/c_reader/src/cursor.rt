ghost use Rattle.std.specs.Prelude.{◌≡◌, ◌<◌, ◌+◌, ◌^◌, true, false, ◌∷◌, ◌++◌, length, drop};
ghost use Rattle.c_tree.specs.TokenLists.{is_closed};
ghost use Rattle.c_reader.specs.Outcome.{Gives, sees, is_end};
ghost use Rattle.c_reader.specs.Reading.{take_as};

use crate::unread::Unread;
use c_tree::Token;
use std::marker::Model;

/// The tokens that are left of two slices, one after the other. The second serves to ask what would be read if other
/// tokens stood after the first.
#[derive(Drop)]
pub struct Cursor<'a> {
    tokens: &'a [Token],
    tail: &'a [Token],
    at: usize,
}

impl<'a> Model for Cursor<'a> {
    ghost use Rattle.std.specs.Prelude.{List};
    ghost use Rattle.c_tree.specs.declared.token.Token.{Token};

    ghost Value = { List Token };

    ghost use Rattle.c_reader.specs.Ahead.{tokens_left, IsAhead};

    ghost view = { tokens_left };

    ghost invariant = { IsAhead };
}

impl<'a> Cursor<'a> {
    /// All tokens of both slices.
    pub fn new(tokens: &'a [Token], tail: &'a [Token]) -> Cursor<'a>
        requires closed { is_closed (tokens.now ++ tail.now) ≡ true }
        requires few { length tokens.now + length tail.now < 2 ^ 64 }
        ensures { result ≡ tokens.now ++ tail.now }
    {
        Cursor {
            tokens,
            tail,
            at: 0,
        }
    }

    /// The next token.
    #[tactic(auto, using(crate::proofs::Advancing::split_after))]
    pub fn peek(&self) -> &'a Token
        ensures { self.now ≡ result.now ∷ drop 1 self.now }
    {
        if self.at < self.tokens.len() {
            &self.tokens[self.at]
        } else {
            &self.tail[self.at - self.tokens.len()]
        }
    }

    /// How many tokens are left.
    pub fn left(&self) -> usize
        ensures count { result ≡ length self.now }
        ensures closed { is_closed self.now ≡ true }
    {
        self.tokens.len() + self.tail.len() - self.at
    }

    /// Goes on after the next token, which isn't the end.
    #[tactic(auto, using(crate::proofs::Advancing::goes_on, crate::proofs::Advancing::drop_one))]
    fn advance(&mut self)
        requires { sees is_end self.old ≡ false }
        ensures { self.new ≡ drop 1 self.old }
    {
        self.at += 1;
    }

    /// Takes the next token, if it fits and a level of nesting is left.
    pub fn take(&mut self, fits: bool, left: u32) -> Result<(), Unread>
        requires { fits ≡ true → sees is_end self.old ≡ false }
        ensures { Gives (take_as (λ _. fits) (λ _. tt) left self.old) result self.new }
    {
        // That a token is left is what the answers rest on.
        let _ = self.peek();
        if !fits {
            Err(Unread::Bad)
        } else if left == 0 {
            Err(Unread::Deep)
        } else {
            self.advance();
            Ok(())
        }
    }
}
