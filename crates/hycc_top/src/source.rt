ghost use Rattle.std.specs.Prelude.{◌≡◌, Some, None, IfOk, MatchOption};
ghost use Rattle.std.specs.Option.{option_copied, option_map};
ghost use Rattle.hycc_top.specs.Source.{head_of as head_of_tokens, expect as expect_text, parameter as parameter_with, opening as opening_of, body_opening as body_opening_of, term_of as term_of_token, terms_of, closes as closes_with, sum_of};

use c_tree::{Token, TokenKind};
use hy_bits::{Memory, Scalar, Text};
use std::alloc::Global;

/// The literals of a source are the numbers below this.
const LITERAL_END: u64 = 0x8000_0000;

/// A term of the sum.
#[derive(Clone, Copy, Debug, PartialEq, Eq)]
pub enum Term {
    /// The parameter of P0.
    A,
    /// The parameter of P1.
    B,
    /// A number below 2^31.
    Literal(u32),
}

/// What a source says: the names of its two parameters and the terms of the sum that it returns.
#[derive(Drop)]
pub struct Sum {
    pub a: Text,
    pub b: Text,
    pub terms: Vec<Term>,
}

/// What the tokens of a source say, or none where they are not of the form
/// `unsigned mpc_main(unsigned INPUT_A.., unsigned INPUT_B..) { return T + T + .. ; }`. It takes time linear in the
/// tokens.
pub fn sum_of(alloc: Global, tokens: &[Token]) -> Result<Option<Sum>, Memory>
    ensures { IfOk result (λ found. option_map (λ s. record { a = s.a; b = s.b; terms = s.terms.items }) found ≡ sum_of tokens.now) }
{
    let Some(head) = head_of(tokens) else {
        return Ok(None);
    };
    let Some(terms) = terms(alloc, head)? else {
        return Ok(None);
    };
    Ok(Some(Sum {
        a: Text::copy_of(alloc, head.a)?,
        b: Text::copy_of(alloc, head.b)?,
        terms,
    }))
}

/// The names of the two parameters, and the tokens behind `return`.
#[derive(Clone, Copy)]
struct Head<'a> {
    a: &'a [u8],
    b: &'a [u8],
    body: &'a [Token],
}

fn head_of(tokens: &[Token]) -> Option<Head<'_>>
    ensures { option_map (λ h. record { a = h.a.now; b = h.b.now; body = h.body.now }) result ≡ head_of_tokens tokens.now }
{
    let (a, tokens) = parameter(opening(tokens)?, b"INPUT_A")?;
    let (b, tokens) = parameter(expect(tokens, b",")?, b"INPUT_B")?;
    let body = body_opening(tokens)?;
    Some(Head { a, b, body })
}

/// The tokens behind `unsigned mpc_main (`.
fn opening(tokens: &[Token]) -> Option<&[Token]>
    ensures { option_copied result ≡ opening_of tokens.now }
{
    let tokens = expect(tokens, b"unsigned")?;
    let tokens = expect(tokens, b"mpc_main")?;
    expect(tokens, b"(")
}

/// The tokens behind `) { return`.
fn body_opening(tokens: &[Token]) -> Option<&[Token]>
    ensures { option_copied result ≡ body_opening_of tokens.now }
{
    let tokens = expect(tokens, b")")?;
    let tokens = expect(tokens, b"{")?;
    expect(tokens, b"return")
}

/// The name of a parameter, which begins so, and the tokens behind it.
fn parameter<'a>(tokens: &'a [Token], prefix: &[u8]) -> Option<(&'a [u8], &'a [Token])>
    ensures { option_map (λ pair. (pair.0.now, pair.1.now)) result ≡ parameter_with prefix.now tokens.entry.now }
{
    let tokens = expect(tokens, b"unsigned")?;
    match tokens {
        [name, rest @ ..] if name.text.as_bytes().starts_with(prefix) => Some((
            name.text.as_bytes(),
            rest,
        )),
        _ => None,
    }
}

/// The tokens behind a token of this text.
fn expect<'a>(tokens: &'a [Token], text: &[u8]) -> Option<&'a [Token]>
    ensures { option_copied result ≡ expect_text text.now tokens.entry.now }
{
    match tokens {
        [token, rest @ ..] if token.text.is(text) => Some(rest),
        _ => None,
    }
}

/// The terms of `T + T + .. ; }`.
fn terms(alloc: Global, head: Head<'_>) -> Result<Option<Vec<Term>>, Memory>
    ensures { IfOk result (λ found. option_map (λ terms. terms.items) found ≡ terms_of head.entry.a.now head.entry.b.now head.entry.body.now) }
{
    let mut terms = Vec::new(alloc);
    let mut tokens = head.body;
    while let [token, next, rest @ ..] = tokens {
        let Some(term) = term_of(head.a, head.b, token) else {
            return Ok(None);
        };
        terms.push(term)?;
        if next.text.is(b"+") {
            tokens = rest;
        } else if next.text.is(b";") && closes(rest) {
            return Ok(Some(terms));
        } else {
            return Ok(None);
        }
    }
    Ok(None)
}

/// One term: the first parameter's name, the second's, or a literal.
fn term_of(a: &[u8], b: &[u8], token: &Token) -> Option<Term>
    ensures { result ≡ term_of_token a.now b.now token.now }
{
    if token.text.is(a) {
        Some(Term::A)
    } else if token.text.is(b) {
        Some(Term::B)
    } else if token.kind == TokenKind::Integer
        && token.scalar == Scalar::S32
        && token.number < LITERAL_END
    {
        Some(Term::Literal(token.number as u32))
    } else {
        None
    }
}

/// Whether these tokens are `}` and the end of the text.
fn closes(tokens: &[Token]) -> bool
    ensures { result ≡ closes_with tokens.now }
{
    match tokens {
        [token, end] => token.text.is(b"}") && end.kind == TokenKind::End,
        _ => false,
    }
}
