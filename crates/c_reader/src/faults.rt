//! Faults of syntax.

ghost use Rattle.std.specs.Prelude.{◌≡◌, Bool, option_map, count_by, if◌then◌else◌, IfOk};
ghost use Rattle.c_reader.specs.Faults as spec;
ghost use Rattle.c_reader.specs.Faults.{AsksBy};
ghost use Rattle.c_reader.specs.Tokens.{is_mark as is_mark_of, found_of as spec_found_of};
ghost use Rattle.c_tree.specs.declared.token.TokenKind.{TokenKind};
ghost use Rattle.c_reader.specs.declared.samples.Sample.{Sample};

use crate::samples::Sample;
use crate::tables::{found_of, is_kind, is_mark, is_word};
use c_tree::{Place, Token, TokenKind};
use hy_bits::{Memory, Text};
use std::alloc::Global;

/// Why a list of tokens isn't parsed: at the place of the first token that can't be used something else is expected, or
/// it names a construct of C that is left out, by this word; or the token at the place is the first that is nested too
/// deeply; or memory ran out.
#[derive(Debug, Drop)]
pub enum SyntaxFault {
    Expected(Place),
    Construct(Text, Place),
    Deep(Place),
    Memory,
}

/// Words that name what is left out.
const LEFT_OUT_WORDS: [(&str, ()); 22] = [
    ("goto", ()),
    ("union", ()),
    ("float", ()),
    ("double", ()),
    ("volatile", ()),
    ("restrict", ()),
    ("register", ()),
    ("auto", ()),
    ("extern", ()),
    ("sizeof", ()),
    ("typedef", ()),
    ("static", ()),
    ("inline", ()),
    ("_Alignas", ()),
    ("_Alignof", ()),
    ("_Atomic", ()),
    ("_Complex", ()),
    ("_Generic", ()),
    ("_Imaginary", ()),
    ("_Noreturn", ()),
    ("_Static_assert", ()),
    ("_Thread_local", ()),
];

/// Marks that name what is left out.
const LEFT_OUT_MARKS: [(&str, ()); 19] = [
    ("...", ()),
    (",", ()),
    ("++", ()),
    ("--", ()),
    (":", ()),
    ("*", ()),
    (".", ()),
    ("{", ()),
    ("=", ()),
    ("*=", ()),
    ("/=", ()),
    ("%=", ()),
    ("+=", ()),
    ("-=", ()),
    ("<<=", ()),
    (">>=", ()),
    ("&=", ()),
    ("^=", ()),
    ("|=", ()),
];

/// What is left out by this word.
fn left_out_word(token: &Token) -> Option<()>
    ensures { result ≡ spec_found_of TokenKind.Word spec.left_out_words token.now }
{
    found_of(TokenKind::Word, LEFT_OUT_WORDS.as_slice(), token)
}

/// What is left out by this mark.
fn left_out_mark(token: &Token) -> Option<()>
    ensures { result ≡ spec_found_of TokenKind.Mark spec.left_out_marks token.now }
{
    found_of(TokenKind::Mark, LEFT_OUT_MARKS.as_slice(), token)
}

/// Whether a faulty token names what is left out, wherever it stands.
#[tactic(auto, unfolding(crate::specs::Faults::is_left_out))]
fn is_left_out(token: &Token) -> bool
    ensures { result ≡ spec.is_left_out token.now }
{
    is_kind(TokenKind::Str, token)
        || left_out_word(token).is_some()
        || left_out_mark(token).is_some()
}

/// The token that has so many after it.
#[tactic(auto, unfolding(crate::specs::Faults::back))]
fn back(tokens: &[Token], count: usize) -> Option<&Token>
    ensures { option_map (λ token. token.now) result ≡ spec.back count tokens.now }
{
    if count < tokens.len() {
        Some(&tokens[tokens.len() - 1 - count])
    } else {
        None
    }
}

/// Whether the token that has so many after it is this mark.
fn is_mark_back(tokens: &[Token], count: usize, text: &str) -> bool
    ensures { result ≡ spec.passes (is_mark_of text.now) (spec.back count tokens.now) }
{
    match back(tokens, count) {
        Some(token) => is_mark(text, token),
        None => false,
    }
}

/// Whether the last tokens are a pointer and the name that it declares.
#[tactic(auto, unfolding(crate::specs::Faults::ends_with_pointer))]
fn ends_with_pointer(tokens: &[Token]) -> bool
    ensures { result ≡ spec.ends_with_pointer tokens.now }
{
    let names = match back(tokens, 0) {
        Some(token) => is_kind(TokenKind::Name, token),
        None => false,
    };
    let constant = match back(tokens, 1) {
        Some(token) => is_word("const", token),
        None => false,
    };
    names && (is_mark_back(tokens, 1, "*") || (constant && is_mark_back(tokens, 2, "*")))
}

/// Whether a name after the token is a member's or a tag's.
#[tactic(auto, unfolding(crate::specs::Faults::names_other))]
fn names_other(token: &Token) -> bool
    ensures { result ≡ spec.names_other token.now }
{
    is_mark(".", token)
        || is_mark("->", token)
        || is_word("struct", token)
        || is_word("enum", token)
}

/// Whether a name after the tokens is a member's or a tag's.
fn ends_with_other(tokens: &[Token]) -> bool
    ensures { result ≡ spec.passes spec.names_other (spec.back 0 tokens.now) }
{
    match back(tokens, 0) {
        Some(token) => names_other(token),
        None => false,
    }
}

/// How often the mark stands among the tokens.
fn count_mark(tokens: &[Token], text: &str) -> usize
    ensures { result ≡ count_by (is_mark_of text.now) tokens.now }
{
    tokens.iter().filter(|token| is_mark(text, token)).count()
}

/// Whether each brace that opens closes.
#[tactic(auto, unfolding(crate::specs::Faults::is_balanced))]
fn is_balanced(tokens: &[Token]) -> bool
    ensures { result ≡ spec.is_balanced tokens.now }
{
    count_mark(tokens, "{") == count_mark(tokens, "}")
}

/// Whether a declared name could stand after the tokens, or a pointer's name ends them.
#[tactic(auto, unfolding(crate::specs::Faults::is_name_place))]
fn is_name_place<F: Fn(Sample) -> Result<bool, Memory>>(
    before: &[Token],
    can: F,
) -> Result<bool, Memory>
    requires { F.IsAlwaysCallable can }
    ensures { (test : Sample → Bool) → AsksBy test (F.post can) → IfOk result (λ b. b ≡ spec.is_name_place test before.now) }
{
    if ends_with_pointer(before) {
        Ok(true)
    } else if ends_with_other(before) {
        Ok(false)
    } else {
        can(Sample::Name)
    }
}

/// Whether an initialiser could stand there, but no statement.
#[tactic(auto, unfolding(crate::specs::Faults::is_initialiser_place))]
fn is_initialiser_place<F: Fn(Sample) -> Result<bool, Memory>>(can: F) -> Result<bool, Memory>
    requires { F.IsAlwaysCallable can }
    ensures { (test : Sample → Bool) → AsksBy test (F.post can) → IfOk result (λ b. b ≡ spec.is_initialiser_place test) }
{
    Ok(can(Sample::Number)? && can(Sample::Brace)? && !can(Sample::Semicolon)?)
}

/// Whether the head of a function ends with the tokens.
#[tactic(auto, unfolding(crate::specs::Faults::is_head_end))]
fn is_head_end<F: Fn(Sample) -> Result<bool, Memory>>(
    before: &[Token],
    can: F,
) -> Result<bool, Memory>
    requires { F.IsAlwaysCallable can }
    ensures { (test : Sample → Bool) → AsksBy test (F.post can) → IfOk result (λ b. b ≡ spec.is_head_end test before.now) }
{
    if is_mark_back(before, 0, ")") && is_balanced(before) {
        can(Sample::Brace)
    } else {
        Ok(false)
    }
}

/// Whether a faulty token after these names a construct that is left out. `can` tells whether a sample could stand in
/// its place; it is asked three times at most.
#[tactic(auto, unfolding(crate::specs::Faults::names_construct))]
pub fn names_construct<F: Fn(Sample) -> Result<bool, Memory>>(
    before: &[Token],
    token: &Token,
    can: F,
) -> Result<bool, Memory>
    requires { F.IsAlwaysCallable can }
    ensures { (test : Sample → Bool) → AsksBy test (F.post can) → IfOk result (λ b. b ≡ spec.names_construct test before.now token.now) }
{
    if is_left_out(token) {
        Ok(true)
    } else if is_mark("(", token) {
        is_name_place(before, can)
    } else if is_mark("[", token) {
        is_initialiser_place(can)
    } else if is_mark(";", token) {
        is_head_end(before, can)
    } else {
        Ok(false)
    }
}

/// The fault at a token that can't be used.
pub fn fault_at(alloc: Global, token: &Token, construct: bool) -> Result<SyntaxFault, Memory>
    ensures { IfOk result (λ fault. fault ≡ (if construct then SyntaxFault.Construct (spec.named_word token.now) token.now.place else SyntaxFault.Expected token.now.place)) }
{
    if !construct {
        return Ok(SyntaxFault::Expected(token.place));
    }
    let word = if is_kind(TokenKind::Str, token) {
        Text::copy_of(alloc, b"\"".as_slice())?
    } else {
        Text::copy_of(alloc, token.text.as_bytes())?
    };
    Ok(SyntaxFault::Construct(word, token.place))
}

impl From<Memory> for SyntaxFault {
    ghost use Rattle.std.specs.Prelude.{◌≡◌};
    ghost use Rattle.c_reader.specs.declared.faults.SyntaxFault.TheVariants as fault;

    ghost from_gives = { λ _ e. e ≡ fault.Memory };

    fn from(_error: Memory) -> SyntaxFault {
        SyntaxFault::Memory
    }
}
