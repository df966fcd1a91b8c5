//! Which tokens begin statements, declarations and items.

ghost use Rattle.std.specs.Prelude.{◌≡◌};
ghost use Rattle.c_statement.specs.Starts as spec;

use c_decl::is_step;
use c_grammar::{starts_expr, starts_type};
use c_reader::{is_kind, is_mark, is_word};
use c_tree::{Token, TokenKind};

/// Whether a loop begins with the token, or the bound of one.
#[tactic(auto, unfolding(crate::specs::Starts::loop_by, c_reader::specs::Tokens::spelled_by, c_reader::specs::Tokens::is_spelled, c_reader::specs::Tokens::is_kind))]
pub fn starts_loop(token: &Token) -> bool
    ensures { result ≡ spec.starts_loop token.now }
{
    is_kind(TokenKind::Bound, token)
        || is_word("while", token)
        || is_word("do", token)
        || is_word("for", token)
}

/// Whether what a statement does to one place, or a call, begins with the token.
#[tactic(auto, unfolding(crate::specs::Starts::simple_by, c_decl::specs::Marks::step_of, c_reader::specs::Tokens::found_of, c_reader::specs::Tokens::found_by, c_reader::specs::Tokens::is_kind))]
fn starts_simple(token: &Token) -> bool
    ensures { result ≡ spec.simple_by token.now.kind token.now.text }
{
    starts_expr(token) || is_step(token)
}

/// Whether a statement begins with the token.
#[tactic(auto, unfolding(crate::specs::Starts::statement_by, c_reader::specs::Tokens::spelled_by, c_reader::specs::Tokens::is_spelled, c_reader::specs::Tokens::is_kind))]
pub fn starts_statement(token: &Token) -> bool
    ensures { result ≡ spec.starts_statement token.now }
{
    is_mark("{", token)
        || is_mark(";", token)
        || is_word("break", token)
        || is_word("continue", token)
        || is_word("return", token)
        || is_word("if", token)
        || is_word("switch", token)
        || starts_loop(token)
        || starts_simple(token)
}

/// Whether a declaration or a statement begins with the token.
#[tactic(auto, unfolding(crate::specs::Starts::part_by))]
pub fn starts_part(token: &Token) -> bool
    ensures { result ≡ spec.starts_part token.now }
{
    starts_type(token) || starts_statement(token)
}

/// Whether a label begins with the token.
#[tactic(auto, unfolding(crate::specs::Starts::label_by, c_reader::specs::Tokens::spelled_by, c_reader::specs::Tokens::is_spelled, c_reader::specs::Tokens::is_kind))]
pub fn starts_label(token: &Token) -> bool
    ensures { result ≡ spec.starts_label token.now }
{
    is_word("case", token) || is_word("default", token)
}

/// Whether an item begins with the token.
#[tactic(auto, unfolding(crate::specs::Starts::item_by, c_reader::specs::Tokens::spelled_by, c_reader::specs::Tokens::is_spelled, c_reader::specs::Tokens::is_kind))]
pub fn starts_item(token: &Token) -> bool
    ensures { result ≡ spec.starts_item token.now }
{
    starts_type(token)
        || is_word("typedef", token)
        || is_word("static", token)
        || is_word("inline", token)
}
