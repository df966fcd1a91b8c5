//! The numbers of the tokens that statements have of their own.

ghost use Rattle.std.specs.Prelude.{◌≡◌};
ghost use Rattle.c_heads.specs.Tokens as spec;

use c_count as count;
use c_tree::{
    Declaration, Expr, ExpressionStatement, First, Label, LoopBound, Statement, TagSpecifier,
};

/// The tokens of an expression.
pub fn expr_tokens(expr: &Expr) -> u32
    ensures { result ≡ spec.expr_tokens expr.now }
{
    count::expr_tokens(expr)
}

/// The tokens of an expression statement's expression.
pub fn simple_tokens(simple: &ExpressionStatement) -> u32
    ensures { result ≡ spec.simple_tokens simple.now }
{
    count::simple_tokens(simple)
}

/// The tokens of a declaration with the `;` after it.
pub fn declaration_tokens(declaration: &Declaration) -> u32
    ensures { result ≡ spec.declaration_tokens declaration.now }
{
    count::declaration_tokens(declaration).saturating_add(1)
}

/// The tokens of a tag with the `;` after it.
pub fn tag_tokens(tag: &TagSpecifier) -> u32
    ensures { result ≡ spec.tag_tokens tag.now }
{
    count::tag_tokens(tag).saturating_add(1)
}

/// The tokens of an `if` without its statements.
pub fn if_tokens(condition: &Expr, otherwise: &Option<Statement>) -> u32
    ensures { result ≡ spec.if_tokens condition.now otherwise.now }
{
    match otherwise {
        None => expr_tokens(condition).saturating_add(3),
        Some(_) => expr_tokens(condition).saturating_add(4),
    }
}

/// The tokens of a `switch` without its statements, where `labels` are those of its labels.
pub fn switch_tokens(value: &Expr, labels: u32) -> u32
    ensures { result ≡ spec.switch_tokens value.now labels }
{
    expr_tokens(value).saturating_add(5).saturating_add(labels)
}

/// The tokens of a label.
pub fn label_tokens(label: &Label) -> u32
    ensures { result ≡ spec.label_tokens label.now }
{
    match label {
        Label::Case(_, value) => expr_tokens(value).saturating_add(2),
        Label::Default(_) => 2,
    }
}

/// The tokens of the bound before a loop.
fn bound_tokens(bound: &Option<LoopBound>) -> u32
    ensures { result ≡ spec.bound_tokens bound.now }
{
    match bound {
        None => 0,
        Some(_) => 1,
    }
}

/// The tokens of a `while` without its condition and its statement.
pub fn while_tokens(bound: &Option<LoopBound>) -> u32
    ensures { result ≡ spec.while_tokens bound.now }
{
    bound_tokens(bound).saturating_add(3)
}

/// The tokens of a `do` without its condition and its statement.
pub fn do_tokens(bound: &Option<LoopBound>) -> u32
    ensures { result ≡ spec.do_tokens bound.now }
{
    bound_tokens(bound).saturating_add(5)
}

/// The tokens of the first part of a `for`.
fn first_tokens(first: &First) -> u32
    ensures { result ≡ spec.first_tokens first.now }
{
    match first {
        First::Nothing => 0,
        First::Declaration(declaration) => count::declaration_tokens(declaration),
        First::Expression(simple) => simple_tokens(simple),
    }
}

/// The tokens of a `for` without its condition, its step and its statement.
pub fn for_tokens(bound: &Option<LoopBound>, first: &First) -> u32
    ensures { result ≡ spec.for_tokens bound.now first.now }
{
    first_tokens(first)
        .saturating_add(5)
        .saturating_add(bound_tokens(bound))
}

/// The tokens of a `return`.
pub fn return_tokens(value: &Option<Expr>) -> u32
    ensures { result ≡ spec.return_tokens value.now }
{
    match value {
        None => 2,
        Some(value) => expr_tokens(value).saturating_add(2),
    }
}
