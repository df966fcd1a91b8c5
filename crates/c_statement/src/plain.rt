//! Statements that hold no statement (C11 6.8.3, 6.8.6), and labels and conditions (C11 6.8.1, 6.8.4).

ghost use Rattle.std.specs.Prelude.{◌≡◌, IfOk};
ghost use Rattle.c_reader.specs.Outcome.{Gives};
ghost use Rattle.c_reader.specs.Tokens.{read_mark};
ghost use Rattle.c_statement.specs.Parts.{Kept};
ghost use Rattle.c_statement.specs.Statements as spec;
ghost use Rattle.c_tree.specs.declared.statements.Statement.TheVariants as statement;

use c_decl::Rules;
use c_expr::expr;
use c_reader::{Cursor, Unread};
use c_tree::{Expr, ExpressionStatement, Label, Place, Statement};
use hy_bits::Memory;
use sqlite_items::Boxed;
use std::alloc::Global;

/// `part`, which was read, where the mark `text` stands after it.
pub fn kept<T: Drop>(cursor: &mut Cursor<'_>, text: &str, left: u32, part: T) -> Result<T, Unread>
    ensures { Kept (read_mark text.now left cursor.old) part result cursor.new }
{
    cursor.mark(text, left)?;
    Ok(part)
}

/// An expression statement in memory of its own.
fn expression_statement(alloc: Global, value: ExpressionStatement) -> Result<Statement, Memory>
    ensures { IfOk result (λ s. s ≡ statement.Expression value) }
{
    Ok(Statement::Expression(Boxed::new(alloc, value)?))
}

/// A `return` in memory of its own.
fn return_of(alloc: Global, place: Place, value: Option<Expr>) -> Result<Statement, Memory>
    ensures { IfOk result (λ s. s ≡ statement.Return place value) }
{
    Ok(Statement::Return(place, Boxed::new(alloc, value)?))
}

/// `";"`
#[tactic(auto, unfolding(crate::specs::Statements::read_empty))]
pub fn empty(rules: Rules, cursor: &mut Cursor<'_>) -> Result<Statement, Unread>
    ensures { Gives (spec.read_empty rules.left cursor.old) result cursor.new }
{
    let place = cursor.mark_at(";", rules.left)?;
    Ok(Statement::Empty(place))
}

/// `simple ";"`
#[tactic(auto, unfolding(crate::specs::Statements::read_simple_statement))]
pub fn simple_statement(rules: Rules, cursor: &mut Cursor<'_>) -> Result<Statement, Unread>
    ensures { Gives (spec.read_simple_statement rules.size rules.left cursor.old) result cursor.new }
{
    let value = rules.simple(cursor)?;
    let value = kept(cursor, ";", rules.left, value)?;
    Ok(expression_statement(rules.alloc, value)?)
}

/// `"break" ";"`
#[tactic(auto, unfolding(crate::specs::Statements::read_break))]
pub fn break_statement(rules: Rules, cursor: &mut Cursor<'_>) -> Result<Statement, Unread>
    ensures { Gives (spec.read_break rules.left cursor.old) result cursor.new }
{
    let place = cursor.word_at("break", rules.left)?;
    cursor.mark(";", rules.left)?;
    Ok(Statement::Break(place))
}

/// `"continue" ";"`
#[tactic(auto, unfolding(crate::specs::Statements::read_continue))]
pub fn continue_statement(rules: Rules, cursor: &mut Cursor<'_>) -> Result<Statement, Unread>
    ensures { Gives (spec.read_continue rules.left cursor.old) result cursor.new }
{
    let place = cursor.word_at("continue", rules.left)?;
    cursor.mark(";", rules.left)?;
    Ok(Statement::Continue(place))
}

/// An expression, unless this mark comes next.
#[tactic(auto, using(c_reader::proofs::Gathering::choose_sees), unfolding(crate::specs::Statements::read_unless))]
pub fn unless(rules: Rules, cursor: &mut Cursor<'_>, text: &str) -> Result<Option<Expr>, Unread>
    ensures { Gives (spec.read_unless text.now rules.size rules.left cursor.old) result cursor.new }
{
    if cursor.sees_mark(text) {
        return Ok(None);
    }
    let value = expr(rules.alloc, cursor, rules.size, rules.left)?;
    Ok(Some(value))
}

/// `"return" [expr] ";"`
#[tactic(auto, unfolding(crate::specs::Statements::read_return))]
pub fn return_statement(rules: Rules, cursor: &mut Cursor<'_>) -> Result<Statement, Unread>
    ensures { Gives (spec.read_return rules.size rules.left cursor.old) result cursor.new }
{
    let place = cursor.word_at("return", rules.left)?;
    let value = unless(rules, cursor, ";")?;
    let value = kept(cursor, ";", rules.left, value)?;
    Ok(return_of(rules.alloc, place, value)?)
}

/// `"(" expr ")"`, in brackets that don't nest.
#[tactic(auto, unfolding(crate::specs::Statements::read_condition))]
pub fn condition(rules: Rules, cursor: &mut Cursor<'_>) -> Result<Expr, Unread>
    ensures { Gives (spec.read_condition rules.size rules.left cursor.old) result cursor.new }
{
    cursor.mark("(", rules.left)?;
    let value = expr(rules.alloc, cursor, rules.size, rules.left)?;
    kept(cursor, ")", rules.left, value)
}

/// `"case" cond ":"`
#[tactic(auto, unfolding(crate::specs::Statements::read_case))]
fn case(rules: Rules, cursor: &mut Cursor<'_>) -> Result<Label, Unread>
    ensures { Gives (spec.read_case rules.size rules.left cursor.old) result cursor.new }
{
    let place = cursor.word_at("case", rules.left)?;
    let value = expr(rules.alloc, cursor, rules.size, rules.left)?;
    let value = kept(cursor, ":", rules.left, value)?;
    Ok(Label::Case(place, value))
}

/// `"default" ":"`
#[tactic(auto, unfolding(crate::specs::Statements::read_default))]
fn default(rules: Rules, cursor: &mut Cursor<'_>) -> Result<Label, Unread>
    ensures { Gives (spec.read_default rules.left cursor.old) result cursor.new }
{
    let place = cursor.word_at("default", rules.left)?;
    cursor.mark(":", rules.left)?;
    Ok(Label::Default(place))
}

/// A label.
#[tactic(auto, using(c_reader::proofs::Gathering::choose_sees), unfolding(crate::specs::Statements::read_label))]
pub fn label(rules: Rules, cursor: &mut Cursor<'_>) -> Result<Label, Unread>
    ensures { Gives (spec.read_label rules.size rules.left cursor.old) result cursor.new }
{
    if cursor.sees_word("case") {
        case(rules, cursor)
    } else {
        default(rules, cursor)
    }
}
