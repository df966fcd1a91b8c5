//! `if` and `switch` (C11 6.8.4).

ghost use Rattle.std.specs.Prelude.{◌≡◌, ◌∷◌, ◌++◌, None, IfOk};
ghost use Rattle.c_tree.specs.StatementFolds.{form_of_statement, form_of_selection, form_of_iteration, if_statement};
ghost use Rattle.c_reader.specs.Nested.{ReadsBy};
ghost use Rattle.c_reader.specs.Outcome.{Gives};
ghost use Rattle.c_reader.specs.Reading as reading;
ghost use Rattle.c_statement.specs.Levels.{read_statement};
ghost use Rattle.c_statement.specs.Starts as starts;
ghost use Rattle.c_statement.specs.Statements as spec;
ghost use Rattle.c_tree.specs.declared.statements.Statement.TheVariants as statement;

use crate::inner::Inner;
use crate::plain::{condition, kept, label};
use crate::starts::{starts_label, starts_statement};
use c_reader::{Cursor, Unread, many, many_after, only};
use c_tree::{Expr, Iteration, Label, LabelledSection, Place, Selection, Statement};
use hy_bits::Memory;
use sqlite_items::{Boxed, Items};
use std::alloc::Global;

/// Whether an `else` could follow the statement, since it ends with an `if` that has none. The time is that of its depth.
#[cycle(open)]
pub fn is_open(statement: &Statement) -> bool
    ensures { result ≡ (form_of_statement statement.now).open_ }
{
    match statement {
        Statement::Selection(parts) => is_open_selection(parts.get()),
        Statement::Iteration(parts) => is_open_iteration(parts.get()),
        _ => false,
    }
}

/// Whether an `else` could follow the selection statement.
#[cycle(open)]
fn is_open_selection(selection: &Selection) -> bool
    ensures { result ≡ (form_of_selection selection.now).open_ }
{
    match selection {
        Selection::If {
            otherwise: None,
            ..
        } => true,
        Selection::If {
            otherwise: Some(otherwise),
            ..
        } => is_open(otherwise),
        Selection::Switch { .. } => false,
    }
}

/// Whether an `else` could follow the iteration statement.
#[cycle(open)]
fn is_open_iteration(iteration: &Iteration) -> bool
    ensures { result ≡ (form_of_iteration iteration.now).open_ }
{
    match iteration {
        Iteration::While { body, .. } | Iteration::For { body, .. } => is_open(body),
        Iteration::Do { .. } => false,
    }
}

/// An `if` that has no `else`.
fn without_else(
    alloc: Global,
    place: Place,
    condition: Expr,
    then: Statement,
) -> Result<Statement, Memory>
    ensures { IfOk result (λ s. s ≡ if_statement place condition then None) }
{
    let parts = Selection::If {
        place,
        condition,
        then,
        otherwise: None,
    };
    Ok(selection(alloc, parts)?)
}

/// A selection statement in memory of its own.
fn selection(alloc: Global, parts: Selection) -> Result<Statement, Memory>
    ensures { IfOk result (λ s. s ≡ statement.Selection parts) }
{
    Ok(Statement::Selection(Boxed::new(alloc, parts)?))
}

impl<F: Fn(Global, &mut Cursor<'_>, usize, u32) -> Result<Statement, Unread>> Inner<F> {
    /// `"else" statement`, after the first part.
    #[tactic(auto, unfolding(crate::specs::Statements::read_else))]
    fn other_part(
        &self,
        cursor: &mut Cursor<'_>,
        place: Place,
        condition: Expr,
        then: Statement,
    ) -> Result<Statement, Unread>
        requires { ReadsBy (read_statement self.now.rules.size self.now.rules.left) self.now.rules.size self.now.rules.left (F.pre self.now.statement) (F.post self.now.statement) }
        ensures { Gives (spec.read_else self.now.rules.left (read_statement self.now.rules.size self.now.rules.left) place condition then cursor.old) result cursor.new }
    {
        cursor.word("else", self.rules.left)?;
        let otherwise = self.nested(cursor)?;
        let parts = Selection::If {
            place,
            condition,
            then,
            otherwise: Some(otherwise),
        };
        Ok(selection(self.rules.alloc, parts)?)
    }

    /// `["else" statement]`, after the first part: an `else` belongs to the nearest `if`.
    fn otherwise(
        &self,
        cursor: &mut Cursor<'_>,
        place: Place,
        condition: Expr,
        then: Statement,
    ) -> Result<Statement, Unread>
        requires { ReadsBy (read_statement self.now.rules.size self.now.rules.left) self.now.rules.size self.now.rules.left (F.pre self.now.statement) (F.post self.now.statement) }
        ensures { Gives (spec.read_otherwise self.now.rules.left (read_statement self.now.rules.size self.now.rules.left) place condition then cursor.old) result cursor.new }
    {
        if is_open(&then) {
            Ok(without_else(self.rules.alloc, place, condition, then)?)
        } else if cursor.sees_word("else") {
            self.other_part(cursor, place, condition, then)
        } else {
            Ok(without_else(self.rules.alloc, place, condition, then)?)
        }
    }

    /// `"if" "(" expr ")" statement ["else" statement]`
    #[tactic(auto, unfolding(crate::specs::Statements::read_if))]
    pub fn if_statement(&self, cursor: &mut Cursor<'_>) -> Result<Statement, Unread>
        requires { ReadsBy (read_statement self.now.rules.size self.now.rules.left) self.now.rules.size self.now.rules.left (F.pre self.now.statement) (F.post self.now.statement) }
        ensures { Gives (spec.read_if self.now.rules.size self.now.rules.left (read_statement self.now.rules.size self.now.rules.left) cursor.old) result cursor.new }
    {
        let place = cursor.word_at("if", self.rules.left)?;
        let value = condition(self.rules, cursor)?;
        let then = self.nested(cursor)?;
        self.otherwise(cursor, place, value, then)
    }

    /// Labels after the first.
    fn more_labels(
        &self,
        cursor: &mut Cursor<'_>,
        first: Items<Label>,
    ) -> Result<Items<Label>, Unread>
        ensures { Gives (reading.after (reading.many self.now.rules.size starts.starts_label (spec.read_label self.now.rules.size self.now.rules.left) cursor.old) (λ rest. reading.give (first ++ rest))) result cursor.new }
    {
        many_after(
            cursor,
            self.rules.size,
            |token| starts_label(token),
            |cursor| label(self.rules, cursor),
            first,
        )
    }

    /// Statements after the first.
    fn more_statements(
        &self,
        cursor: &mut Cursor<'_>,
        first: Items<Statement>,
    ) -> Result<Items<Statement>, Unread>
        requires { ReadsBy (read_statement self.now.rules.size self.now.rules.left) self.now.rules.size self.now.rules.left (F.pre self.now.statement) (F.post self.now.statement) }
        ensures { Gives (reading.after (reading.many self.now.rules.size starts.starts_statement (read_statement self.now.rules.size self.now.rules.left) cursor.old) (λ rest. reading.give (first ++ rest))) result cursor.new }
    {
        many_after(
            cursor,
            self.rules.size,
            |token| starts_statement(token),
            |cursor| self.nested(cursor),
            first,
        )
    }

    /// `label+ statement statement*`
    #[tactic(auto, unfolding(crate::specs::Statements::read_section))]
    fn section(&self, cursor: &mut Cursor<'_>) -> Result<LabelledSection, Unread>
        requires { ReadsBy (read_statement self.now.rules.size self.now.rules.left) self.now.rules.size self.now.rules.left (F.pre self.now.statement) (F.post self.now.statement) }
        ensures { Gives (spec.read_section self.now.rules.size self.now.rules.left (read_statement self.now.rules.size self.now.rules.left) cursor.old) result cursor.new }
    {
        let first = label(self.rules, cursor)?;
        let labels = self.more_labels(cursor, only(self.rules.alloc, first)?)?;
        let statement = self.nested(cursor)?;
        let statements = self.more_statements(cursor, only(self.rules.alloc, statement)?)?;
        Ok(LabelledSection { labels, statements })
    }

    /// `(label+ statement statement*)*`
    fn sections(&self, cursor: &mut Cursor<'_>) -> Result<Items<LabelledSection>, Unread>
        requires { ReadsBy (read_statement self.now.rules.size self.now.rules.left) self.now.rules.size self.now.rules.left (F.pre self.now.statement) (F.post self.now.statement) }
        ensures { Gives (reading.many self.now.rules.size starts.starts_label (spec.read_section self.now.rules.size self.now.rules.left (read_statement self.now.rules.size self.now.rules.left)) cursor.old) result cursor.new }
    {
        many(
            self.rules.alloc,
            cursor,
            self.rules.size,
            |token| starts_label(token),
            |cursor| self.section(cursor),
        )
    }

    /// `"switch" "(" expr ")" "{" (label+ statement statement*)* "}"`
    #[tactic(auto, unfolding(crate::specs::Statements::read_switch))]
    pub fn switch_statement(&self, cursor: &mut Cursor<'_>) -> Result<Statement, Unread>
        requires { ReadsBy (read_statement self.now.rules.size self.now.rules.left) self.now.rules.size self.now.rules.left (F.pre self.now.statement) (F.post self.now.statement) }
        ensures { Gives (spec.read_switch self.now.rules.size self.now.rules.left (read_statement self.now.rules.size self.now.rules.left) cursor.old) result cursor.new }
    {
        let place = cursor.word_at("switch", self.rules.left)?;
        let value = condition(self.rules, cursor)?;
        let value = kept(cursor, "{", self.rules.left, value)?;
        let sections = self.sections(cursor)?;
        let sections = kept(cursor, "}", self.rules.left, sections)?;
        let parts = Selection::Switch {
            place,
            value,
            sections,
        };
        Ok(selection(self.rules.alloc, parts)?)
    }
}
