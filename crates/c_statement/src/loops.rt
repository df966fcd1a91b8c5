//! Loops, with the bounds before them (C11 6.8.5).

ghost use Rattle.std.specs.Prelude.{◌≡◌, IfOk};
ghost use Rattle.c_reader.specs.Nested.{ReadsBy};
ghost use Rattle.c_reader.specs.Outcome.{Gives};
ghost use Rattle.c_reader.specs.Reading.{take_as};
ghost use Rattle.c_reader.specs.Tokens as tokens;
ghost use Rattle.c_statement.specs.Levels.{read_statement};
ghost use Rattle.c_statement.specs.Loops as spec;
ghost use Rattle.c_statement.specs.Parts.{GivesTo, CarriedTo};
ghost use Rattle.c_tree.specs.declared.statements.Statement.TheVariants as statement;

use crate::inner::Inner;
use crate::plain::{condition, kept, unless};
use c_decl::Rules;
use c_grammar::sees_type;
use c_reader::{Cursor, Unread, is_kind};
use c_tree::{Expr, ExpressionStatement, First, Iteration, LoopBound, Place, Statement, TokenKind};
use hy_bits::Memory;
use sqlite_items::Boxed;
use std::alloc::Global;

/// The bound that comes next.
fn bound_at(rules: Rules, cursor: &mut Cursor<'_>) -> Result<LoopBound, Unread>
    ensures { Gives (take_as (tokens.is_kind TokenKind.Bound) spec.bound_at rules.left cursor.old) result cursor.new }
{
    let token = cursor.peek();
    cursor.take(is_kind(TokenKind::Bound, token), rules.left)?;
    Ok(LoopBound {
        place: token.place,
        number: token.number,
    })
}

/// `[BOUND]`
#[tactic(auto, using(c_reader::proofs::Gathering::choose_sees), unfolding(crate::specs::Loops::read_bound))]
fn bound(rules: Rules, cursor: &mut Cursor<'_>) -> Result<Option<LoopBound>, Unread>
    ensures { Gives (spec.read_bound rules.left cursor.old) result cursor.new }
{
    if !cursor.sees_kind(TokenKind::Bound) {
        return Ok(None);
    }
    let bound = bound_at(rules, cursor)?;
    Ok(Some(bound))
}

/// `[objects | simple]`, before a semicolon.
#[tactic(auto, using(c_reader::proofs::Gathering::choose_sees), unfolding(crate::specs::Loops::read_first))]
fn first(rules: Rules, cursor: &mut Cursor<'_>) -> Result<First, Unread>
    ensures { Gives (spec.read_first rules.size rules.left cursor.old) result cursor.new }
{
    if cursor.sees_mark(";") {
        return Ok(First::Nothing);
    }
    if sees_type(cursor) {
        let objects = rules.objects(cursor)?;
        return Ok(First::Declaration(objects));
    }
    let value = rules.simple(cursor)?;
    Ok(First::Expression(value))
}

/// `[simple]`, before a closing bracket.
#[tactic(auto, using(c_reader::proofs::Gathering::choose_sees), unfolding(crate::specs::Loops::read_step))]
fn step(rules: Rules, cursor: &mut Cursor<'_>) -> Result<Option<ExpressionStatement>, Unread>
    ensures { Gives (spec.read_step rules.size rules.left cursor.old) result cursor.new }
{
    if cursor.sees_mark(")") {
        return Ok(None);
    }
    let value = rules.simple(cursor)?;
    Ok(Some(value))
}

/// `"for" "(" [objects | simple] ";"`: the place and the first part.
#[tactic(auto, unfolding(crate::specs::Loops::read_for_first))]
fn for_first(rules: Rules, cursor: &mut Cursor<'_>) -> Result<(Place, First), Unread>
    ensures { GivesTo (spec.read_for_first rules.size rules.left) cursor.old result cursor.new }
{
    let place = cursor.word_at("for", rules.left)?;
    cursor.mark("(", rules.left)?;
    let initial = first(rules, cursor)?;
    let initial = kept(cursor, ";", rules.left, initial)?;
    Ok((place, initial))
}

/// `[simple] ")"`: the step, with `part`, which was read before.
#[tactic(auto, unfolding(crate::specs::Loops::read_for_step))]
fn for_step<T: Drop>(
    rules: Rules,
    cursor: &mut Cursor<'_>,
    part: T,
) -> Result<(T, Option<ExpressionStatement>), Unread>
    ensures { CarriedTo (spec.read_for_step rules.size rules.left) cursor.old part result cursor.new }
{
    let step = step(rules, cursor)?;
    let step = kept(cursor, ")", rules.left, step)?;
    Ok((part, step))
}

/// `[expr] ";"`: the condition, with `part`, which was read before.
#[tactic(auto, unfolding(crate::specs::Loops::read_for_condition))]
fn for_condition<T: Drop>(
    rules: Rules,
    cursor: &mut Cursor<'_>,
    part: T,
) -> Result<(T, Option<Expr>), Unread>
    ensures { CarriedTo (spec.read_for_condition rules.size rules.left) cursor.old part result cursor.new }
{
    let condition = unless(rules, cursor, ";")?;
    let condition = kept(cursor, ";", rules.left, condition)?;
    Ok((part, condition))
}

/// An iteration statement in memory of its own.
fn iteration(alloc: Global, parts: Iteration) -> Result<Statement, Memory>
    ensures { IfOk result (λ s. s ≡ statement.Iteration parts) }
{
    Ok(Statement::Iteration(Boxed::new(alloc, parts)?))
}

impl<F: Fn(Global, &mut Cursor<'_>, usize, u32) -> Result<Statement, Unread>> Inner<F> {
    /// `"while" "(" expr ")" statement`, after its bound.
    #[tactic(auto, unfolding(crate::specs::Loops::read_while))]
    fn while_loop(
        &self,
        cursor: &mut Cursor<'_>,
        bound: Option<LoopBound>,
    ) -> Result<Statement, Unread>
        requires { ReadsBy (read_statement self.now.rules.size self.now.rules.left) self.now.rules.size self.now.rules.left (F.pre self.now.statement) (F.post self.now.statement) }
        ensures { Gives (spec.read_while self.now.rules.size self.now.rules.left (read_statement self.now.rules.size self.now.rules.left) bound cursor.old) result cursor.new }
    {
        let place = cursor.word_at("while", self.rules.left)?;
        let value = condition(self.rules, cursor)?;
        let body = self.nested(cursor)?;
        let parts = Iteration::While {
            bound,
            place,
            condition: value,
            body,
        };
        Ok(iteration(self.rules.alloc, parts)?)
    }

    /// `"do" statement "while" "(" expr ")" ";"`, after its bound.
    #[tactic(auto, unfolding(crate::specs::Loops::read_do))]
    fn do_loop(
        &self,
        cursor: &mut Cursor<'_>,
        bound: Option<LoopBound>,
    ) -> Result<Statement, Unread>
        requires { ReadsBy (read_statement self.now.rules.size self.now.rules.left) self.now.rules.size self.now.rules.left (F.pre self.now.statement) (F.post self.now.statement) }
        ensures { Gives (spec.read_do self.now.rules.size self.now.rules.left (read_statement self.now.rules.size self.now.rules.left) bound cursor.old) result cursor.new }
    {
        let place = cursor.word_at("do", self.rules.left)?;
        let body = self.nested(cursor)?;
        cursor.word("while", self.rules.left)?;
        let value = condition(self.rules, cursor)?;
        let value = kept(cursor, ";", self.rules.left, value)?;
        let parts = Iteration::Do {
            bound,
            place,
            body,
            condition: value,
        };
        Ok(iteration(self.rules.alloc, parts)?)
    }

    /// `"for" "(" [objects | simple] ";" [expr] ";" [simple] ")" statement`, after its bound.
    #[tactic(auto, unfolding(crate::specs::Loops::read_for))]
    fn for_loop(
        &self,
        cursor: &mut Cursor<'_>,
        bound: Option<LoopBound>,
    ) -> Result<Statement, Unread>
        requires { ReadsBy (read_statement self.now.rules.size self.now.rules.left) self.now.rules.size self.now.rules.left (F.pre self.now.statement) (F.post self.now.statement) }
        ensures { Gives (spec.read_for self.now.rules.size self.now.rules.left (read_statement self.now.rules.size self.now.rules.left) bound cursor.old) result cursor.new }
    {
        let head = for_first(self.rules, cursor)?;
        let (head, condition) = for_condition(self.rules, cursor, head)?;
        let (head, step) = for_step(self.rules, cursor, (head, condition))?;
        let (head, body) = self.with_nested(cursor, (head, step))?;
        let (((place, initial), condition), step) = head;
        let parts = Iteration::For {
            bound,
            place,
            first: initial,
            condition,
            step,
            body,
        };
        Ok(iteration(self.rules.alloc, parts)?)
    }

    /// `[BOUND]` and the loop after it.
    #[tactic(auto, using(c_reader::proofs::Gathering::choose_sees), unfolding(crate::specs::Loops::read_loop, crate::specs::Loops::read_loop_after))]
    pub fn loop_statement(&self, cursor: &mut Cursor<'_>) -> Result<Statement, Unread>
        requires { ReadsBy (read_statement self.now.rules.size self.now.rules.left) self.now.rules.size self.now.rules.left (F.pre self.now.statement) (F.post self.now.statement) }
        ensures { Gives (spec.read_loop self.now.rules.size self.now.rules.left (read_statement self.now.rules.size self.now.rules.left) cursor.old) result cursor.new }
    {
        let bound = bound(self.rules, cursor)?;
        if cursor.sees_word("while") {
            self.while_loop(cursor, bound)
        } else if cursor.sees_word("do") {
            self.do_loop(cursor, bound)
        } else {
            self.for_loop(cursor, bound)
        }
    }
}
