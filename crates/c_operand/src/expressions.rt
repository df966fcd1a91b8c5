//! The rules of expressions (C11 6.5), by the first token at each place.

ghost use Rattle.std.specs.Prelude.{◌≡◌, ◌<◌, ◌≤◌, ◌-◌, codes, IfOk};
ghost use Rattle.c_grammar.specs.Expressions as spec;
ghost use Rattle.c_tree.specs.declared.expressions.Expr.TheVariants as expr;
ghost use Rattle.c_grammar.specs.Levels.{readers_at};
ghost use Rattle.c_operand.specs.Nested.{AreNested};
ghost use Rattle.c_reader.specs.Outcome.{Gives};
ghost use Rattle.c_reader.specs.Lists as lists;
ghost use Rattle.c_reader.specs.Reading as reading;
ghost use Rattle.c_reader.specs.Tokens.{is_kind as is_kind_of};
ghost use Rattle.c_grammar.specs.Tokens as tokens;

use crate::grammar::Grammar;
use c_grammar::{
    BINARY_LEVELS, is_suffix, literal_at, operator_at, prefix_at, sees_operator, sees_prefix,
    sees_type,
};
use c_reader::{Cursor, Unread, many, separated_by};
use c_tree::{Expr, Identifier, Operand, Place, Specifiers, Suffix, TokenKind, UnaryOperator};
use hy_bits::Memory;
use sqlite_items::{Boxed, Items};
use std::alloc::Global;

/// A primary expression with what stands after it, or alone if nothing does.
fn postfixed(alloc: Global, primary: Expr, suffixes: Items<Suffix>) -> Result<Expr, Memory>
    ensures { IfOk result (λ e. e ≡ spec.postfixed primary suffixes) }
{
    if suffixes.is_empty() {
        return Ok(primary);
    }
    Ok(Expr::Postfix(Boxed::new(alloc, primary)?, suffixes))
}

/// A unary operator before its operand.
fn unary_of(
    alloc: Global,
    place: Place,
    operator: UnaryOperator,
    operand: Expr,
) -> Result<Expr, Memory>
    ensures { IfOk result (λ e. e ≡ expr.Unary place operator operand) }
{
    let operand = Boxed::new(alloc, operand)?;
    Ok(Expr::Unary {
        place,
        operator,
        operand,
    })
}

/// A cast of its operand.
fn cast_of(alloc: Global, place: Place, specs: Specifiers, operand: Expr) -> Result<Expr, Memory>
    ensures { IfOk result (λ e. e ≡ expr.Cast place specs operand) }
{
    let specs = Boxed::new(alloc, specs)?;
    let operand = Boxed::new(alloc, operand)?;
    Ok(Expr::Cast {
        place,
        specs,
        operand,
    })
}

/// A conditional expression.
fn conditional(
    alloc: Global,
    condition: Expr,
    place: Place,
    second: Expr,
    third: Expr,
) -> Result<Expr, Memory>
    ensures { IfOk result (λ e. e ≡ expr.Conditional condition place second third) }
{
    let condition = Boxed::new(alloc, condition)?;
    let second = Boxed::new(alloc, second)?;
    let third = Boxed::new(alloc, third)?;
    Ok(Expr::Conditional {
        condition,
        place,
        second,
        third,
    })
}

/// A literal.
#[tactic(auto, unfolding(c_grammar::specs::Expressions::read_literal))]
fn literal(cursor: &mut Cursor<'_>, left: u32) -> Result<Expr, Unread>
    ensures { Gives (spec.read_literal left cursor.old) result cursor.new }
{
    let (place, value) = literal_at(cursor, left)?;
    Ok(Expr::Literal(place, value))
}

/// `"." NAME`
#[tactic(auto, unfolding(c_grammar::specs::Expressions::read_member))]
fn member(alloc: Global, cursor: &mut Cursor<'_>, left: u32) -> Result<Suffix, Unread>
    ensures { Gives (spec.read_member left cursor.old) result cursor.new }
{
    let place = cursor.mark_at(".", left)?;
    let name = cursor.name(alloc, left)?;
    Ok(Suffix::Member(place, name))
}

/// `"->" NAME`
#[tactic(auto, unfolding(c_grammar::specs::Expressions::read_arrow))]
fn arrow(alloc: Global, cursor: &mut Cursor<'_>, left: u32) -> Result<Suffix, Unread>
    ensures { Gives (spec.read_arrow left cursor.old) result cursor.new }
{
    let place = cursor.mark_at("->", left)?;
    let name = cursor.name(alloc, left)?;
    Ok(Suffix::Arrow(place, name))
}

/// An operand with those after it, or alone if there are none.
fn chained(alloc: Global, first: Expr, rest: Items<Operand>) -> Result<Expr, Memory>
    ensures { IfOk result (λ e. e ≡ spec.chained first rest) }
{
    if rest.is_empty() {
        return Ok(first);
    }
    Ok(Expr::BinaryChain(Boxed::new(alloc, first)?, rest))
}

impl<
    U: Fn(Global, &mut Cursor<'_>, usize, u32) -> Result<Expr, Unread>,
    E: Fn(Global, &mut Cursor<'_>, usize, u32) -> Result<Expr, Unread>,
    S: Fn(Global, &mut Cursor<'_>, usize, u32) -> Result<Specifiers, Unread>,
> Grammar<U, E, S> {
    /// `expr ("," expr)*`
    fn some_arguments(&self, cursor: &mut Cursor<'_>) -> Result<Items<Expr>, Unread>
        requires { AreNested self.now.size self.now.left (U.pre self.now.unary) (U.post self.now.unary) (E.pre self.now.expr) (E.post self.now.expr) (S.pre self.now.specs) (S.post self.now.specs) }
        ensures { Gives (lists.separated_by self.now.size (codes ",") (self.now.left - 1) (readers_at self.now.size (self.now.left - 1)).expr cursor.old) result cursor.new }
    {
        separated_by(
            self.alloc,
            cursor,
            self.size,
            self.left - 1,
            ",",
            |cursor| self.nested_expr(cursor),
        )
    }

    /// The arguments of a call: `[expr ("," expr)*]`
    #[tactic(auto, using(c_reader::proofs::Gathering::choose_sees, c_grammar::proofs::Depths::left_of), unfolding(c_grammar::specs::Expressions::read_arguments))]
    fn arguments(&self, cursor: &mut Cursor<'_>) -> Result<Items<Expr>, Unread>
        requires { AreNested self.now.size self.now.left (U.pre self.now.unary) (U.post self.now.unary) (E.pre self.now.expr) (E.post self.now.expr) (S.pre self.now.specs) (S.post self.now.specs) }
        ensures { Gives (spec.read_arguments self.now.size (readers_at self.now.size (self.now.left - 1)) cursor.old) result cursor.new }
    {
        if cursor.sees_mark(")") {
            Ok(Items::new(self.alloc))
        } else {
            self.some_arguments(cursor)
        }
    }

    /// `NAME "(" arguments ")"`, after the name.
    #[tactic(auto, unfolding(c_grammar::specs::Expressions::read_call))]
    fn call(&self, cursor: &mut Cursor<'_>, name: Identifier) -> Result<Expr, Unread>
        requires { AreNested self.now.size self.now.left (U.pre self.now.unary) (U.post self.now.unary) (E.pre self.now.expr) (E.post self.now.expr) (S.pre self.now.specs) (S.post self.now.specs) }
        ensures { Gives (spec.read_call self.now.size self.now.left (readers_at self.now.size (self.now.left - 1)) name cursor.old) result cursor.new }
    {
        let place = cursor.mark_at("(", self.left)?;
        let arguments = self.arguments(cursor)?;
        cursor.mark(")", self.left)?;
        Ok(Expr::Call {
            function: name,
            bracket: place,
            arguments,
        })
    }

    /// A name or a call.
    #[tactic(auto, using(c_reader::proofs::Gathering::choose_sees), unfolding(c_grammar::specs::Expressions::read_named))]
    fn named(&self, cursor: &mut Cursor<'_>) -> Result<Expr, Unread>
        requires { AreNested self.now.size self.now.left (U.pre self.now.unary) (U.post self.now.unary) (E.pre self.now.expr) (E.post self.now.expr) (S.pre self.now.specs) (S.post self.now.specs) }
        ensures { Gives (spec.read_named self.now.size self.now.left (readers_at self.now.size (self.now.left - 1)) cursor.old) result cursor.new }
    {
        let name = cursor.name(self.alloc, self.left)?;
        if cursor.sees_mark("(") {
            self.call(cursor, name)
        } else {
            Ok(Expr::Name(name))
        }
    }

    /// `"[" expr "]"`
    #[tactic(auto, unfolding(c_grammar::specs::Expressions::read_index))]
    fn index(&self, cursor: &mut Cursor<'_>) -> Result<Suffix, Unread>
        requires { AreNested self.now.size self.now.left (U.pre self.now.unary) (U.post self.now.unary) (E.pre self.now.expr) (E.post self.now.expr) (S.pre self.now.specs) (S.post self.now.specs) }
        ensures { Gives (spec.read_index self.now.left (readers_at self.now.size (self.now.left - 1)) cursor.old) result cursor.new }
    {
        let place = cursor.mark_at("[", self.left)?;
        let index = self.nested_expr(cursor)?;
        cursor.mark("]", self.left)?;
        Ok(Suffix::Index(place, index))
    }

    /// An index or a member.
    #[tactic(auto, using(c_reader::proofs::Gathering::choose_sees), unfolding(c_grammar::specs::Expressions::read_suffix))]
    fn suffix(&self, cursor: &mut Cursor<'_>) -> Result<Suffix, Unread>
        requires { AreNested self.now.size self.now.left (U.pre self.now.unary) (U.post self.now.unary) (E.pre self.now.expr) (E.post self.now.expr) (S.pre self.now.specs) (S.post self.now.specs) }
        ensures { Gives (spec.read_suffix self.now.left (readers_at self.now.size (self.now.left - 1)) cursor.old) result cursor.new }
    {
        if cursor.sees_mark("[") {
            self.index(cursor)
        } else if cursor.sees_mark(".") {
            member(self.alloc, cursor, self.left)
        } else {
            arrow(self.alloc, cursor, self.left)
        }
    }

    /// Indices and members.
    fn suffixes(&self, cursor: &mut Cursor<'_>) -> Result<Items<Suffix>, Unread>
        requires { AreNested self.now.size self.now.left (U.pre self.now.unary) (U.post self.now.unary) (E.pre self.now.expr) (E.post self.now.expr) (S.pre self.now.specs) (S.post self.now.specs) }
        ensures { Gives (reading.many self.now.size tokens.is_suffix (spec.read_suffix self.now.left (readers_at self.now.size (self.now.left - 1))) cursor.old) result cursor.new }
    {
        many(
            self.alloc,
            cursor,
            self.size,
            |token| is_suffix(token),
            |cursor| self.suffix(cursor),
        )
    }

    /// What stands after a primary expression.
    #[tactic(auto, unfolding(c_grammar::specs::Expressions::read_after))]
    fn after_primary(&self, cursor: &mut Cursor<'_>, primary: Expr) -> Result<Expr, Unread>
        requires { AreNested self.now.size self.now.left (U.pre self.now.unary) (U.post self.now.unary) (E.pre self.now.expr) (E.post self.now.expr) (S.pre self.now.specs) (S.post self.now.specs) }
        ensures { Gives (spec.read_after self.now.size self.now.left (readers_at self.now.size (self.now.left - 1)) primary cursor.old) result cursor.new }
    {
        let suffixes = self.suffixes(cursor)?;
        Ok(postfixed(self.alloc, primary, suffixes)?)
    }

    /// A name, a call or a literal.
    #[tactic(auto, using(c_reader::proofs::Gathering::choose_sees))]
    fn name_or_literal(&self, cursor: &mut Cursor<'_>) -> Result<Expr, Unread>
        requires { AreNested self.now.size self.now.left (U.pre self.now.unary) (U.post self.now.unary) (E.pre self.now.expr) (E.post self.now.expr) (S.pre self.now.specs) (S.post self.now.specs) }
        ensures { Gives (reading.choose (is_kind_of TokenKind.Name) (spec.read_named self.now.size self.now.left (readers_at self.now.size (self.now.left - 1))) (spec.read_literal self.now.left) cursor.old) result cursor.new }
    {
        if cursor.sees_kind(TokenKind::Name) {
            self.named(cursor)
        } else {
            literal(cursor, self.left)
        }
    }

    /// A name, a call or a literal, and what stands after it.
    #[tactic(auto, unfolding(c_grammar::specs::Expressions::read_primary))]
    fn primary(&self, cursor: &mut Cursor<'_>) -> Result<Expr, Unread>
        requires { AreNested self.now.size self.now.left (U.pre self.now.unary) (U.post self.now.unary) (E.pre self.now.expr) (E.post self.now.expr) (S.pre self.now.specs) (S.post self.now.specs) }
        ensures { Gives (spec.read_primary self.now.size self.now.left (readers_at self.now.size (self.now.left - 1)) cursor.old) result cursor.new }
    {
        let primary = self.name_or_literal(cursor)?;
        self.after_primary(cursor, primary)
    }

    /// `"(" specs ")" unary`, after the opening bracket.
    #[tactic(auto, unfolding(c_grammar::specs::Expressions::read_cast))]
    fn cast(&self, cursor: &mut Cursor<'_>, place: Place) -> Result<Expr, Unread>
        requires { AreNested self.now.size self.now.left (U.pre self.now.unary) (U.post self.now.unary) (E.pre self.now.expr) (E.post self.now.expr) (S.pre self.now.specs) (S.post self.now.specs) }
        ensures { Gives (spec.read_cast self.now.left (readers_at self.now.size (self.now.left - 1)) place cursor.old) result cursor.new }
    {
        let specs = self.nested_specs(cursor)?;
        cursor.mark(")", self.left)?;
        let operand = self.nested_unary(cursor)?;
        Ok(cast_of(self.alloc, place, specs, operand)?)
    }

    /// `"(" expr ")"`, after the opening bracket.
    #[tactic(auto, unfolding(c_grammar::specs::Expressions::read_group))]
    fn group(&self, cursor: &mut Cursor<'_>, place: Place) -> Result<Expr, Unread>
        requires { AreNested self.now.size self.now.left (U.pre self.now.unary) (U.post self.now.unary) (E.pre self.now.expr) (E.post self.now.expr) (S.pre self.now.specs) (S.post self.now.specs) }
        ensures { Gives (spec.read_group self.now.left (readers_at self.now.size (self.now.left - 1)) place cursor.old) result cursor.new }
    {
        let value = self.nested_expr(cursor)?;
        cursor.mark(")", self.left)?;
        Ok(Expr::Parenthesized(place, Boxed::new(self.alloc, value)?))
    }

    /// A cast, or an expression in brackets and what stands after it.
    #[tactic(auto, using(c_reader::proofs::Gathering::choose_sees), unfolding(c_grammar::specs::Expressions::read_bracketed))]
    fn bracketed(&self, cursor: &mut Cursor<'_>) -> Result<Expr, Unread>
        requires { AreNested self.now.size self.now.left (U.pre self.now.unary) (U.post self.now.unary) (E.pre self.now.expr) (E.post self.now.expr) (S.pre self.now.specs) (S.post self.now.specs) }
        ensures { Gives (spec.read_bracketed self.now.size self.now.left (readers_at self.now.size (self.now.left - 1)) cursor.old) result cursor.new }
    {
        let place = cursor.mark_at("(", self.left)?;
        if sees_type(cursor) {
            return self.cast(cursor, place);
        }
        let group = self.group(cursor, place)?;
        self.after_primary(cursor, group)
    }

    /// `prefix unary`
    #[tactic(auto, unfolding(c_grammar::specs::Expressions::read_prefixed))]
    fn prefixed(&self, cursor: &mut Cursor<'_>) -> Result<Expr, Unread>
        requires { AreNested self.now.size self.now.left (U.pre self.now.unary) (U.post self.now.unary) (E.pre self.now.expr) (E.post self.now.expr) (S.pre self.now.specs) (S.post self.now.specs) }
        ensures { Gives (spec.read_prefixed self.now.left (readers_at self.now.size (self.now.left - 1)) cursor.old) result cursor.new }
    {
        let (place, operator) = prefix_at(cursor, self.left)?;
        let operand = self.nested_unary(cursor)?;
        Ok(unary_of(self.alloc, place, operator, operand)?)
    }

    /// A unary expression.
    #[tactic(auto, using(c_reader::proofs::Gathering::choose_sees), unfolding(c_grammar::specs::Expressions::read_unary))]
    pub fn unary(&self, cursor: &mut Cursor<'_>) -> Result<Expr, Unread>
        requires { AreNested self.now.size self.now.left (U.pre self.now.unary) (U.post self.now.unary) (E.pre self.now.expr) (E.post self.now.expr) (S.pre self.now.specs) (S.post self.now.specs) }
        ensures { Gives (spec.read_unary self.now.size self.now.left (readers_at self.now.size (self.now.left - 1)) cursor.old) result cursor.new }
    {
        if sees_prefix(cursor) {
            self.prefixed(cursor)
        } else if cursor.sees_mark("(") {
            self.bracketed(cursor)
        } else {
            self.primary(cursor)
        }
    }

    /// `"?" expr ":" expr`
    #[tactic(auto, unfolding(c_grammar::specs::Expressions::read_branches))]
    fn branches(&self, cursor: &mut Cursor<'_>) -> Result<(Place, Expr, Expr), Unread>
        requires { AreNested self.now.size self.now.left (U.pre self.now.unary) (U.post self.now.unary) (E.pre self.now.expr) (E.post self.now.expr) (S.pre self.now.specs) (S.post self.now.specs) }
        ensures { Gives (spec.read_branches self.now.left (readers_at self.now.size (self.now.left - 1)) cursor.old) result cursor.new }
    {
        let place = cursor.mark_at("?", self.left)?;
        let second = self.nested_expr(cursor)?;
        cursor.mark(":", self.left)?;
        let third = self.nested_expr(cursor)?;
        Ok((place, second, third))
    }

    /// `"?" expr ":" expr`, after the condition.
    #[tactic(auto, unfolding(c_grammar::specs::Expressions::read_choice))]
    fn choice(&self, cursor: &mut Cursor<'_>, condition: Expr) -> Result<Expr, Unread>
        requires { AreNested self.now.size self.now.left (U.pre self.now.unary) (U.post self.now.unary) (E.pre self.now.expr) (E.post self.now.expr) (S.pre self.now.specs) (S.post self.now.specs) }
        ensures { Gives (spec.read_choice self.now.left (readers_at self.now.size (self.now.left - 1)) condition cursor.old) result cursor.new }
    {
        let (place, second, third) = self.branches(cursor)?;
        Ok(conditional(self.alloc, condition, place, second, third)?)
    }
}

impl<
    U: Fn(Global, &mut Cursor<'_>, usize, u32) -> Result<Expr, Unread>,
    E: Fn(Global, &mut Cursor<'_>, usize, u32) -> Result<Expr, Unread>,
    S: Fn(Global, &mut Cursor<'_>, usize, u32) -> Result<Specifiers, Unread>,
> Grammar<U, E, S> {
    /// The operands after the first one of a chain, each after its operator, where the operands are `below` levels above the
    /// unary expressions.
    #[cycle(chains)]
    fn operands(&self, cursor: &mut Cursor<'_>, below: u8) -> Result<Items<Operand>, Unread>
        requires levels { below < spec.binary_levels }
        requires nested { AreNested self.now.size self.now.left (U.pre self.now.unary) (U.post self.now.unary) (E.pre self.now.expr) (E.post self.now.expr) (S.pre self.now.specs) (S.post self.now.specs) }
        ensures { Gives (reading.many self.now.size (tokens.is_operator (spec.binary_levels - below)) (spec.read_operand (spec.binary_levels - below) self.now.left (spec.read_chain below self.now.size self.now.left (readers_at self.now.size (self.now.left - 1)))) cursor.old) result cursor.new }
    {
        let mut rest = Items::new(self.alloc);
        for _turn in 0..self.size {
            if !sees_operator(cursor, BINARY_LEVELS - below) {
                break;
            }
            let (place, operator) = operator_at(cursor, BINARY_LEVELS - below, self.left)?;
            let value = self.chain(cursor, below)?;
            rest.push(Operand {
                place,
                operator,
                value,
            })?;
        }
        Ok(rest)
    }

    /// The chain of `first`, which is `below` levels above the unary expressions, and of what stands after it.
    #[cycle(chains)]
    fn next_level(&self, cursor: &mut Cursor<'_>, first: Expr, below: u8) -> Result<Expr, Unread>
        requires levels { below < spec.binary_levels }
        requires nested { AreNested self.now.size self.now.left (U.pre self.now.unary) (U.post self.now.unary) (E.pre self.now.expr) (E.post self.now.expr) (S.pre self.now.specs) (S.post self.now.specs) }
        ensures { Gives (reading.after (reading.many self.now.size (tokens.is_operator (spec.binary_levels - below)) (spec.read_operand (spec.binary_levels - below) self.now.left (spec.read_chain below self.now.size self.now.left (readers_at self.now.size (self.now.left - 1)))) cursor.old) (λ rest. reading.give (spec.chained first rest))) result cursor.new }
    {
        let rest = self.operands(cursor, below)?;
        Ok(chained(self.alloc, first, rest)?)
    }

    /// The chains of so many levels above the unary expressions: the first operand, and then level by level what stands
    /// after it, so that no level of operators takes a call of its own before a bracket.
    #[cycle(chains)]
    pub fn chain(&self, cursor: &mut Cursor<'_>, above: u8) -> Result<Expr, Unread>
        requires levels { above ≤ spec.binary_levels }
        requires nested { AreNested self.now.size self.now.left (U.pre self.now.unary) (U.post self.now.unary) (E.pre self.now.expr) (E.post self.now.expr) (S.pre self.now.specs) (S.post self.now.specs) }
        ensures { Gives (spec.read_chain above self.now.size self.now.left (readers_at self.now.size (self.now.left - 1)) cursor.old) result cursor.new }
    {
        let mut chain = self.unary(cursor)?;
        for below in 0..above {
            chain = self.next_level(cursor, chain, below)?;
        }
        Ok(chain)
    }

    /// An expression.
    #[tactic(auto, using(c_reader::proofs::Gathering::choose_sees), unfolding(c_grammar::specs::Expressions::read_expr))]
    pub fn expr(&self, cursor: &mut Cursor<'_>) -> Result<Expr, Unread>
        requires { AreNested self.now.size self.now.left (U.pre self.now.unary) (U.post self.now.unary) (E.pre self.now.expr) (E.post self.now.expr) (S.pre self.now.specs) (S.post self.now.specs) }
        ensures { Gives (spec.read_expr self.now.size self.now.left (readers_at self.now.size (self.now.left - 1)) cursor.old) result cursor.new }
    {
        let condition = self.chain(cursor, BINARY_LEVELS)?;
        if cursor.sees_mark("?") {
            self.choice(cursor, condition)
        } else {
            Ok(condition)
        }
    }
}
