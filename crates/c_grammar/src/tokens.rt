//! What the next token is to expressions and types, and their readers of one token.

ghost use Rattle.std.specs.Prelude.{◌≡◌};
ghost use Rattle.c_reader.specs.Outcome.{Fails, Gives, sees};
ghost use Rattle.c_reader.specs.Reading.{take_as};
ghost use Rattle.c_grammar.specs.Levels as levels;
ghost use Rattle.c_grammar.specs.Tokens as spec;
ghost use Rattle.c_grammar.specs.Types as types;

use crate::tables::{
    is_operator, is_prefix, is_type_word, literal_of, operator_of_level, prefix_of, starts_expr,
    starts_type, type_word_of,
};
use c_reader::{Cursor, Unread};
use c_tree::{BinaryOperator, Literal, Place, TypeWord, UnaryOperator};

/// Whether the next token is an operator before an operand.
pub fn sees_prefix(cursor: &Cursor<'_>) -> bool
    ensures { result ≡ sees spec.is_prefix cursor.now }
{
    is_prefix(cursor.peek())
}

/// Whether the next token is an operator of this level between two operands.
pub fn sees_operator(cursor: &Cursor<'_>, level: u8) -> bool
    ensures { result ≡ sees (spec.is_operator level) cursor.now }
{
    is_operator(level, cursor.peek())
}

/// Whether the next token is a word of a type's spelling.
pub fn sees_type_word(cursor: &Cursor<'_>) -> bool
    ensures { result ≡ sees spec.is_type_word cursor.now }
{
    is_type_word(cursor.peek())
}

/// Whether a type's spelling comes next.
pub fn sees_type(cursor: &Cursor<'_>) -> bool
    ensures { result ≡ sees spec.starts_type cursor.now }
{
    starts_type(cursor.peek())
}

/// Whether an expression comes next.
pub fn sees_expr(cursor: &Cursor<'_>) -> bool
    ensures { result ≡ sees spec.starts_expr cursor.now }
{
    starts_expr(cursor.peek())
}

/// Takes an operator before an operand, and tells its place.
pub fn prefix_at(cursor: &mut Cursor<'_>, left: u32) -> Result<(Place, UnaryOperator), Unread>
    ensures { Gives (take_as spec.is_prefix spec.prefix_at left cursor.old) result cursor.new }
{
    let token = cursor.peek();
    match prefix_of(token) {
        Some(prefix) => {
            cursor.take(true, left)?;
            Ok((token.place, prefix))
        }
        None => Err(Unread::Bad),
    }
}

/// Takes a literal, and tells its place.
pub fn literal_at(cursor: &mut Cursor<'_>, left: u32) -> Result<(Place, Literal), Unread>
    ensures { Gives (take_as spec.is_literal spec.literal_at left cursor.old) result cursor.new }
{
    let token = cursor.peek();
    match literal_of(token) {
        Some(literal) => {
            cursor.take(true, left)?;
            Ok((token.place, literal))
        }
        None => Err(Unread::Bad),
    }
}

/// Takes a word of a type's spelling, and tells its place.
pub fn type_word_at(cursor: &mut Cursor<'_>, left: u32) -> Result<(Place, TypeWord), Unread>
    ensures { Gives (take_as spec.is_type_word types.word_at left cursor.old) result cursor.new }
{
    let token = cursor.peek();
    match type_word_of(token) {
        Some(word) => {
            cursor.take(true, left)?;
            Ok((token.place, word))
        }
        None => Err(Unread::Bad),
    }
}

/// Takes an operator of this level between two operands, and tells its place.
pub fn operator_at(
    cursor: &mut Cursor<'_>,
    level: u8,
    left: u32,
) -> Result<(Place, BinaryOperator), Unread>
    ensures { Gives (take_as (spec.is_operator level) spec.operator_at left cursor.old) result cursor.new }
{
    let token = cursor.peek();
    match operator_of_level(level, token) {
        Some(operator) => {
            cursor.take(true, left)?;
            Ok((token.place, operator))
        }
        None => Err(Unread::Bad),
    }
}

/// Why no expression is read where no level of nesting is left.
pub fn no_expr(cursor: &Cursor<'_>) -> Unread
    ensures { Fails (levels.no_expr cursor.now) result cursor.now }
{
    Unread::without_level(sees_expr(cursor))
}

/// Why no type's spelling is read where no level of nesting is left.
pub fn no_specs(cursor: &Cursor<'_>) -> Unread
    ensures { Fails (levels.no_specs cursor.now) result cursor.now }
{
    Unread::without_level(sees_type(cursor))
}
