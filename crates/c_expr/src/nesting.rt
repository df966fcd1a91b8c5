//! The readers where so many levels of nesting are left, in lists of at most so many tokens. What is nested is read by
//! them with one level less.

ghost use Rattle.std.specs.Prelude.{◌<◌, ◌-◌};
ghost use Rattle.c_grammar.specs.Levels.{readers_at};
ghost use Rattle.c_reader.specs.Outcome.{Gives};
ghost use Rattle.c_grammar.specs.Types as types;

use crate::sizes::Sizes;
use crate::types::TypeRules;
use c_grammar::{no_expr, no_specs};
use c_operand::Grammar;
use c_reader::{Cursor, Unread};
use c_tree::{Dimension, Expr, Specifiers, TagSpecifier};
use sqlite_items::Items;
use std::alloc::Global;

/// A unary expression.
#[cycle(levels)]
pub fn unary(alloc: Global, cursor: &mut Cursor<'_>, size: usize, left: u32) -> Result<Expr, Unread>
    ensures { Gives ((readers_at size left).unary cursor.old) result cursor.new }
{
    if left == 0 {
        return Err(no_expr(cursor));
    }
    let grammar = Grammar {
        alloc,
        size,
        left,
        unary,
        expr,
        specs,
    };
    grammar.unary(cursor)
}

/// An expression.
#[cycle(levels)]
pub fn expr(alloc: Global, cursor: &mut Cursor<'_>, size: usize, left: u32) -> Result<Expr, Unread>
    ensures { Gives ((readers_at size left).expr cursor.old) result cursor.new }
{
    if left == 0 {
        return Err(no_expr(cursor));
    }
    let grammar = Grammar {
        alloc,
        size,
        left,
        unary,
        expr,
        specs,
    };
    grammar.expr(cursor)
}

/// A type's spelling.
#[cycle(levels)]
pub fn specs(
    alloc: Global,
    cursor: &mut Cursor<'_>,
    size: usize,
    left: u32,
) -> Result<Specifiers, Unread>
    ensures { Gives ((readers_at size left).specs cursor.old) result cursor.new }
{
    if left == 0 {
        return Err(no_specs(cursor));
    }
    let rules = TypeRules {
        alloc,
        size,
        left,
        expr,
        specs,
    };
    rules.specs(cursor)
}

/// The dimensions of a declared name.
pub fn dimensions(
    alloc: Global,
    cursor: &mut Cursor<'_>,
    size: usize,
    left: u32,
) -> Result<Items<Dimension>, Unread>
    ensures { Gives (types.read_dimensions size left (readers_at size left).expr cursor.old) result cursor.new }
{
    let sizes = Sizes {
        alloc,
        size,
        left,
        expr,
    };
    sizes.dimensions(cursor)
}

/// A struct or an enum.
pub fn tag(
    alloc: Global,
    cursor: &mut Cursor<'_>,
    size: usize,
    left: u32,
) -> Result<TagSpecifier, Unread>
    requires { 0 < left }
    ensures { Gives (types.read_tag size left (readers_at size (left - 1)) (readers_at size left).expr cursor.old) result cursor.new }
{
    let rules = TypeRules {
        alloc,
        size,
        left,
        expr,
        specs,
    };
    rules.tag(cursor)
}
