//! The readers of what is nested. The rules that hold nested parts take the readers of those as parameters, so that each
//! is proved by itself.

ghost use Rattle.std.specs.Prelude.{◌-◌};
ghost use Rattle.c_reader.specs.Outcome.{Gives};
ghost use Rattle.c_operand.specs.Nested.{AreNested};
ghost use Rattle.c_grammar.specs.Levels.{readers_at};

use c_reader::{Cursor, Unread};
use c_tree::{Expr, Specifiers};
use std::alloc::Global;

/// What the rules of expressions and types need where `left` levels of nesting are left, in lists of at most `size`
/// tokens: `unary`, `expr` and `specs` read what is nested, with one level less.
#[derive(Clone, Copy)]
pub struct Grammar<U, E, S> {
    pub alloc: Global,
    pub size: usize,
    pub left: u32,
    pub unary: U,
    pub expr: E,
    pub specs: S,
}

impl<
    U: Fn(Global, &mut Cursor<'_>, usize, u32) -> Result<Expr, Unread>,
    E: Fn(Global, &mut Cursor<'_>, usize, u32) -> Result<Expr, Unread>,
    S: Fn(Global, &mut Cursor<'_>, usize, u32) -> Result<Specifiers, Unread>,
> Grammar<U, E, S> {
    /// A nested unary expression.
    pub fn nested_unary(&self, cursor: &mut Cursor<'_>) -> Result<Expr, Unread>
        requires { AreNested self.now.size self.now.left (U.pre self.now.unary) (U.post self.now.unary) (E.pre self.now.expr) (E.post self.now.expr) (S.pre self.now.specs) (S.post self.now.specs) }
        ensures { Gives ((readers_at self.now.size (self.now.left - 1)).unary cursor.old) result cursor.new }
    {
        (self.unary)(self.alloc, cursor, self.size, self.left - 1)
    }

    /// A nested expression.
    pub fn nested_expr(&self, cursor: &mut Cursor<'_>) -> Result<Expr, Unread>
        requires { AreNested self.now.size self.now.left (U.pre self.now.unary) (U.post self.now.unary) (E.pre self.now.expr) (E.post self.now.expr) (S.pre self.now.specs) (S.post self.now.specs) }
        ensures { Gives ((readers_at self.now.size (self.now.left - 1)).expr cursor.old) result cursor.new }
    {
        (self.expr)(self.alloc, cursor, self.size, self.left - 1)
    }

    /// A nested spelling of a type.
    pub fn nested_specs(&self, cursor: &mut Cursor<'_>) -> Result<Specifiers, Unread>
        requires { AreNested self.now.size self.now.left (U.pre self.now.unary) (U.post self.now.unary) (E.pre self.now.expr) (E.post self.now.expr) (S.pre self.now.specs) (S.post self.now.specs) }
        ensures { Gives ((readers_at self.now.size (self.now.left - 1)).specs cursor.old) result cursor.new }
    {
        (self.specs)(self.alloc, cursor, self.size, self.left - 1)
    }
}
