//! Dimensions of declared names (C11 6.7.6.2).

ghost use Rattle.c_grammar.specs.Levels.{readers_at};
ghost use Rattle.c_reader.specs.Nested.{ReadsBy};
ghost use Rattle.c_reader.specs.Outcome.{Gives};
ghost use Rattle.c_grammar.specs.Types as spec;

use c_reader::{Cursor, Unread, is_mark, many};
use c_tree::{Dimension, Expr};
use sqlite_items::Items;
use std::alloc::Global;

/// What the rules of dimensions need where `left` levels of nesting are left, in lists of at most `size` tokens: `expr`
/// reads expressions at this level, since the brackets of dimensions don't nest.
#[derive(Clone, Copy)]
pub struct Sizes<E> {
    pub alloc: Global,
    pub size: usize,
    pub left: u32,
    pub expr: E,
}

impl<E: Fn(Global, &mut Cursor<'_>, usize, u32) -> Result<Expr, Unread>> Sizes<E> {
    /// An expression.
    fn expr(&self, cursor: &mut Cursor<'_>) -> Result<Expr, Unread>
        requires { ReadsBy (readers_at self.now.size self.now.left).expr self.now.size self.now.left (E.pre self.now.expr) (E.post self.now.expr) }
        ensures { Gives ((readers_at self.now.size self.now.left).expr cursor.old) result cursor.new }
    {
        (self.expr)(self.alloc, cursor, self.size, self.left)
    }

    /// `[expr]`, before a closing bracket.
    #[tactic(auto, using(c_reader::proofs::Gathering::choose_sees), unfolding(c_grammar::specs::Types::read_size))]
    fn number(&self, cursor: &mut Cursor<'_>) -> Result<Option<Expr>, Unread>
        requires { ReadsBy (readers_at self.now.size self.now.left).expr self.now.size self.now.left (E.pre self.now.expr) (E.post self.now.expr) }
        ensures { Gives (spec.read_size (readers_at self.now.size self.now.left).expr cursor.old) result cursor.new }
    {
        if cursor.sees_mark("]") {
            return Ok(None);
        }
        let value = self.expr(cursor)?;
        Ok(Some(value))
    }

    /// `"[" [expr] "]"`
    #[tactic(auto, unfolding(c_grammar::specs::Types::read_dimension))]
    fn dimension(&self, cursor: &mut Cursor<'_>) -> Result<Dimension, Unread>
        requires { ReadsBy (readers_at self.now.size self.now.left).expr self.now.size self.now.left (E.pre self.now.expr) (E.post self.now.expr) }
        ensures { Gives (spec.read_dimension self.now.left (readers_at self.now.size self.now.left).expr cursor.old) result cursor.new }
    {
        let place = cursor.mark_at("[", self.left)?;
        let size = self.number(cursor)?;
        cursor.mark("]", self.left)?;
        Ok(Dimension { place, size })
    }

    /// `("[" [expr] "]")*`
    pub fn dimensions(&self, cursor: &mut Cursor<'_>) -> Result<Items<Dimension>, Unread>
        requires { ReadsBy (readers_at self.now.size self.now.left).expr self.now.size self.now.left (E.pre self.now.expr) (E.post self.now.expr) }
        ensures { Gives (spec.read_dimensions self.now.size self.now.left (readers_at self.now.size self.now.left).expr cursor.old) result cursor.new }
    {
        many(
            self.alloc,
            cursor,
            self.size,
            |token| is_mark("[", token),
            |cursor| self.dimension(cursor),
        )
    }
}
