//! What the rules of statements need that hold statements.

ghost use Rattle.std.specs.Prelude.{◌≡◌};
ghost use Rattle.c_reader.specs.Nested.{ReadsBy};
ghost use Rattle.c_reader.specs.Outcome.{Gives};
ghost use Rattle.c_statement.specs.Levels.{read_statement};
ghost use Rattle.c_statement.specs.Parts.{Carried};

use c_decl::Rules;
use c_reader::{Cursor, Unread};
use c_tree::Statement;
use std::alloc::Global;

/// The rules for a statement's own tokens, and a reader of the statements in it, which are nested as deeply.
#[derive(Clone, Copy)]
pub struct Inner<F> {
    pub rules: Rules,
    pub statement: F,
}

impl<F: Fn(Global, &mut Cursor<'_>, usize, u32) -> Result<Statement, Unread>> Inner<F> {
    /// A statement in the statement, with `part`, which was read before.
    pub fn with_nested<T: Drop>(
        &self,
        cursor: &mut Cursor<'_>,
        part: T,
    ) -> Result<(T, Statement), Unread>
        requires { ReadsBy (read_statement self.now.rules.size self.now.rules.left) self.now.rules.size self.now.rules.left (F.pre self.now.statement) (F.post self.now.statement) }
        ensures { Carried (read_statement self.now.rules.size self.now.rules.left cursor.old) part result cursor.new }
    {
        let statement = self.nested(cursor)?;
        Ok((part, statement))
    }

    /// A statement in the statement.
    pub fn nested(&self, cursor: &mut Cursor<'_>) -> Result<Statement, Unread>
        requires { ReadsBy (read_statement self.now.rules.size self.now.rules.left) self.now.rules.size self.now.rules.left (F.pre self.now.statement) (F.post self.now.statement) }
        ensures { Gives (read_statement self.now.rules.size self.now.rules.left cursor.old) result cursor.new }
    {
        (self.statement)(self.rules.alloc, cursor, self.rules.size, self.rules.left)
    }
}
