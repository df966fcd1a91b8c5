//! Statements and blocks where so many levels of nesting are left: a statement's own tokens are nested in it.

ghost use Rattle.std.specs.Prelude.{◌≡◌};
ghost use Rattle.c_reader.specs.Outcome.{Gives};
ghost use Rattle.c_statement.specs.Levels.{read_statement, read_block};

use crate::inner::Inner;
use c_decl::Rules;
use c_reader::{Cursor, Unread};
use c_tree::{Block, Statement};
use std::alloc::Global;

/// A statement.
fn statement(
    alloc: Global,
    cursor: &mut Cursor<'_>,
    size: usize,
    left: u32,
) -> Result<Statement, Unread>
    ensures { Gives (read_statement size left cursor.old) result cursor.new }
{
    if left == 0 {
        return Err(Unread::Deep);
    }
    let inner = Inner {
        rules: Rules {
            alloc,
            size,
            left: left - 1,
        },
        statement,
    };
    inner.statement(cursor)
}

/// A block.
pub fn block(rules: Rules, cursor: &mut Cursor<'_>) -> Result<Block, Unread>
    ensures { Gives (read_block rules.size rules.left cursor.old) result cursor.new }
{
    if rules.left == 0 {
        return Err(Unread::Deep);
    }
    let inner = Inner {
        rules: Rules {
            left: rules.left - 1,
            ..rules
        },
        statement,
    };
    inner.braces(cursor)
}
