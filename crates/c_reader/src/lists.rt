//! The readers of lists, by a test of the token that a part begins with and a reader of a part.

ghost use Rattle.std.specs.Prelude.{◌≡◌, Bool, [], ◌∷◌, ◌++◌, IfOk};
ghost use Rattle.c_tree.specs.declared.token.Token.{Token};
ghost use Rattle.c_reader.specs.Closures.{TestsBy, PartsBy};
ghost use Rattle.c_reader.specs.Lists as lists;
ghost use Rattle.c_reader.specs.Outcome.{Gives};
ghost use Rattle.c_reader.specs.Reading as reading;
ghost use Rattle.c_reader.specs.Reading.{Reader};

use crate::cursor::Cursor;
use crate::unread::Unread;
use c_tree::{Token, TrailingComma};
use hy_bits::Memory;
use sqlite_items::Items;
use std::alloc::Global;

/// A list of one.
pub fn only<T: Drop>(alloc: Global, item: T) -> Result<Items<T>, Memory>
    ensures { IfOk result (λ all. all ≡ item ∷ []) }
{
    let mut all = Items::new(alloc);
    all.push(item)?;
    Ok(all)
}

/// What was found, and after it parts as long as the next token begins one, `size` of them at most.
pub fn many_after<T: Drop, G: Fn(&Token) -> bool, R: Fn(&mut Cursor<'_>) -> Result<T, Unread>>(
    cursor: &mut Cursor<'_>,
    size: usize,
    goes_on: G,
    read: R,
    mut found: Items<T>,
) -> Result<Items<T>, Unread>
    requires tests { G.IsAlwaysCallable goes_on }
    requires reads { R.IsAlwaysCallable read }
    ensures { (test : Token → Bool) (part : Reader T) → TestsBy test (G.post goes_on) → PartsBy part (R.post read) → Gives (reading.after (reading.many size test part cursor.old) (λ rest. reading.give (found ++ rest))) result cursor.new }
{
    for _turn in 0..size {
        if !goes_on(cursor.peek()) {
            break;
        }
        found.push(read(cursor)?)?;
    }
    Ok(found)
}

/// Parts as long as the next token begins one, `size` of them at most.
pub fn many<T: Drop, G: Fn(&Token) -> bool, R: Fn(&mut Cursor<'_>) -> Result<T, Unread>>(
    alloc: Global,
    cursor: &mut Cursor<'_>,
    size: usize,
    goes_on: G,
    read: R,
) -> Result<Items<T>, Unread>
    requires tests { G.IsAlwaysCallable goes_on }
    requires reads { R.IsAlwaysCallable read }
    ensures { (test : Token → Bool) (part : Reader T) → TestsBy test (G.post goes_on) → PartsBy part (R.post read) → Gives (reading.many size test part cursor.old) result cursor.new }
{
    many_after(cursor, size, goes_on, read, Items::new(alloc))
}

/// Parts with a mark between each two of them, one at least and `size` after it at most.
pub fn separated_by<T: Drop, R: Fn(&mut Cursor<'_>) -> Result<T, Unread>>(
    alloc: Global,
    cursor: &mut Cursor<'_>,
    size: usize,
    left: u32,
    text: &str,
    read: R,
) -> Result<Items<T>, Unread>
    requires { R.IsAlwaysCallable read }
    ensures { (part : Reader T) → PartsBy part (R.post read) → Gives (lists.separated_by size text.now left part cursor.old) result cursor.new }
{
    let mut found = only(alloc, read(cursor)?)?;
    for _turn in 0..size {
        if !cursor.sees_mark(text) {
            break;
        }
        cursor.mark(text, left)?;
        found.push(read(cursor)?)?;
    }
    Ok(found)
}

/// What was found, and each mark and the part after it, `size` times at most; and whether the list ends with a mark, as
/// it may.
pub fn more_after<T: Drop, G: Fn(&Token) -> bool, R: Fn(&mut Cursor<'_>) -> Result<T, Unread>>(
    cursor: &mut Cursor<'_>,
    size: usize,
    left: u32,
    text: &str,
    starts: G,
    read: R,
    mut found: Items<T>,
) -> Result<(Items<T>, TrailingComma), Unread>
    requires tests { G.IsAlwaysCallable starts }
    requires reads { R.IsAlwaysCallable read }
    ensures { (test : Token → Bool) (part : Reader T) → TestsBy test (G.post starts) → PartsBy part (R.post read) → Gives (reading.after (lists.read_more size text.now test left part cursor.old) (λ rest. reading.give (found ++ rest.0, rest.1))) result cursor.new }
{
    for _turn in 0..size {
        if !cursor.sees_mark(text) {
            break;
        }
        cursor.mark(text, left)?;
        if !starts(cursor.peek()) {
            return Ok((found, TrailingComma::Present));
        }
        found.push(read(cursor)?)?;
    }
    Ok((found, TrailingComma::Absent))
}
