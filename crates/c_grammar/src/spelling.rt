//! The words that spell a type, as long as they agree (C11 6.7.2).

ghost use Rattle.std.specs.Prelude.{◌≡◌, ◌++◌, true, Some, None, if◌then◌else◌, IfOk};
ghost use Rattle.c_tree.specs.TypeWords as spelling;
ghost use Rattle.c_grammar.specs.Counting.{Few};
ghost use Rattle.c_reader.specs.Outcome.{Gives, sees};
ghost use Rattle.c_reader.specs.Reading as reading;
ghost use Rattle.c_grammar.specs.Types as spec;

use crate::counts::Counts;
use crate::tables::type_word_of;
use crate::tokens::type_word_at;
use c_reader::{Cursor, Unread, only};
use c_tree::{Token, TypeSpecifier, TypeWord};
use sqlite_items::Items;
use std::alloc::Global;

/// The word of a type's spelling that a token is, if it is one that agrees with those before it.
fn agreeing(counts: &Counts, token: &Token) -> Option<TypeWord>
    requires { Few 2 counts.now }
    ensures { result ≡ (if spec.agrees counts.now token.now then Some (spec.word_of token.now) else None) }
{
    match type_word_of(token) {
        Some(word) => {
            if counts.with_word(word).agree() {
                Some(word)
            } else {
                None
            }
        }
        None => None,
    }
}

/// Whether the next token is a word that agrees with those before it.
fn sees_agreeing(cursor: &Cursor<'_>, counts: &Counts) -> bool
    requires { Few 2 counts.now }
    ensures { result ≡ sees (spec.agrees counts.now) cursor.now }
{
    agreeing(counts, cursor.peek()).is_some()
}

/// Takes a word that agrees with those before it.
fn agreeing_word(cursor: &mut Cursor<'_>, counts: &Counts, left: u32) -> Result<TypeWord, Unread>
    requires { Few 2 counts.now }
    ensures reads { Gives (reading.take_as (spec.agrees counts.now) spec.word_of left cursor.old) result cursor.new }
    ensures agreed { IfOk result (λ word. spelling.agree (spelling.with_word word counts.now) ≡ true) }
{
    let token = cursor.peek();
    match agreeing(counts, token) {
        Some(word) => {
            cursor.take(true, left)?;
            Ok(word)
        }
        None => Err(Unread::Bad),
    }
}

/// What was found, and after it words as long as they agree, `size` of them at most.
fn words_after(
    cursor: &mut Cursor<'_>,
    size: usize,
    left: u32,
    mut counts: Counts,
    mut found: Items<TypeWord>,
) -> Result<Items<TypeWord>, Unread>
    requires { Few 2 counts }
    ensures { Gives (reading.after (spec.read_words size left counts cursor.old) (λ rest. reading.give (found ++ rest))) result cursor.new }
{
    for _turn in 0..size {
        if !sees_agreeing(cursor, &counts) {
            break;
        }
        let word = agreeing_word(cursor, &counts, left)?;
        counts = counts.with_word(word);
        found.push(word)?;
    }
    Ok(found)
}

/// A word of a type and those after it that agree.
#[tactic(auto, using(crate::proofs::Agreeing::few_first), unfolding(crate::specs::Types::read_type_words))]
pub fn type_words(
    alloc: Global,
    cursor: &mut Cursor<'_>,
    size: usize,
    left: u32,
) -> Result<TypeSpecifier, Unread>
    ensures { Gives (spec.read_type_words size left cursor.old) result cursor.new }
{
    let (place, word) = type_word_at(cursor, left)?;
    let counts = Counts::none().with_word(word);
    let words = words_after(cursor, size, left, counts, only(alloc, word)?)?;
    Ok(TypeSpecifier::Words(place, words))
}
