//! The fault at a token, told by what is read where other tokens stand in its place.

ghost use Rattle.std.specs.Prelude.{◌≡◌, ◌+◌, ◌^◌, ◌<◌, Bool, true, List, ◌++◌, ◌∷◌, [], length, IfOk};
ghost use Rattle.c_tree.specs.TokenLists.{is_closed};
ghost use Rattle.c_tree.specs.declared.token.Token.{Token};
ghost use Rattle.c_reader.specs.Alone.{fault_of};
ghost use Rattle.c_reader.specs.Closures.{TriesBy};
ghost use Rattle.c_reader.specs.Samples as samples;

use crate::cursor::Cursor;
use crate::faults::{SyntaxFault, fault_at, names_construct};
use crate::samples::Sample;
use crate::unread::Unread;
use c_tree::Token;
use hy_bits::Memory;
use std::alloc::Global;

/// How many levels of nesting there are, that outside of everything among them: a token may be nested 200 levels deep.
pub const LEVELS: u32 = 201;

/// Whether `sample` could stand after the tokens `before`: whether `read` finds no fault at it where the end stands after it.
fn can_stand<T: Drop, R: Fn(&mut Cursor<'_>) -> Result<T, Unread>>(
    alloc: Global,
    before: &[Token],
    sample: Sample,
    read: R,
) -> Result<bool, Memory>
    requires callable { R.IsAlwaysCallable read }
    requires closed { is_closed (before.now ++ samples.sample_of sample ∷ samples.end_token ∷ []) ≡ true }
    requires few { length before.now + 2 < 2 ^ 64 }
    ensures { (taken : List Token → Bool) → TriesBy taken (R.post read) → IfOk result (λ b. b ≡ taken (before.now ++ samples.sample_of sample ∷ samples.end_token ∷ [])) }
{
    let tail = sample.with_end(alloc)?;
    let mut cursor = Cursor::new(before, tail.as_slice());
    match read(&mut cursor) {
        Ok(_) => Ok(true),
        Err(Unread::Bad) => Ok(cursor.left() != 2),
        Err(Unread::Deep) => Ok(true),
        Err(Unread::Memory) => Err(Memory),
    }
}

/// The fault at `token`, which can't be used after the tokens `before`, with which something begins that `read` reads. At
/// most three lists of two tokens more than `before` has are read.
///
/// # Errors
///
/// `Memory` tells that memory ran out.
#[tactic(auto, using(crate::proofs::Ending::probe_closed), unfolding(crate::specs::Alone::fault_of))]
pub fn fault_after<T: Drop, R: Fn(&mut Cursor<'_>) -> Result<T, Unread> + Copy>(
    alloc: Global,
    before: &[Token],
    token: &Token,
    read: R,
) -> Result<SyntaxFault, Memory>
    requires callable { R.IsAlwaysCallable read }
    requires closed { is_closed (before.now ++ samples.end_token ∷ []) ≡ true }
    requires few { length before.now + 2 < 2 ^ 64 }
    ensures { (taken : List Token → Bool) → TriesBy taken (R.post read) → IfOk result (λ fault. fault ≡ fault_of (λ s. taken (before.now ++ samples.sample_of s ∷ samples.end_token ∷ [])) before.now token.now) }
{
    let construct = names_construct(
        before,
        token,
        |sample| can_stand(alloc, before, sample, read),
    )?;
    fault_at(alloc, token, construct)
}
