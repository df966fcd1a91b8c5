//! The longest expression at a place of a list of tokens.

ghost use Rattle.std.specs.Prelude.{◌≡◌, ◌+◌, ◌-◌, ◌^◌, ◌<◌, ◌≤◌, ℕ, true, List, ◌++◌, ◌∷◌, [], length, drop, IfOk, IfErr, MatchResult};
ghost use Rattle.c_tree.specs.TokenLists.{is_closed};
ghost use Rattle.c_tree.specs.Folds.{wants_of_expr};
ghost use Rattle.c_tree.specs.declared.token.Token.{Token};
ghost use Rattle.c_tree.specs.declared.expressions.Expr.{Expr};
ghost use Rattle.c_reader.specs.Alone as spec;
ghost use Rattle.c_grammar.specs.Levels.{readers_at};
ghost use Rattle.c_reader.specs.Reading.{bad};
ghost use Rattle.c_reader.specs.Depths.{most_nesting, all_levels, AreShallow};
ghost use Rattle.c_expr.specs.Runs.{IsRun, IsTaken, IsFaultOf};
ghost use Rattle.c_grammar.specs.Spelled.{SpellsExpr};
ghost use Rattle.c_reader.specs.Samples as samples;

use crate::nesting::expr;
use c_reader::{Cursor, LEVELS, SyntaxFault, Unread, end, fault_after};
use c_tree::{Expr, Token, Tokens};
use hy_bits::Memory;
use std::alloc::Global;

/// The expression that the tokens are, if they are one and it isn't nested too deeply.
fn alone(alloc: Global, tokens: &[Token], size: usize, left: u32) -> Result<Option<Expr>, Memory>
    requires closed { is_closed (tokens.now ++ samples.end_token ∷ []) ≡ true }
    requires few { length tokens.now + 1 < 2 ^ 64 }
    ensures { IfOk result (λ found. found ≡ spec.alone (readers_at size left).expr tokens.now) }
{
    let tail = [end(alloc)?];
    let mut cursor = Cursor::new(tokens, tail.as_slice());
    match expr(alloc, &mut cursor, size, left) {
        Ok(found) => Ok((cursor.left() == 1).then_some(found)),
        Err(Unread::Bad) => Ok(None),
        Err(Unread::Deep) => Ok(None),
        Err(Unread::Memory) => Err(Memory),
    }
}

/// The expression that a longest run is, or the fault at the token after it. Of a list that isn't read at once, the run is
/// the part before the first token that doesn't fit, and the rest begins with that.
#[tactic(auto, unfolding(crate::specs::Runs::IsFaultOf))]
fn of_run(
    alloc: Global,
    run: &[Token],
    rest: &[Token],
    nesting: u32,
) -> Result<(Expr, usize), SyntaxFault>
    requires closed { is_closed (run.now ++ rest.now) ≡ true }
    requires some { 0 < length rest.now }
    requires few { length run.now + length rest.now + 2 < 2 ^ 64 }
    requires nested { nesting ≤ most_nesting }
    requires unread { (readers_at (length run.now + length rest.now + 2) (all_levels - nesting)).expr (run.now ++ rest.now) ≡ bad rest.now }
    ensures taken { IfOk result (λ found. IsTaken nesting (run.now ++ rest.now) found.0 found.1) }
    ensures fault { IfErr result (λ fault. IsFaultOf nesting (run.now ++ rest.now) fault) }
    ensures whole { (before : List Token) (token : Token) (expr : Expr) → IsRun nesting (run.now ++ rest.now) before token → SpellsExpr nesting before expr → MatchResult result (λ found. Unit {0}) (λ fault. fault ≡ SyntaxFault.Memory) }
{
    let size = run.len() + rest.len() + 2;
    let left = LEVELS - nesting;
    match alone(alloc, run, size, left)? {
        Some(found) => Ok((found, run.len())),
        None => Err(fault_after(
            alloc,
            run,
            &rest[0],
            |cursor| expr(alloc, cursor, size, left),
        )?),
    }
}

/// The expression that the longest run at the front of a list is, and how many tokens it has.
#[tactic(auto, unfolding(crate::specs::Runs::IsFaultOf))]
fn longest(alloc: Global, list: &[Token], nesting: u32) -> Result<(Expr, usize), SyntaxFault>
    requires closed { is_closed list.now ≡ true }
    requires few { length list.now + 2 < 2 ^ 64 }
    requires nested { nesting ≤ most_nesting }
    ensures taken { IfOk result (λ found. IsTaken nesting list.now found.0 found.1) }
    ensures fault { IfErr result (λ fault. IsFaultOf nesting list.now fault) }
    ensures whole { (run : List Token) (token : Token) (expr : Expr) → IsRun nesting list.now run token → SpellsExpr nesting run expr → AreShallow (wants_of_expr expr nesting) → MatchResult result (λ found. Unit {0}) (λ fault. fault ≡ SyntaxFault.Memory) }
{
    let mut cursor = Cursor::new(list, &[]);
    match expr(alloc, &mut cursor, list.len() + 2, LEVELS - nesting) {
        Ok(found) => Ok((found, list.len() - cursor.left())),
        Err(Unread::Bad) => {
            let (run, rest) = list.split_at(list.len() - cursor.left());
            of_run(alloc, run, rest, nesting)
        }
        Err(Unread::Deep) => Err(SyntaxFault::Deep(cursor.peek().place)),
        Err(Unread::Memory) => Err(SyntaxFault::Memory),
    }
}

/// The longest run of `tokens` from the one numbered `at` on with which some expression begins, whose own tokens are nested
/// `nesting` levels deep: where the run is an expression, that and the number of the token after it. The time is linear in the
/// number of the run's tokens, which are read at most five times.
///
/// # Errors
///
/// Where the run is no expression, `Expected` and `Construct` stand at the token after it, and `Deep` before that at the first
/// token that is nested too deeply. `Memory` tells that memory ran out.
pub fn expression(
    alloc: Global,
    tokens: &Tokens,
    at: u32,
    nesting: u32,
) -> Result<(Expr, u32), SyntaxFault>
    requires within { at < length tokens.now }
    requires nested { nesting ≤ most_nesting }
    // The tokens up to the place after are the longest run, and it is the expression. None is nested more deeply than 200.
    ensures taken { IfOk result (λ found. (count : ℕ) × (IsTaken nesting (drop at tokens.now) found.0 count × (found.1 ≡ at + count))) }
    // The fault is at the token after the longest run, which is no expression, or before it at one that is nested too deeply.
    ensures fault { IfErr result (λ fault. IsFaultOf nesting (drop at tokens.now) fault) }
    // A longest run that is an expression, and not nested too deeply, is taken, unless memory runs out.
    ensures whole { (run : List Token) (token : Token) (expr : Expr) → IsRun nesting (drop at tokens.now) run token → SpellsExpr nesting run expr → AreShallow (wants_of_expr expr nesting) → MatchResult result (λ found. (found.0 ≡ expr) × (found.1 ≡ at + length run)) (λ fault. fault ≡ SyntaxFault.Memory) }
{
    let (_, list) = tokens.as_slice().split_at(at as usize);
    let (found, count) = longest(alloc, list, nesting)?;
    Ok((found, at + count as u32))
}
