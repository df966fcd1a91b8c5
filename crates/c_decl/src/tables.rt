//! The marks that assign and step (C11 6.5.16, 6.5.2.4, 6.5.3.1).

ghost use Rattle.std.specs.Prelude.{◌≡◌};
ghost use Rattle.c_reader.specs.Outcome.{Gives, sees};
ghost use Rattle.c_reader.specs.Reading.{take_as};
ghost use Rattle.c_decl.specs.Marks as spec;

use c_reader::{Cursor, Unread, found_of};
use c_tree::{AssignmentOperator, Place, Step, Token, TokenKind};

/// The marks that assign.
const ASSIGNS: [(&str, AssignmentOperator); 11] = [
    ("=", AssignmentOperator::Plain),
    ("*=", AssignmentOperator::Multiply),
    ("/=", AssignmentOperator::Divide),
    ("%=", AssignmentOperator::Remainder),
    ("+=", AssignmentOperator::Add),
    ("-=", AssignmentOperator::Subtract),
    ("<<=", AssignmentOperator::ShiftLeft),
    (">>=", AssignmentOperator::ShiftRight),
    ("&=", AssignmentOperator::And),
    ("^=", AssignmentOperator::Xor),
    ("|=", AssignmentOperator::Or),
];

/// The assignment that a token marks, if it marks one.
#[tactic(auto, unfolding(crate::specs::Marks::assign_of))]
pub fn assign_of(token: &Token) -> Option<AssignmentOperator>
    ensures { result ≡ spec.assign_of token.now }
{
    found_of(TokenKind::Mark, ASSIGNS.as_slice(), token)
}

/// The marks that step.
const STEPS: [(&str, Step); 2] = [("++", Step::Increment), ("--", Step::Decrement)];

/// The step that a token marks, if it marks one.
#[tactic(auto, unfolding(crate::specs::Marks::step_of))]
pub fn step_of(token: &Token) -> Option<Step>
    ensures { result ≡ spec.step_of token.now }
{
    found_of(TokenKind::Mark, STEPS.as_slice(), token)
}

/// Whether a token marks an assignment.
pub fn is_assign(token: &Token) -> bool
    ensures { result ≡ spec.is_assign token.now }
{
    assign_of(token).is_some()
}

/// Whether a token marks a step.
pub fn is_step(token: &Token) -> bool
    ensures { result ≡ spec.is_step token.now }
{
    step_of(token).is_some()
}

/// Whether the next token marks an assignment.
pub fn sees_assign(cursor: &Cursor<'_>) -> bool
    ensures { result ≡ sees spec.is_assign cursor.now }
{
    is_assign(cursor.peek())
}

/// Whether the next token marks a step.
pub fn sees_step(cursor: &Cursor<'_>) -> bool
    ensures { result ≡ sees spec.is_step cursor.now }
{
    is_step(cursor.peek())
}

/// Takes the mark of an assignment, and tells its place.
pub fn assign_at(cursor: &mut Cursor<'_>, left: u32) -> Result<(Place, AssignmentOperator), Unread>
    ensures { Gives (take_as spec.is_assign spec.assign_at left cursor.old) result cursor.new }
{
    let token = cursor.peek();
    match assign_of(token) {
        Some(assign) => {
            cursor.take(true, left)?;
            Ok((token.place, assign))
        }
        None => Err(Unread::Bad),
    }
}

/// Takes the mark of a step, and tells its place.
pub fn step_at(cursor: &mut Cursor<'_>, left: u32) -> Result<(Place, Step), Unread>
    ensures { Gives (take_as spec.is_step spec.step_at left cursor.old) result cursor.new }
{
    let token = cursor.peek();
    match step_of(token) {
        Some(step) => {
            cursor.take(true, left)?;
            Ok((token.place, step))
        }
        None => Err(Unread::Bad),
    }
}
