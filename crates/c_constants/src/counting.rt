//! Loops that count (C11 6.8.5.3): a `for` whose head alone tells the number of its turns.

ghost use Rattle.std.specs.Prelude.{◌≡◌, ℕ, ◌&&◌, ◌||◌, Some};
ghost use Rattle.std.specs.Option.{IfSome};
ghost use Rattle.c_meaning.specs.Operations.{left_type};
ghost use Rattle.c_meaning.specs.Constants.{constant_of};
ghost use Rattle.c_meaning.specs.Counting as counting;
ghost use Rattle.c_meaning.specs.StatementRules.{Within, Counts};
ghost use Rattle.c_meaning.specs.declared.statements.TypedStatement.{TypedStatement};
ghost use Rattle.c_constants.specs.Counted.{as_read, lvalue_reads, step_as, step_where, turns_before, turns_counted, counted_by, counted_turns, IsUnchanged};

use crate::constants::{Folded, Known, constant_word, fold_expr};
use c_meaning::{
    ArithmeticOperator, ChainStep, Comparison, Controlling, IntegerOperation, Lvalue, Operation,
    Part, TypedDeclarator, TypedEffect, TypedExpr, TypedFirst, TypedStep, convert, operate,
};
use c_uses::named_object;
use hy_bits::Scalar;
use sqlite_items::Items;

/// The most turns that a loop may count.
const MOST_TURNS: u32 = 1 << 20;

/// The type of the object that a loop counts by, and the number of its turns.
#[derive(Clone, Copy, Debug, PartialEq, Eq)]
pub struct Count {
    pub scalar: Scalar,
    pub turns: u32,
}

/// A step that adds a constant to an object of a type or subtracts it.
#[derive(Clone, Copy, Debug, PartialEq, Eq)]
pub struct Step {
    pub scalar: Scalar,
    pub operation: IntegerOperation,
    pub by: u64,
}

// ---- the first part

/// Whether an lvalue is the name of the object.
fn is_object(object: u32, target: &Lvalue) -> bool
    ensures { result ≡ counting.is_object object target.now }
{
    match named_object(target) {
        Some(named) => object == named,
        None => false,
    }
}

/// The word of a part of an initializer, where it is constant.
fn part_word(value: &Option<TypedExpr>) -> Option<u64>
    ensures { result ≡ counting.part_word value.now }
{
    match value {
        Some(value) => constant_word(value),
        None => Some(0),
    }
}

/// The word of the last part of an initializer, where it is constant.
fn last_word(parts: &[Part]) -> Option<u64>
    ensures { result ≡ counting.start_word (counting.last_part parts.now) }
{
    match parts {
        [] => None,
        [.., last] => part_word(&last.value),
    }
}

/// The word that an initializer gives, where it is constant.
fn parts_word(start: &Option<Items<Part>>) -> Option<u64>
    ensures { result ≡ counting.parts_word start.now }
{
    match start {
        Some(parts) => last_word(parts.as_slice()),
        None => None,
    }
}

/// The word that declarators give the object, where it is constant.
fn declared_word(object: u32, list: &[TypedDeclarator]) -> Option<u64>
    ensures { result ≡ counting.declared_word object list.now }
{
    for declared in list {
        if declared.object == object {
            return parts_word(&declared.start);
        }
    }
    None
}

/// The word that an expression statement assigns to the object, where it is constant.
fn assigned_word(object: u32, effect: &TypedEffect) -> Option<u64>
    ensures { result ≡ counting.assigned_word object effect.now }
{
    match effect {
        TypedEffect::Assignment { target, value, .. } => {
            if is_object(object, target) {
                constant_word(value)
            } else {
                None
            }
        }
        TypedEffect::Compound { .. } => None,
        TypedEffect::Advance { .. } => None,
        TypedEffect::Call(_) => None,
    }
}

/// The word that the first part of a `for` gives the object, where it is constant.
fn first_word(object: u32, first: &TypedFirst) -> Option<u64>
    ensures { result ≡ counting.first_word object first.now }
{
    match first {
        TypedFirst::Nothing => None,
        TypedFirst::Objects(list) => declared_word(object, list.as_slice()),
        TypedFirst::Effect(effect) => assigned_word(object, effect),
    }
}

// ---- the condition

/// The object that an lvalue names, as a read.
fn lvalue_read(lvalue: &Lvalue) -> Option<u32>
    ensures { as_read result ≡ lvalue_reads lvalue.now }
{
    match lvalue {
        Lvalue::Object { object, .. } => Some(*object),
        Lvalue::Indirection { .. } => None,
        Lvalue::Subscript { .. } => None,
        Lvalue::Member { .. } => None,
        Lvalue::Arrow { .. } => None,
    }
}

/// The object that an expression reads and does nothing else with, but for conversions that aren't written.
fn read_of(expr: &TypedExpr) -> Option<u32>
    ensures { as_read result ≡ counting.read_of expr.now }
{
    match expr {
        TypedExpr::Load { from, .. } => lvalue_read(from.get()),
        TypedExpr::Converted { operand, .. } => read_of(operand.get()),
        TypedExpr::Constant { .. } => None,
        TypedExpr::Decay { .. } => None,
        TypedExpr::Address { .. } => None,
        TypedExpr::Cast { .. } => None,
        TypedExpr::Unary { .. } => None,
        TypedExpr::Not { .. } => None,
        TypedExpr::Chain { .. } => None,
        TypedExpr::LogicalAnd { .. } => None,
        TypedExpr::LogicalOr { .. } => None,
        TypedExpr::Conditional { .. } => None,
        TypedExpr::Call { .. } => None,
    }
}

/// Whether an expression reads the object and does nothing else.
fn reads_object(object: u32, expr: &TypedExpr) -> bool
    ensures { result ≡ counting.reads_object object expr.now }
{
    match read_of(expr) {
        Some(read) => object == read,
        None => false,
    }
}

/// Whether an expression is a constant whose run is defined.
fn is_constant(expr: &TypedExpr) -> bool
    ensures { result ≡ counting.is_constant expr.now }
{
    match fold_expr(expr, None) {
        Folded::Word(_) => true,
        Folded::Variable => false,
        Folded::Faulty => false,
    }
}

/// Whether an operation is one of the comparisons that a loop counts by.
fn is_counting(operation: Operation) -> bool
    ensures { result ≡ counting.is_counting operation }
{
    match operation {
        Operation::Comparison(comparison, _) => match comparison {
            Comparison::Less => true,
            Comparison::Greater => true,
            Comparison::LessOrEqual => true,
            Comparison::GreaterOrEqual => true,
            Comparison::Equal => false,
            Comparison::Unequal => true,
        },
        Operation::Integer(_) => false,
        Operation::Offset { .. } => false,
        Operation::OffsetOnLeft(_) => false,
        Operation::Pointers(_) => false,
    }
}

/// Whether one of two operands is the object, and the other a constant.
fn has_constant(object: u32, left: &TypedExpr, right: &TypedExpr) -> bool
    ensures { result ≡ (counting.reads_object object left.now && counting.is_constant right.now || counting.is_constant left.now && counting.reads_object object right.now) }
{
    if reads_object(object, left) && is_constant(right) {
        return true;
    }
    is_constant(left) && reads_object(object, right)
}

/// Whether a step compares what stands on its left with its operand, one of them the object and the other a constant.
fn compares(object: u32, left: &TypedExpr, steps: &[ChainStep]) -> bool
    ensures { result ≡ counting.compares_with_constant object left.now steps.now }
{
    match steps {
        [step] => is_counting(step.operation) && has_constant(object, left, &step.right),
        _ => false,
    }
}

/// Whether a condition compares the object with a constant.
fn is_condition_on(object: u32, condition: &TypedExpr) -> bool
    ensures { result ≡ counting.is_condition_on object condition.now }
{
    match condition {
        TypedExpr::Chain { first, steps } => compares(object, first.get(), steps.as_slice()),
        _ => false,
    }
}

/// Whether a condition holds where the object has the word.
fn holds_at(object: u32, condition: &TypedExpr, word: u64) -> bool
    ensures { result ≡ counting.holds_at object condition.now word }
{
    match fold_expr(condition, Some(Known { object, word })) {
        Folded::Word(value) => value != 0,
        Folded::Variable => false,
        Folded::Faulty => false,
    }
}

// ---- the step

/// Whether an operation adds or subtracts.
fn is_additive(operation: IntegerOperation) -> bool
    ensures { result ≡ counting.is_additive operation }
{
    match operation {
        IntegerOperation::Arithmetic(operator, _) => match operator {
            ArithmeticOperator::Add => true,
            ArithmeticOperator::Subtract => true,
            _ => false,
        },
        IntegerOperation::Shift { .. } => false,
    }
}

/// The word of the object after a step.
fn stepped(step: Step, word: u64) -> u64
    ensures { result ≡ counting.stepped step.scalar step.operation step.by word }
{
    let at = left_type(step.operation);
    let word = operate(step.operation, convert(step.scalar, at, word), step.by);
    convert(at, step.scalar, word)
}

/// What a step adds to the object or subtracts from it, where it does nothing else.
fn counting_step(object: u32, effect: &TypedEffect) -> Option<Step>
    ensures { step_where result ≡ counting.counting_step object effect.now }
{
    match effect {
        TypedEffect::Compound {
            target,
            scalar,
            operation,
            value,
            ..
        } => {
            if is_object(object, target) && is_additive(*operation) {
                step_by(*scalar, *operation, value)
            } else {
                None
            }
        }
        TypedEffect::Assignment { .. } => None,
        TypedEffect::Advance { .. } => None,
        TypedEffect::Call(_) => None,
    }
}

/// The type that an operation is done in.
fn left_type(operation: IntegerOperation) -> Scalar
    ensures { result ≡ left_type operation }
{
    match operation {
        IntegerOperation::Arithmetic(_, scalar) => scalar,
        IntegerOperation::Shift { scalar, .. } => scalar,
    }
}

/// A step by the word of an expression, where it is constant.
fn step_by(scalar: Scalar, operation: IntegerOperation, value: &TypedExpr) -> Option<Step>
    ensures { step_where result ≡ counting.counting_by scalar operation (constant_of value.now) }
{
    match fold_expr(value, None) {
        Folded::Word(by) => Some(Step {
            scalar,
            operation,
            by,
        }),
        Folded::Variable => None,
        Folded::Faulty => None,
    }
}

/// The object that a step can count by: the one to which it assigns by its name with an operator.
pub fn counting_object(step: &TypedEffect) -> Option<u32>
    ensures { (k : ℕ) (by : counting.CountingStep) → counting.counting_step k step.now ≡ Some by → result ≡ Some k }
{
    match step {
        TypedEffect::Compound { target, .. } => named_object(target),
        TypedEffect::Assignment { .. } => None,
        TypedEffect::Advance { .. } => None,
        TypedEffect::Call(_) => None,
    }
}

// ---- the number of turns

/// How often a condition holds before it doesn't, where that is at most `most` times.
fn turns_within(
    most: u32,
    object: u32,
    condition: &TypedExpr,
    step: Step,
    start: u64,
) -> Option<u32>
    ensures { result ≡ counting.turns_within most (counting.holds_at object condition.now) (counting.stepped step.scalar step.operation step.by) start }
{
    let mut word = start;
    for turns in 0..most {
        if !holds_at(object, condition, word) {
            return Some(turns);
        }
        word = stepped(step, word);
    }
    if holds_at(object, condition, word) {
        None
    } else {
        Some(most)
    }
}

/// How often a condition holds before it doesn't, where that is at most 2^20 times.
fn turns_counted(object: u32, condition: &TypedExpr, step: Step, start: u64) -> Option<u32>
    ensures { result ≡ turns_counted object condition.now (step_as step) start }
{
    turns_within(MOST_TURNS, object, condition, step, start)
}

/// The turns of a loop that begins at the word, and the type of its object.
fn counted_from(object: u32, condition: &TypedExpr, start: u64, step: Option<Step>) -> Option<Count>
    ensures { result ≡ counted_by object condition.now start (step_where step) }
{
    match step {
        Some(step) => match turns_counted(object, condition, step, start) {
            Some(turns) => Some(Count {
                scalar: step.scalar,
                turns,
            }),
            None => None,
        },
        None => None,
    }
}

/// The turns that the parts of a head give the object, and its type.
fn turns_of(
    object: u32,
    first: &TypedFirst,
    condition: &TypedExpr,
    step: &TypedEffect,
) -> Option<Count>
    ensures { result ≡ counted_turns object first.now condition.now step.now }
{
    match first_word(object, first) {
        Some(start) => {
            if is_condition_on(object, condition) {
                counted_from(object, condition, start, counting_step(object, step))
            } else {
                None
            }
        }
        None => None,
    }
}

/// The number of turns that the head of a `for` alone gives the object, and the type that the object has then; `None` where it gives
/// none. Each turn, at most 2^20 of them, takes time linear in the condition, and all else is linear in the head.
pub fn counted(
    object: u32,
    first: &TypedFirst,
    condition: &Controlling,
    step: &TypedStep,
) -> Option<Count>
    ensures turns { result ≡ counted_turns object first.now condition.now.value step.now.effect }
    ensures counts { IfSome result (λ count. (within : Within) (body : TypedStatement) → IsUnchanged within object count.scalar body → Counts within object count.turns first.now condition.now step.now body) }
{
    turns_of(object, first, &condition.value, &step.effect)
}
