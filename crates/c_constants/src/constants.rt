//! The words of constant expressions (C11 6.6), also where the word of an object is known.

ghost use Rattle.std.specs.Prelude.{◌≡◌, map, true, Option};
ghost use Rattle.c_meaning.specs.Constants as meaning;
ghost use Rattle.c_meaning.specs.Constants.{with_form, faulty_where, word_known, converted_constant, converted_where, combined_constant, step_constant, along_constants, decides, logical_constant, conditional_constant, constant_with, constant_of};
ghost use Rattle.c_meaning.specs.Counting.{word_where};
ghost use Rattle.c_uses.specs.Names.{named_with};
ghost use Rattle.c_constants.specs.Views.{as_constant, as_held, known_as, held_after, settled, truth_of, step_folds, operand_folds, sign_constant, not_constant};

use c_meaning::{
    ArithmeticSign, ChainStep, Conversion, IntegerOperation, LogicalOperand, Lvalue, Operation,
    TypedExpr, Undefined, apply_sign, compare, convert, operate, undefined, undefined_unary,
};
use c_uses::named_object;
use hy_bits::Scalar;

/// What an expression is where some words are known: no constant by its form, a constant whose run is undefined, or a word.
#[derive(Clone, Copy, Debug, PartialEq, Eq)]
pub enum Folded {
    Variable,
    Faulty,
    Word(u64),
}

/// An object whose word is known.
#[derive(Clone, Copy, Debug, PartialEq, Eq)]
pub struct Known {
    pub object: u32,
    pub word: u64,
}

/// The first of two constants, where both are constant by their form.
fn with_form(first: Folded, second: Folded) -> Folded
    ensures { as_constant result ≡ with_form (as_constant first) (as_constant second) }
{
    match first {
        Folded::Variable => Folded::Variable,
        _ => match second {
            Folded::Variable => Folded::Variable,
            _ => first,
        },
    }
}

/// The word, or that an operation is undefined.
fn faulty_where(undefined: Option<Undefined>, word: u64) -> Folded
    ensures { as_constant result ≡ faulty_where undefined word }
{
    match undefined {
        None => Folded::Word(word),
        Some(_) => Folded::Faulty,
    }
}

/// A constant after a conversion.
fn converted(conversion: Conversion, operand: Folded) -> Folded
    ensures { as_constant result ≡ converted_constant conversion (as_constant operand) }
{
    match conversion {
        Conversion::Integer { from, to } => match operand {
            Folded::Word(word) => Folded::Word(convert(from, to, word)),
            Folded::Variable => Folded::Variable,
            Folded::Faulty => Folded::Faulty,
        },
        Conversion::NullPointer => Folded::Variable,
    }
}

/// A constant after a conversion, if there is one.
fn converted_where(conversion: Option<Conversion>, left: Folded) -> Folded
    ensures { as_constant result ≡ converted_where conversion (as_constant left) }
{
    match conversion {
        None => left,
        Some(conversion) => converted(conversion, left),
    }
}

/// What an operation makes of two words.
fn combined(operation: Operation, left: u64, right: u64) -> Folded
    ensures { as_constant result ≡ combined_constant operation left right }
{
    match operation {
        Operation::Integer(operation) => {
            faulty_where(
                undefined(operation, left, right),
                operate(operation, left, right),
            )
        }
        Operation::Comparison(comparison, scalar) => {
            Folded::Word(u64::from(compare(comparison, scalar, left, right)))
        }
        Operation::Offset { .. } => Folded::Variable,
        Operation::OffsetOnLeft(_) => Folded::Variable,
        Operation::Pointers(_) => Folded::Variable,
    }
}

/// What a step of a chain makes of the constants on both sides.
fn stepped(
    conversion: Option<Conversion>,
    operation: Operation,
    left: Folded,
    right: Folded,
) -> Folded
    ensures { as_constant result ≡ step_constant conversion operation (as_constant right) (as_constant left) }
{
    match with_form(converted_where(conversion, left), right) {
        Folded::Word(a) => match right {
            Folded::Word(b) => combined(operation, a, b),
            Folded::Variable => Folded::Variable,
            Folded::Faulty => Folded::Faulty,
        },
        Folded::Variable => Folded::Variable,
        Folded::Faulty => Folded::Faulty,
    }
}

/// A constant after a unary operator.
fn signed(operator: ArithmeticSign, scalar: Scalar, operand: Folded) -> Folded
    ensures { as_constant result ≡ sign_constant operator scalar (as_constant operand) }
{
    match operand {
        Folded::Word(word) => faulty_where(
            undefined_unary(operator, scalar, word),
            apply_sign(operator, scalar, word),
        ),
        Folded::Variable => Folded::Variable,
        Folded::Faulty => Folded::Faulty,
    }
}

/// A constant after `!`.
fn negated(operand: Folded) -> Folded
    ensures { as_constant result ≡ not_constant (as_constant operand) }
{
    match operand {
        Folded::Word(word) => Folded::Word(u64::from(word == 0)),
        Folded::Variable => Folded::Variable,
        Folded::Faulty => Folded::Faulty,
    }
}

/// Whether a constant is zero or not, as a constant.
fn truth(operand: Folded) -> Folded
    ensures { as_constant result ≡ truth_of (as_constant operand) }
{
    match operand {
        Folded::Word(word) => Folded::Word(u64::from(word != 0)),
        Folded::Variable => Folded::Variable,
        Folded::Faulty => Folded::Faulty,
    }
}

/// The constant of `?:` by those of its parts.
fn chosen(condition: Folded, second: Folded, third: Folded) -> Folded
    ensures { as_constant result ≡ conditional_constant (as_constant condition) (as_constant second) (as_constant third) }
{
    match with_form(with_form(condition, second), third) {
        Folded::Word(word) => { if word == 0 { third } else { second } }
        Folded::Variable => Folded::Variable,
        Folded::Faulty => Folded::Faulty,
    }
}

/// Whether an operand of the word decides: of `||` where it isn't zero, of `&&` where it is.
fn decides(is_or: bool, word: u64) -> bool
    ensures { result ≡ decides is_or word }
{
    if is_or { word != 0 } else { word == 0 }
}

/// What the operands up to one decide, if they do, by what those before it do.
fn held_after(is_or: bool, held: Option<Folded>, operand: Folded) -> Option<Folded>
    ensures { as_held result ≡ held_after is_or (as_held held) (as_constant operand) }
{
    match held {
        Some(held) => Some(with_form(held, operand)),
        None => match operand {
            Folded::Word(word) => {
                if decides(is_or, word) {
                    Some(Folded::Word(u64::from(is_or)))
                } else {
                    None
                }
            }
            Folded::Variable => Some(Folded::Variable),
            Folded::Faulty => Some(Folded::Faulty),
        },
    }
}

/// What all operands give: what those before the last one decide, if they do, and else the last one.
fn settled(held: Option<Folded>, last: Folded) -> Folded
    ensures { as_constant result ≡ settled (as_held held) (as_constant last) }
{
    match held {
        Some(held) => with_form(held, last),
        None => last,
    }
}

/// What a read of an lvalue gives: the word of the object that is known, where it is the one that is named.
fn read(from: &Lvalue, known: Option<Known>) -> Folded
    ensures { as_constant result ≡ meaning.named_word (known_as known) (named_with (known_as known) from.now) }
{
    match known {
        None => Folded::Variable,
        Some(known) => match named_object(from) {
            Some(object) if object == known.object => Folded::Word(known.word),
            _ => Folded::Variable,
        },
    }
}

/// What an expression is where the word of an object is known.
#[cycle(constants)]
pub fn fold_expr(expr: &TypedExpr, known: Option<Known>) -> Folded
    ensures { as_constant result ≡ constant_with (known_as known) expr.now }
{
    match expr {
        TypedExpr::Constant { word, .. } => Folded::Word(*word),
        TypedExpr::Load { from, .. } => read(from.get(), known),
        TypedExpr::Decay { .. } => Folded::Variable,
        TypedExpr::Address { .. } => Folded::Variable,
        TypedExpr::Converted {
            conversion,
            operand,
        } => converted(*conversion, fold_expr(operand.get(), known)),
        TypedExpr::Cast {
            from,
            to,
            operand,
            ..
        } => {
            let conversion = Conversion::Integer {
                from: *from,
                to: *to,
            };
            converted(conversion, fold_expr(operand.get(), known))
        }
        TypedExpr::Unary {
            operator,
            scalar,
            operand,
            ..
        } => signed(*operator, *scalar, fold_expr(operand.get(), known)),
        TypedExpr::Not { operand, .. } => negated(fold_expr(operand.get(), known)),
        TypedExpr::Chain { first, steps } => {
            chain(fold_expr(first.get(), known), steps.as_slice(), known)
        },
        TypedExpr::LogicalAnd { first, rest } => {
            logical(false, fold_expr(first.get(), known), rest.as_slice(), known)
        },
        TypedExpr::LogicalOr { first, rest } => {
            logical(true, fold_expr(first.get(), known), rest.as_slice(), known)
        },
        TypedExpr::Conditional {
            condition,
            second,
            third,
            ..
        } => chosen(
            fold_expr(condition.get(), known),
            fold_expr(second.get(), known),
            fold_expr(third.get(), known),
        ),
        TypedExpr::Call { .. } => Folded::Variable,
    }
}

/// What operands of one level of binary operators give, by the first of them and the steps after it.
#[cycle(constants)]
fn chain(first: Folded, steps: &[ChainStep], known: Option<Known>) -> Folded
    ensures { as_constant result ≡ along_constants (map (step_folds (known_as known)) steps.now) (as_constant first) }
{
    let mut left = first;
    for step in steps {
        left = step_folded(step, left, known);
    }
    left
}

/// What a step of a chain makes of what stands on its left.
#[cycle(constants)]
fn step_folded(step: &ChainStep, left: Folded, known: Option<Known>) -> Folded
    ensures { as_constant result ≡ step_folds (known_as known) step.now (as_constant left) }
{
    stepped(
        step.left,
        step.operation,
        left,
        fold_expr(&step.right, known),
    )
}

/// What operands of `&&` or `||` give, by the first of them and the others, each looked at once.
#[cycle(constants)]
fn logical(is_or: bool, first: Folded, rest: &[LogicalOperand], known: Option<Known>) -> Folded
    ensures { as_constant result ≡ logical_constant is_or (as_constant first) (map (operand_folds (known_as known)) rest.now) }
{
    let mut held = None;
    let mut value = first;
    for operand in rest {
        held = held_after(is_or, held, value);
        value = operand_folded(operand, known);
    }
    settled(held, truth(value))
}

/// What an operand of `&&` or `||` is.
#[cycle(constants)]
fn operand_folded(operand: &LogicalOperand, known: Option<Known>) -> Folded
    ensures { as_constant result ≡ operand_folds (known_as known) operand.now }
{
    fold_expr(&operand.operand, known)
}

/// The word of a constant expression whose run is defined (C11 6.6). The time is linear in the expression, and the stack as deep as the
/// expression is nested.
pub fn constant_word(expr: &TypedExpr) -> Option<u64>
    ensures { result ≡ word_where true (constant_of expr.now) }
{
    match fold_expr(expr, None) {
        Folded::Word(word) => Some(word),
        _ => None,
    }
}
