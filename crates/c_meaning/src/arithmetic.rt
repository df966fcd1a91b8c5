//! Operations on integers of C's types, on words that may be wider than the type: their low bits are taken.

ghost use Rattle.std.specs.Prelude.{◌≡◌, ◌^◌, ◌<◌, ◌||◌, ◌*ℤ◌, ℤ, pos, int_div, SomeIff, FitsSigned};
ghost use Rattle.std.specs.Int.{w64, IsNonZero};
ghost use Rattle.hy_bits.specs.Scalar.{scalar_width};
ghost use Rattle.hy_bits.specs.Words.{IsWord, bits, is_negative, signed};
ghost use Rattle.c_meaning.specs.Operations.{modulus_of, low, converted_to, operated, undefined_operation, compares, signed_by, undefined_sign, is_out_of_range, overflows, where_is, arithmetic, undefined_quotient, undefined_arithmetic, shifted, undefined_shift, is_less};

use crate::operators::{
    ArithmeticOperator, ArithmeticSign, Comparison, IntegerOperation, ShiftOperator,
};
use crate::values::Undefined;
use hy_bits::{Scalar, Width};

/// The low bits of a word, as many as the type has.
pub fn word_of(scalar: Scalar, word: u64) -> u64
    ensures { result ≡ low scalar word }
{
    hy_bits::truncate(scalar.width(), word)
}

/// A word of the type `from` as a word of the type `to` (C11 6.3.1).
pub fn convert(from: Scalar, to: Scalar, word: u64) -> u64
    ensures value { result ≡ converted_to from to word }
    ensures word { IsWord (scalar_width to) result }
{
    let word = word_of(from, word);
    match to {
        Scalar::B1 => u64::from(word != 0),
        _ => hy_bits::extend(from.width(), to.width(), from.signed(), word),
    }
}

/// The number that a word of a signed type is read as.
fn signed_reading(scalar: Scalar, word: u64) -> i64
    requires { IsWord (scalar_width scalar) word }
    ensures { result ≡ signed (modulus_of scalar) word }
{
    let complement = hy_bits::not(scalar.width(), word);
    if complement < word {
        !(complement as i64)
    } else {
        word as i64
    }
}

/// Whether a signed type doesn't hold the exact number, which is `None` where 64 bits don't.
fn overflows(scalar: Scalar, exact: Option<i64>) -> bool
    ensures { (z : ℤ) → SomeIff exact (FitsSigned w64 z) z → result ≡ is_out_of_range scalar z }
{
    let greatest = (hy_bits::not(scalar.width(), 0) / 2) as i64;
    match exact {
        None => true,
        Some(exact) => exact > greatest || exact < !greatest,
    }
}

fn where_overflows(scalar: Scalar, exact: Option<i64>) -> Option<Undefined>
    ensures { (z : ℤ) → SomeIff exact (FitsSigned w64 z) z → result ≡ where_is (overflows scalar z) Undefined.Overflow }
{
    if scalar.signed() && overflows(scalar, exact) {
        Some(Undefined::Overflow)
    } else {
        None
    }
}

fn arithmetic(operator: ArithmeticOperator, scalar: Scalar, a: u64, b: u64) -> u64
    requires a { IsWord (scalar_width scalar) a }
    requires b { IsWord (scalar_width scalar) b }
    ensures { result ≡ arithmetic operator scalar a b }
{
    let w = scalar.width();
    match operator {
        ArithmeticOperator::Multiply => hy_bits::mul(w, a, b),
        ArithmeticOperator::Divide if scalar.signed() => hy_bits::div_s(w, a, b),
        ArithmeticOperator::Divide => hy_bits::div_u(w, a, b),
        ArithmeticOperator::Remainder if scalar.signed() => hy_bits::rem_s(w, a, b),
        ArithmeticOperator::Remainder => hy_bits::rem_u(w, a, b),
        ArithmeticOperator::Add => hy_bits::add(w, a, b),
        ArithmeticOperator::Subtract => hy_bits::sub(w, a, b),
        ArithmeticOperator::And => hy_bits::and(w, a, b),
        ArithmeticOperator::Xor => hy_bits::xor(w, a, b),
        ArithmeticOperator::Or => hy_bits::or(w, a, b),
    }
}

/// The exact quotient of two numbers, if 64 bits hold it.
#[tactic(auto, using(crate::proofs::ShiftLaws::divided))]
fn divide(x: i64, y: i64) -> Option<i64>
    requires { IsNonZero w64 y }
    ensures { SomeIff result (FitsSigned w64 (int_div x y)) (int_div x y) }
{
    x.checked_div(y)
}

/// The exact quotient of two words of a signed type, if 64 bits hold it.
#[tactic(auto, using(crate::proofs::ShiftLaws::nonzero))]
fn exact_quotient(scalar: Scalar, a: u64, b: u64) -> Option<i64>
    requires a { IsWord (scalar_width scalar) a }
    requires b { IsWord (scalar_width scalar) b }
    requires nonzero { 0 < b }
    ensures { SomeIff result (FitsSigned w64 (int_div (signed (modulus_of scalar) a) (signed (modulus_of scalar) b))) (int_div (signed (modulus_of scalar) a) (signed (modulus_of scalar) b)) }
{
    divide(signed_reading(scalar, a), signed_reading(scalar, b))
}

fn undefined_quotient(scalar: Scalar, a: u64, b: u64) -> Option<Undefined>
    requires a { IsWord (scalar_width scalar) a }
    requires b { IsWord (scalar_width scalar) b }
    ensures { result ≡ undefined_quotient scalar a b }
{
    if b == 0 {
        return Some(Undefined::Divide);
    }
    if !scalar.signed() {
        return None;
    }
    where_overflows(scalar, exact_quotient(scalar, a, b))
}

fn undefined_arithmetic(
    operator: ArithmeticOperator,
    scalar: Scalar,
    a: u64,
    b: u64,
) -> Option<Undefined>
    requires a { IsWord (scalar_width scalar) a }
    requires b { IsWord (scalar_width scalar) b }
    ensures { result ≡ undefined_arithmetic operator scalar a b }
{
    if !scalar.signed() {
        return match operator {
            ArithmeticOperator::Divide | ArithmeticOperator::Remainder => undefined_quotient(
                scalar, a, b,
            ),
            _ => None,
        };
    }
    let (x, y) = (signed_reading(scalar, a), signed_reading(scalar, b));
    match operator {
        ArithmeticOperator::Divide | ArithmeticOperator::Remainder => undefined_quotient(
            scalar, a, b,
        ),
        ArithmeticOperator::Multiply => where_overflows(scalar, x.checked_mul(y)),
        ArithmeticOperator::Add => where_overflows(scalar, x.checked_add(y)),
        ArithmeticOperator::Subtract => where_overflows(scalar, x.checked_sub(y)),
        _ => None,
    }
}

fn shift(operator: ShiftOperator, scalar: Scalar, a: u64, count: u64) -> u64
    requires { IsWord (scalar_width scalar) a }
    ensures { result ≡ shifted operator scalar a count }
{
    let w = scalar.width();
    match operator {
        ShiftOperator::Left => hy_bits::shl(w, a, count),
        ShiftOperator::Right if scalar.signed() => hy_bits::shr_s(w, a, count),
        ShiftOperator::Right => hy_bits::shr_u(w, a, count),
    }
}

/// Whether a left shift is of a negative word, or to a number that the signed type doesn't hold.
#[tactic(auto, using(crate::proofs::ShiftLaws::left_loses))]
fn loses_left(scalar: Scalar, a: u64, count: u64) -> bool
    requires word { IsWord (scalar_width scalar) a }
    requires count { count < bits (scalar_width scalar) }
    ensures { result ≡ (is_negative (modulus_of scalar) a || is_out_of_range scalar (pos a *ℤ pos (2 ^ count))) }
{
    let greatest = hy_bits::not(scalar.width(), 0) / 2;
    a > (greatest >> count)
}

fn undefined_shift(operator: ShiftOperator, scalar: Scalar, a: u64, count: u64) -> Option<Undefined>
    requires { IsWord (scalar_width scalar) a }
    ensures { result ≡ undefined_shift operator scalar a count }
{
    if count >= u64::from(scalar.width().bits()) {
        return Some(Undefined::Shift);
    }
    match operator {
        ShiftOperator::Right => None,
        ShiftOperator::Left => {
            if scalar.signed() && loses_left(scalar, a, count) {
                Some(Undefined::Shift)
            } else {
                None
            }
        }
    }
}

/// The word that an operation gives.
pub fn operate(operation: IntegerOperation, left: u64, right: u64) -> u64
    ensures { result ≡ operated operation left right }
{
    match operation {
        IntegerOperation::Arithmetic(operator, scalar) => {
            arithmetic(
                operator,
                scalar,
                word_of(scalar, left),
                word_of(scalar, right),
            )
        }
        IntegerOperation::Shift {
            operator,
            scalar,
            count,
        } => {
            shift(
                operator,
                scalar,
                word_of(scalar, left),
                word_of(count, right),
            )
        }
    }
}

/// How an operation is undefined in C, if it is.
pub fn undefined(operation: IntegerOperation, left: u64, right: u64) -> Option<Undefined>
    ensures { result ≡ undefined_operation operation left right }
{
    match operation {
        IntegerOperation::Arithmetic(operator, scalar) => {
            undefined_arithmetic(
                operator,
                scalar,
                word_of(scalar, left),
                word_of(scalar, right),
            )
        }
        IntegerOperation::Shift {
            operator,
            scalar,
            count,
        } => {
            undefined_shift(
                operator,
                scalar,
                word_of(scalar, left),
                word_of(count, right),
            )
        }
    }
}

/// Whether a comparison holds.
pub fn compare(comparison: Comparison, scalar: Scalar, left: u64, right: u64) -> bool
    ensures { result ≡ compares comparison scalar left right }
{
    let (a, b) = (word_of(scalar, left), word_of(scalar, right));
    match comparison {
        Comparison::Less => is_less(scalar, a, b),
        Comparison::Greater => is_less(scalar, b, a),
        Comparison::LessOrEqual => !is_less(scalar, b, a),
        Comparison::GreaterOrEqual => !is_less(scalar, a, b),
        Comparison::Equal => a == b,
        Comparison::Unequal => a != b,
    }
}

fn is_less(scalar: Scalar, a: u64, b: u64) -> bool
    requires a { IsWord (scalar_width scalar) a }
    requires b { IsWord (scalar_width scalar) b }
    ensures { result ≡ is_less scalar a b }
{
    let w = scalar.width();
    if scalar.signed() {
        hy_bits::lt_s(w, a, b)
    } else {
        hy_bits::lt_u(w, a, b)
    }
}

/// The word that a unary operator gives.
pub fn apply_sign(sign: ArithmeticSign, scalar: Scalar, word: u64) -> u64
    ensures { result ≡ signed_by sign scalar word }
{
    let word = word_of(scalar, word);
    match sign {
        ArithmeticSign::Plus => word,
        ArithmeticSign::Minus => hy_bits::neg(scalar.width(), word),
        ArithmeticSign::Complement => hy_bits::not(scalar.width(), word),
    }
}

/// How a unary operator is undefined in C, if it is.
pub fn undefined_unary(sign: ArithmeticSign, scalar: Scalar, word: u64) -> Option<Undefined>
    ensures { result ≡ undefined_sign sign scalar word }
{
    match sign {
        ArithmeticSign::Minus if scalar.signed() => {
            where_overflows(
                scalar,
                signed_reading(scalar, word_of(scalar, word)).checked_neg(),
            )
        }
        _ => None,
    }
}
