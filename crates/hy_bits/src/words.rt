ghost use Rattle.std.specs.Prelude.{◌≡◌, ◌-◌, ◌%◌, ◌==◌, bit_and, bit_or, bit_xor, nat_lt, if◌then◌else◌, unsigned_abs};
ghost use Rattle.hy_bits.specs.Words.{bits, modulus, IsWord, is_less_s, is_negative, signed, word_add, word_div_s, word_div_u, word_extend, word_mul, word_neg, word_not, word_rem_s, word_rem_u, word_shl, word_shr_s, word_shr_u, word_sub};

use crate::Width;

/// The sum of two words, modulo two to the width.
pub fn add(w: Width, a: u64, b: u64) -> u64
    requires a { IsWord w a }
    requires b { IsWord w b }
    ensures value { result ≡ word_add (modulus w) a b }
    ensures word { IsWord w result }
{
    truncate(w, a.wrapping_add(b))
}

/// The difference of two words, modulo two to the width.
pub fn sub(w: Width, a: u64, b: u64) -> u64
    requires a { IsWord w a }
    requires b { IsWord w b }
    ensures value { result ≡ word_sub (modulus w) a b }
    ensures word { IsWord w result }
{
    truncate(w, a.wrapping_sub(b))
}

/// The product of two words, modulo two to the width.
pub fn mul(w: Width, a: u64, b: u64) -> u64
    requires a { IsWord w a }
    requires b { IsWord w b }
    ensures value { result ≡ word_mul (modulus w) a b }
    ensures word { IsWord w result }
{
    truncate(w, a.wrapping_mul(b))
}

/// Zero minus a word, modulo two to the width.
pub fn neg(w: Width, a: u64) -> u64
    requires { IsWord w a }
    ensures value { result ≡ word_neg (modulus w) a }
    ensures word { IsWord w result }
{
    truncate(w, a.wrapping_neg())
}

/// The unsigned quotient, rounded down; by zero it is all ones.
pub fn div_u(w: Width, a: u64, b: u64) -> u64
    requires a { IsWord w a }
    requires b { IsWord w b }
    ensures value { result ≡ word_div_u (modulus w) a b }
    ensures word { IsWord w result }
{
    if b == 0 { mask(w) } else { a / b }
}

/// The signed quotient, rounded toward zero; by zero it is 1 for a negative dividend, and else -1.
pub fn div_s(w: Width, a: u64, b: u64) -> u64
    requires a { IsWord w a }
    requires b { IsWord w b }
    ensures value { result ≡ word_div_s (modulus w) a b }
    ensures word { IsWord w result }
{
    let negative = is_negative(w, a);
    if b == 0 {
        return if negative { 1 } else { mask(w) };
    }
    with_sign(
        w,
        negative != is_negative(w, b),
        magnitude(w, a) / magnitude(w, b),
    )
}

/// The unsigned remainder; by zero it is the dividend.
pub fn rem_u(w: Width, a: u64, b: u64) -> u64
    requires a { IsWord w a }
    requires b { IsWord w b }
    ensures value { result ≡ word_rem_u a b }
    ensures word { IsWord w result }
{
    if b == 0 { a } else { a % b }
}

/// The signed remainder, with the dividend's sign; by zero it is the dividend.
pub fn rem_s(w: Width, a: u64, b: u64) -> u64
    requires a { IsWord w a }
    requires b { IsWord w b }
    ensures value { result ≡ word_rem_s (modulus w) a b }
    ensures word { IsWord w result }
{
    if b == 0 {
        return a;
    }
    with_sign(w, is_negative(w, a), magnitude(w, a) % magnitude(w, b))
}

/// The bits that both words have.
pub fn and(w: Width, a: u64, b: u64) -> u64
    requires a { IsWord w a }
    requires b { IsWord w b }
    ensures value { result ≡ bit_and a b }
    ensures word { IsWord w result }
{
    a & b
}

/// The bits that one of the words has, or both have.
pub fn or(w: Width, a: u64, b: u64) -> u64
    requires a { IsWord w a }
    requires b { IsWord w b }
    ensures value { result ≡ bit_or a b }
    ensures word { IsWord w result }
{
    a | b
}

/// The bits that exactly one of the words has.
pub fn xor(w: Width, a: u64, b: u64) -> u64
    requires a { IsWord w a }
    requires b { IsWord w b }
    ensures value { result ≡ bit_xor a b }
    ensures word { IsWord w result }
{
    a ^ b
}

/// The bits of the width that the word doesn't have.
pub fn not(w: Width, a: u64) -> u64
    requires { IsWord w a }
    ensures value { result ≡ word_not (modulus w) a }
    ensures word { IsWord w result }
{
    mask(w) - a
}

/// The word moved `b` bits up; nothing is left of it from the width's number of bits on.
pub fn shl(w: Width, a: u64, b: u64) -> u64
    requires { IsWord w a }
    ensures value { result ≡ word_shl (bits w) a b }
    ensures word { IsWord w result }
{
    if b < u64::from(w.bits()) {
        truncate(w, a << b)
    } else {
        0
    }
}

/// The word moved `b` bits down; nothing is left of it from the width's number of bits on.
pub fn shr_u(w: Width, a: u64, b: u64) -> u64
    requires { IsWord w a }
    ensures value { result ≡ word_shr_u (bits w) a b }
    ensures word { IsWord w result }
{
    if b < u64::from(w.bits()) { a >> b } else { 0 }
}

/// The word moved `b` bits down, with its sign bit copied into the places that become free; from the width's number of
/// bits on all bits are the sign bit.
pub fn shr_s(w: Width, a: u64, b: u64) -> u64
    requires { IsWord w a }
    ensures value { result ≡ word_shr_s (bits w) a b }
    ensures word { IsWord w result }
{
    if is_negative(w, a) {
        not(w, shr_u(w, not(w, a), b))
    } else {
        shr_u(w, a, b)
    }
}

/// Whether the unsigned reading of `a` is below that of `b`.
pub fn lt_u(w: Width, a: u64, b: u64) -> bool
    requires a { IsWord w a }
    requires b { IsWord w b }
    ensures { result ≡ nat_lt a b }
{
    a < b
}

/// Whether the signed reading of `a` is below that of `b`.
pub fn lt_s(w: Width, a: u64, b: u64) -> bool
    requires a { IsWord w a }
    requires b { IsWord w b }
    ensures { result ≡ is_less_s (modulus w) a b }
{
    if is_negative(w, a) == is_negative(w, b) {
        a < b
    } else {
        is_negative(w, a)
    }
}

/// Whether the words are equal.
pub fn eq(w: Width, a: u64, b: u64) -> bool
    requires a { IsWord w a }
    requires b { IsWord w b }
    ensures { result ≡ (a == b) }
{
    a == b
}

/// The value of a word of the width `from`, read as signed or unsigned, modulo two to the width `to`.
pub fn extend(from: Width, to: Width, signed: bool, a: u64) -> u64
    requires { IsWord from a }
    ensures value { result ≡ word_extend (modulus from) (modulus to) signed a }
    ensures word { IsWord to result }
{
    if signed && is_negative(from, a) {
        neg(to, truncate(to, neg(from, a)))
    } else {
        truncate(to, a)
    }
}

/// The lowest bits of any number, as a word of the width `to`.
pub fn truncate(to: Width, a: u64) -> u64
    ensures value { result ≡ a % modulus to }
    ensures word { IsWord to result }
{
    a & mask(to)
}

/// The greatest word of a width: all its bits are ones.
fn mask(w: Width) -> u64
    ensures { result ≡ modulus w - 1 }
{
    match w {
        Width::W1 => 1,
        Width::W8 => 0xff,
        Width::W16 => 0xffff,
        Width::W32 => 0xffff_ffff,
        Width::W64 => u64::MAX,
    }
}

/// Whether the signed reading of a word is below 0, as its highest bit says.
fn is_negative(w: Width, a: u64) -> bool
    requires { IsWord w a }
    ensures { result ≡ is_negative (modulus w) a }
{
    a > mask(w) / 2
}

/// How far the signed reading of a word is from 0.
fn magnitude(w: Width, a: u64) -> u64
    requires { IsWord w a }
    ensures { result ≡ unsigned_abs (signed (modulus w) a) }
{
    if is_negative(w, a) { neg(w, a) } else { a }
}

/// The word of a number, or of minus that number.
fn with_sign(w: Width, negative: bool, magnitude: u64) -> u64
    requires { IsWord w magnitude }
    ensures { result ≡ (if negative then word_neg (modulus w) magnitude else magnitude) }
{
    if negative {
        neg(w, magnitude)
    } else {
        magnitude
    }
}
