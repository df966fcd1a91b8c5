//! Conversions between scalar types.

ghost use Rattle.std.specs.Prelude.{◌≡◌};
ghost use Rattle.c_meaning.specs.Sizes as sizes;
ghost use Rattle.c_conversions.specs.Scalars as spec;

use c_meaning::Conversion;
use hy_bits::Scalar;

/// The type that the integer promotions give (C11 6.3.1.1p2).
pub fn promoted(scalar: Scalar) -> Scalar
    ensures { result ≡ sizes.promoted scalar }
{
    match scalar {
        Scalar::U32 => Scalar::U32,
        Scalar::S64 => Scalar::S64,
        Scalar::U64 => Scalar::U64,
        _ => Scalar::S32,
    }
}

/// Whether two types are one.
pub fn same_scalar(a: Scalar, b: Scalar) -> bool
    ensures { result ≡ spec.same_scalar a b }
{
    a.width().bits() == b.width().bits() && a.signed() == b.signed()
}

/// The first of two types of one sign, unless the second is wider.
fn wider(a: Scalar, b: Scalar) -> Scalar
    ensures { result ≡ spec.wider a b }
{
    if a.width().bits() >= b.width().bits() {
        a
    } else {
        b
    }
}

/// The unsigned type where it is at least as wide as the signed one, and else the signed one.
fn unsigned_if_as_wide(unsigned: Scalar, signed: Scalar) -> Scalar
    ensures { result ≡ spec.unsigned_if_as_wide unsigned signed }
{
    if unsigned.width().bits() >= signed.width().bits() {
        unsigned
    } else {
        signed
    }
}

/// The type of the usual arithmetic conversions (C11 6.3.1.8).
pub fn usual(a: Scalar, b: Scalar) -> Scalar
    ensures { result ≡ spec.usual a b }
{
    let a = promoted(a);
    let b = promoted(b);
    if a.signed() == b.signed() {
        wider(a, b)
    } else if a.signed() {
        unsigned_if_as_wide(b, a)
    } else {
        unsigned_if_as_wide(a, b)
    }
}

/// The conversion of an integer that a typed program writes out: none where the types are one.
pub fn conversion_between(from: Scalar, to: Scalar) -> Option<Conversion>
    ensures { result ≡ spec.conversion_between from to }
{
    if same_scalar(from, to) {
        None
    } else {
        Some(Conversion::Integer { from, to })
    }
}
