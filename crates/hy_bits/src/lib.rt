//! Words, texts, shapes and the other small values that every layer of hycc speaks of.
//!
//! A word of a width is a `u64` below two to the number of the width's bits. Each operation on words is arithmetic on the
//! exact numbers that the words are read as, reduced modulo that power, and is defined for all words: where C leaves a
//! quotient, a remainder or a shift undefined, the comment at its definition says what it is here.
//!
//! # Guarantees
//!
//! - `add`, `sub`, `mul`, `neg`, `div_u`, `div_s`, `rem_u`, `rem_s`, `and`, `or`, `xor`, `not`, `shl`, `shr_u`, `shr_s`, `lt_u`,
//!   `lt_s`, `eq`, `extend` and `truncate` give C's answer, or where C has none the stated one (`src/words.rt`; read `specs/Words.antt`).
//! - `Op::value` gives the answer of the operation that it is asked for, as a word of the result's width (`src/op.rt`; read
//!   `specs/Words.antt`, then `specs/Op.antt`).
//! - `Op::size` tells the most gates of a circuit for an operation, and `Width::log_bits` the logarithm in it (`src/sizes.rt`; read
//!   `specs/Sizes.antt`, where the stated numbers of And gates stand beside it).
//! - `bits_of` and `word_of` turn a word into its bits, lowest first, and back (`src/bits.rt`; read `specs/Bits.antt`).
//! - `decimal_number` reads a number below 2^64 exactly where the text is its decimal one (`src/decimal.rt`; read `specs/Decimal.antt`).
//! - `Width::bits`, `Scalar::width` and `Scalar::signed` tell a type's size and sign (`src/width.rt`, `src/scalar.rt`; read `specs/Scalar.antt`).
//! - `Shape::copy`, `Field::copy` and `Port::copy` give an equal value, or want memory (`src/shape.rt`).
//! - `Text`, `Sequence`, `Inputs` and `Turns` hold exactly the list that they were made of (`src/text.rt`, `src/sequence.rt`,
//!   `src/turns.rt`); of one list all values are equal.
//!
//! Laws that the crates above can import:
//!
//! | lemmas | on |
//! |---|---|
//! | `proofs/WordLaws.antt` | operations on words below any modulus: sums, differences and products of the signed readings, quotients by distances from 0, signed comparison as unsigned, shifts, extension; that each `Op` gives a word |
//! | `proofs/BitLaws.antt` | lists of bits of any length: that bits and number are inverse; low bits, complement, and, or, xor, of one bit and of words; the full adder, sums, differences and borrows, carries ahead of the sum, carry-save adders; rows of a product, shifts, extension, selection, equality |
//! | `proofs/ShapeLaws.antt` | the scalars of each kind of shape (`specs/Shape.antt`) |
//! | `proofs/PortLaws.antt` | words fit ports exactly where each party's words fit its own ports, and a party's word stands at its leaf's number among the party's leaves (`specs/Ports.antt`) |
#![tactic(auto)]

mod bits;
mod decimal;
mod memory;
mod op;
mod scalar;
mod sequence;
mod shape;
mod sizes;
mod text;
mod turns;
mod width;
mod words;

pub use bits::{bits_of, word_of};
pub use decimal::decimal_number;
pub use memory::Memory;
pub use op::Op;
pub use scalar::Scalar;
pub use sequence::{Inputs, Sequence};
pub use shape::{Field, Port, Shape};
pub use text::Text;
pub use turns::{Role, TURN_LIMIT, Turns};
pub use width::Width;
pub use words::{
    add, and, div_s, div_u, eq, extend, lt_s, lt_u, mul, neg, not, or, rem_s, rem_u, shl, shr_s,
    shr_u, sub, truncate, xor,
};
