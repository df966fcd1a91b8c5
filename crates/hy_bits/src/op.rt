ghost use Rattle.std.specs.Prelude.{◌≡◌};

use crate::width::Width;
use crate::words;

/// An operation on words. `Sel` takes its second argument where its first, one bit, is 1, and else its third; `Trunc`
/// goes to a narrower, `ZeroExt` and `SignExt` to a wider width. `In` and `Const` have no argument.
#[derive(Clone, Copy, Debug, PartialEq, Eq, Hash)]
pub enum Op {
    In,
    Const,
    Add,
    Sub,
    Mul,
    Neg,
    DivU,
    DivS,
    RemU,
    RemS,
    And,
    Or,
    Xor,
    Not,
    Shl,
    ShrU,
    ShrS,
    LtU,
    LtS,
    Eq,
    Sel,
    Trunc,
    ZeroExt,
    SignExt,
}

impl Op {
    ghost use Rattle.hy_bits.specs.Words.{IsWord};
    ghost use Rattle.hy_bits.specs.Op.{op_value, IsTakenBy};

    /// The operation's value at a result of width `w`, where the first argument has the width `from`. What the operation
    /// has no argument for is ignored; the word of an input or a constant is `a`.
    pub fn value(self, w: Width, from: Width, a: u64, b: u64, c: u64) -> u64
        requires { IsTakenBy self w from a b c }
        ensures value { result ≡ op_value self w from a b c }
        ensures word { IsWord w result }
    {
        match self {
            Op::In | Op::Const => a,
            Op::Add => words::add(w, a, b),
            Op::Sub => words::sub(w, a, b),
            Op::Mul => words::mul(w, a, b),
            Op::Neg => words::neg(w, a),
            Op::DivU => words::div_u(w, a, b),
            Op::DivS => words::div_s(w, a, b),
            Op::RemU => words::rem_u(w, a, b),
            Op::RemS => words::rem_s(w, a, b),
            Op::And => words::and(w, a, b),
            Op::Or => words::or(w, a, b),
            Op::Xor => words::xor(w, a, b),
            Op::Not => words::not(w, a),
            Op::Shl => words::shl(w, a, b),
            Op::ShrU => words::shr_u(w, a, b),
            Op::ShrS => words::shr_s(w, a, b),
            Op::LtU => u64::from(words::lt_u(from, a, b)),
            Op::LtS => u64::from(words::lt_s(from, a, b)),
            Op::Eq => u64::from(words::eq(from, a, b)),
            Op::Sel => if a == 1 { b } else { c },
            Op::Trunc => words::truncate(w, a),
            Op::ZeroExt => words::extend(from, w, false, a),
            Op::SignExt => words::extend(from, w, true, a),
        }
    }
}
