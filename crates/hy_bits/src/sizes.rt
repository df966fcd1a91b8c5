//! The gates of the circuits that compute each operation.
ghost use Rattle.std.specs.Prelude.{◌≡◌, ◌≤◌};
ghost use Rattle.hy_bits.specs.Sizes.{log_bits, operation_size, sum_size};

use crate::{Op, Width};

impl Width {
    /// The logarithm to base two of the number of bits.
    pub fn log_bits(self) -> u32
        ensures { result ≡ log_bits self }
    {
        match self {
            Width::W1 => 0,
            Width::W8 => 3,
            Width::W16 => 4,
            Width::W32 => 5,
            Width::W64 => 6,
        }
    }
}

/// Of an adder at the width `w`, in which carries go ahead of the sum.
fn sum_size(w: Width) -> u32
    ensures size { result ≡ sum_size w }
    ensures few { result ≤ 3584 }
{
    match w {
        Width::W1 => 8,
        Width::W8 => 256,
        Width::W16 => 640,
        Width::W32 => 1536,
        Width::W64 => 3584,
    }
}

impl Op {
    /// The most gates of a circuit for the operation with a result of width `w`, where its first and second argument have
    /// the widths `x` and `y`. An argument that the operation lacks counts for nothing, whatever its width.
    pub fn size(self, w: Width, x: Width, y: Width) -> u32
        ensures { result ≡ operation_size self w x y }
    {
        let n = w.bits();
        match self {
            Op::In | Op::Const | Op::Trunc | Op::ZeroExt | Op::SignExt => 0,
            Op::Add | Op::Sub | Op::Neg => sum_size(w),
            Op::Mul => 8 * n * n + sum_size(w),
            Op::DivU | Op::DivS | Op::RemU | Op::RemS => n * sum_size(w),
            Op::And | Op::Or | Op::Xor | Op::Not | Op::Sel => 4 * n,
            Op::Shl | Op::ShrU | Op::ShrS => sum_size(w) + 4 * y.bits(),
            Op::LtU | Op::LtS => sum_size(x),
            Op::Eq => 4 * x.bits(),
        }
    }
}
