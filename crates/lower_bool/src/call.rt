//! Operations with their widths.
use hy_bits::{Op, Width};

/// An operation whose result has the width `width`, over operands the first two of which have the widths `first` and `second`, as far as
/// it has them.
#[derive(Clone, Copy)]
pub struct Call {
    pub op: Op,
    pub width: Width,
    pub first: Width,
    pub second: Width,
}
