ghost use Rattle.std.specs.Prelude.{◌≡◌, ◌<◌, ◌-◌};

use std::alloc::Global;

/// The rules of this crate where `left` levels of nesting are left, in lists of at most `size` tokens. What they read is
/// kept in memory of `alloc`.
#[derive(Clone, Copy)]
pub struct Rules {
    pub alloc: Global,
    pub size: usize,
    pub left: u32,
}

impl Rules {
    /// The rules of what is nested.
    pub fn nested(self) -> Rules
        requires { 0 < self.left }
        ensures { result ≡ record self { left = self.left - 1 } }
    {
        Rules {
            alloc: self.alloc,
            size: self.size,
            left: self.left - 1,
        }
    }
}
