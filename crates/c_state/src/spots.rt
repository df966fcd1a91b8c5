ghost use Rattle.std.specs.Prelude.{◌≤◌};
ghost use Rattle.c_state.specs.Limits.{last_cell};

/// A cell of an object, in the life that a pointer to it was made in.
#[derive(Clone, Copy)]
pub struct Spot {
    pub object: u32,
    pub at: u64,
    pub life: u64,
    ghost near: { at ≤ last_cell },
}
