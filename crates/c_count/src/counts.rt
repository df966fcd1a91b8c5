ghost use Rattle.std.specs.Prelude.{◌≡◌, ◌-◌, min};
ghost use Rattle.c_count.specs.Counts.{most_count};

/// A length as a count.
pub fn clamped(length: usize) -> u32
    ensures { result ≡ min length most_count }
{
    if length > 0xffff_ffff {
        0xffff_ffff
    } else {
        length as u32
    }
}

/// How many separators stand between so many parts.
pub fn separators(parts: usize) -> u32
    ensures { result ≡ min (parts - 1) most_count }
{
    if parts == 0 { 0 } else { clamped(parts - 1) }
}
