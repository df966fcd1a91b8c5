ghost use Rattle.std.specs.Prelude.{◌≡◌};
ghost use Rattle.hy_io.specs.Outside.{next as next_count};

/// The count after one more, which stands still at the end of `u64`.
pub fn next(count: u64) -> u64
    ensures { result ≡ next_count count }
{
    count.saturating_add(1)
}
