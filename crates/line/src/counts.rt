//! The counts that a cache is built of: sets, ways, and the bytes of a value.
ghost use Rattle.line.specs.Counts.{is_count};
ghost use Rattle.std.specs.Prelude.{◌≡◌};

/// Whether this is 1, 2, 4 or 8.
pub fn is_count(n: u64) -> bool
    ensures { result ≡ is_count n }
{
    matches!(n, 1 | 2 | 4 | 8)
}
