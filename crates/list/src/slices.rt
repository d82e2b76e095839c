//! What is asked of slices whose elements have no key.
ghost use Rattle.list.specs.Zeros.{all_zero};
ghost use Rattle.std.specs.Prelude.{◌≡◌, take};

/// The first `n` elements, or all where there are fewer.
pub fn front<T>(items: &[T], n: usize) -> &[T]
    ensures { result.now ≡ take n items.now }
{
    items.get(..n).unwrap_or(items)
}

/// Whether every byte is 0.
pub fn all_zero(bytes: &[u8]) -> bool
    ensures { result ≡ all_zero bytes.now }
{
    bytes.iter().all(|byte| *byte == 0)
}
