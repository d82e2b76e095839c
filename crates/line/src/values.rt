//! The line of an address, its offset there, and the sizes that a value may have.
ghost use Rattle.std.specs.Prelude.{◌≡◌, ◌/◌, ◌%◌};
ghost use Rattle.line.specs.Values.{is_size};

use crate::counts::is_count;

/// The line that an address lies in.
pub fn line_of(address: u32) -> u32
    ensures { result ≡ address / 16 }
{
    address / 16
}

/// The offset of an address in its line.
pub fn offset_of(address: u32) -> u8
    ensures { result ≡ address % 16 }
{
    // below 16: `TryFrom` would add an error that cannot come
    (address % 16) as u8
}

/// Whether a value may have that many bytes.
pub fn is_size(size: u8) -> bool
    ensures { result ≡ is_size size }
{
    is_count(u64::from(size))
}
