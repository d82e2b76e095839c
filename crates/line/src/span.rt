//! Where in a line a value lies, and its bytes there: little-endian, so the lowest byte has the lowest offset.
ghost use Rattle.std.specs.Prelude.{◌≡◌, ℕ, ◌+◌, ◌/◌, ◌%◌, ◌≤◌, true, is_some, IfSome};
ghost use Rattle.line.specs.Laid.{bit};
ghost use Rattle.line.specs.Values.{is_size, fits_line, covers, value_mask, value_bytes, value_in, Held};

use crate::values::{is_size, line_of, offset_of};

/// The bytes that a value takes: 1, 2, 4 or 8 bytes of one line, from an offset up.
#[derive(Clone, Copy)]
pub struct Span {
    pub line: u32,
    pub offset: u8,
    pub size: u8,
    ghost sized: { is_size size ≡ true },
    ghost inside: { offset + size ≤ 16 },
}

impl Span {
    /// The span of `size` bytes from `address` up, or nothing where no value has that size or it would leave its line.
    pub fn new(address: u32, size: u8) -> Option<Span>
        ensures test { is_some result ≡ fits_line address size }
        ensures parts { IfSome result (λ s. (s.line ≡ address / 16) × (s.offset ≡ address % 16) × (s.size ≡ size)) }
    {
        let offset = offset_of(address);
        if !is_size(size) || offset + size > 16 {
            return None;
        }
        Some(Span {
            line: line_of(address),
            offset,
            size,
        })
    }

    /// The mask of the value's bytes: bit i is 1 exactly where byte i of the line is one of them.
    pub fn mask(self) -> u16
        ensures value { result ≡ value_mask self.offset self.size }
        ensures bits { (i : ℕ) → bit result i ≡ covers self.offset self.size i }
    {
        (u16::MAX >> (16 - self.size)) << self.offset
    }

    /// The bytes of a value at its offset in a line of zeros; of a value that is too large, its low bytes.
    /// A line that they are laid on under the mask holds the value.
    pub fn bytes(self, value: u64) -> [u8; 16]
        ensures value { result ≡ value_bytes self.offset self.size value }
        ensures back { Held self.offset self.size value result }
    {
        let from = usize::from(self.offset);
        let count = usize::from(self.size);
        let mut bytes = [0; 16];
        bytes[from..from + count].copy_from_slice(&value.to_le_bytes()[..count]);
        bytes
    }

    /// The value that a line holds there.
    pub fn value(self, line: [u8; 16]) -> u64
        ensures { result ≡ value_in self.offset self.size line }
    {
        let from = usize::from(self.offset);
        let count = usize::from(self.size);
        let mut low = [0; 8];
        low[..count].copy_from_slice(&line[from..from + count]);
        u64::from_le_bytes(low)
    }
}
