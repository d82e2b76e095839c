//! Lines that answer every request with a fault.
use list::keyed::Keyed;

/// A line that is bad, and the cause that its fault names.
#[derive(Clone, Copy, PartialEq, Eq, Debug, Default)]
pub struct BadLine {
    pub line: u32,
    pub cause: u8,
}

/// A bad line has its line as its key.
impl Keyed for BadLine {
    ghost key = { λ bad. bad.line };

    fn key_of(&self) -> u32 {
        self.line
    }
}
