//! Which loads and stores are lawful, and why another one is refused.
ghost use Rattle.std.specs.Prelude.{◌≡◌, ◌↔◌, false, IfErr, IsOk, Ok, Err, MatchResult};
ghost use Rattle.line.specs.Values.{fits_line};
ghost use Rattle.port.specs.Requests.{unlawful_code, load_verdict, store_verdict, LawfulLoad, LawfulStore, Spans};
ghost use Rattle.port.specs.declared.request.Unlawful.TheVariants.{Alignment};

use line::LINE_SIZE;
use line::span::Span;
use line::values::is_size;

/// Why a request is not lawful.
#[derive(Clone, Copy, PartialEq, Eq, Debug)]
pub enum Unlawful {
    /// The size is not 1, 2, 4 or 8 bytes.
    Size,
    /// The address is no multiple of the size.
    Alignment,
    /// The request goes past the end of the memory.
    Range,
    /// The value needs more bytes than the size.
    Value,
}

/// The number that it is refused by.
impl From<Unlawful> for u8 {
    ghost from_gives = { λ unlawful code. code ≡ unlawful_code unlawful };

    fn from(unlawful: Unlawful) -> u8 {
        match unlawful {
            Unlawful::Size => 6,
            Unlawful::Alignment => 7,
            Unlawful::Range => 8,
            Unlawful::Value => 9,
        }
    }
}

/// A load of `size` bytes at `address`, in a memory of `lines` lines of 16 bytes: nothing where it is lawful, else the first of size,
/// alignment and range that is not.
pub fn check_load(lines: u32, size: u8, address: u32) -> Result<(), Unlawful>
    ensures verdict { result ≡ load_verdict lines size address }
    ensures lawful { IsOk result ↔ LawfulLoad lines size address }
{
    if !is_size(size) {
        return Err(Unlawful::Size);
    }
    if address % u32::from(size) != 0 {
        return Err(Unlawful::Alignment);
    }
    if u64::from(address) + u64::from(size) > LINE_SIZE as u64 * u64::from(lines) {
        return Err(Unlawful::Range);
    }
    Ok(())
}

/// A store of `value` in `size` bytes at `address`, in a memory of `lines` lines of 16 bytes: nothing where it is lawful, else the first
/// of size, alignment, range and value that is not.
pub fn check_store(lines: u32, size: u8, address: u32, value: u64) -> Result<(), Unlawful>
    ensures verdict { result ≡ store_verdict lines size address value }
    ensures lawful { IsOk result ↔ LawfulStore lines size address value }
{
    check_load(lines, size, address)?;
    // compares with the largest value of `size` bytes
    if value > u64::MAX >> (64 - 8 * size) {
        return Err(Unlawful::Value);
    }
    Ok(())
}

// Where the bytes of a lawful request lie. They begin at a multiple of their size, so one line has them all.
fn span_of(size: u8, address: u32) -> Result<Span, Unlawful>
    ensures lies { MatchResult result (λ span. Spans size address span) (λ why. fits_line address size ≡ false) }
    ensures refused { IfErr result (λ why. why ≡ Alignment) }
{
    Span::new(address, size).ok_or(Unlawful::Alignment)
}

/// Where the bytes of a lawful load lie.
pub(crate) fn load_span(lines: u32, size: u8, address: u32) -> Result<Span, Unlawful>
    ensures { MatchResult result (λ span. (load_verdict lines size address ≡ Ok tt) × Spans size address span) (λ why. load_verdict lines size address ≡ Err why) }
{
    check_load(lines, size, address).and_then(|()| span_of(size, address))
}

/// Where the bytes of a lawful store lie.
pub(crate) fn store_span(lines: u32, size: u8, address: u32, value: u64) -> Result<Span, Unlawful>
    ensures { MatchResult result (λ span. (store_verdict lines size address value ≡ Ok tt) × Spans size address span) (λ why. store_verdict lines size address value ≡ Err why) }
{
    check_store(lines, size, address, value).and_then(|()| span_of(size, address))
}
