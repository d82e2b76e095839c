//! Numbers in groups of seven bits.
ghost use Rattle.std.specs.Prelude.{◌≡◌, ◌+◌, ◌-◌, ◌<◌, ◌≤◌, length, drop, IfOk, MatchOption};
ghost use Rattle.arrayvec.specs.ArrayVec.{Extends};
ghost use Rattle.trace.specs.Encode.{Fits};
ghost use Rattle.trace.specs.Numbers.{number, spelled, grouped, or_refused, Continued, Ends};
ghost use Rattle.trace.specs.Parsed.{parsed};

use crate::encoding::RecordBytes;
use crate::refusal::Refusal;

// The index of the first byte below 128, which ends a number.
fn last_group(bytes: &[u8]) -> Option<usize>
    ensures { MatchOption result (Continued bytes.now (length bytes.now)) (λ i. Ends bytes.now i) }
{
    bytes.iter().position(|byte| *byte < 128)
}

// A number with one group of seven bits more below it, or none where the whole is not shortest or too large.
fn with_group(high: u64, group: u8) -> Option<u64>
    requires { 128 ≤ group }
    ensures { result ≡ grouped high (group - 128) }
{
    if high == 0 {
        return None;
    }
    Some(high.checked_mul(128)? + u64::from(group - 128))
}

// The number whose last byte stands at `last`.
fn read_groups(bytes: &[u8], last: usize) -> Option<u64>
    requires { Ends bytes.now last }
    ensures { or_refused result (drop (last + 1) bytes.now) ≡ number bytes.now }
{
    // a loop: what is known of `try_fold` does not tie what a step is given to what the step before it gave
    let mut value = u64::from(bytes[last]);
    for group in bytes[..last].iter().rev() {
        value = with_group(value, *group)?;
    }
    Some(value)
}

/// The number at the front, and the bytes after it.
///
/// Refuses bytes of which none ends the number (`Truncated`), then a number that is not in its shortest form or is too large (`Number`).
// Most numbers have one byte, which is read at once.
#[inline]
pub fn read_number(bytes: &[u8]) -> Result<(u64, &[u8]), Refusal>
    ensures value { parsed result ≡ number bytes.now }
    ensures shorter { IfOk result (λ p. length p.1.now < length bytes.now) }
{
    match bytes {
        [byte, rest @ ..] if *byte < 128 => Ok((u64::from(*byte), rest)),
        _ => read_long_number(bytes),
    }
}

// The same, however many bytes it has.
fn read_long_number(bytes: &[u8]) -> Result<(u64, &[u8]), Refusal>
    ensures value { parsed result ≡ number bytes.now }
    ensures shorter { IfOk result (λ p. length p.1.now < length bytes.now) }
{
    let last = last_group(bytes).ok_or(Refusal::Truncated)?;
    let value = read_groups(bytes, last).ok_or(Refusal::Number)?;
    Ok((value, &bytes[last + 1..]))
}

/// Appends a number, lowest group first, with the top bit set on all bytes but the last.
pub(crate) fn push_number(bytes: &mut RecordBytes, n: u64)
    requires { Fits bytes.old (spelled n) }
    ensures { Extends bytes.old (spelled n) bytes.new }
{
    // each group is below 128: `as` loses nothing, and `TryFrom` would add an error that cannot come
    let mut rest = n;
    while rest >= 128 {
        bytes.push((rest % 128) as u8 + 128);
        rest /= 128;
    }
    bytes.push(rest as u8);
}
