//! The fields of records, each read off the front of some bytes.
ghost use Rattle.std.specs.Prelude.{◌≡◌, ◌+◌, ◌<◌, ◌≤◌, length, IfOk};
ghost use Rattle.memory.specs.Limits.{longest_script, most_bad_lines};
ghost use Rattle.trace.specs.Decode.{plain, side, rule, level, levels, text, bad_line};
ghost use Rattle.trace.specs.Filled.{script_onto, bottom_onto, bad_lines_onto};
ghost use Rattle.trace.specs.Numbers.{number_within};
ghost use Rattle.trace.specs.Parsed.{parsed, parsed_as};

use crate::in_limits::is_printable;
use crate::limits::{HIGHEST_BAD_LINE, HIGHEST_CAUSE, MOST_LEVELS};
use crate::numbers::read_number;
use crate::records::{Bottom, Level, ONE_LEVEL, ORDERED, Rule, SCRIPTED};
use crate::refusal::Refusal;
use line::counts::is_count;
use list::slices::all_zero;
use memory::bad_line::BadLine;
use memory::limits::{LONGEST_LATENCY, LONGEST_SCRIPT, MOST_BAD_LINES};

// A number between two limits. Where they are a type's own or less, callers narrow it by `as`, which is proved to lose
// nothing; `TryFrom` would add a refusal that cannot come.
// The limits are two numbers and no `RangeInclusive`, which may be used up and is one case more in each contract.
pub(crate) fn read_within(bytes: &[u8], low: u64, high: u64) -> Result<(u64, &[u8]), Refusal>
    ensures value { parsed result ≡ number_within low high bytes.now }
    ensures limits { IfOk result (λ p. (low ≤ p.0) × (p.0 ≤ high) × (length p.1.now < length bytes.now)) }
{
    let (value, rest) = read_number(bytes)?;
    if !(low..=high).contains(&value) {
        return Err(Refusal::Limit);
    }
    Ok((value, rest))
}

// A number of sets or of ways, narrowed as above.
fn read_side(bytes: &[u8]) -> Result<(u8, &[u8]), Refusal>
    ensures { parsed result ≡ side bytes.now }
{
    let (value, rest) = read_number(bytes)?;
    if !is_count(value) {
        return Err(Refusal::Limit);
    }
    Ok((value as u8, rest))
}

// A replacement rule, by its number.
fn read_rule(bytes: &[u8]) -> Result<(Rule, &[u8]), Refusal>
    ensures { parsed result ≡ rule bytes.now }
{
    let (number, rest) = read_number(bytes)?;
    Ok((Rule::try_from(number)?, rest))
}

fn read_level(bytes: &[u8]) -> Result<(Level, &[u8]), Refusal>
    ensures { parsed result ≡ level bytes.now }
{
    let (sets, rest) = read_side(bytes)?;
    let (ways, rest) = read_side(rest)?;
    let (rule, rest) = read_rule(rest)?;
    Ok((Level { sets, ways, rule }, rest))
}

// One or two levels, the lowest first.
pub(crate) fn read_levels(bytes: &[u8]) -> Result<((Level, Option<Level>), &[u8]), Refusal>
    ensures { parsed result ≡ levels bytes.now }
{
    let (count, rest) = read_within(bytes, ONE_LEVEL, u64::from(MOST_LEVELS))?;
    let (lowest, rest) = read_level(rest)?;
    if count == ONE_LEVEL {
        return Ok(((lowest, None), rest));
    }
    let (upper, rest) = read_level(rest)?;
    Ok(((lowest, Some(upper)), rest))
}

// So many bytes as they stand. How many is a field that was read before them, so it is an argument of its own here and below.
fn read_plain(bytes: &[u8], count: usize) -> Result<(&[u8], &[u8]), Refusal>
    ensures value { parsed_as (λ x. x.now) result ≡ plain count bytes.now }
    ensures len { IfOk result (λ p. (length p.0.now ≡ count) × (length p.0.now + length p.1.now ≡ length bytes.now)) }
{
    bytes.split_at_checked(count).ok_or(Refusal::Truncated)
}

// A note's text.
pub(crate) fn read_text(bytes: &[u8], count: usize) -> Result<(&[u8], &[u8]), Refusal>
    ensures value { parsed_as (λ x. x.now) result ≡ text count bytes.now }
    ensures len { IfOk result (λ p. length p.0.now + length p.1.now ≡ length bytes.now) }
{
    let (read, rest) = read_plain(bytes, count)?;
    if !is_printable(read) {
        return Err(Refusal::Limit);
    }
    Ok((read, rest))
}

// A script, which goes into the front of the buffer's.
fn read_script(
    bytes: &[u8],
    count: usize,
    buffer: [u8; LONGEST_SCRIPT],
) -> Result<([u8; LONGEST_SCRIPT], &[u8]), Refusal>
    requires { count ≤ longest_script }
    ensures { parsed result ≡ script_onto count buffer bytes.now }
{
    let (read, rest) = read_plain(bytes, count)?;
    if all_zero(read) {
        return Err(Refusal::Limit);
    }
    let mut filled = buffer;
    filled[..count].copy_from_slice(read);
    Ok((filled, rest))
}

// The memory at the bottom; its script goes into the front of the buffer's.
pub(crate) fn read_bottom(
    bytes: &[u8],
    buffer: [u8; LONGEST_SCRIPT],
) -> Result<((Bottom, [u8; LONGEST_SCRIPT]), &[u8]), Refusal>
    ensures { parsed result ≡ bottom_onto buffer bytes.now }
{
    let (number, rest) = read_within(bytes, ORDERED, SCRIPTED)?;
    if number == ORDERED {
        let (value, rest) = read_within(rest, 1, u64::from(LONGEST_LATENCY))?;
        let latency = value as u8;
        return Ok(((Bottom::Ordered { latency }, buffer), rest));
    }
    let (value, rest) = read_within(rest, 1, LONGEST_SCRIPT as u64)?;
    let (filled, rest) = read_script(rest, value as usize, buffer)?;
    let length = value as u8;
    Ok(((Bottom::Scripted { length }, filled), rest))
}

fn read_bad_line(bytes: &[u8]) -> Result<(BadLine, &[u8]), Refusal>
    ensures { parsed result ≡ bad_line bytes.now }
{
    let (line, rest) = read_within(bytes, 0, u64::from(HIGHEST_BAD_LINE))?;
    let (cause, rest) = read_within(rest, 0, u64::from(HIGHEST_CAUSE))?;
    let line = line as u32;
    let cause = cause as u8;
    Ok((BadLine { line, cause }, rest))
}

// So many bad lines, which go into the front of the buffer's.
pub(crate) fn read_bad_lines(
    bytes: &[u8],
    count: usize,
    buffer: [BadLine; MOST_BAD_LINES],
) -> Result<([BadLine; MOST_BAD_LINES], &[u8]), Refusal>
    requires { count ≤ most_bad_lines }
    ensures { parsed result ≡ bad_lines_onto count buffer bytes.now }
{
    let mut filled = buffer;
    let mut left = bytes;
    for slot in &mut filled[..count] {
        let (bad, rest) = read_bad_line(left)?;
        *slot = bad;
        left = rest;
    }
    Ok((filled, left))
}
