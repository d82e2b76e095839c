//! Whether each field of a record is within its limits. A limit that its type keeps anyway is tested
//! like the others, since a proof here knows no range of a field in an enum or in an element of a slice.
ghost use Rattle.std.specs.Prelude.{◌≡◌};
ghost use Rattle.std.specs.List.{list_all};
ghost use Rattle.trace.specs.Decode.{printable};
ghost use Rattle.trace.specs.Encode.{bottom_in_limits, bad_line_in_limits, bad_lines_in_limits, level_in_limits, in_limits};
ghost use Rattle.trace.specs.Items.{item_of, script_of};
ghost use Rattle.trace.specs.Numbers.{within};

use crate::limits::{
    FIRST_PRINTABLE, HIGHEST_ADDRESS, HIGHEST_BAD_LINE, HIGHEST_CAUSE, HIGHEST_NUMBER,
    LARGEST_SIZE, LAST_PRINTABLE, LONGEST_NOTE, MOST_STEPS,
};
use crate::records::{Bottom, Level, Record, Setup, SetupBuffer};
use line::counts::is_count;
use list::slices::{all_zero, front};
use memory::bad_line::BadLine;
use memory::limits::{LONGEST_LATENCY, LONGEST_SCRIPT, MOST_BAD_LINES, MOST_LINES};

/// Whether each of these bytes lies between two limits, both counted.
// Two numbers and no `RangeInclusive`, which may be used up and is one case more in each contract.
pub fn all_within(bytes: &[u8], low: u8, high: u8) -> bool
    ensures { result ≡ list_all (within low high) bytes.now }
{
    bytes.iter().all(|byte| (low..=high).contains(byte))
}

/// Whether a note may hold each of these bytes.
pub(crate) fn is_printable(text: &[u8]) -> bool
    ensures { result ≡ list_all printable text.now }
{
    all_within(text, FIRST_PRINTABLE, LAST_PRINTABLE)
}

fn level_in_limits(level: Level) -> bool
    ensures { result ≡ level_in_limits level }
{
    is_count(u64::from(level.sets)) && is_count(u64::from(level.ways))
}

// The script stands at the front of these bytes.
fn bottom_in_limits(bottom: Bottom, script: &[u8; LONGEST_SCRIPT]) -> bool
    ensures { result ≡ bottom_in_limits bottom (script_of bottom script.now) }
{
    match bottom {
        Bottom::Ordered { latency } => (1..=LONGEST_LATENCY).contains(&latency),
        Bottom::Scripted { length } => {
            let length = usize::from(length);
            (1..=LONGEST_SCRIPT).contains(&length) && !all_zero(front(script, length))
        }
    }
}

fn bad_line_in_limits(bad: &BadLine) -> bool
    ensures { result ≡ bad_line_in_limits bad.now }
{
    (0..=HIGHEST_BAD_LINE).contains(&bad.line) && (0..=HIGHEST_CAUSE).contains(&bad.cause)
}

fn bad_lines_in_limits(bad_lines: &[BadLine]) -> bool
    ensures { result ≡ bad_lines_in_limits bad_lines.now }
{
    bad_lines.iter().all(bad_line_in_limits)
}

/// Whether every field of a setup is within its limits; its script and its bad lines lie in the buffer.
pub fn setup_in_limits(setup: &Setup, buffer: &SetupBuffer) -> bool
    ensures { result ≡ in_limits (item_of (Record.Setup setup.now) buffer.now) }
{
    let count = usize::from(setup.bad_line_count);
    (1..=MOST_LINES).contains(&setup.lines)
        && bottom_in_limits(setup.bottom, &buffer.script)
        && count <= MOST_BAD_LINES
        && bad_lines_in_limits(front(&buffer.bad_lines, count))
        && level_in_limits(setup.lowest)
        && setup.upper.is_none_or(level_in_limits)
}

/// Whether every field of a record is within its limits; a setup's script and bad lines lie in the buffer.
pub(crate) fn record_in_limits(record: &Record<'_>, buffer: &SetupBuffer) -> bool
    ensures { result ≡ in_limits (item_of «record».now buffer.now) }
{
    match *record {
        Record::Setup(setup) => setup_in_limits(&setup, buffer),
        Record::Load { size, address } => {
            (0..=LARGEST_SIZE).contains(&size) && (0..=HIGHEST_ADDRESS).contains(&address)
        }
        Record::Store {
            size,
            address,
            value,
        } => {
            (0..=LARGEST_SIZE).contains(&size)
                && (0..=HIGHEST_ADDRESS).contains(&address)
                && (0..=HIGHEST_NUMBER).contains(&value)
        }
        Record::Pass { steps } => (1..=MOST_STEPS).contains(&steps),
        Record::Note { text, .. } => text.len() <= LONGEST_NOTE && is_printable(text),
    }
}
