//! The bytes of a setup.
ghost use Rattle.std.specs.Prelude.{◌++◌, take};
ghost use Rattle.std.specs.List.{flat_map};
ghost use Rattle.arrayvec.specs.ArrayVec.{Extends};
ghost use Rattle.trace.specs.Encode.{bottom_bytes, bad_line_bytes, level_bytes, levels_bytes, encode, Fits};
ghost use Rattle.trace.specs.Items.{item_of, script_of};
ghost use Rattle.trace.specs.Numbers.{spelled};

use crate::encoding::{RecordBytes, push_kind, push_plain};
use crate::numbers::push_number;
use crate::records::{
    Bottom, Kind, Level, ONE_LEVEL, ORDERED, Record, SCRIPTED, Setup, SetupBuffer, TWO_LEVELS,
};
use list::slices::front;
use memory::bad_line::BadLine;

fn push_level(bytes: &mut RecordBytes, level: Level)
    requires { Fits bytes.old (level_bytes level) }
    ensures { Extends bytes.old (level_bytes level) bytes.new }
{
    push_number(bytes, u64::from(level.sets));
    push_number(bytes, u64::from(level.ways));
    push_number(bytes, u64::from(level.rule));
}

// The levels, with how many there are in front.
fn push_levels(bytes: &mut RecordBytes, lowest: Level, upper: Option<Level>)
    requires { Fits bytes.old (levels_bytes lowest upper) }
    ensures { Extends bytes.old (levels_bytes lowest upper) bytes.new }
{
    match upper {
        None => {
            push_number(bytes, ONE_LEVEL);
            push_level(bytes, lowest);
        }
        Some(second) => {
            push_number(bytes, TWO_LEVELS);
            push_level(bytes, lowest);
            push_level(bytes, second);
        }
    }
}

fn push_bad_line(bytes: &mut RecordBytes, bad: BadLine)
    requires { Fits bytes.old (bad_line_bytes bad) }
    ensures { Extends bytes.old (bad_line_bytes bad) bytes.new }
{
    push_number(bytes, u64::from(bad.line));
    push_number(bytes, u64::from(bad.cause));
}

// A setup's bad lines: their count, and so many of the lines, from the first.
fn push_bad_lines(bytes: &mut RecordBytes, count: u8, bad_lines: &[BadLine])
    requires { Fits bytes.old (spelled count ++ flat_map bad_line_bytes (take count bad_lines.now)) }
    ensures { Extends bytes.old (spelled count ++ flat_map bad_line_bytes (take count bad_lines.now)) bytes.new }
{
    push_number(bytes, u64::from(count));
    for bad in front(bad_lines, usize::from(count)) {
        push_bad_line(bytes, *bad);
    }
}

// The memory at the bottom, whose script stands at the front of the buffer's.
fn push_bottom(bytes: &mut RecordBytes, bottom: Bottom, script: &[u8])
    requires { Fits bytes.old (bottom_bytes bottom (script_of bottom script.now)) }
    ensures { Extends bytes.old (bottom_bytes bottom (script_of bottom script.now)) bytes.new }
{
    match bottom {
        Bottom::Ordered { latency } => {
            push_number(bytes, ORDERED);
            push_number(bytes, u64::from(latency));
        }
        Bottom::Scripted { length } => {
            push_number(bytes, SCRIPTED);
            push_number(bytes, u64::from(length));
            push_plain(bytes, front(script, usize::from(length)));
        }
    }
}

/// Appends a setup whose script and bad lines lie in the buffer.
pub(crate) fn push_setup(bytes: &mut RecordBytes, setup: &Setup, buffer: &SetupBuffer)
    requires { Fits bytes.old (encode (item_of (Record.Setup setup.now) buffer.now)) }
    ensures { Extends bytes.old (encode (item_of (Record.Setup setup.now) buffer.now)) bytes.new }
{
    push_kind(bytes, Kind::Setup);
    push_number(bytes, u64::from(setup.lines));
    push_bottom(bytes, setup.bottom, &buffer.script);
    push_bad_lines(bytes, setup.bad_line_count, &buffer.bad_lines);
    push_levels(bytes, setup.lowest, setup.upper);
}
