//! The bytes of a record.
ghost use Rattle.std.specs.Prelude.{◌≡◌, true, [], ◌∷◌};
ghost use Rattle.arrayvec.specs.ArrayVec.{Extends};
ghost use Rattle.trace.specs.Encode.{encode, in_limits, Fits};
ghost use Rattle.trace.specs.Items.{item_of};
ghost use Rattle.trace.specs.Kinds.{kind_number};

use crate::encoding_setup::push_setup;
use crate::limits::LONGEST_RECORD;
use crate::numbers::push_number;
use crate::records::{Kind, Record, SetupBuffer};
use arrayvec::ArrayVec;

/// The bytes of a record that is being put together.
pub(crate) type RecordBytes = ArrayVec<u8, LONGEST_RECORD>;

/// Appends the kind byte of a record.
pub(crate) fn push_kind(bytes: &mut RecordBytes, kind: Kind)
    requires { Fits bytes.old (kind_number kind ∷ []) }
    ensures { Extends bytes.old (kind_number kind ∷ []) bytes.new }
{
    bytes.push(u8::from(kind));
}

/// Appends bytes as they stand.
pub(crate) fn push_plain(bytes: &mut RecordBytes, more: &[u8])
    requires { Fits bytes.old more.now }
    ensures { Extends bytes.old more.now bytes.new }
{
    // they fit, so nothing is refused
    let _ = bytes.try_extend_from_slice(more);
}

// A record's kind byte and its fields. The record comes with the buffer that a setup's script and bad lines lie in: that
// buffer is the caller's and no part of the record.
fn push_record(bytes: &mut RecordBytes, record: &Record<'_>, buffer: &SetupBuffer)
    requires { Fits bytes.old (encode (item_of «record».now buffer.now)) }
    ensures { Extends bytes.old (encode (item_of «record».now buffer.now)) bytes.new }
{
    match *record {
        Record::Setup(setup) => push_setup(bytes, &setup, buffer),
        Record::Load { size, address } => {
            push_kind(bytes, Kind::Load);
            push_number(bytes, u64::from(size));
            push_number(bytes, u64::from(address));
        }
        Record::Store {
            size,
            address,
            value,
        } => {
            push_kind(bytes, Kind::Store);
            push_number(bytes, u64::from(size));
            push_number(bytes, u64::from(address));
            push_number(bytes, value);
        }
        Record::Pass { steps } => {
            push_kind(bytes, Kind::Pass);
            push_number(bytes, u64::from(steps));
        }
        Record::Note { text, .. } => {
            push_kind(bytes, Kind::Note);
            push_number(bytes, text.len() as u64);
            push_plain(bytes, text);
        }
    }
}

/// The bytes of a record within its limits, whose script and bad lines lie in the buffer.
pub(crate) fn encoded(record: &Record<'_>, buffer: &SetupBuffer) -> RecordBytes
    requires { in_limits (item_of «record».now buffer.now) ≡ true }
    ensures { result.items ≡ encode (item_of «record».now buffer.now) }
{
    let mut bytes = RecordBytes::new();
    push_record(&mut bytes, record, buffer);
    bytes
}
