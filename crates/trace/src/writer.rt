//! The writer of a trace: it adds one record after another in a buffer that it is lent.
ghost use Rattle.std.specs.Prelude.{◌≡◌, ◌+◌, length, take, OnOk};
ghost use Rattle.trace.specs.Encode.{encode};
ghost use Rattle.trace.specs.Items.{item_of};
ghost use Rattle.trace.specs.Writing.{misplaced, adding, writing, written_after, buffer_after, Grows, GrowsBy};

use crate::encoding::encoded;
use crate::in_limits::record_in_limits;
use crate::records::{Record, SetupBuffer};
use crate::refusal::Refusal;

/// The buffer of a trace and how many of its bytes stand written.
#[derive(Drop)]
pub struct Writer<'a> {
    buffer: &'a mut [u8],
    // A count beside the buffer: it is the caller's, lent at its full length, so that writing takes no memory.
    written: usize,
}

// Whether a record may not stand after so many bytes.
fn is_misplaced(record: &Record<'_>, written: usize) -> bool
    ensures { (b : SetupBuffer) → result ≡ misplaced written (item_of «record».now b) }
{
    matches!(record, Record::Setup(_)) != (written == 0)
}

// Puts the bytes of a record into a buffer from there on, if they fit.
fn put(buffer: &mut [u8], from: usize, bytes: &[u8]) -> Result<(), Refusal>
    ensures value { result ≡ adding from (length buffer.old) bytes.now }
    ensures after { buffer.new ≡ buffer_after result from bytes.now buffer.old }

    // Said here, where the type of the buffer tells that it holds bytes: its list alone does not.
    ensures whole { OnOk result (GrowsBy from (take from buffer.old) (take (from + length bytes.now) buffer.new) bytes.now) }
{
    // By index: std leaves open what a slice holds after a write through `get_mut`.
    let to = from
        .checked_add(bytes.len())
        .filter(|to| *to <= buffer.len())
        .ok_or(Refusal::Room)?;
    buffer[from..to].copy_from_slice(bytes);
    Ok(())
}

impl<'a> Writer<'a> {
    ghost use Rattle.trace.specs.Writer.{buffer_of, written_of, lender_of};

    /// A writer that has written nothing.
    pub fn new(buffer: &'a mut [u8]) -> Writer<'a>
        ensures written { written_of result ≡ 0 }
        ensures buffer { buffer_of result ≡ buffer.old }
        ensures lender { lender_of result ≡ buffer.entry.ghost_name }
    {
        Writer { buffer, written: 0 }
    }

    /// How many bytes stand written.
    pub fn written(&self) -> usize
        ensures { result ≡ written_of self.now }
    {
        self.written
    }

    /// Adds a record after those that stand written; a setup's script and bad lines lie in `setup_buffer`.
    ///
    /// Refuses a setup that is not the first record and another record that is, then fields outside their limits, then a record that does not fit.
    /// A refusal changes nothing.
    pub fn write(&mut self, record: &Record<'_>, setup_buffer: &SetupBuffer) -> Result<(), Refusal>
        ensures value { result ≡ writing (written_of self.old) (length (buffer_of self.old)) (item_of «record».now setup_buffer.now) }
        ensures written { written_of self.new ≡ written_after result (written_of self.old) (encode (item_of «record».now setup_buffer.now)) }
        ensures buffer { buffer_of self.new ≡ buffer_after result (written_of self.old) (encode (item_of «record».now setup_buffer.now)) (buffer_of self.old) }
        ensures whole { OnOk result (Grows (written_of self.old) (take (written_of self.old) (buffer_of self.old)) (take (written_of self.new) (buffer_of self.new)) (item_of «record».now setup_buffer.now)) }
        ensures lender { lender_of self.new ≡ lender_of self.old }
    {
        let from = self.written;
        if is_misplaced(record, from) {
            return Err(Refusal::Misplaced);
        }
        if !record_in_limits(record, setup_buffer) {
            return Err(Refusal::Limit);
        }
        let bytes = encoded(record, setup_buffer);
        put(self.buffer, from, bytes.as_slice())?;
        self.written = from + bytes.len();
        Ok(())
    }
}
