//! A whole trace, read record by record and written again.
ghost use Rattle.trace.specs.Copied.{Copied};

use crate::reader::Reader;
use crate::records::SetupBuffer;
use crate::refusal::Refused;
use crate::writer::Writer;

/// Writes every record of a trace into a buffer, from its front.
/// Stops at a record that the reader or the writer refuses: those before it stand written, and the bytes behind them are as they were.
pub fn copy(trace: &[u8], buffer: &mut [u8]) -> Result<(), Refused>
    ensures { Copied trace.now buffer.old buffer.new result }
{
    let mut reader = Reader::new(trace);
    let mut writer = Writer::new(buffer);
    let mut setup_buffer = SetupBuffer::empty();
    loop {
        let offset = reader.offset();
        let Some(record) = reader.next(&mut setup_buffer)? else {
            return Ok(());
        };
        writer
            .write(&record, &setup_buffer)
            .map_err(|refusal| Refused { refusal, offset })?;
    }
}
