//! The play of a whole trace.
ghost use Rattle.std.specs.Prelude.{◌≡◌, ℕ, ◌≤◌, List, length, IfSome, IsSome, OnOk};
ghost use Rattle.std.specs.Io.KnownBytes.{Appends};
ghost use Rattle.player.specs.Limits.{image_room};
ghost use Rattle.playing.specs.Played.{FirstOf, FirstSetup, Listed, MadeFor, Played};

use crate::input::{TRACE_ROOM, fill};
use player::limits::{IMAGE_ROOM, LINE_ROOM};
use player::player::{FirstRecord, Player};
use std::io;
use std::io::{Read, Write};
use trace::reader::Reader;
use trace::records::{Record, Setup, SetupBuffer};
use trace::refusal::Refusal;

// The first record of a trace, a setup, and the offset behind it. Its script and its bad lines go into the buffer.
fn first_setup(trace: &[u8], buffer: &mut SetupBuffer) -> Result<(Setup, usize), Refusal>
    ensures { FirstSetup trace.now buffer.new result }
{
    let mut reader = Reader::new(trace);
    match reader.next(buffer) {
        Ok(Some(Record::Setup(setup))) => Ok((setup, reader.offset())),
        // a trace does not end before its first record, and gives no other one first
        Ok(None) => Err(Refusal::Misplaced),
        Ok(Some(Record::Load { .. })) => Err(Refusal::Misplaced),
        Ok(Some(Record::Store { .. })) => Err(Refusal::Misplaced),
        Ok(Some(Record::Pass { .. })) => Err(Refusal::Misplaced),
        Ok(Some(Record::Note { .. })) => Err(Refusal::Misplaced),
        Err(refused) => Err(refused.refusal),
    }
}

// The same with the buffer.
fn with_buffer<'b>(
    first: Result<(Setup, usize), Refusal>,
    buffer: &'b SetupBuffer,
) -> Result<FirstRecord<'b>, Refusal>
    ensures { (trace : List ℕ) → FirstSetup trace buffer.now first → FirstOf trace result }
{
    let (setup, offset) = first?;
    Ok(FirstRecord {
        setup,
        buffer,
        offset,
    })
}

// A player of a trace. It is made, since a setup that was read is within its limits, and the image is large enough.
fn new_player<'a>(trace: &[u8], image: &'a mut [u8]) -> Option<Player<'a>>
    requires { image_room ≤ length image.old }
    ensures made { IsSome result }
    ensures for_trace { IfSome result (λ player. MadeFor trace.now player) }
{
    let mut buffer = SetupBuffer::empty();
    let first = first_setup(trace, &mut buffer);
    match Player::new(with_buffer(first, &buffer), image) {
        Ok(player) => Some(player),
        Err(_) => None,
    }
}

// Gives a writer these bytes. Most calls of a player write none, and a writer need not be asked for them.
fn give<W: Write>(writer: &mut W, bytes: &[u8]) -> io::Result<()>
    ensures { OnOk result (Appends (W.contents writer.old) (W.contents writer.new) bytes.now) }
{
    if bytes.is_empty() {
        return Ok(());
    }
    writer.write_all(bytes)
}

// Makes calls until the last line is written.
fn write_lines<W: Write>(player: &mut Player<'_>, trace: &[u8], writer: &mut W) -> io::Result<()>
    requires { MadeFor trace.now player.old }
    ensures { OnOk result (Listed trace.now (W.contents writer.old) (W.contents writer.new)) }
{
    let mut buffer = [0; LINE_ROOM];
    while !player.has_ended() {
        // a buffer of this size is never refused
        let count = player.proceed(trace, &mut buffer).unwrap_or(0);
        give(writer, &buffer[..count])?;
    }
    writer.flush()
}

/// Plays the trace that a reader gives, its first 32,768 bytes at most, and gives the writer its listing.
pub fn play<R: Read, W: Write>(reader: &mut R, writer: &mut W) -> io::Result<()>
    ensures { OnOk result (Played (R.remaining reader.old) (W.contents writer.old) (W.contents writer.new)) }
{
    let mut trace = [0; TRACE_ROOM];
    let count = fill(reader, &mut trace)?;
    let mut image = [0; IMAGE_ROOM];
    // a player is always made
    let Some(mut player) = new_player(&trace[..count], &mut image) else {
        return Ok(());
    };
    write_lines(&mut player, &trace[..count], writer)
}
