//! The lines of a listing, and how they are written.
ghost use Rattle.player.specs.Limits.{line_room};
ghost use Rattle.player.specs.Lines.{answer_line, number_line, note_line, shown, Short, Writes, WritesWhole};
ghost use Rattle.std.specs.Prelude.{◌≡◌, ◌+◌, ◌≤◌, [], ◌∷◌, ◌++◌, length, take, drop, Some};
ghost use Rattle.trace.specs.Filled.{onto};

use crate::limits::LINE_ROOM;
use port::answer::Redeemed;

/// A line of a listing.
// Not `Display`, which prints text alone: a note may have any bytes.
#[derive(Clone, Copy)]
pub enum Line<'t> {
    /// A number was redeemed for this.
    Answer { number: u32, redeemed: Redeemed },
    /// A record was refused by a number.
    // A number, since the crates below each have refusals of their own.
    Refused { index: u64, code: u8 },
    /// A note of the trace, as it stands there.
    Note { text: &'t [u8] },
    /// The end: how many requests were accepted, and how many steps were made.
    End { accepted: u64, steps: u64 },
}

impl Line<'_> {
    /// Puts the line at the front of a buffer, and answers how many bytes it has.
    /// Answers nothing and changes nothing where the buffer has fewer bytes than the line.
    pub fn text(&self, buffer: &mut [u8]) -> Option<usize>
        ensures { WritesWhole (shown self.now) buffer.old result buffer.new }
    {
        match *self {
            Line::Note { text } => note_text(buffer, text),
            _ => self.numbers_text(buffer),
        }
    }

    // The same of a line of numbers, which has at most 128 bytes. It is written apart first, since the buffer may be shorter.
    fn numbers_text(&self, buffer: &mut [u8]) -> Option<usize>
        requires { Short self.now }
        ensures { WritesWhole (shown self.now) buffer.old result buffer.new }
    {
        let mut line = [0; LINE_ROOM];
        let length = self.write(&mut line);
        if buffer.len() < length {
            return None;
        }
        Some(put(buffer, 0, &line[..length]))
    }

    /// Puts a line of at most 128 bytes at the front of a buffer of at least 128, and answers how many bytes the line has.
    pub(crate) fn write(&self, buffer: &mut [u8]) -> usize
        requires room { line_room ≤ length buffer.old }
        requires short { Short self.now }
        ensures { Writes (Some (shown self.now)) buffer.old result buffer.new }
    {
        match *self {
            Line::Answer { number, redeemed } => write_answer(buffer, number, redeemed),
            Line::Refused { index, code } => {
                write_numbers(buffer, b'X', &[index, u64::from(code)])
            }
            Line::Note { text } => write_note(buffer, text),
            Line::End { accepted, steps } => { write_numbers(buffer, b'E', &[accepted, steps]) }
        }
    }
}

// Puts the line of a note at the front of a buffer, if it fits.
fn note_text(buffer: &mut [u8], text: &[u8]) -> Option<usize>
    ensures { WritesWhole (note_line text.now) buffer.old result buffer.new }
{
    if buffer.len() < text.len() + 3 {
        return None;
    }
    Some(write_note(buffer, text))
}

// The line of an answer.
fn write_answer(buffer: &mut [u8], number: u32, redeemed: Redeemed) -> usize
    requires { line_room ≤ length buffer.old }
    ensures { Writes (Some (answer_line number redeemed)) buffer.old result buffer.new }
{
    let number = u64::from(number);
    match redeemed {
        Redeemed::Value(value) => write_numbers(buffer, b'L', &[number, value]),
        Redeemed::Done => write_numbers(buffer, b'S', &[number]),
        Redeemed::Fault(fault) => {
            let line = u64::from(fault.line);
            let numbers = [number, u64::from(fault.level), line, u64::from(fault.cause)];
            write_numbers(buffer, b'F', &numbers)
        }
    }
}

// Puts bytes that fit behind those that stand written, and answers how many then do.
fn put(buffer: &mut [u8], written: usize, bytes: &[u8]) -> usize
    requires { written + length bytes.now ≤ length buffer.old }
    ensures count { result ≡ written + length bytes.now }
    ensures after { buffer.new ≡ take written buffer.old ++ (bytes.now ++ drop (written + length bytes.now) buffer.old) }
{
    let end = written + bytes.len();
    buffer[written..end].copy_from_slice(bytes);
    end
}

// The line of a note.
fn write_note(buffer: &mut [u8], text: &[u8]) -> usize
    requires { length text.now + 3 ≤ length buffer.old }
    ensures { Writes (Some (note_line text.now)) buffer.old result buffer.new }
{
    let letter_end = put(buffer, 0, b"N ");
    let text_end = put(buffer, letter_end, text);
    put(buffer, text_end, b"\n")
}

// The line of a letter and at most four numbers, each behind a space.
fn write_numbers(buffer: &mut [u8], letter: u8, numbers: &[u64]) -> usize
    requires room { line_room ≤ length buffer.old }
    requires few { length numbers.now ≤ 4 }
    ensures { Writes (Some (number_line (letter ∷ []) numbers.now)) buffer.old result buffer.new }
{
    let mut written = put(buffer, 0, &[letter]);
    for number in numbers {
        let mut digits = itoa::Buffer::new();
        let space_end = put(buffer, written, b" ");
        written = put(buffer, space_end, digits.format(*number).as_bytes());
    }
    put(buffer, written, b"\n")
}
