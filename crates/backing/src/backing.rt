//! An image and the requests that are open on it.
ghost use Rattle.std.specs.Prelude.{◌≡◌, length, Some};
ghost use Rattle.backing.specs.Backing.{image_of, open_requests, Begins, Reads, Writes, AnswersAt};
ghost use Rattle.backing.specs.Image.{lent_bytes, line_count};
ghost use Rattle.backing.specs.Open.{most_open};

use crate::image::Image;
use crate::requests::Requests;
use memory::bad_line::BadLine;
use memory::refusal::Refusal;
use memory::replies::Answer;

/// An image, and the requests open on it, at most `LIMIT`, oldest first.
#[derive(Drop)]
pub struct Backing<'a, const LIMIT: usize> {
    image: Image<'a>,
    requests: Requests<LIMIT>,
}

impl<'a, const LIMIT: usize> Backing<'a, LIMIT> {
    /// A backing store on this image with no request open. Its faults name the level; of the bad lines the first
    /// `MOST_BAD_LINES` pairs count, and of two for one line the first.
    pub fn new(image: &'a mut [u8], level: u8, bad_lines: &[BadLine]) -> Backing<'a, LIMIT>
        ensures image { lent_bytes (image_of result) ≡ image.entry }
        ensures begins { Begins level bad_lines.now result }
    {
        Backing {
            image: Image::new(image, level, bad_lines),
            requests: Requests::new(),
        }
    }

    /// How many lines there are.
    pub fn line_count(&self) -> u32
        ensures { result ≡ line_count (image_of self.now) }
    {
        self.image.line_count()
    }

    /// How many requests are open.
    pub fn open_count(&self) -> usize
        ensures { result ≡ length (open_requests self.now) }
    {
        self.requests.len()
    }

    /// The image, given back to the caller.
    pub fn into_image(self) -> &'a mut [u8]
        ensures { result ≡ lent_bytes (image_of self.entry) }
    {
        self.image.into_bytes()
    }

    /// Takes a read of a line. What is due to it are the bytes that the line has now, or the line's fault.
    pub fn read(&mut self, line: u32) -> Result<u32, Refusal>
        ensures { Reads (most_open LIMIT) self.old line result self.new }
    {
        let reply = self.image.read_reply(line).ok_or(Refusal::NoLine)?;
        self.requests.accept(reply).ok_or(Refusal::Busy)
    }

    /// Takes a write to a line, and lays it on the line now. What is due to it is "done", or the line's fault.
    pub fn write(&mut self, line: u32, mask: u16, new: [u8; 16]) -> Result<u32, Refusal>
        ensures { Writes (most_open LIMIT) self.old line mask new result self.new }
    {
        let reply = self.image.write_reply(line).ok_or(Refusal::NoLine)?;
        let ticket = self.requests.accept(reply).ok_or(Refusal::Busy)?;
        self.image.write(line, mask, new);
        Ok(ticket)
    }

    /// Answers the request at this index among those open, oldest first, which is then no longer open.
    // It stays a call, so that the steps that answer nothing do not pay for its frame.
    #[inline(never)]
    pub fn answer(&mut self, index: usize, buffer: &mut [u8; 16]) -> Option<Answer>
        ensures { AnswersAt (Some index) self.old buffer.old result self.new buffer.new }
    {
        let request = self.requests.close(index)?;
        Some(Answer {
            ticket: request.ticket,
            status: request.reply.deliver(buffer),
        })
    }
}
