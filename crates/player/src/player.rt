//! A player of one trace.
ghost use Rattle.std.specs.Prelude.{◌≡◌, IfSome};
ghost use Rattle.player.specs.Lines.{shown_line, Short};
ghost use Rattle.player.specs.Player.{player_ended, GivesBack, Makes, MakesFaulty, Proceeds, StageDoes};

use crate::faulty::Faulty;
use crate::limits::{IMAGE_ROOM, LINE_ROOM};
use crate::listing::Line;
use crate::session::Session;
use crate::setup::new_rules;
use line::LINE_SIZE;
use trace::records::{Setup, SetupBuffer};
use trace::refusal::Refusal;

/// The first record of a trace: a setup, with its script and its bad lines in the buffer, and the offset behind it.
#[derive(Clone, Copy)]
pub struct FirstRecord<'b> {
    pub setup: Setup,
    pub buffer: &'b SetupBuffer,
    pub offset: usize,
}

/// Why no player was made, with the image, which is as it was.
#[derive(Drop)]
pub struct Unmade<'a> {
    pub refusal: Refusal,
    pub image: &'a mut [u8],
}

// What is played: the refusal of a setup, or a trace over the hierarchy that its setup names.
#[derive(Drop)]
enum Stage<'a> {
    Faulty(Faulty),
    Session(Session<'a>),
}

impl Stage<'_> {
    // Does one thing, and answers the line that tells of it, if one does.
    fn proceed<'t>(&mut self, trace: &'t [u8]) -> Option<Line<'t>>
        ensures does { StageDoes trace.now self.old (shown_line result) self.new }
        ensures short { IfSome result Short }
    {
        match self {
            Stage::Faulty(faulty) => faulty.proceed(),
            Stage::Session(session) => session.proceed(trace),
        }
    }
}

/// A player of one trace. Each of its calls is lent the trace and a buffer, writes at most one line of the listing there, and makes at
/// most one step of the hierarchy.
#[derive(Drop)]
pub struct Player<'a> {
    stage: Stage<'a>,
    // the bytes of the image that no memory stands on
    rest: &'a mut [u8],
}

impl<'a> Player<'a> {
    /// A player of a trace with this first record, or with one that the reader refused. Its memory stands on the first bytes of the
    /// image, 16 for each line, which are set to their addresses modulo 251; where the setup was refused, the image stays as it is.
    /// Refused where a field of the setup is outside its limits (`Limit`), then where the image has fewer than 65,536 bytes (`Room`).
    pub fn new(
        first: Result<FirstRecord<'_>, Refusal>,
        image: &'a mut [u8],
    ) -> Result<Player<'a>, Unmade<'a>>
        ensures { Makes first.entry image.entry result }
    {
        let first = match first {
            Ok(first) => first,
            Err(refusal) => return Player::faulty(refusal, image),
        };
        let (lowest, upper) = match new_rules(&first.setup, first.buffer) {
            Ok(rules) => rules,
            Err(refusal) => return Err(Unmade { refusal, image }),
        };
        if image.len() < IMAGE_ROOM {
            return Err(Unmade {
                refusal: Refusal::Room,
                image,
            });
        }
        let (bytes, rest) = image.split_at_mut(LINE_SIZE * first.setup.lines as usize);
        let session = Session::new(
            &first.setup,
            first.buffer,
            first.offset,
            lowest,
            upper,
            bytes,
        );
        Ok(Player {
            stage: Stage::Session(session),
            rest,
        })
    }

    // A player of a trace whose setup is refused.
    fn faulty(refusal: Refusal, image: &'a mut [u8]) -> Result<Player<'a>, Unmade<'a>>
        ensures { MakesFaulty refusal image.entry result }
    {
        if image.len() < IMAGE_ROOM {
            return Err(Unmade {
                refusal: Refusal::Room,
                image,
            });
        }
        Ok(Player {
            stage: Stage::Faulty(Faulty::Refused(refusal)),
            rest: image,
        })
    }

    /// Whether the last line was written. From then on calls write and change nothing.
    pub fn has_ended(&self) -> bool
        ensures { result ≡ player_ended self.now }
    {
        match &self.stage {
            Stage::Faulty(faulty) => matches!(faulty, Faulty::Ended),
            Stage::Session(session) => session.has_ended(),
        }
    }

    /// Does the first that applies: redeems the number whose answer has come, makes a step of a pass, carries out the next record of the
    /// trace, makes a step while numbers are out, or ends. Puts the line that tells of it at the front of the buffer, if one does, and
    /// answers how many bytes it wrote. A trace that ends at or before the next record is at its end.
    /// Refused where the buffer has fewer than 128 bytes (`Room`).
    pub fn proceed(&mut self, trace: &[u8], buffer: &mut [u8]) -> Result<usize, Refusal>
        ensures { Proceeds trace.now self.old buffer.old result self.new buffer.new }
    {
        if buffer.len() < LINE_ROOM {
            return Err(Refusal::Room);
        }
        match self.stage.proceed(trace) {
            Some(line) => Ok(line.write(buffer)),
            None => Ok(0),
        }
    }

    /// The image, given back: the bytes that the memory stands on, as far as lines were written down to it, and the others, as they were.
    pub fn into_image(self) -> (&'a mut [u8], &'a mut [u8])
        ensures { GivesBack self.entry result }
    {
        let stage = self.stage;
        let rest = self.rest;
        match stage {
            Stage::Faulty(_) => rest.split_at_mut(0),
            Stage::Session(session) => (session.into_bottom().into_image(), rest),
        }
    }
}
