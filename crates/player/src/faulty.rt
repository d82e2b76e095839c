//! The play of a trace whose setup is refused.
ghost use Rattle.std.specs.Prelude.{IfSome};
ghost use Rattle.player.specs.Faulty.{FaultyDoes};
ghost use Rattle.player.specs.Lines.{shown_line, Short};

use crate::listing::Line;
use trace::refusal::Refusal;

/// How far the play of a trace has come whose setup is refused.
#[derive(Clone, Copy)]
pub(crate) enum Faulty {
    /// The line of this refusal comes next.
    Refused(Refusal),
    /// The last line comes next.
    Cut,
    /// Both were written.
    Ended,
}

impl Faulty {
    /// The next line, if one is left.
    pub(crate) fn proceed<'t>(&mut self) -> Option<Line<'t>>
        ensures does { FaultyDoes self.old (shown_line result) self.new }
        ensures short { IfSome result Short }
    {
        match *self {
            Faulty::Refused(refusal) => {
                *self = Faulty::Cut;
                let code = u8::from(refusal);
                Some(Line::Refused { index: 0, code })
            }
            Faulty::Cut => {
                *self = Faulty::Ended;
                Some(Line::End {
                    accepted: 0,
                    steps: 0,
                })
            }
            Faulty::Ended => None,
        }
    }
}
