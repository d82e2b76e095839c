//! The play of a trace over a hierarchy.
ghost use Rattle.std.specs.Prelude.{◌≡◌, ◌≤◌, length, IfSome};
ghost use Rattle.hierarchy.specs.Hierarchy.{hierarchy_bottom};
ghost use Rattle.player.specs.Lines.{shown_line, Short, ShortNote};
ghost use Rattle.player.specs.Session.{FinishDoes, ItemDoes, NewSession, RedeemDoes, ReadDoes, SessionDoes, Settles, StepMade};
ghost use Rattle.port.specs.Port.{port_below};
ghost use Rattle.trace.specs.Items.{empty_buffer, item_of};

use crate::image::set_first_bytes;
use crate::listing::Line;
use crate::progress::Progress;
use crate::setup::new_bottom;
use hierarchy::any_bottom::AnyBottom;
use hierarchy::any_rule::AnyRule;
use hierarchy::hierarchy::Hierarchy;
use port::limits::LARGEST_RATION;
use port::port::Port;
use port::refusal::Refusal;
use trace::reader::read_later;
use trace::records::{Record, Setup, SetupBuffer};

/// A port on a hierarchy, and how far the play has come.
#[derive(Drop)]
pub(crate) struct Session<'a> {
    port: Port<Hierarchy<'a>>,
    progress: Progress,
}

impl<'a> Session<'a> {
    /// A session behind a setup that ends at this offset, with these rules for its levels, on these bytes.
    pub(crate) fn new(
        setup: &Setup,
        buffer: &SetupBuffer,
        offset: usize,
        lowest: AnyRule,
        upper: Option<AnyRule>,
        bytes: &'a mut [u8],
    ) -> Session<'a>
        ensures { NewSession setup.now buffer.now offset lowest upper bytes.entry result }
    {
        set_first_bytes(bytes);
        let bottom = new_bottom(setup, buffer, bytes);
        let hierarchy = Hierarchy::new(bottom, lowest, upper);
        Session {
            port: Port::new(hierarchy, LARGEST_RATION),
            progress: Progress::new(offset),
        }
    }

    /// Whether the last line was written.
    pub(crate) fn has_ended(&self) -> bool
        ensures { result ≡ self.now.progress.ended }
    {
        self.progress.ended
    }

    /// The memory at the bottom, given back.
    pub(crate) fn into_bottom(self) -> AnyBottom<'a>
        ensures { result ≡ hierarchy_bottom (port_below self.entry.port) }
    {
        self.port.into_below().into_bottom()
    }

    // Makes one step of the hierarchy.
    #[inline(always)]
    fn step(&mut self)
        ensures { StepMade self.old self.new }
    {
        let _ = self.port.step();
        self.progress.count_step();
    }

    // Redeems a number whose answer has come.
    fn redeem<'t>(&mut self, number: u32) -> Option<Line<'t>>
        ensures does { RedeemDoes number self.old (shown_line result) self.new }
        ensures short { IfSome result Short }
    {
        // it can be redeemed, since its answer has come
        let redeemed = self.port.redeem(number).ok()?;
        Some(Line::Answer { number, redeemed })
    }

    // What a request comes to that the port was asked, whose record ends at this offset.
    fn settle<'t>(&mut self, outcome: Result<u32, Refusal>, offset: usize) -> Option<Line<'t>>
        ensures does { Settles offset outcome self.old (shown_line result) self.new }
        ensures short { IfSome result Short }
    {
        match outcome {
            Ok(_) => {
                self.progress.use_up(offset);
                None
            }
            Err(Refusal::TooManyOut | Refusal::Busy) => {
                self.step();
                None
            }
            Err(refusal) => Some(Line::Refused {
                index: self.progress.use_up(offset),
                code: u8::from(refusal),
            }),
        }
    }

    // Carries out a record that ends at this offset.
    fn take<'t>(&mut self, next: Record<'t>, offset: usize) -> Option<Line<'t>>
        requires { ShortNote next }
        ensures does { ItemDoes (item_of next.entry empty_buffer) offset self.old (shown_line result) self.new }
        ensures short { IfSome result Short }
    {
        match next {
            Record::Load { size, address } => {
                let outcome = self.port.load(size, address);
                self.settle(outcome, offset)
            }
            Record::Store {
                size,
                address,
                value,
            } => {
                let outcome = self.port.store(size, address, value);
                self.settle(outcome, offset)
            }
            Record::Pass { steps } => {
                self.progress.use_up(offset);
                self.progress.pass = steps;
                None
            }
            Record::Note { text, .. } => {
                self.progress.use_up(offset);
                Some(Line::Note { text })
            }
            // no later record is a setup
            Record::Setup(_) => {
                self.progress.use_up(offset);
                None
            }
        }
    }

    // Makes a step while numbers are out, and then ends.
    fn finish<'t>(&mut self) -> Option<Line<'t>>
        ensures does { FinishDoes self.old (shown_line result) self.new }
        ensures short { IfSome result Short }
    {
        if self.port.out_count() > 0 {
            self.step();
            return None;
        }
        self.progress.ended = true;
        Some(Line::End {
            accepted: u64::from(LARGEST_RATION.saturating_sub(self.port.ration_left())),
            steps: self.progress.steps,
        })
    }

    // Takes the next record, if there is one.
    fn read_on<'t>(&mut self, trace: &'t [u8]) -> Option<Line<'t>>
        ensures does { ReadDoes trace.now self.old (shown_line result) self.new }
        ensures short { IfSome result Short }
    {
        let Some(from) = self.progress.next else {
            return self.finish();
        };
        match read_later(trace, from) {
            Ok(Some((next, offset))) => self.take(next, offset),
            Ok(None) => self.finish(),
            Err(refusal) => {
                self.progress.next = None;
                Some(Line::Refused {
                    index: self.progress.index,
                    code: u8::from(refusal),
                })
            }
        }
    }

    /// Does one thing, and answers the line that tells of it, if one does.
    pub(crate) fn proceed<'t>(&mut self, trace: &'t [u8]) -> Option<Line<'t>>
        ensures does { SessionDoes trace.now self.old (shown_line result) self.new }
        ensures short { IfSome result Short }
    {
        if self.progress.ended {
            return None;
        }
        if let Some(number) = self.port.come() {
            return self.redeem(number);
        }
        if self.progress.pass > 0 {
            self.progress.pass -= 1;
            self.step();
            return None;
        }
        self.read_on(trace)
    }
}
