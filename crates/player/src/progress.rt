//! How far a play has come.
ghost use Rattle.std.specs.Prelude.{◌≡◌};
ghost use Rattle.player.specs.Progress.{new_progress, used_up, stepped};

/// How far a play has come in its trace, and what it has counted.
#[derive(Clone, Copy)]
pub(crate) struct Progress {
    /// Where the next record begins; nothing once a record was refused by the reader.
    pub(crate) next: Option<usize>,
    /// The index of the next record in the trace, where the setup has index 0.
    pub(crate) index: u64,
    /// The steps of the last pass that are left to be made.
    pub(crate) pass: u16,
    /// How many steps were made.
    pub(crate) steps: u64,
    /// Whether the last line was written.
    pub(crate) ended: bool,
}

impl Progress {
    /// Behind a setup that ends at this offset.
    pub(crate) fn new(offset: usize) -> Progress
        ensures { result ≡ new_progress offset }
    {
        Progress {
            next: Some(offset),
            index: 1,
            pass: 0,
            steps: 0,
            ended: false,
        }
    }

    /// The next record, which ends at this offset, is used up. Answers its index.
    pub(crate) fn use_up(&mut self, offset: usize) -> u64
        ensures index { result ≡ self.old.index }
        ensures after { self.new ≡ used_up offset self.old }
    {
        let index = self.index;
        self.next = Some(offset);
        self.index = index.saturating_add(1);
        index
    }

    /// One step more was made.
    pub(crate) fn count_step(&mut self)
        ensures { self.new ≡ stepped self.old }
    {
        self.steps = self.steps.saturating_add(1);
    }
}
