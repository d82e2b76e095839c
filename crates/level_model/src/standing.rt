//! Where a line stands in a level.
ghost use Rattle.std.specs.Prelude.{◌≡◌};
ghost use Rattle.level_model.specs.Standing.{nowhere};

use crate::ways::Condition;

/// Where a line stands.
#[derive(Clone, Copy, PartialEq, Eq, Debug)]
pub struct Standing {
    /// The way that holds it.
    pub way: Option<usize>,
    /// Whether the memory below holds the bytes of that way; clean without one.
    pub condition: Condition,
    /// How many targets its register has, from 0 to 4.
    pub targets: usize,
    /// Whether that register waits.
    pub waits: bool,
    /// Whether it is in the write-back queue.
    pub queued: bool,
}

impl Standing {
    /// In no way, without a register, and not queued.
    pub fn nowhere() -> Standing
        ensures { result ≡ nowhere }
    {
        Standing {
            way: None,
            condition: Condition::Clean,
            targets: 0,
            waits: false,
            queued: false,
        }
    }
}
