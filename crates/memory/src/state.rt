//! The facts by which a memory is known.
ghost use Rattle.std.specs.Prelude.{ℕ, List, Option};
ghost use Rattle.memory.specs.declared.replies.Fault.{Fault};
ghost use Rattle.memory.specs.declared.replies.Reply.{Reply};

/// What there is to know of a memory between two calls.
pub trait State {
    // How many lines there are: they are numbered from 0.
    ghost lines: { Self → ℕ };

    // The 16 bytes of each line.
    ghost contents: { Self → ℕ → List ℕ };

    // The fault of each line that is bad.
    ghost bad: { Self → ℕ → Option Fault };

    // The reply that is due to each ticket that is open.
    ghost due: { Self → ℕ → Option Reply };

    // How many steps are owed.
    ghost owed: { Self → ℕ };

    // By how much a request may raise what is owed.
    ghost pace: { Self → ℕ };
}
