//! Which firings of a run count.

ghost use Rattle.std.specs.Prelude.{◌≡◌};

use firings::Firing;

/// Which firings of a run count.
#[derive(Clone, Copy)]
pub(crate) enum Span {
    /// All of them.
    All,
    /// The firings up to `last`, and END, whose number is `end`.
    UpTo { last: u64, end: u64 },
    /// The firings of each group up to its first that exits, or to the first exit that another
    /// worker found.
    UntilExit,
}

impl Span {
    ghost use Rattle.replay_core.specs.Working.{is_in};

    /// Whether a firing counts.
    pub(crate) fn has(self, firing: &Firing) -> bool
        ensures { result ≡ is_in self firing.now }
    {
        match self {
            Span::All | Span::UntilExit => true,
            Span::UpTo { last, end } => firing.number <= last || firing.number == end,
        }
    }
}
