//! Why tokens have no tree.

ghost use Rattle.std.specs.Prelude.{◌≡◌};
ghost use Rattle.d_parser.specs.declared.fault.ParseFault.TheVariants.{Memory};
ghost use Rattle.d_parser.specs.Steps.Lines.{ending_on};

use crate::limits::{MAX_CLAUSES, MAX_IN_A_ROW, MAX_OPEN};
use std::alloc::{AllocError, AllocFailed};
use thiserror::Error;

/// Why a script has no tree. The limits are looked at first, and take no memory.
#[derive(Clone, Copy, Debug, PartialEq, Eq, Error)]
pub enum ParseFault {
    /// The line of the first token that can't follow the ones before it; if the tokens end too
    /// soon, that of the last token.
    #[error("line {line}: not a D script")]
    Syntax { line: usize },
    /// More than 64 brackets open at once, or more than 1,024 tokens without `;`, `{` or `}`.
    #[error("more than {MAX_OPEN} open brackets, or {MAX_IN_A_ROW} tokens in a row")]
    TooDeep,
    /// More than 256 `{`.
    #[error("more than {most} clauses", most = MAX_CLAUSES)]
    TooManyClauses,
    /// Memory ran out.
    #[error("out of memory")]
    Memory,
}

/// A line that isn't known yet; `ending_on` fills it in.
pub(crate) const AT_END: usize = 0;

impl ParseFault {
    /// Gives a fault this line if it has none yet.
    pub(crate) fn ending_on(self, line: usize) -> ParseFault
        ensures { result ≡ ending_on line self }
    {
        match self {
            ParseFault::Syntax { line: AT_END } => ParseFault::Syntax { line },
            other => other,
        }
    }
}

impl From<AllocError> for ParseFault {
    ghost from_gives = { λ _ e. e ≡ Memory };

    fn from(_e: AllocError) -> ParseFault {
        ParseFault::Memory
    }
}

impl<T: Drop> From<AllocFailed<T>> for ParseFault {
    ghost from_gives = { λ _ e. e ≡ Memory };

    fn from(_e: AllocFailed<T>) -> ParseFault {
        ParseFault::Memory
    }
}
