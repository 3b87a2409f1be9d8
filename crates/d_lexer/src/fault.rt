//! Why a script has no tokens.

ghost use Rattle.std.specs.Prelude.{◌≡◌};
ghost use Rattle.d_lexer.specs.Faults as spec;
ghost use Rattle.d_lexer.specs.declared.fault.Stop.TheVariants.{Memory};

use std::alloc::{AllocError, AllocFailed};
use std::fmt;
use thiserror::Error;

/// Why a script has no tokens. A line is that on which the refused token, comment, option line or
/// byte begins.
#[derive(Clone, Copy, Debug, PartialEq, Eq, Error)]
pub enum LexFault {
    /// More than 65,536 bytes: this is checked first.
    TooLong,
    /// A byte that no token begins with at its place.
    BadByte { line: usize },
    /// A comment or a text constant without its end.
    Unclosed { line: usize },
    /// A number that isn't a valid integer constant, or is 2^64 or more.
    Constant { line: usize },
    /// A backslash in a text constant before a byte that makes no escape.
    Escape { line: usize },
    /// A line that begins with `#` and is not `#pragma D option quiet`.
    OptionLine { line: usize },
    /// Memory ran out.
    Memory,
}

/// The most bytes that a script may have.
pub const MAX_BYTES: usize = 65536;

impl LexFault {
    // The line that it names.
    fn line(self) -> Option<usize> {
        match self {
            LexFault::BadByte { line }
            | LexFault::Unclosed { line }
            | LexFault::Constant { line }
            | LexFault::Escape { line }
            | LexFault::OptionLine { line } => Some(line),
            LexFault::TooLong | LexFault::Memory => None,
        }
    }

    // What is wrong, without the line.
    fn message(self) -> &'static str {
        match self {
            LexFault::TooLong => "the script has more than 65536 bytes",
            LexFault::BadByte { .. } => "a byte that no token has here",
            LexFault::Unclosed { .. } => "a comment or a text constant without an end",
            LexFault::Constant { .. } => "not an integer constant below 2^64",
            LexFault::Escape { .. } => "an unknown escape in a text constant",
            LexFault::OptionLine { .. } => "an option line other than `#pragma D option quiet`",
            LexFault::Memory => "out of memory",
        }
    }
}

impl fmt::Display for LexFault {
    fn fmt<W: fmt::Write>(&self, f: &mut fmt::Formatter<W>) -> fmt::Result {
        let message = self.message();
        match self.line() {
            Some(line) => write!(f, "line {line}: {message}"),
            None => f.write_str(message),
        }
    }
}

/// What is wrong at a place; its line is added later.
#[derive(Clone, Copy)]
pub enum Flaw {
    BadByte,
    Unclosed,
    Constant,
    Escape,
    OptionLine,
}

impl Flaw {
    pub(crate) fn on_line(self, line: usize) -> LexFault
        ensures { result ≡ spec.on_line self line }
    {
        match self {
            Flaw::BadByte => LexFault::BadByte { line },
            Flaw::Unclosed => LexFault::Unclosed { line },
            Flaw::Constant => LexFault::Constant { line },
            Flaw::Escape => LexFault::Escape { line },
            Flaw::OptionLine => LexFault::OptionLine { line },
        }
    }
}

/// Why a step read nothing.
#[derive(Clone, Copy)]
pub enum Stop {
    Memory,
    Flawed(Flaw),
}

impl From<AllocError> for Stop {
    ghost from_gives = { λ _ e. e ≡ Memory };

    fn from(_e: AllocError) -> Stop {
        Stop::Memory
    }
}

impl<T: Drop> From<AllocFailed<T>> for Stop {
    ghost from_gives = { λ _ e. e ≡ Memory };

    fn from(_e: AllocFailed<T>) -> Stop {
        Stop::Memory
    }
}
