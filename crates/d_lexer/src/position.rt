//! Where in the bytes.

ghost use Rattle.std.specs.Prelude.{◌≡◌, ◌+◌, ◌<◌, ◌≤◌, length};
ghost use Rattle.d_lexer.specs.Places as spec;

use crate::byte_kinds::is_space;
use crate::fault::MAX_BYTES;

/// How many bytes came before, the line, and whether the line has held only spaces and tabs so far.
#[derive(Clone, Copy)]
pub struct Position {
    pub at: usize,
    pub line: usize,
    pub fresh: bool,
}

impl Position {
    pub(crate) fn start() -> Position
        ensures { result ≡ spec.first_position }
    {
        Position {
            at: 0,
            line: 1,
            fresh: true,
        }
    }

    pub(crate) fn pass(self, b: u8) -> Position
        requires at { self.at < MAX_BYTES }
        requires line { self.line ≤ MAX_BYTES }
        ensures is { result ≡ spec.after_byte self b }
        ensures at { result.at ≡ self.at + 1 }
        ensures line { result.line ≤ self.line + 1 }
    {
        Position {
            at: self.at + 1,
            line: if b == b'\n' { self.line + 1 } else { self.line },
            fresh: b == b'\n' || (self.fresh && is_space(b)),
        }
    }

    pub(crate) fn pass_all(self, bytes: &[u8]) -> Position
        requires at { self.at + length bytes.now ≤ MAX_BYTES }
        requires line { self.line ≤ self.at + 1 }
        ensures is { result ≡ spec.position_after self bytes.now }
        ensures at { result.at ≡ self.at + length bytes.now }
        ensures line { result.line ≤ result.at + 1 }
    {
        let mut here = self;
        let mut rest = bytes;
        while let [b, after @ ..] = rest {
            here = here.pass(*b);
            rest = after;
        }
        here
    }
}
