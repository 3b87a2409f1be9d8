//! Streams of bytes whose contracts state which bytes went through, how many calls were made, and
//! whether one has failed.
ghost use Rattle.std.specs.Prelude.{◌≡◌, ◌↔◌, ◌+◌, ◌<◌, length, IfOk, IsErr, IsOk, IsTrue, IsFalse};
ghost use Rattle.std.specs.Io.{ReadsAtMost, WritesAtMost};
ghost use Rattle.std.specs.Io.KnownBytes.{Keeps, ReadConsumes, WriteAppends};
ghost use Rattle.streams.specs.Stream.{FeedSeen, SinkSeen};

use thiserror::Error;

/// A call of a stream failed. No further call is made of that stream.
#[derive(Clone, Copy, Debug, PartialEq, Eq, Error)]
#[error("the call failed")]
pub struct Failed;

/// What bytes are written to.
pub trait Sink {
    // What contracts see of it.
    ghost seen: { Self → SinkSeen };

    /// Writes a beginning of the piece and returns its length, which is 0 for an empty piece alone.
    /// A failed call writes nothing.
    ///
    /// ```text
    /// out.put(b"cat")?; // 1, 2 or 3
    /// ```
    fn put(&mut self, piece: &[u8]) -> Result<usize, Failed>
        requires { IsFalse (seen self.old).has_failed }
        ensures bound { WritesAtMost result piece.now }
        ensures progress { IfOk result (λ n. 0 < length piece.now → 0 < n) }
        ensures bytes { WriteAppends (seen self.old).bytes (seen self.new).bytes result piece.now }
        ensures counted { (seen self.new).calls ≡ (seen self.old).calls + 1 }
        ensures failed { IsTrue (seen self.new).has_failed ↔ IsErr result }
        ensures waits { IsFalse (seen self.new).is_flushed };

    /// Hands on what was put, so that no byte is left in a buffer.
    fn flush(&mut self) -> Result<(), Failed>
        requires { IsFalse (seen self.old).has_failed }
        ensures bytes { Keeps (seen self.old).bytes (seen self.new).bytes }
        ensures counted { (seen self.new).calls ≡ (seen self.old).calls + 1 }
        ensures failed { IsTrue (seen self.new).has_failed ↔ IsErr result }
        ensures flushed { IsTrue (seen self.new).is_flushed ↔ IsOk result };
}

/// What bytes are read from.
pub trait Feed {
    // What contracts see of it.
    ghost seen: { Self → FeedSeen };

    /// Puts the next bytes at the buffer's front and returns how many; what the buffer holds after
    /// them is unspecified. Zero, if the buffer isn't empty, means the end. A failed call takes no
    /// byte.
    ///
    /// ```text
    /// let count = input.get(&mut buffer)?; // buffer[..count] are the next bytes
    /// ```
    fn get(&mut self, buffer: &mut [u8]) -> Result<usize, Failed>
        requires { IsFalse (seen self.old).has_failed }
        ensures bound { ReadsAtMost result buffer.new }
        ensures bytes { ReadConsumes (seen self.old).remaining (seen self.new).remaining
            result buffer.new }
        ensures counted { (seen self.new).calls ≡ (seen self.old).calls + 1 }
        ensures failed { IsTrue (seen self.new).has_failed ↔ IsErr result }
        ensures ended { IsTrue (seen self.new).has_ended
            ↔ (result ≡ Ok 0 × 0 < length buffer.new) };
}
