//! A reader or a writer that moves one byte a call and fails at one chosen call: for tests of what
//! uses streams.
ghost use Rattle.std.specs.Prelude.{◌≡◌, ◌<◌, ◌≤◌, IfOk, IsOk};
ghost use Rattle.std.specs.Io.{ReadsAtMost, WritesAtMost};
ghost use Rattle.std.specs.Io.KnownBytes.{Keeps, ReadConsumes, WriteAppends};
ghost use Rattle.streams.specs.Faulty.{UsesGoodCall, faulty_good_calls, faulty_inner};

use std::io;
use std::io::{ErrorKind, Read, Write};

/// A std reader or writer of which a call moves one byte at most. The call after the first
/// `good_calls` is interrupted and moves none, as if a signal had come; later calls go well again.
#[derive(Drop)]
pub struct Faulty<T> {
    inner: T,
    good_calls: u64,
}

impl<T> Faulty<T> {
    /// Lets this many calls of the reader or writer go well before one is interrupted.
    ///
    /// ```text
    /// let mut reader = Faulty::new(b"abc".as_slice(), 2); // gives `a` and `b`, and then an error
    /// ```
    pub fn new(inner: T, good_calls: u64) -> Faulty<T>
        ensures inner { faulty_inner result ≡ inner }
        ensures good_calls { faulty_good_calls result ≡ good_calls }
    {
        Faulty { inner, good_calls }
    }

    /// The reader or writer itself.
    ///
    /// ```text
    /// Faulty::new(b"abc".as_slice(), 2).into_inner(); // b"abc"
    /// ```
    pub fn into_inner(self) -> T
        ensures { result ≡ faulty_inner self }
    {
        self.inner
    }

    // Counts a call, and interrupts it if no good one is left.
    fn begin(&mut self) -> io::Result<()>
        ensures call { UsesGoodCall self.old self.new result }
        ensures goes_well { 0 < faulty_good_calls self.old → IsOk result }
        ensures inner { faulty_inner self.new ≡ faulty_inner self.old }
    {
        let Some(left) = self.good_calls.checked_sub(1) else {
            self.good_calls = u64::MAX;
            return Err(io::Error::from(ErrorKind::Interrupted));
        };
        self.good_calls = left;
        Ok(())
    }
}

impl<R: Read> Read for Faulty<R> {
    ghost remaining = { λ f. R.remaining (faulty_inner f) };

    fn read(&mut self, buf: &mut [u8]) -> io::Result<usize>
        ensures bound { ReadsAtMost result buf.new }
        ensures bytes { ReadConsumes (R.remaining (faulty_inner self.old))
            (R.remaining (faulty_inner self.new)) result buf.new }
        ensures call { UsesGoodCall self.old self.new result × IfOk result (λ n. n ≤ 1) }
    {
        self.begin()?;
        let room = buf.len().min(1);
        self.inner.read(&mut buf[..room])
    }
}

impl<W: Write> Write for Faulty<W> {
    ghost contents = { λ f. W.contents (faulty_inner f) };

    fn write(&mut self, buf: &[u8]) -> io::Result<usize>
        ensures bound { WritesAtMost result buf.now }
        ensures bytes { WriteAppends (W.contents (faulty_inner self.old))
            (W.contents (faulty_inner self.new)) result buf.now }
        ensures call { UsesGoodCall self.old self.new result × IfOk result (λ n. n ≤ 1) }
    {
        self.begin()?;
        let room = buf.len().min(1);
        self.inner.write(&buf[..room])
    }

    fn flush(&mut self) -> io::Result<()>
        ensures bytes { Keeps (W.contents (faulty_inner self.old))
            (W.contents (faulty_inner self.new)) }
        ensures call { UsesGoodCall self.old self.new result }
    {
        self.begin()?;
        self.inner.flush()
    }
}
