//! A std reader or writer as a stream that counts its calls and notes a failure.
ghost use Rattle.std.specs.Prelude.{◌≡◌, ◌+◌, ◌<◌, IsFalse, true, false};
ghost use Rattle.streams.specs.Watched.{watched_inner, watched_calls, watched_feed, watched_sink};
ghost use Rattle.streams.specs.Watched.{watched_has_failed, watched_has_ended, watched_is_flushed};

use crate::stream::{Failed, Feed, Sink};
use std::io::{Read, Write};

/// A std writer as a `Sink`, or a std reader as a `Feed`. Every error of it is a failure, an
/// interrupted call too. So is a write that takes nothing of a piece that isn't empty, and a call
/// after `u64::MAX` good ones.
#[derive(Drop)]
pub struct Watched<T> {
    inner: T,
    good_calls: u64,
    has_failed: bool,
    has_ended: bool,
    is_flushed: bool,
}

impl<T> Watched<T> {
    /// Watches a reader or a writer from here on.
    ///
    /// ```text
    /// let mut sink = Watched::new(Vec::new(alloc));
    /// emit(&mut sink, b"abc")?;
    /// let bytes = sink.into_inner(); // `abc`
    /// ```
    pub fn new(inner: T) -> Watched<T>
        ensures inner { watched_inner result ≡ inner }
        ensures calls { watched_calls result ≡ 0 }
        ensures failed { IsFalse (watched_has_failed result) }
        ensures ended { IsFalse (watched_has_ended result) }
        ensures flushed { IsFalse (watched_is_flushed result) }
    {
        Watched {
            inner,
            good_calls: 0,
            has_failed: false,
            has_ended: false,
            is_flushed: false,
        }
    }

    /// The reader or writer itself.
    ///
    /// ```text
    /// let sink = Watched::new(Vec::new(alloc));
    /// let bytes = sink.into_inner(); // none: nothing was written
    /// ```
    pub fn into_inner(self) -> T
        ensures { result ≡ watched_inner self }
    {
        self.inner
    }

    // Notes that a call failed.
    fn fail(&mut self) -> Failed
        ensures { self.new
            ≡ record self.old { has_failed = true; has_ended = false; is_flushed = false } }
    {
        self.has_failed = true;
        self.has_ended = false;
        self.is_flushed = false;
        Failed
    }
}

impl<W: Write> Sink for Watched<W> {
    ghost seen = { watched_sink W.contents };

    fn put(&mut self, piece: &[u8]) -> Result<usize, Failed> {
        if self.good_calls < u64::MAX
            && let Ok(taken) = self.inner.write(piece)
            && (taken > 0 || piece.is_empty())
        {
            self.good_calls += 1;
            self.is_flushed = false;
            return Ok(taken);
        }
        Err(self.fail())
    }

    fn flush(&mut self) -> Result<(), Failed> {
        if self.good_calls < u64::MAX && self.inner.flush().is_ok() {
            self.good_calls += 1;
            self.is_flushed = true;
            return Ok(());
        }
        Err(self.fail())
    }
}

impl<R: Read> Feed for Watched<R> {
    ghost seen = { watched_feed R.remaining };

    fn get(&mut self, buffer: &mut [u8]) -> Result<usize, Failed> {
        if self.good_calls < u64::MAX
            && let Ok(given) = self.inner.read(buffer)
        {
            self.good_calls += 1;
            self.has_ended = given == 0 && !buffer.is_empty();
            return Ok(given);
        }
        Err(self.fail())
    }
}
