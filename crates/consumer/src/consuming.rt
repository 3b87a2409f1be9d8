//! From the bytes in to the bytes out.

ghost use Rattle.std.specs.Prelude.{◌≡◌, ◌≢◌, Err, IfErr, IsFalse};
ghost use Rattle.consumer.specs.Consuming.{IsConsumed, WritesAnswer, WritesBundle, WritesOut};
ghost use Rattle.consumer.specs.Consuming.{fault_of_reading};
ghost use Rattle.consumer.specs.Vocabulary.{Memory, Refused};

use crate::consumer::Consumer;
use crate::plan::{Plan, Replayed};
use crate::refusal::Refusal;
use replay_core::{Layout, OpenGate};
use std::alloc::AllocError;
use std::sync::Wait;
use std::thread::Threads;
use streams::{Feed, ReadFault, Sink, send};
use thiserror::Error;

/// Why an answer was not written.
#[derive(Debug, Drop, Error)]
pub enum ConsumeFault {
    /// The reader failed, or had not ended after 2^32 calls. Nothing was written.
    #[error("read failed")]
    Read,
    /// There is no answer, and nothing was written.
    #[error(transparent)]
    Refused(Refusal),
    /// The writer failed. A beginning of the answer was written, or all of it if it failed as it
    /// was flushed.
    #[error("write failed")]
    Write,
}

impl From<ReadFault> for ConsumeFault {
    ghost from_gives = { λ fault e. e ≡ fault_of_reading fault };

    fn from(fault: ReadFault) -> ConsumeFault {
        match fault {
            ReadFault::Failed => ConsumeFault::Read,
            ReadFault::Memory => ConsumeFault::Refused(Refusal::Memory),
        }
    }
}

impl From<AllocError> for ConsumeFault {
    ghost from_gives = { λ _ e. e ≡ Refused Memory };

    fn from(_e: AllocError) -> ConsumeFault {
        ConsumeFault::Refused(Refusal::Memory)
    }
}

impl<'a, R: Threads + Wait + Sync, L: Layout> Consumer<'a, R, L> {
    /// Reads a bundle to its end, runs its script over its trace, writes what the script shows and
    /// flushes the writer. Nothing is written unless there is an answer.
    ///
    /// ```text
    /// // `BEGIN { trace(1); }`, a line `---` and a trace
    /// let mut feed = Watched::new(bundle.as_slice());
    /// let mut sink = Watched::new(Vec::new(alloc));
    /// let replayed = consumer.consume(&mut feed, &mut sink, &plan)?;
    /// sink.into_inner(); // `1` and a line feed, as `replayed.bytes`
    /// ```
    pub fn consume<F: Feed + Send, S: Sink>(
        &self,
        feed: &mut F,
        sink: &mut S,
        plan: &Plan,
    ) -> Result<Replayed, ConsumeFault>
        requires { IsFalse (F.seen feed.old).has_failed × IsFalse (S.seen sink.old).has_failed }
        ensures { IsConsumed (F.seen feed.old) (F.seen feed.new) sink.old sink.new result
            (λ bundle. WritesBundle L.shows bundle plan.now
            (S.seen sink.old) (S.seen sink.new) result) }
    {
        let input = self.intake(plan).read_from(feed, None)?;
        write_out(self.answer(input, plan, &OpenGate), sink)
    }

    /// Reads a trace to its end, runs the script over it, writes what the script shows and flushes
    /// the writer. Nothing is written unless there is an answer.
    ///
    /// ```text
    /// let mut feed = Watched::new(trace.as_slice());
    /// let mut sink = Watched::new(Vec::new(alloc));
    /// consumer.consume_trace(b"BEGIN { trace(1); }", &mut feed, &mut sink, &plan)?;
    /// sink.into_inner(); // `1` and a line feed
    /// ```
    pub fn consume_trace<F: Feed + Send, S: Sink>(
        &self,
        script: &[u8],
        feed: &mut F,
        sink: &mut S,
        plan: &Plan,
    ) -> Result<Replayed, ConsumeFault>
        requires { IsFalse (F.seen feed.old).has_failed × IsFalse (S.seen sink.old).has_failed }
        ensures { IsConsumed (F.seen feed.old) (F.seen feed.new) sink.old sink.new result
            (λ trace. WritesAnswer L.shows script.now trace plan.now
            (S.seen sink.old) (S.seen sink.new) result) }
    {
        let intake = self.intake(plan);
        let begun = intake.begun(script, &[])?;
        let input = intake.read_from(feed, Some(begun))?;
        write_out(self.answer(input, plan, &OpenGate), sink)
    }
}

// Writes an answer, if there is one, and returns it.
fn write_out<S: Sink>(
    answer: Result<Replayed, Refusal>,
    sink: &mut S,
) -> Result<Replayed, ConsumeFault>
    requires { IsFalse (S.seen sink.old).has_failed }
    ensures out { WritesOut answer (S.seen sink.old) (S.seen sink.new) result }
    ensures read { result ≢ Err ConsumeFault.Read }
    ensures untouched { result ≢ Err ConsumeFault.Write → IfErr result (λ e. sink.new ≡ sink.old) }
{
    let replayed = match answer {
        Ok(replayed) => replayed,
        Err(refusal) => return Err(ConsumeFault::Refused(refusal)),
    };
    match send(sink, &replayed.bytes) {
        Ok(()) => Ok(replayed),
        Err(_) => Err(ConsumeFault::Write),
    }
}
