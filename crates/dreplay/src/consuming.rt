//! From the bytes of a bundle to its report.

ghost use Rattle.std.specs.Prelude.{IsFalse};
ghost use Rattle.consumer.specs.Consuming.{IsConsumed, WritesBundle};
ghost use Rattle.report.specs.{Report.IsReport};

use consumer::{ConsumeFault, Consumer, Plan, Replayed};
use report::Report;
use std::alloc::Global;
use std::sync::Wait;
use std::thread::Threads;
use streams::{Feed, Sink};

/// Reads a bundle to its end, runs its script over its trace, writes what the script shows and
/// flushes the writer. Nothing is written unless there is an answer. Maps hash by a fixed key.
///
/// ```text
/// // `BEGIN { trace(1); }`, a line `---` and a trace
/// let mut feed = Watched::new(bundle.as_slice());
/// let mut sink = Watched::new(Vec::new(alloc));
/// let replayed = consume(&rt, alloc, &mut feed, &mut sink, &plan)?;
/// sink.into_inner(); // `1` and a line feed, as `replayed.bytes`
/// ```
pub fn consume<R: Threads + Wait + Sync, F: Feed + Send, S: Sink>(
    rt: &R,
    alloc: Global,
    feed: &mut F,
    sink: &mut S,
    plan: &Plan,
) -> Result<Replayed, ConsumeFault>
    requires { IsFalse (F.seen feed.old).has_failed × IsFalse (S.seen sink.old).has_failed }
    ensures { IsConsumed (F.seen feed.old) (F.seen feed.new) sink.old sink.new result
        (λ bundle. WritesBundle IsReport bundle plan.now
        (S.seen sink.old) (S.seen sink.new) result) }
{
    Consumer::new(rt, alloc, Report).consume(feed, sink, plan)
}
