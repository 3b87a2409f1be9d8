//! Takes the input of a run block by block: a bundle, or the trace of a script that comes apart.

ghost use Rattle.std.specs.Prelude.{◌≡◌, ◌++◌, [], ℕ, List, Option, None, Some, IfOk, IfSome};
ghost use Rattle.std.specs.Prelude.{IsFalse, OnOk};
ghost use Rattle.std.specs.Thread.{IsSync};
ghost use Rattle.streams.specs.Turns.{GoesOn, IsReading, IsTurn};
ghost use Rattle.consumer.specs.{Consuming.HoldsOfInput, Steps.Judging.IsJudged};
ghost use Rattle.consumer.specs.Steps.Blocks.{HasTaken, IsTakenApart, Takes, TakesRows, Tells};
ghost use Rattle.consumer.specs.Vocabulary.{reads, trace_of};

use crate::bundle::{Division, divide, first_lines};
use crate::refusal::Refusal;
use crate::scripts::judge;
use d_lexer::MAX_BYTES;
use d_types::TypedScript;
use firing_reader::Reader;
use keyed_hash::HashKey;
use std::alloc::{AllocError, Global};
use std::mem::replace;
use std::thread::{Threads, join_mut};
use streams::{Feed, ReadFault, Reading, read_block, take_next};

// The most bytes of a bundle up to its dividing line and with it, if the script is within the
// limit. A dividing line has up to four.
const MAX_UNDIVIDED: usize = MAX_BYTES + 4;

// How many bytes of a trace are taken while several workers read those before them. Starting the
// workers takes little time beside that.
const SHARED_BLOCK: usize = 1 << 22;

// If several workers read, the first bytes of a trace wait for the next block to be read beside
// them, unless there are this many.
const MIN_SHARED: usize = SHARED_BLOCK / 2;

/// A script, and what was read of its trace. If the script is refused, no more of it is read.
#[derive(Drop)]
pub(crate) struct Input {
    /// The script, or why it is refused.
    pub(crate) script: Result<TypedScript, Refusal>,
    pub(crate) trace: Reader,
}

/// Takes the input of a run.
#[derive(Drop)]
pub(crate) struct Intake<'a, R> {
    pub(crate) rt: &'a R,
    pub(crate) alloc: Global,
    /// How many workers there are.
    pub(crate) workers: u32,
    /// The hash key of the trace's maps.
    pub(crate) hash_key: HashKey,
}

impl<'a, R: Threads + Sync> Intake<'a, R> {
    /// Takes all bytes that a feed has left: a bundle, or the trace of a script that was begun. At
    /// a fault a beginning of them was read.
    pub(crate) fn read_from<F: Feed + Send>(
        &self,
        feed: &mut F,
        begun: Option<Input>,
    ) -> Result<Input, ReadFault>
        requires { IsFalse (F.seen feed.old).has_failed }
        ensures bytes { IfOk result (λ input. HoldsOfInput (F.seen feed.old).remaining (λ bytes.
            (apart : Option (List ℕ)) → HasTaken apart [] begun []
            → IsTakenApart apart bytes input [])) }
        ensures reading { IsReading (F.seen feed.old) (F.seen feed.new) result }
    {
        let mut reading = Reading::new(self.alloc)?;
        let mut block = Vec::new(self.alloc);
        let mut taken = begun;
        while reading.calls_left > 0 {
            if self.take_from(feed, &mut reading, &mut block, &mut taken)? {
                match self.whole(taken, &block) {
                    Ok(input) => return Ok(input),
                    Err(_) => return Err(ReadFault::Memory),
                }
            }
        }
        Err(ReadFault::Failed)
    }

    // Takes the next bytes of a feed, and returns whether it has ended. Until the script is known
    // the block has all bytes that have come.
    fn take_from<F: Feed + Send>(
        &self,
        feed: &mut F,
        reading: &mut Reading,
        block: &mut Vec<u8>,
        taken: &mut Option<Input>,
    ) -> Result<bool, ReadFault>
        requires { GoesOn reading.old.calls_left (F.seen feed.old) }
        ensures { IsTurn (F.seen feed.old) (F.seen feed.new) reading.old.calls_left
            reading.new.calls_left result
            (Takes block.old.items taken.old block.new.items taken.new) }
    {
        let Some(input) = taken else {
            let ended = take_next(feed, reading, block)?;
            let told = self.told_by(block)?;
            let none = replace(taken, told);
            drop(none);
            return Ok(ended);
        };
        if input.script.is_ok() {
            return self.take_rows(feed, reading, block, &mut input.trace);
        }
        block.clear();
        take_next(feed, reading, block)
    }

    // Takes the next bytes of a trace.
    fn take_rows<F: Feed + Send>(
        &self,
        feed: &mut F,
        reading: &mut Reading,
        block: &mut Vec<u8>,
        trace: &mut Reader,
    ) -> Result<bool, ReadFault>
        requires { GoesOn reading.old.calls_left (F.seen feed.old) }
        ensures { IsTurn (F.seen feed.old) (F.seen feed.new) reading.old.calls_left
            reading.new.calls_left result (TakesRows trace.old trace.new) }
    {
        trace.take_out_row(block)?;
        let (given, read) = self.read_beside(feed, reading, block, trace);
        let ended = given?;
        read?;
        trace.take_block(block)?;
        Ok(ended)
    }

    // Adds what a feed gives to a block, and reads the rows that have come: if there are several
    // workers, at once. A new thread may start only when its parent waits, so it takes the bytes,
    // for which nothing else waits.
    fn read_beside<F: Feed + Send>(
        &self,
        feed: &mut F,
        reading: &mut Reading,
        block: &mut Vec<u8>,
        trace: &mut Reader,
    ) -> (Result<bool, ReadFault>, Result<(), AllocError>)
        requires { GoesOn reading.old.calls_left (F.seen feed.old) }
        ensures turn { IsTurn (F.seen feed.old) (F.seen feed.new) reading.old.calls_left
            reading.new.calls_left result.0 (λ bytes. block.new.items ≡ block.old.items ++ bytes) }
        ensures read { OnOk result.1 (TakesRows trace.old trace.new []) }
    {
        if self.workers < 2 {
            let read = trace.read(self.rt);
            return (read_block(feed, reading, block, 1), read);
        }
        let rt = self.rt;
        join_mut(
            rt,
            &mut || -> Result<bool, ReadFault>
                requires { GoesOn reading.now.calls_left (F.seen feed.now) }
                ensures { IsTurn (F.seen feed.entry.now) (F.seen feed.exit.now)
                    reading.entry.now.calls_left reading.exit.now.calls_left result
                    (λ bytes. block.exit.now.items ≡ block.entry.now.items ++ bytes) }
            { read_block(feed, reading, block, SHARED_BLOCK) },
            &mut || -> Result<(), AllocError>
                requires { IsSync R.row }
                ensures { OnOk result (TakesRows trace.entry.now trace.exit.now []) }
            { trace.read(rt) },
        )
    }

    // What first bytes of a bundle tell.
    fn told_by(&self, first: &[u8]) -> Result<Option<Input>, AllocError>
        ensures { IfOk result (λ input. IfSome input (λ t. HasTaken None [] (Some t) first.now)) }
    {
        let Some(parts) = parts_of(first) else {
            return Ok(None);
        };
        let input = self.begun(parts.script, parts.trace)?;
        Ok(Some(input))
    }

    // The input at its end.
    fn whole(&self, taken: Option<Input>, first: &[u8]) -> Result<Input, AllocError>
        ensures { IfOk result (λ t. (apart : Option (List ℕ)) (bytes : List ℕ)
            → HasTaken apart first.now taken bytes → IsTakenApart apart bytes t []) }
    {
        match taken {
            Some(input) => Ok(input),
            None => {
                let parts = divide(first);
                self.begun(parts.script, parts.trace)
            }
        }
    }

    /// Takes the trace of a script, of which the first bytes have come. They aren't read if the
    /// script is refused.
    pub(crate) fn begun(&self, script: &[u8], first: &[u8]) -> Result<Input, AllocError>
        ensures judged { IfOk result (λ t. IsJudged script.now t.script) }
        ensures trace { IfOk result (λ t. OnOk t.script
            ((rest : List ℕ) → reads t.trace rest ≡ trace_of (first.now ++ rest))) }
    {
        let least = if self.workers < 2 { 1 } else { MIN_SHARED };
        let mut trace = Reader::new(self.alloc, self.hash_key, self.workers, least)?;
        let script = judge(self.alloc, script);
        if script.is_err() {
            return Ok(Input { script, trace });
        }
        match trace.take(self.rt, first) {
            Ok(()) => Ok(Input { script, trace }),
            Err(e) => {
                drop(script);
                drop(trace);
                Err(e)
            }
        }
    }
}

// The script and the first bytes of the trace, if these bytes of a bundle settle them: they have a
// dividing line, or the script is too long whatever comes next.
fn parts_of(first: &[u8]) -> Option<Division<'_>>
    ensures { IfSome result (λ parts. Tells first.now parts.script.now parts.trace.now) }
{
    let (passed, trace) = first_lines(first);
    match trace {
        Some(trace) => Some(Division {
            script: &first[..passed],
            trace,
        }),
        None if first.len() > MAX_UNDIVIDED => Some(Division {
            script: first,
            trace: &[],
        }),
        None => None,
    }
}
