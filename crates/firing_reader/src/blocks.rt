//! Reading a trace that comes in blocks.

ghost use Rattle.std.specs.Prelude.{◌≡◌, ◌≢◌, ◌<◌, ◌≤◌, ◌+◌, ◌++◌, ◌∷◌, [], ℕ, List, OnOk, OnErr};
ghost use Rattle.std.specs.Prelude.{IfOk, IfErr, length};
ghost use Rattle.firing_reader.specs.{Vocabulary.Memory, Gives.Gives, Gives.GivesBy};
ghost use Rattle.firings.specs.Firings.{IsTrace};
ghost use Rattle.firing_reader.specs.Trace.{trace_of};
ghost use Rattle.firing_reader.specs.Blocks.{BeginsAtFeed};
ghost use Rattle.firing_reader.specs.Steps.Blocks.{IsFaultOf, IsReadBy};
ghost use Rattle.firing_reader.specs.Blocks.{reads, reads_at};
ghost use Rattle.firing_reader.specs.Plain.{rows_in};
ghost use Rattle.firing_reader.specs.Pieces.{AreWaiting, IsKept, unread};
ghost use Rattle.firing_reader.specs.declared.blocks.Stage.TheVariants.{Refused, Rows};

use crate::fault::TraceFault;
use crate::plain::front::is_end;
use crate::reading::{read_header, read_rest, read_whole};
use crate::waiting::{Progress, add_waiting, give_back, keep_waiting, read_pieces};
use crate::whole_rows::{keep_from, read_rows};
use firings::Trace;
use keyed_hash::HashKey;
use std::alloc::{AllocError, Global};
use std::marker::Model;
use std::mem::swap;
use std::thread::Threads;

// The most bytes of a long block that are taken at a time, as those that are not read yet are kept.
const BLOCK: usize = 1 << 22;

// What a reader reads next.
#[derive(Clone, Copy)]
enum Stage {
    // The header.
    Header,
    // Rows.
    Rows,
    // Nothing, after a fault.
    Refused(TraceFault),
}

/// Reads a trace that comes in blocks, which may be cut anywhere. It keeps the firings of the rows
/// that are whole, and the bytes of the row that isn't. Contracts see these.
///
/// ```text
/// let mut reader = Reader::new(alloc, hash_key, 2, 1 << 22)?;
/// reader.take(rt, b"number,cpu,..,arg9\n1,0,7,")?;
/// reader.take(rt, b"700,cat,..\n")?;
/// reader.finish(rt)?.firings().len(); // 1
/// ```
#[derive(Drop)]
pub struct Reader {
    stage: Stage,
    progress: Progress,
    // `take` reads nothing before there are this many bytes.
    least: usize,
    // Nothing more is read before there are this many. A row that isn't whole waits for as many
    // bytes again, so that a long one isn't scanned at each block.
    enough: usize,
}

impl Model for Reader {
    ghost use Rattle.firing_reader.specs.{Blocks.Taken, Pieces.IsKept, Pieces.unread};

    ghost Value = { Taken };

    ghost view = { λ r. record {
      stage = r.stage;
      firings = r.progress.firings;
      left = unread r.progress.waiting.bytes.items r.progress.left.items;
    } };

    ghost invariant = { λ r. IsKept r.stage r.progress };
}

impl Reader {
    /// A reader that has taken nothing. It keeps what `take` gives it until it has `least` bytes,
    /// and reads plain rows by all workers.
    pub fn new(
        alloc: Global,
        hash_key: HashKey,
        workers: u32,
        least: usize,
    ) -> Result<Reader, AllocError>
        ensures { IfOk result (λ r. (rest : List ℕ) → reads r rest ≡ trace_of rest) }
    {
        let progress = Progress::new(alloc, hash_key, workers)?;
        Ok(Reader {
            stage: Stage::Header,
            progress,
            least,
            enough: 1,
        })
    }

    /// Takes the next block, a long one in parts. If memory is refused, the reader can only return
    /// that.
    pub fn take<R: Threads>(&mut self, rt: &R, block: &[u8]) -> Result<(), AllocError>
        ensures taken { OnOk result
            ((rest : List ℕ) → reads self.new rest ≡ reads self.old (block.now ++ rest)) }
        ensures refused { OnErr result (self.new.stage ≡ Refused Memory) }
    {
        let mut left = block;
        while left.len() > BLOCK {
            let (part, rest) = left.split_at(BLOCK);
            self.take_part(rt, part)?;
            left = rest;
        }
        self.take_part(rt, left)
    }

    // Takes the next bytes, and keeps a copy of them until they are read.
    fn take_part<R: Threads>(&mut self, rt: &R, bytes: &[u8]) -> Result<(), AllocError>
        ensures taken { OnOk result
            ((rest : List ℕ) → reads self.new rest ≡ reads self.old (bytes.now ++ rest)) }
        ensures refused { OnErr result (self.new.stage ≡ Refused Memory) }
    {
        if let Stage::Refused(_) = self.stage {
            return Ok(());
        }
        if self.progress.left.extend_from_slice(bytes).is_err() {
            return refuse(&mut self.stage, &mut self.progress, TraceFault::Memory);
        }
        if self.progress.left.len() < self.least {
            return Ok(());
        }
        self.read(rt)
    }

    /// Moves the row that isn't whole to a block, after a line feed. Then one thread can add to the
    /// block while another reads the rows before it.
    ///
    /// ```text
    /// // the header, a row, and `2,0,7,`
    /// let mut block = Vec::new(alloc);
    /// reader.take_out_row(&mut block)?; // the block is a line feed and `2,0,7,`
    /// reader.read(&rt)?; // by one thread, while another adds `700,cat,..` to the block
    /// reader.take_block(&mut block)?;
    /// ```
    pub fn take_out_row(&mut self, block: &mut Vec<u8>) -> Result<(), AllocError>
        ensures row { OnOk result ((row : List ℕ) × (block.new.items ≡ 10 ∷ row)
            × ((rest : List ℕ) → reads self.new (row ++ rest) ≡ reads self.old rest)) }
        ensures refused { OnErr result (self.new ≡ self.old) }
    {
        let at = after_last_end(&self.progress.left);
        block.clear();
        block.push(b'\n')?;
        block.extend_from_slice(&self.progress.left[at..])?;
        self.progress.left.truncate(at);
        Ok(())
    }

    /// Takes the bytes of a block after the line feed that it begins with, and reads nothing yet.
    /// It leaves another room to the block if it can keep the block's own.
    ///
    /// ```text
    /// reader.take_block(&mut block)?; // as `take` of its bytes from 1 on, but reads later
    /// ```
    pub fn take_block(&mut self, block: &mut Vec<u8>) -> Result<(), AllocError>
        requires { BeginsAtFeed block.old.items }
        ensures taken { OnOk result ((bytes rest : List ℕ) → block.old.items ≡ 10 ∷ bytes
            → reads self.new rest ≡ reads self.old (bytes ++ rest)) }
        ensures refused { OnErr result (self.new ≡ self.old) }
    {
        match self.stage {
            Stage::Header | Stage::Rows => add_block(&mut self.progress.left, block),
            Stage::Refused(_) => Ok(()),
        }
    }

    /// The trace of all blocks, or its first fault, exactly as `read_trace` returns it.
    pub fn finish<R: Threads>(self, rt: &R) -> Result<Trace, TraceFault>
        ensures { Gives result (reads self []) }
    {
        let Reader {
            stage,
            mut progress,
            ..
        } = self;
        match read_left(rt, stage, &mut progress) {
            Ok(()) => Ok(Trace::of(progress.firings.finish())),
            Err(fault) => {
                drop(progress);
                Err(fault)
            }
        }
    }

    /// Reads the rows that are whole, once there are twice as many bytes as the last reading left.
    /// If memory is refused, the reader can only return that.
    ///
    /// ```text
    /// reader.read(&rt)?; // what `finish` returns stays the same
    /// ```
    pub fn read<R: Threads>(&mut self, rt: &R) -> Result<(), AllocError>
        ensures taken { OnOk result ((rest : List ℕ) → reads self.new rest ≡ reads self.old rest) }
        ensures refused { OnErr result (self.new.stage ≡ Refused Memory) }
    {
        if self.progress.left.len() < self.enough {
            return Ok(());
        }
        match advance(rt, self.stage, &mut self.progress) {
            Ok(stage) => {
                self.stage = stage;
                self.enough = self.progress.left.len().saturating_mul(2);
                Ok(())
            }
            Err(fault) => refuse(&mut self.stage, &mut self.progress, fault),
        }
    }
}

// How many bytes there are up to the last one that ends a row, and with it; all of them if there
// is none.
fn after_last_end(bytes: &[u8]) -> usize
    ensures within { result ≤ length bytes.now }
    ensures some { 0 < length bytes.now → 0 < result }
{
    for at in (0..bytes.len()).rev() {
        if is_end(bytes[at]) {
            return at + 1;
        }
    }
    bytes.len()
}

// Adds the bytes of a block after the line feed that it begins with. If they come after a line
// feed, the block is kept.
fn add_block(left: &mut Vec<u8>, block: &mut Vec<u8>) -> Result<(), AllocError>
    requires { BeginsAtFeed block.old.items }
    ensures added { OnOk result ((bytes : List ℕ) → block.old.items ≡ 10 ∷ bytes
        → left.new.items ≡ left.old.items ++ bytes) }
    ensures refused { OnErr result (left.new.items ≡ left.old.items) }
{
    if left.as_slice() == b"\n".as_slice() {
        swap(left, block);
        return Ok(());
    }
    left.extend_from_slice(&block[1..])
}

// Keeps nothing but a fault, and returns it if memory was refused.
fn refuse(stage: &mut Stage, progress: &mut Progress, fault: TraceFault) -> Result<(), AllocError>
    ensures stage { stage.new ≡ Refused fault }
    ensures none { progress.new.waiting.bytes.items ≡ [] }
    ensures memory { OnErr result (fault ≡ Memory) }
    ensures other { OnOk result (fault ≢ Memory) }
{
    let alloc = progress.firings.alloc();
    *stage = Stage::Refused(fault);
    progress.waiting.bytes = Vec::new(alloc);
    progress.left = Vec::new(alloc);
    match fault {
        TraceFault::Memory => Err(AllocError),
        _ => Ok(()),
    }
}

// Reads the rows that are whole by all workers. They wait, and this thread adds those that waited.
fn read_rows_by<R: Threads>(rt: &R, progress: &mut Progress) -> Result<(), TraceFault>
    requires { IsKept Rows progress.old }
    ensures read { IsReadBy result progress.old.firings
        (unread progress.old.waiting.bytes.items progress.old.left.items) progress.new.firings
        (unread progress.new.waiting.bytes.items progress.new.left.items) }
    ensures feed { OnOk result (BeginsAtFeed progress.new.left.items) }
    ensures waiting { OnOk result (AreWaiting progress.new.waiting.pieces.items
        progress.new.waiting.bytes.items) }
{
    read_pieces(
        rt,
        &mut progress.pieces,
        &progress.left,
        &mut progress.firings,
        &mut progress.waiting,
    )?;
    if !progress.pieces.is_empty() && progress.waiting.bytes.len() <= 1 {
        keep_waiting(
            &mut progress.waiting,
            &mut progress.pieces,
            &mut progress.left,
        )?;
        return Ok(());
    }
    give_back(&mut progress.waiting, &mut progress.left)?;
    read_rows(&mut progress.firings, &mut progress.left)
}

// Reads what is whole, and returns what is to be read next.
fn advance<R: Threads>(rt: &R, stage: Stage, progress: &mut Progress) -> Result<Stage, TraceFault>
    requires { IsKept stage progress.old }
    ensures kept { IfOk result (λ next. IsKept next progress.new) }
    ensures read { IfOk result (λ next. (tail : List ℕ) → reads_at next progress.new.firings
        (unread progress.new.waiting.bytes.items progress.new.left.items ++ tail)
        ≡ reads_at stage progress.old.firings
        (unread progress.old.waiting.bytes.items progress.old.left.items ++ tail)) }
    ensures fault { IfErr result (λ e. IsFaultOf e (λ tail. reads_at stage progress.old.firings
        (unread progress.old.waiting.bytes.items progress.old.left.items ++ tail))) }
{
    match stage {
        Stage::Header => {
            let Some(end) = read_header(&mut progress.firings, &progress.left)? else {
                return Ok(stage);
            };
            keep_from(&mut progress.left, end);
            read_rows_by(rt, progress)?;
            Ok(Stage::Rows)
        }
        Stage::Rows => {
            read_rows_by(rt, progress)?;
            Ok(stage)
        }
        Stage::Refused(_) => Ok(stage),
    }
}

// Reads all rows that are left, after the last block.
fn read_last_rows(progress: &mut Progress) -> Result<(), TraceFault>
    requires { IsKept Rows progress.old }
    ensures { GivesBy (λ _. progress.new.firings) result (rows_in progress.old.firings
        (unread progress.old.waiting.bytes.items progress.old.left.items)) }
{
    add_waiting(&mut progress.firings, &mut progress.waiting)?;
    give_back(&mut progress.waiting, &mut progress.left)?;
    read_rest(&mut progress.firings, &progress.left)
}

// Reads all that is left, after the last block.
fn read_left<R: Threads>(rt: &R, stage: Stage, progress: &mut Progress) -> Result<(), TraceFault>
    requires { IsKept stage progress.old }
    ensures trace { OnOk result (IsTrace progress.new.firings) }
    ensures read { GivesBy (λ _. progress.new.firings) result (reads_at stage progress.old.firings
        (unread progress.old.waiting.bytes.items progress.old.left.items ++ [])) }
{
    match advance(rt, stage, progress)? {
        Stage::Header => read_whole(&mut progress.firings, &progress.left),
        Stage::Rows => read_last_rows(progress),
        Stage::Refused(fault) => Err(fault),
    }
}
