//! Reading bytes in pieces by several workers, while the pieces before them are added to the
//! firings.

ghost use Rattle.std.specs.Prelude.{◌≡◌, ◌+◌, ◌∷◌, [], IfOk, OnOk, length};
ghost use Rattle.firing_reader.specs.Blocks.{BeginsAtFeed};
ghost use Rattle.firing_reader.specs.Pieces.{ArePieces, AreWaiting, PassesRows, unread};
ghost use Rattle.firing_reader.specs.{Plain.BeginsAtEnd, Steps.Pieces.IsAdded};

use crate::builder::FiringsBuilder;
use crate::fault::TraceFault;
use crate::pieces::{Piece, add_pieces, cut_near, no_pieces, read_piece};
use crate::whole_rows::{keep_from, read_rows};
use keyed_hash::HashKey;
use std::alloc::{AllocError, Global};
use std::mem::swap;
use std::thread::{Threads, join_mut};

/// Rows that were read in pieces, and aren't among the firings yet.
#[derive(Drop)]
pub(crate) struct Waiting {
    pub(crate) pieces: Vec<Piece>,
    /// Their bytes, from the line feed before them on; or none.
    pub(crate) bytes: Vec<u8>,
}

/// How far the reading of a trace has come.
#[derive(Drop)]
pub(crate) struct Progress {
    pub(crate) firings: FiringsBuilder,
    /// Rows that several workers have read, and that come after the firings.
    pub(crate) waiting: Waiting,
    /// For the pieces of the rows that they read next.
    pub(crate) pieces: Vec<Piece>,
    /// What is not read yet. Rows begin at the line feed before the first of them.
    pub(crate) left: Vec<u8>,
}

impl Progress {
    /// The progress of a reading that has not begun. A single worker reads no pieces; of more, one
    /// thread adds those that wait.
    pub(crate) fn new(
        alloc: Global,
        hash_key: HashKey,
        workers: u32,
    ) -> Result<Progress, AllocError>
        ensures none { IfOk result (λ p. p.firings ≡ []) }
        ensures nothing_waits { IfOk result (λ p. p.waiting.bytes.items ≡ []) }
        ensures left { IfOk result (λ p. p.left.items ≡ []) }
    {
        let count = if workers < 2 { 0 } else { (workers - 1).max(2) };
        let firings = FiringsBuilder::new(alloc, hash_key)?;
        let pieces = no_pieces(alloc, hash_key, count)?;
        let others = no_pieces(alloc, hash_key, count)?;
        Ok(Progress {
            firings,
            waiting: Waiting {
                pieces: others,
                bytes: Vec::new(alloc),
            },
            pieces,
            left: Vec::new(alloc),
        })
    }
}

/// Adds the rows that wait to the firings before them, and reads those that couldn't be read apart.
pub(crate) fn add_waiting(
    firings: &mut FiringsBuilder,
    waiting: &mut Waiting,
) -> Result<(), TraceFault>
    requires { AreWaiting waiting.old.pieces.items waiting.old.bytes.items }
    ensures { IsAdded result firings.old waiting.old.bytes.items
        firings.new waiting.new.bytes.items }
{
    let Waiting { pieces, bytes } = waiting;
    if bytes.is_empty() {
        return Ok(());
    }
    let Some(passed) = add_pieces(firings, pieces, bytes) else {
        return Err(TraceFault::Memory);
    };
    keep_from(bytes, passed);
    read_rows(firings, bytes)
}

/// Puts the bytes that wait before those that are left.
pub(crate) fn give_back(waiting: &mut Waiting, left: &mut Vec<u8>) -> Result<(), AllocError>
    requires { BeginsAtFeed left.old.items }
    ensures left { OnOk result (left.new.items ≡ unread waiting.old.bytes.items left.old.items) }
    ensures none { OnOk result (waiting.new.bytes.items ≡ []) }
{
    if waiting.bytes.is_empty() {
        return Ok(());
    }
    waiting.bytes.extend_from_slice(&left[1..])?;
    swap(&mut waiting.bytes, left);
    waiting.bytes.clear();
    Ok(())
}

/// Keeps the pieces of the bytes that are left as those that wait, if no others do.
pub(crate) fn keep_waiting(
    waiting: &mut Waiting,
    pieces: &mut Vec<Piece>,
    left: &mut Vec<u8>,
) -> Result<(), AllocError>
    ensures waiting { waiting.new.bytes.items ≡ left.old.items }
    ensures pieces { waiting.new.pieces.items ≡ pieces.old.items }
    ensures left { OnOk result (left.new.items ≡ 10 ∷ []) }
{
    swap(&mut waiting.bytes, left);
    swap(&mut waiting.pieces, pieces);
    left.clear();
    left.push(b'\n')?;
    Ok(())
}

/// Reads bytes in pieces, each by a new thread, while this one adds the rows that wait to the
/// firings before them.
#[cycle(reading)]
pub(crate) fn read_pieces<R: Threads>(
    rt: &R,
    pieces: &mut [Piece],
    bytes: &[u8],
    firings: &mut FiringsBuilder,
    waiting: &mut Waiting,
) -> Result<(), TraceFault>
    requires feed { BeginsAtEnd bytes.now }
    requires waiting { AreWaiting waiting.old.pieces.items waiting.old.bytes.items }
    ensures pieces { ArePieces pieces.new bytes.now }
    ensures added { IsAdded result firings.old waiting.old.bytes.items
        firings.new waiting.new.bytes.items }
{
    let share = bytes.len() / pieces.len().max(1);
    let Some((piece, others)) = pieces.split_first_mut() else {
        return add_waiting(firings, waiting);
    };
    let (front, last) = cut_near(bytes, share.min(bytes.len().saturating_sub(1)));
    let ((), added) = join_mut(
        rt,
        &mut || -> ()
            requires { BeginsAtEnd front.now }
            ensures piece { PassesRows [] front.entry.now piece.exit.now.firings
                piece.exit.now.passed }
            ensures end { piece.exit.now.end + 1 ≡ length front.entry.now }
        { read_piece(piece, front) },
        &mut || -> Result<(), TraceFault>
            requires { BeginsAtEnd last.now
                × AreWaiting waiting.now.pieces.items waiting.now.bytes.items }
            ensures others { ArePieces others.exit.now last.entry.now }
            ensures added { IsAdded result firings.entry.now waiting.entry.now.bytes.items
                firings.exit.now waiting.exit.now.bytes.items }
        { read_pieces(rt, others, last, firings, waiting) },
    );
    added
}
