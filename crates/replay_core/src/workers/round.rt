//! One round, in which each group is run by one of the workers.

ghost use Rattle.std.specs.Prelude.{◌≡◌, ◌<◌, ◌≤◌, IfOk, vec_len};
ghost use Rattle.replay_core.specs.Vocabulary.{grouping};
ghost use Rattle.replay_core.specs.Steps.Working.{IsInput};
ghost use Rattle.replay_core.specs.AtBoard.{Gives, IsRound};

use crate::lanes::Lanes;
use crate::lanes::piece::Piece;
use crate::workers::at_board::{in_threads, pieces_and_seats};
use crate::workers::gate::Gate;
use crate::workers::span::Span;
use crate::workers::worker::WorkerInput;
use shard_queue::{ClaimBoard, Closed, MAX_WORKERS};
use std::alloc::AllocError;
use std::sync::Wait;
use std::thread::Threads;

/// What a round gave: the pieces, each with its group, the groups that each worker took, and the
/// least number that one lowered.
#[derive(Drop)]
pub(crate) struct Round {
    pub(crate) pieces: Vec<(u32, Piece)>,
    pub(crate) lists: Vec<Vec<u32>>,
    pub(crate) least: u64,
}

/// Runs this many workers over all groups.
pub(crate) fn in_round<R: Threads + Wait + Sync, L: Lanes + Sync, G: Gate + Sync>(
    rt: &R,
    input: &WorkerInput<L, G>,
    workers: u32,
    span: Span,
) -> Result<Round, AllocError>
    requires ready { IsInput (L.runs input.now.lanes.now) input.now }
    requires workers { (0 < workers) × (workers ≤ MAX_WORKERS) }
    ensures lists { IfOk result (λ r. vec_len r.lists ≡ workers) }
    ensures round { IfOk result (IsRound
        (Gives span (L.runs input.now.lanes.now) input.now.groups.now input.now.trace.now)
        (grouping input.now.groups.now).count) }
{
    let end = input.groups.len() as u32;
    let (board, seats) = ClaimBoard::open(input.alloc, end, workers as usize)?;
    let results = in_threads(rt, &board, seats, input, input.selections, span)?;
    let (pieces, seats) = pieces_and_seats(input.alloc, results)?;
    let closed = board.close(input.alloc, seats)?;
    Ok(round_of(pieces, closed))
}

// What these pieces and a board at its end make.
fn round_of(pieces: Vec<(u32, Piece)>, closed: Closed) -> Round
    ensures { result ≡ record { pieces = pieces; lists = closed.lists; least = closed.least } }
{
    Round {
        pieces,
        lists: closed.lists,
        least: closed.least,
    }
}
