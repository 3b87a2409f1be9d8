//! Workers at a board, each in a thread of its own.

ghost use Rattle.std.specs.Prelude.{◌≡◌, ◌+◌, All, vec_len, IfOk, OnOk};
ghost use Rattle.replay_core.specs.Vocabulary.{IsAt, IsNew};
ghost use Rattle.replay_core.specs.{AtBoard.HasWorked};
ghost use Rattle.replay_core.specs.Steps.AtBoard.{AreFinished, IsGiven};
ghost use Rattle.replay_core.specs.Steps.{Worked.IsWorkAdded};

use crate::lanes::Lanes;
use crate::lanes::piece::Piece;
use crate::selection::Selections;
use crate::workers::gate::Gate;
use crate::workers::span::Span;
use crate::workers::until::watch_on;
use crate::workers::worker::{WorkerInput, work_on};
use firings::Trace;
use shard_queue::{ClaimBoard, ClaimSeat, Groups};
use std::alloc::{AllocError, Global};
use std::sync::Wait;
use std::thread;
use std::thread::{Promise, Threads};

/// What a worker gives back: its pieces, each with its group, and its seat.
pub(crate) type Worked = Result<(Vec<(u32, Piece)>, ClaimSeat), AllocError>;

/// That a worker gives back the pieces of the groups that it took.
#[derive(Drop)]
pub(crate) struct Works<'a, L> {
    board: &'a ClaimBoard,
    lanes: &'a L,
    trace: &'a Trace,
    groups: &'a Groups,
    span: Span,
}

impl<'a, L: Lanes> Works<'a, L> {
    fn new(
        board: &'a ClaimBoard,
        lanes: &'a L,
        trace: &'a Trace,
        groups: &'a Groups,
        span: Span,
    ) -> Works<'a, L>
        ensures board { result.board.now ≡ board.now }
        ensures lanes { result.lanes.now ≡ lanes.now }
        ensures trace { result.trace.now ≡ trace.now }
        ensures groups { result.groups.now ≡ groups.now }
        ensures span { result.span ≡ span }
    {
        Works {
            board,
            lanes,
            trace,
            groups,
            span,
        }
    }
}

impl<'a, L: Lanes> Promise<Worked> for Works<'a, L> {
    ghost kept_by = { λ p r. HasWorked
        p.span (L.runs p.lanes.now) p.groups.now p.trace.now p.board.now r };
}

/// What lends selections. The closures of threads capture a value of a type parameter with this
/// trait, and not a `Selections`: a contract knows nothing of a closure that captures a type with a
/// lifetime.
pub(crate) trait LendSelections {
    ghost use Rattle.std.specs.Prelude.{◌≡◌, ℕ, List};

    /// The indices of the clauses, firing by firing.
    ghost lent: { Self → List (List ℕ) };

    /// The selections themselves.
    fn lend(&self) -> &Selections<'_>
        ensures { result.now ≡ lent self.now };
}

impl<'a> LendSelections for Selections<'a> {
    ghost lent = { λ s. s };

    fn lend(&self) -> &Selections<'_> {
        self
    }
}

/// Runs a worker for each seat, all at once, and joins them. If one can't be started, the others
/// are joined too. Their closures can't capture the input itself, so the workers are lent these
/// selections, and not the input's: see `LendSelections`.
pub(crate) fn in_threads<R, L, S, G>(
    rt: &R,
    board: &ClaimBoard,
    seats: Vec<ClaimSeat>,
    input: &WorkerInput<L, G>,
    selections: &S,
    span: Span,
) -> Result<Vec<Worked>, AllocError>
where
    R: Threads + Wait + Sync,
    L: Lanes + Sync,
    S: LendSelections + Sync,
    G: Gate + Sync,
    requires seats { All (λ s. IsAt board.now s × IsNew s) seats.items }
    requires given { IsGiven (L.runs input.now.lanes.now) board.now
        input.now.groups.now input.now.trace.now (S.lent selections.now) }
    ensures len { IfOk result (λ v. vec_len v ≡ vec_len seats) }
    ensures works { IfOk result (λ v. All (HasWorked span (L.runs input.now.lanes.now)
        input.now.groups.now input.now.trace.now board.now) v.items) }
{
    let (alloc, lanes, trace) = (input.alloc, input.lanes, input.trace);
    let (groups, gate) = (input.groups, input.gate);
    thread::scope(
        thread::scope_env(),
        rt,
        |scope| -> Result<Vec<Worked>, AllocError>
            requires seats { All (λ s. IsAt board.now s × IsNew s) seats.items }
            requires given { IsGiven (L.runs lanes.now)
                board.now groups.now trace.now (S.lent selections.now) }
            ensures len { IfOk result (λ v. vec_len v ≡ vec_len seats) }
            ensures works { IfOk result (λ v. All (HasWorked span (L.runs lanes.entry.now)
                groups.entry.now trace.entry.now board.entry.now) v.items) }
        {
            let mut handles = Vec::with_capacity(alloc, seats.len())?;
            for seat in seats {
                let child = scope.spawn_with(
                    Works::new(board, lanes, trace, groups, span),
                    move || -> Worked
                        requires { IsAt board.now seat × IsNew seat × IsGiven (L.runs lanes.now)
                            board.now groups.now trace.now (S.lent selections.now) }
                        ensures { HasWorked span (L.runs lanes.entry.now)
                            groups.entry.now trace.entry.now board.entry.now result }
                    {
                        let input = WorkerInput {
                            alloc,
                            lanes,
                            trace,
                            selections: selections.lend(),
                            groups,
                            gate,
                        };
                        at_board(rt, board, seat, &input, span)
                    },
                )?;
                handles.push_reserved(child);
            }
            Ok(thread::join_promised(rt, handles)?)
        },
    )
}

// One worker at the board.
fn at_board<R: Wait, L: Lanes, G: Gate>(
    rt: &R,
    board: &ClaimBoard,
    seat: ClaimSeat,
    input: &WorkerInput<L, G>,
    span: Span,
) -> Worked
    requires seat { IsAt board.now seat × IsNew seat }
    requires given { IsGiven (L.runs input.now.lanes.now) board.now
        input.now.groups.now input.now.trace.now input.now.selections.now }
    ensures { HasWorked span (L.runs input.entry.now.lanes.now)
        input.entry.now.groups.now input.entry.now.trace.now board.entry.now result }
{
    match span {
        Span::UntilExit => watch_on(rt, board, seat, input),
        Span::All | Span::UpTo { .. } => work_on(rt, board, seat, input, span),
    }
}

/// All pieces and all seats, if every worker came to its end.
pub(crate) fn pieces_and_seats(
    alloc: Global,
    results: Vec<Worked>,
) -> Result<(Vec<(u32, Piece)>, Vec<ClaimSeat>), AllocError>
    ensures len { IfOk result (λ r. vec_len r.1 ≡ vec_len results) }
    ensures parts { IfOk result (λ r. AreFinished results.items r.0.items r.1.items) }
{
    let mut pieces = Vec::new(alloc);
    let mut seats = Vec::new(alloc);
    for worked in results {
        add_worked(worked, &mut pieces, &mut seats)?;
    }
    Ok((pieces, seats))
}

// Adds what a worker gave back to what others did.
fn add_worked(
    worked: Worked,
    pieces: &mut Vec<(u32, Piece)>,
    seats: &mut Vec<ClaimSeat>,
) -> Result<(), AllocError>
    ensures len { OnOk result (vec_len seats.new ≡ vec_len seats.old + 1) }
    ensures added { OnOk result (IsWorkAdded worked pieces.old.items pieces.new.items
        seats.old.items seats.new.items) }
{
    let (mut part, seat) = worked?;
    pieces.append(&mut part)?;
    seats.push(seat)?;
    Ok(())
}
