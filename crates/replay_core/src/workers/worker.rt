//! One worker.

ghost use Rattle.std.specs.Prelude.{◌≡◌, ◌+◌, ◌<◌, ◌≤◌, ◌∷◌, ◌++◌, [], List, filter, All, IfOk};
ghost use Rattle.std.specs.Prelude.{IfSome, OnOk, is_some, length};
ghost use Rattle.replay_core.specs.Vocabulary.{Firing, MAX_BYTES, MAX_TOGETHER};
ghost use Rattle.replay_core.specs.Vocabulary.{ScriptMeant, grouping, with_ends};
ghost use Rattle.replay_core.specs.{Running.IsLaneOf, Seen.IsRoomy, Sizes.most_firings};
ghost use Rattle.replay_core.specs.{Lanes.Fires, Meaning.exit_of, Meaning.history};
ghost use Rattle.replay_core.specs.Selecting.{AreFor, selected_for};
ghost use Rattle.replay_core.specs.AtBoard.{GivesPieces, IsWorkOf};
ghost use Rattle.replay_core.specs.Working.{IsOfGroup, IsReady, IsSeated, firings_in, is_in};
ghost use Rattle.replay_core.specs.Steps.{Adding.IsAdded, Working.IsInput, Working.firings_at};

use crate::lanes::Lanes;
use crate::lanes::engine::Engine;
use crate::lanes::piece::Piece;
use crate::lanes::run_firings::read_at;
use crate::selection::Selections;
use crate::selection::clause_indices::ClauseIndices;
use crate::workers::gate::Gate;
use crate::workers::source::Source;
use crate::workers::span::Span;
use firings::{Firing, MAX_TOGETHER, Trace};
use shard_queue::Groups;
use std::alloc::{AllocError, Global};
use std::sync::Wait;

/// What each worker of a run is given: where its memory comes from, the script's lanes, the trace,
/// which clauses run for its firings, its groups and the gate.
#[derive(Drop)]
pub(crate) struct WorkerInput<'a, L, G> {
    pub(crate) alloc: Global,
    pub(crate) lanes: &'a L,
    pub(crate) trace: &'a Trace,
    pub(crate) selections: &'a Selections<'a>,
    pub(crate) groups: &'a Groups,
    pub(crate) gate: &'a G,
}

/// Takes groups until it is at the end, and makes a piece of each: what the script makes of
/// BEGIN, the rows and END on the group's threads. Err if memory was refused.
///
/// ```text
/// let (board, seats) = ClaimBoard::open(alloc, groups.len() as u32, 1)?;
/// for seat in seats {
///     let worked = work(&rt, alloc, &board, seat, &lanes, &trace, &groups, &OpenGate);
///     let (pieces, seat) = worked?; // a piece of each group
/// }
/// ```
pub fn work<R: Wait, S: Source, L: Lanes, G: Gate>(
    rt: &R,
    alloc: Global,
    source: &S,
    seat: S::Seat,
    lanes: &L,
    trace: &Trace,
    groups: &Groups,
    gate: &G,
) -> Result<(Vec<(u32, Piece)>, S::Seat), AllocError>
where
    S::Seat: Drop,
    requires seat { IsSeated S.end S.is_at S.handed source.now seat groups.now }
    requires ready { IsReady (L.runs lanes.now) groups.now trace.now }
    ensures { IfOk result (IsWorkOf (S.is_at source.now) S.handed
        (GivesPieces (L.runs lanes.now) groups.now (with_ends trace.now trace.now))) }
{
    let Ok(selections) = lanes.selections(alloc, trace) else {
        drop(seat);
        return Err(AllocError);
    };
    let input = WorkerInput {
        alloc,
        lanes,
        trace,
        selections: &selections,
        groups,
        gate,
    };
    work_on(rt, source, seat, &input, Span::All)
}

/// Takes groups until it is at the end, and makes a piece of each, of the firings that count.
pub(crate) fn work_on<R: Wait, S: Source, L: Lanes, G: Gate>(
    rt: &R,
    source: &S,
    mut seat: S::Seat,
    input: &WorkerInput<L, G>,
    span: Span,
) -> Result<(Vec<(u32, Piece)>, S::Seat), AllocError>
where
    S::Seat: Drop,
    requires seat { IsSeated S.end S.is_at S.handed source.now seat input.now.groups.now }
    requires ready { IsInput (L.runs input.now.lanes.now) input.now }
    ensures { IfOk result (IsWorkOf (S.is_at source.entry.now) S.handed
        (GivesPieces (L.runs input.entry.now.lanes.now) input.entry.now.groups.now
        (firings_in span input.entry.now.trace.now))) }
{
    let mut pieces = Vec::new(input.alloc);
    for _ in rt.forever() {
        let Some(group) = source.take(rt, &mut seat) else {
            return Ok((pieces, seat));
        };
        input.gate.begun(group);
        let Ok(()) = input.push_piece(&mut pieces, group, span) else {
            drop(pieces);
            drop(seat);
            return Err(AllocError);
        };
    }
    unreachable!()
}

impl<'a, L: Lanes, G> WorkerInput<'a, L, G> {
    // Makes the piece of those of a group's firings that count, and adds it to these.
    fn push_piece(
        &self,
        pieces: &mut Vec<(u32, Piece)>,
        group: u32,
        span: Span,
    ) -> Result<(), AllocError>
        requires group { group < (grouping self.now.groups.now).count }
        requires ready { IsInput (L.runs self.now.lanes.now) self.now }
        ensures { OnOk result (IsAdded (λ p. ((m : ScriptMeant) → L.runs self.now.lanes.now m
            → IsOfGroup m (grouping self.now.groups.now) (firings_in span self.now.trace.now) p)
            × IsRoomy p.1) pieces.old.items group pieces.new.items) }
    {
        let indices = self.groups.indices(group);
        let mut lane = self.lanes.lane(self.alloc)?;
        for block in indices.chunks(MAX_TOGETHER) {
            let Ok(()) = self.run_block(&mut lane, block, span) else {
                drop(lane);
                return Err(AllocError);
            };
        }
        let piece = lane.finish();
        pieces.push((group, piece))?;
        Ok(())
    }

    // Runs those of the firings at these few indices that count. The rows and the lists of clauses
    // are read first: no read needs another, so that the processor waits for all of them at once.
    fn run_block<E: Engine>(
        &self,
        lane: &mut E,
        indices: &[u32],
        span: Span,
    ) -> Result<(), AllocError>
        requires script { (m : ScriptMeant) × E.runs lane.old m
            × AreFor self.now.trace.now self.now.selections.now m }
        requires short { All (λ clauses. length clauses ≤ MAX_BYTES) self.now.selections.now }
        requires indices { All (λ index. index
            < length (with_ends self.now.trace.now self.now.trace.now)) indices.now }
        requires together { length indices.now ≤ MAX_TOGETHER }
        requires few { length (E.seen lane.old).piece.taken + length indices.now
            ≤ length (with_ends self.now.trace.now self.now.trace.now) }
        ensures script { OnOk result ((m : ScriptMeant) → E.runs lane.old m
            → AreFor self.now.trace.now self.now.selections.now m → E.runs lane.new m) }
        ensures run { OnOk result ((m : ScriptMeant) (before : List Firing) → E.runs lane.old m
            → AreFor self.now.trace.now self.now.selections.now m
            → IsLaneOf m before (E.seen lane.old)
            → IsLaneOf m (before ++ filter (is_in span) (firings_at
            (with_ends self.now.trace.now self.now.trace.now) indices.now)) (E.seen lane.new)) }
    {
        let rows = self.trace.firings().rows(indices);
        let lists = self.selections.lists(indices);
        for (at, index) in indices.iter().enumerate() {
            let firing = read_at(self.trace, *index, &rows, at);
            if !span.has(&firing) {
                continue;
            }
            let _ = fire(lane, &firing, lists[at])?;
        }
        Ok(())
    }
}

/// Fires a firing, whose clauses are at these indices if they were found.
#[inline(always)]
pub(crate) fn fire<E: Engine>(
    lane: &mut E,
    firing: &Firing,
    clauses: Option<&ClauseIndices>,
) -> Result<bool, AllocError>
    requires selected { (m : ScriptMeant) × E.runs lane.old m
        × IfSome clauses (λ c. c.now ≡ selected_for m firing.now) }
    requires clauses { IfSome clauses (λ c. length c.now ≤ MAX_BYTES) }
    requires few { length (E.seen lane.old).piece.taken < most_firings }
    ensures step { (m : ScriptMeant) → E.runs lane.old m
        → IfSome clauses.entry (λ c. c.now ≡ selected_for m firing.now)
        → OnOk result (Fires m firing.now (E.seen lane.old) (E.seen lane.new)) }
    ensures exits { (m : ScriptMeant) → E.runs lane.old m
        → IfSome clauses.entry (λ c. c.now ≡ selected_for m firing.now)
        → IfOk result (λ exits. exits
        ≡ is_some (exit_of (history m (firing.now ∷ []) (E.seen lane.old).threads))) }
    ensures script { (m : ScriptMeant) → E.runs lane.old m
        → IfSome clauses.entry (λ c. c.now ≡ selected_for m firing.now) → E.runs lane.new m }
{
    match clauses {
        Some(clauses) => lane.fire_selected(firing, clauses),
        None => lane.fire(firing),
    }
}
