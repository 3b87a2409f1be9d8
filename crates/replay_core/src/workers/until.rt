//! One worker that watches for exits.

ghost use Rattle.std.specs.Prelude.{◌≡◌, ◌<◌, ◌≤◌, [], length, All, IfOk, OnOk};
ghost use Rattle.replay_core.specs.Vocabulary.{MAX_BYTES, ScriptMeant, grouping, no_number};
ghost use Rattle.replay_core.specs.Vocabulary.{with_ends};
ghost use Rattle.replay_core.specs.{Running.IsLaneOf, Seen.IsRoomy};
ghost use Rattle.replay_core.specs.Steps.{Adding.IsAdded, Working.IsInput, Working.firings_at};
ghost use Rattle.replay_core.specs.AtBoard.{GivesBegun, IsWorkOf};
ghost use Rattle.replay_core.specs.Beginnings.{IsBegunOf, lesser_of};
ghost use Rattle.replay_core.specs.Steps.Beginnings.{RunsBeginning};
ghost use Rattle.replay_core.specs.{Selecting.AreFor, Working.IsReady, Working.IsSeated};

use crate::lanes::Lanes;
use crate::lanes::engine::Engine;
use crate::lanes::piece::Piece;
use crate::lanes::run_firings::firing_at;
use crate::workers::gate::Gate;
use crate::workers::source::Exits;
use crate::workers::worker::{WorkerInput, fire};
use firings::Trace;
use shard_queue::Groups;
use std::alloc::{AllocError, Global};
use std::sync::Wait;

/// Takes groups until it is at the end, and makes a piece of a beginning of each. A beginning ends
/// after a firing that exits, and before one whose number is above the least that a worker found to
/// exit. Err if memory was refused.
///
/// ```text
/// let worked = work_until(&rt, alloc, &board, seat, &lanes, &trace, &groups, &OpenGate);
/// let (pieces, seat) = worked?;
/// ```
pub fn work_until<R: Wait, S: Exits, L: Lanes, G: Gate>(
    rt: &R,
    alloc: Global,
    source: &S,
    seat: S::Seat,
    lanes: &L,
    trace: &Trace,
    groups: &Groups,
    gate: &G,
) -> Result<(Vec<(u32, Piece)>, S::Seat), AllocError>
where
    S::Seat: Drop,
    requires seat { IsSeated S.end S.is_at S.handed source.now seat groups.now }
    requires new { S.lowered seat ≡ no_number }
    requires ready { IsReady (L.runs lanes.now) groups.now trace.now }
    ensures { IfOk result (IsWorkOf (S.is_at source.now) S.handed
        (GivesBegun S.seen S.lowered (L.runs lanes.now) groups.now trace.now)) }
{
    let Ok(selections) = lanes.selections(alloc, trace) else {
        drop(seat);
        return Err(AllocError);
    };
    let input = WorkerInput {
        alloc,
        lanes,
        trace,
        selections: &selections,
        groups,
        gate,
    };
    watch_on(rt, source, seat, &input)
}

/// Runs groups as `work_until` does, by selections that are shared.
pub(crate) fn watch_on<R: Wait, S: Exits, L: Lanes, G: Gate>(
    rt: &R,
    source: &S,
    mut seat: S::Seat,
    input: &WorkerInput<L, G>,
) -> Result<(Vec<(u32, Piece)>, S::Seat), AllocError>
where
    S::Seat: Drop,
    requires seat { IsSeated S.end S.is_at S.handed source.now seat input.now.groups.now }
    requires new { S.lowered seat ≡ no_number }
    requires ready { IsInput (L.runs input.now.lanes.now) input.now }
    ensures { IfOk result (IsWorkOf (S.is_at source.entry.now) S.handed (GivesBegun S.seen S.lowered
        (L.runs input.entry.now.lanes.now) input.entry.now.groups.now input.entry.now.trace.now)) }
{
    let mut pieces = Vec::new(input.alloc);
    for _ in rt.forever() {
        let Some(group) = source.take(rt, &mut seat) else {
            return Ok((pieces, seat));
        };
        input.gate.begun(group);
        let Ok(()) = push_beginning(source, &mut seat, input, &mut pieces, group) else {
            drop(pieces);
            drop(seat);
            return Err(AllocError);
        };
    }
    unreachable!()
}

// Makes the piece of a beginning of a group's firings, and adds it to these.
fn push_beginning<S: Exits, L: Lanes, G>(
    source: &S,
    seat: &mut S::Seat,
    input: &WorkerInput<L, G>,
    pieces: &mut Vec<(u32, Piece)>,
    group: u32,
) -> Result<(), AllocError>
    requires seat { S.is_at source.now seat.old }
    requires group { group < (grouping input.now.groups.now).count }
    requires ready { IsInput (L.runs input.now.lanes.now) input.now }
    ensures seat { OnOk result (S.is_at source.now seat.new
        × (S.handed seat.new ≡ S.handed seat.old) × (S.seen seat.new ≤ S.seen seat.old)) }
    ensures added { OnOk result (IsAdded (λ p. ((m : ScriptMeant) → L.runs input.now.lanes.now m
        → IsBegunOf m (S.seen seat.new) (grouping input.now.groups.now)
        (with_ends input.now.trace.now input.now.trace.now) p) × IsRoomy p.1
        × (S.lowered seat.new ≡ lesser_of (S.lowered seat.old) p.1.exit))
        pieces.old.items group pieces.new.items) }
{
    let mut lane = input.lanes.lane(input.alloc)?;
    let Ok(()) = run_until(source, seat, &mut lane, input, input.groups.indices(group)) else {
        drop(lane);
        return Err(AllocError);
    };
    let piece = lane.finish();
    pieces.push((group, piece))?;
    Ok(())
}

// Runs a beginning of the firings at these indices.
fn run_until<S: Exits, E: Engine, L, G>(
    source: &S,
    seat: &mut S::Seat,
    lane: &mut E,
    input: &WorkerInput<L, G>,
    indices: &[u32],
) -> Result<(), AllocError>
    requires seat { S.is_at source.now seat.old }
    requires script { (m : ScriptMeant) × E.runs lane.old m
        × AreFor input.now.trace.now input.now.selections.now m }
    requires fresh { (m : ScriptMeant) → E.runs lane.old m → IsLaneOf m [] (E.seen lane.old) }
    requires short { All (λ clauses. length clauses ≤ MAX_BYTES) input.now.selections.now }
    requires indices { All (λ index. index
        < length (with_ends input.now.trace.now input.now.trace.now)) indices.now }
    requires few { length indices.now
        ≤ length (with_ends input.now.trace.now input.now.trace.now) }
    ensures seat { OnOk result (S.is_at source.now seat.new
        × (S.handed seat.new ≡ S.handed seat.old) × (S.seen seat.new ≤ S.seen seat.old)) }
    ensures run { OnOk result ((m : ScriptMeant) → E.runs lane.old m
        → AreFor input.now.trace.now input.now.selections.now m
        → RunsBeginning m (S.seen seat.new) (firings_at
        (with_ends input.now.trace.now input.now.trace.now) indices.now) (E.seen lane.new)) }
    ensures least { OnOk result ((m : ScriptMeant) → E.runs lane.old m
        → AreFor input.now.trace.now input.now.selections.now m
        → S.lowered seat.new ≡ lesser_of (S.lowered seat.old) (E.seen lane.new).piece.exit) }
{
    for index in indices {
        let firing = firing_at(input.trace, *index);
        if source.least(seat) < firing.number {
            return Ok(());
        }
        if fire(lane, &firing, input.selections.at(*index))? {
            source.lower(seat, firing.number);
            return Ok(());
        }
    }
    Ok(())
}
