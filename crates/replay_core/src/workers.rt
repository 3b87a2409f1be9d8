//! A run by several workers.

pub(crate) mod at_board;
pub(crate) mod gate;
pub(crate) mod round;
pub(crate) mod source;
pub(crate) mod span;
pub(crate) mod until;
pub(crate) mod worker;

ghost use Rattle.std.specs.Prelude.{◌≡◌, ◌<◌, ◌≤◌, IfOk, vec_len};
ghost use Rattle.replay_core.specs.Vocabulary.{IsTrace, ScriptMeant, flat_map, grouping};
ghost use Rattle.replay_core.specs.{Exit.firings_over, Groups.IsAllBelow, Working.IsReady};
ghost use Rattle.replay_core.specs.Steps.AtBoard.{IsRun};
ghost use Rattle.replay_core.specs.{Seen.whole_seen};
ghost use Rattle.replay_core.specs.Steps.Working.{IsInput};
ghost use Rattle.replay_core.specs.Pieces.{IsWholeOf, RunsEachOnce};

use crate::collect_fault::CollectFault;
use crate::collector::collect;
use crate::collector::whole::Whole;
use crate::lanes::Lanes;
use crate::workers::gate::Gate;
use crate::workers::round::{Round, in_round};
use crate::workers::span::Span;
use crate::workers::worker::WorkerInput;
use firings::Trace;
use shard_queue::{Groups, MAX_WORKERS};
use std::alloc::{AllocError, Global};
use std::sync::Wait;
use std::thread::Threads;

/// Runs a script over a trace by this many workers, 1 to 16, each group by one of them, and makes
/// one whole of what they made; the lists are the groups that each worker took. If a firing
/// exits, the run ends with the first that does, and END. Err if memory or a thread was refused.
///
/// ```text
/// let lanes = DifLanes::new(&program);
/// let groups = Groups::deal(alloc, &trace, 2)?;
/// let (whole, lists) = run_all(&rt, alloc, &lanes, &trace, &groups, 4, &OpenGate)?;
/// whole.ran.len(); // 3, with the group of BEGIN and END
/// lists.len(); // 4
/// ```
pub fn run_all<R: Threads + Wait + Sync, L: Lanes + Sync, G: Gate + Sync>(
    rt: &R,
    alloc: Global,
    lanes: &L,
    trace: &Trace,
    groups: &Groups,
    workers: u32,
    gate: &G,
) -> Result<(Whole, Vec<Vec<u32>>), AllocError>
    requires ready { IsReady (L.runs lanes.now) groups.now trace.now }
    requires workers { (0 < workers) × (workers ≤ MAX_WORKERS) }
    ensures whole { IfOk result (λ r. (m : ScriptMeant) → L.runs lanes.now m
        → IsWholeOf m (firings_over m trace.now) (grouping groups.now) (whole_seen r.0)) }
    ensures once { IfOk result (λ r. (m : ScriptMeant) → L.runs lanes.now m
        → RunsEachOnce (firings_over m trace.now) (whole_seen r.0)) }
    ensures workers { IfOk result (λ r. vec_len r.1 ≡ workers) }
    ensures taken { IfOk result (λ r. IsAllBelow (grouping groups.now).count
        (flat_map (λ list. list.items) r.1.items)) }
{
    let selections = lanes.selections(alloc, trace)?;
    let input = WorkerInput {
        alloc,
        lanes,
        trace,
        selections: &selections,
        groups,
        gate,
    };
    let round = in_rounds(rt, &input, workers)?;
    match collect(alloc, round.pieces, groups.len() as u32) {
        Ok(whole) => Ok((whole, round.lists)),
        Err(CollectFault::Memory) => Err(AllocError),
        Err(CollectFault::Twice { group: _ }) => unreachable!(),
        Err(CollectFault::Stranger { group: _ }) => unreachable!(),
        Err(CollectFault::Missing { group: _ }) => unreachable!(),
    }
}

// One round if the script has no exit. If it has one, workers watch for exits; and if a firing
// exits, a second round is over the firings up to the first that does, and END.
fn in_rounds<R: Threads + Wait + Sync, L: Lanes + Sync, G: Gate + Sync>(
    rt: &R,
    input: &WorkerInput<L, G>,
    workers: u32,
) -> Result<Round, AllocError>
    requires ready { IsInput (L.runs input.now.lanes.now) input.now }
    requires workers { (0 < workers) × (workers ≤ MAX_WORKERS) }
    ensures workers { IfOk result (λ r. vec_len r.lists ≡ workers) }
    ensures trace { IfOk result (λ _. IsTrace input.now.trace.now) }
    ensures run { IfOk result (IsRun
        (L.runs input.now.lanes.now) input.now.groups.now input.now.trace.now) }
{
    let end = input.trace.firings().last_number() + 1;
    if !input.lanes.exits() {
        return in_round(rt, input, workers, Span::All);
    }
    let watching = Span::UntilExit;
    let first = in_round(rt, input, workers, watching)?;
    if first.least == u64::MAX {
        return Ok(first);
    }
    let counted = Span::UpTo {
        last: first.least,
        end,
    };
    drop(first);
    in_round(rt, input, workers, counted)
}
