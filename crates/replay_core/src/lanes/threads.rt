//! Runs the clauses of a firing over its thread's variables.

ghost use Rattle.std.specs.Prelude.{◌*◌, List, Contains, IfOk, length};
ghost use Rattle.replay_core.specs.Vocabulary.{AreTypedOwn, ClauseMeant, HasTypedBuiltIns, Slots};
ghost use Rattle.replay_core.specs.{Effects.HasMore, Scripts.AllMean, Threads.threads_of};
ghost use Rattle.replay_core.specs.Steps.OnThread.{AreRunnable, RunsOn, made_on};

use crate::lanes::clause::Clause;
use crate::lanes::clause_runs::run_clauses;
use crate::lanes::piece::Piece;
use crate::lanes::state::State;
use crate::lanes::store::Store;
use crate::selection::clause_indices::ClauseIndices;
use d_lexer::MAX_BYTES;
use firings::Firing;
use std::alloc::AllocError;

/// Runs the clauses at these indices on the variables of the firing's thread, and returns whether
/// one exited.
pub(crate) fn run_on_thread<'a, C: Clause>(
    clauses: &[C],
    indices: &ClauseIndices,
    firing: &'a Firing<'a>,
    store: &mut C::Store,
    piece: &mut Piece,
) -> Result<bool, AllocError>
    requires runnable { AreRunnable C.indices C.most C.probes clauses.now indices.now piece.old }
    requires taken { Contains piece.old.taken.items firing.now.number }
    ensures more { HasMore (MAX_BYTES * length indices.now) piece.old piece.new }
    ensures run { IfOk result (λ exits. (slots : Slots) (cs : List ClauseMeant)
        → AllMean C.means slots clauses.now cs → HasTypedBuiltIns firing.now
        → AreTypedOwn slots (threads_of (C.Store.seen store.old) firing.now.thread)
        → RunsOn firing.now
        (made_on firing.now cs indices.now (threads_of (C.Store.seen store.old)))
        (threads_of (C.Store.seen store.old)) (threads_of (C.Store.seen store.new))
        piece.old piece.new exits) }
{
    if indices.is_empty() {
        return Ok(false);
    }
    store.enter(firing)?;
    let alloc = *piece.taken.allocator();
    let mut state = State {
        alloc,
        firing,
        store,
    };
    run_clauses(clauses, indices, &mut state, piece)
}
