//! Lanes: what all engines share.

ghost use Rattle.std.specs.Prelude.{◌≡◌, ◌<◌, ◌≤◌, IfOk, false, true, length};
ghost use Rattle.replay_core.specs.Vocabulary.{MAX_BYTES, ScriptMeant, functions_in};
ghost use Rattle.replay_core.specs.Vocabulary.{functions_of, slots_of};
ghost use Rattle.replay_core.specs.{Selecting.selected_for, Sizes.most_firings, Threads.threads_of};
ghost use Rattle.replay_core.specs.{Bounds.AreBounded, Lanes.IsFresh};
ghost use Rattle.replay_core.specs.Steps.OnThread.{FiresTyped};
ghost use Rattle.replay_core.specs.Scripts.{AllMean, AreTypedThreads, RunsAs};
ghost use Rattle.replay_core.specs.Seen.{IsRoomy, lane_seen};

use crate::lanes::clause::Clause;
use crate::lanes::engine::Engine;
use crate::lanes::piece::Piece;
use crate::lanes::store::Store;
use crate::lanes::threads::run_on_thread;
use crate::selection::clause_indices::ClauseIndices;
use crate::selection::clauses_for;
use aggregations::AggFn;
use d_types::meaning::built_ins_are_of_their_types;
use firings::Firing;
use keyed_hash::HashKey;
use std::alloc::{AllocError, Global};

/// Runs firings through the clauses of a script. An engine adds only how one clause is run.
#[derive(Drop)]
pub struct Lane<'a, C: Clause> {
    clauses: &'a [C],
    hash_key: HashKey,
    store: C::Store,
    piece: Piece,
    // Memory was refused to a firing.
    spent: bool,
    ghost bounded: { AreBounded C.indices C.most C.probes clauses.now (functions_of piece.table) },
    ghost room: { IsRoomy piece },
}

impl<'a, C: Clause> Lane<'a, C> {
    /// A lane that has run no firing, over clauses and the functions of the aggregations that they
    /// name. The hashes of its maps have this key.
    ///
    /// ```text
    /// let lane = Lane::new(alloc, hash_key, script.clauses(), script.functions(alloc)?)?;
    /// ```
    pub fn new(
        alloc: Global,
        hash_key: HashKey,
        clauses: &'a [C],
        functions: Vec<AggFn>,
    ) -> Result<Lane<'a, C>, AllocError>
        requires { AreBounded C.indices C.most C.probes clauses.now functions.items }
        ensures script { IfOk result (λ l. (m : ScriptMeant)
            → AllMean C.means (slots_of m) clauses.now m.clauses → functions.items ≡ functions_in m
            → ⟦<Lane<'a, C> as Engine>⟧.runs l m) }
        ensures fresh { IfOk result (λ l. IsFresh l.spent (⟦<Lane<'a, C> as Engine>⟧.seen l)) }
    {
        let piece = Piece::new(alloc, hash_key, functions)?;
        let Ok(store) = C::Store::new(alloc, hash_key) else {
            drop(piece);
            return Err(AllocError);
        };
        Ok(Lane {
            clauses,
            hash_key,
            store,
            piece,
            spent: false,
        })
    }

    // Takes the firing's number, and runs the clauses at these indices for it.
    fn run(&mut self, firing: &Firing, indices: &ClauseIndices) -> Result<bool, AllocError>
        requires selected { (m : ScriptMeant)
            × RunsAs C.means self.old.clauses.now (functions_of self.old.piece.table) m
            × (indices.now ≡ selected_for m firing.now) }
        requires indices { length indices.now ≤ MAX_BYTES }
        requires few { length self.old.piece.taken.items < most_firings }
        requires spent { self.old.spent ≡ true }
        ensures spent { self.new.spent ≡ true }
        ensures script { (m : ScriptMeant)
            → RunsAs C.means self.old.clauses.now (functions_of self.old.piece.table) m
            → RunsAs C.means self.new.clauses.now (functions_of self.new.piece.table) m }
        ensures run { IfOk result (λ exits. (m : ScriptMeant)
            → RunsAs C.means self.old.clauses.now (functions_of self.old.piece.table) m
            → indices.now ≡ selected_for m firing.now
            → AreTypedThreads (slots_of m) (threads_of (C.Store.seen self.old.store))
            → FiresTyped m firing.now
            (lane_seen (C.Store.seen self.old.store) self.old.piece)
            (lane_seen (C.Store.seen self.new.store) self.new.piece) exits) }
    {
        built_ins_are_of_their_types(firing);
        self.piece.taken.push(firing.number)?;
        run_on_thread(
            self.clauses,
            indices,
            firing,
            &mut self.store,
            &mut self.piece,
        )
    }
}

impl<'a, C: Clause> Engine for Lane<'a, C> {
    ghost runs = { λ l m.
        RunsAs C.means l.clauses.now (functions_of l.piece.table) m
        × (l.spent ≡ false → AreTypedThreads (slots_of m) (threads_of (C.Store.seen l.store))) };

    ghost seen = { λ l. lane_seen (C.Store.seen l.store) l.piece };

    ghost is_spent = { λ l. l.spent };

    fn fire(&mut self, firing: &Firing) -> Result<bool, AllocError> {
        let alloc = *self.piece.taken.allocator();
        let Ok(indices) = clauses_for(alloc, self.hash_key, self.clauses, firing) else {
            self.spent = true;
            return Err(AllocError);
        };
        self.fire_selected(firing, &indices)
    }

    fn fire_selected(
        &mut self,
        firing: &Firing,
        indices: &ClauseIndices,
    ) -> Result<bool, AllocError> {
        if self.spent {
            return Err(AllocError);
        }
        self.spent = true;
        let exits = self.run(firing, indices)?;
        self.spent = false;
        Ok(exits)
    }

    fn finish(self) -> Piece {
        self.piece
    }
}
