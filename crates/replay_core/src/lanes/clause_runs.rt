//! The clauses of a firing, one after the other.

ghost use Rattle.std.specs.Prelude.{◌≡◌, ◌*◌, ◌∷◌, [], List, IfOk, MatchOption, length};
ghost use Rattle.replay_core.specs.Vocabulary.{AreTyped, ClauseMeant, HasTypedBuiltIns, Slots};
ghost use Rattle.replay_core.specs.Effects.{HasMore, HasTaken, IsNotedRun};
ghost use Rattle.replay_core.specs.{Scripts.AllMean};
ghost use Rattle.replay_core.specs.Steps.{AllMade.all_made, OnThread.AreRunnable};
ghost use Rattle.replay_core.specs.Evaluation.{Stays, variables_in};

use crate::lanes::clause::Clause;
use crate::lanes::piece::Piece;
use crate::lanes::state::State;
use crate::selection::clause_indices::{ClauseIndices, Repeat};
use d_lexer::MAX_BYTES;
use std::alloc::AllocError;
use std::marker::Model;

// The indices whose clauses are still to run. Contracts see each as often as its clause will.
#[derive(Drop)]
struct IndicesLeft<'a> {
    first: Repeat,
    behind: &'a [Repeat],
}

impl<'a> Model for IndicesLeft<'a> {
    ghost use Rattle.std.specs.Prelude.{◌<◌, ◌∷◌, ℕ, List, All};
    ghost use Rattle.replay_core.specs.Indices.{indices_in_turn};

    ghost Value = { List ℕ };

    ghost view = { λ l. indices_in_turn (l.first ∷ l.behind.now) };

    ghost invariant = { λ l. All (λ repeat. 0 < repeat.times) l.behind.now };
}

impl<'a> IndicesLeft<'a> {
    // All of them.
    fn all(indices: &'a ClauseIndices) -> IndicesLeft<'a>
        ensures { result ≡ indices.now }
    {
        IndicesLeft {
            first: Repeat { index: 0, times: 0 },
            behind: &indices.repeats,
        }
    }

    // Takes the first.
    #[inline(always)]
    fn next(&mut self) -> Option<usize>
        ensures { MatchOption result (self.old ≡ []) (λ index. self.old ≡ index ∷ self.new) }
    {
        if self.first.times > 0 {
            self.first.times -= 1;
            return Some(self.first.index);
        }
        let (first, behind) = self.behind.split_first()?;
        self.first = Repeat {
            index: first.index,
            times: first.times - 1,
        };
        self.behind = behind;
        Some(first.index)
    }
}

/// Runs the clauses at these indices for a firing, and returns whether one exited.
pub(crate) fn run_clauses<C: Clause>(
    clauses: &[C],
    indices: &ClauseIndices,
    state: &mut State<'_, '_, C::Store>,
    piece: &mut Piece,
) -> Result<bool, AllocError>
    requires runnable { AreRunnable C.indices C.most C.probes clauses.now indices.now piece.old }
    requires taken { HasTaken state.old piece.old }
    ensures more { HasMore (MAX_BYTES * length indices.now) piece.old piece.new }
    ensures state { Stays C.Store.seen state.old state.new }
    ensures run { IfOk result (λ exits. (slots : Slots) (cs : List ClauseMeant)
        → AllMean C.means slots clauses.now cs → HasTypedBuiltIns state.old.firing.now
        → AreTyped slots (variables_in C.Store.seen state.old)
        → IsNotedRun C.Store.seen (λ f. all_made f cs indices.now) state.old state.new piece.old
        piece.new exits) }
{
    let count = clauses.len();
    let mut exits = false;
    let mut left = IndicesLeft::all(indices);
    while let Some(index) = left.next() {
        prove!(index < count);
        let exited = clauses[index].run(index as u64 + 1, state, piece)?;
        exits |= exited;
    }
    Ok(exits)
}
