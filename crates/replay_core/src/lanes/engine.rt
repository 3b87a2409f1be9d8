//! What runs firings.

ghost use Rattle.std.specs.Prelude.{◌≡◌, ◌<◌, ◌≤◌, ◌↔◌, Bool, [], ◌∷◌, IfOk, IsErr, IsTrue};
ghost use Rattle.std.specs.Prelude.{OnOk, is_some, length};

use crate::lanes::piece::Piece;
use crate::selection::clause_indices::ClauseIndices;
use firings::Firing;
use std::alloc::{AllocError, Global};

/// Runs firings for a script, in the order in which it is given them.
pub trait Engine {
    ghost use Rattle.replay_core.specs.Vocabulary.{MAX_BYTES, ScriptMeant};
    ghost use Rattle.replay_core.specs.{Selecting.selected_for, Sizes.most_firings};
    ghost use Rattle.replay_core.specs.Lanes.{Fires, LaneSeen};
    ghost use Rattle.replay_core.specs.Meaning.{exit_of, history};
    ghost use Rattle.replay_core.specs.Seen.{IsRoomy, piece_seen};

    /// What it runs means this.
    ghost runs: { Self → ScriptMeant → Type 0 };

    /// What the threads keep, and what the firings made so far.
    ghost seen: { Self → LaneSeen };

    /// Memory was refused to a firing.
    ghost is_spent: { Self → Bool };

    /// Runs the clauses that are selected for a firing, and returns whether it exits. Once memory
    /// was refused, each later call is refused too.
    fn fire(&mut self, firing: &Firing) -> Result<bool, AllocError>
        requires script { (m : ScriptMeant) × runs self.old m }
        requires few { length (seen self.old).piece.taken < most_firings }
        ensures step { (m : ScriptMeant) → runs self.old m
            → OnOk result (Fires m firing.now (seen self.old) (seen self.new)) }
        ensures exits { (m : ScriptMeant) → runs self.old m
            → IfOk result (λ exits. exits
            ≡ is_some (exit_of (history m (firing.now ∷ []) (seen self.old).threads))) }
        ensures script { (m : ScriptMeant) → runs self.old m → runs self.new m }
        ensures spent { IsTrue (is_spent self.old)
            → IsErr result × (seen self.new ≡ seen self.old) }
        ensures err { IsTrue (is_spent self.new) ↔ IsErr result };

    /// Runs the clauses at these indices, which were selected for a firing, and returns whether it
    /// exits. Once memory was refused, each later call is refused too.
    fn fire_selected(
        &mut self,
        firing: &Firing,
        indices: &ClauseIndices,
    ) -> Result<bool, AllocError>
        requires selected { (m : ScriptMeant) × runs self.old m
            × (indices.now ≡ selected_for m firing.now) }
        requires indices { length indices.now ≤ MAX_BYTES }
        requires few { length (seen self.old).piece.taken < most_firings }
        ensures step { (m : ScriptMeant) → runs self.old m
            → indices.now ≡ selected_for m firing.now
            → OnOk result (Fires m firing.now (seen self.old) (seen self.new)) }
        ensures exits { (m : ScriptMeant) → runs self.old m
            → indices.now ≡ selected_for m firing.now
            → IfOk result (λ exits. exits
            ≡ is_some (exit_of (history m (firing.now ∷ []) (seen self.old).threads))) }
        ensures script { (m : ScriptMeant) → runs self.old m
            → indices.now ≡ selected_for m firing.now → runs self.new m }
        ensures spent { IsTrue (is_spent self.old)
            → IsErr result × (seen self.new ≡ seen self.old) }
        ensures err { IsTrue (is_spent self.new) ↔ IsErr result }
    {
        self.fire(firing)
    }

    /// What the firings made.
    fn finish(self) -> Piece
        ensures piece { piece_seen result ≡ (seen self).piece }
        ensures held { IsRoomy result };
}

// An engine that lies in a box.
impl<E: Engine + Drop> Engine for Box<E> {
    ghost runs = { λ l m. E.runs l.value m };

    ghost seen = { λ l. E.seen l.value };

    ghost is_spent = { λ l. E.is_spent l.value };

    fn fire(&mut self, firing: &Firing) -> Result<bool, AllocError> {
        (**self).fire(firing)
    }

    fn fire_selected(
        &mut self,
        firing: &Firing,
        indices: &ClauseIndices,
    ) -> Result<bool, AllocError> {
        (**self).fire_selected(firing, indices)
    }

    fn finish(self) -> Piece {
        Box::into_inner(self).finish()
    }
}

/// Puts an engine into a box. The prover takes no type with a lifetime and a field of its parameter
/// for an associated type, but takes a box of it.
pub(crate) fn boxed<E: Engine + Drop>(alloc: Global, engine: E) -> Result<Box<E>, AllocError>
    ensures { IfOk result (λ b. b.value ≡ engine) }
{
    Box::new(alloc, engine).map_err(|_| AllocError)
}
