//! Where a lane keeps variables.

ghost use Rattle.std.specs.Prelude.{◌≡◌, IfOk, OnOk};
ghost use Rattle.replay_core.specs.Meaning.{at_start, blank_threads};
ghost use Rattle.replay_core.specs.Threads.{threads_of};

use firings::Firing;
use keyed_hash::HashKey;
use std::alloc::{AllocError, Global};

/// The variables of a lane's threads, of which the clauses of a firing see those of one, and the
/// variables that these clauses share.
pub trait Store: Drop + Sized {
    ghost use Rattle.replay_core.specs.Threads.{StoreSeen};
    ghost use Rattle.replay_core.specs.Vocabulary.{Firing as Recorded};

    /// What contracts see of it.
    ghost seen: { Self → StoreSeen };

    /// What it knows of a firing is true of that firing.
    ghost knows: { Self → Recorded → Type 0 };

    /// Variables of which none is set. The hashes of its maps have this key.
    fn new(alloc: Global, hash_key: HashKey) -> Result<Self, AllocError>
        ensures { IfOk result (λ s. threads_of (seen s) ≡ blank_threads) };

    /// Turns to a firing: its clauses find what its thread has, and nothing that the clauses of an
    /// earlier firing shared.
    fn enter(&mut self, firing: &Firing) -> Result<(), AllocError>
        ensures knows { OnOk result (∥ knows self.new firing.now ∥₁) }
        ensures thread { OnOk result ((seen self.new).at ≡ firing.now.thread) }
        ensures present { OnOk result
            ((seen self.new).present ≡ at_start (threads_of (seen self.old) firing.now.thread)) }
        ensures threads { OnOk result
            (threads_of (seen self.new) ≡ threads_of (seen self.old)) };
}
