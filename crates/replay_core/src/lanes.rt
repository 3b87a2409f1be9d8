//! Where lanes come from.

pub(crate) mod clause;
pub(crate) mod clause_runs;
pub(crate) mod compiled;
pub(crate) mod engine;
pub(crate) mod lane;
pub(crate) mod piece;
pub(crate) mod run_firings;
pub(crate) mod state;
pub(crate) mod store;
pub(crate) mod tables;
pub(crate) mod threads;
pub(crate) mod tree;
pub(crate) mod word_store;

ghost use Rattle.std.specs.Prelude.{◌≡◌, IfOk, IsFalse, []};

use crate::lanes::engine::Engine;
use crate::selection::Selections;
use firings::Trace;
use std::alloc::{AllocError, Global};

/// Gives fresh lanes of one script.
pub trait Lanes {
    ghost use Rattle.d_types.specs.Typed.{ScriptMeant, has_exit};
    ghost use Rattle.replay_core.specs.{Running.IsLaneOf, Selecting.AreSelected};

    type Lane: Engine + Drop + Send;

    /// What its lanes run means this.
    ghost runs: { Self → ScriptMeant → Type 0 };

    /// Whether their script has an `exit`.
    fn exits(&self) -> bool
        ensures { (m : ScriptMeant) → runs self.now m → result ≡ has_exit m };

    /// Which of its clauses run for each firing of a run over the trace, if that is found before
    /// any fires.
    fn selections<'t>(&self, _alloc: Global, trace: &'t Trace) -> Result<Selections<'t>, AllocError>
        requires { (m : ScriptMeant) × runs self.now m }
        ensures { IfOk result (AreSelected (runs self.now) trace.now) }
    {
        Ok(Selections::none())
    }

    /// A lane that has run no firing.
    fn lane(&self, alloc: Global) -> Result<Self::Lane, AllocError>
        requires { (m : ScriptMeant) × runs self.now m }
        ensures script { IfOk result
            (λ l. (m : ScriptMeant) → runs self.now m → Self.Lane.runs l m) }
        ensures fresh { IfOk result
            (λ l. (m : ScriptMeant) → Self.Lane.runs l m → IsLaneOf m [] (Self.Lane.seen l)) }
        ensures unspent { IfOk result (λ l. IsFalse (Self.Lane.is_spent l)) };
}
