//! Lanes that run compiled scripts.

ghost use Rattle.std.specs.Prelude.{◌≡◌, IfOk};
ghost use Rattle.replay_core.specs.Vocabulary.{ScriptMeant};
ghost use Rattle.replay_core.specs.{Compiled.IsCompiled, Lanes.IsFresh};

use crate::lanes::Lanes;
use crate::lanes::engine::{Engine, boxed};
use crate::lanes::lane::Lane;
use crate::selection::{Selections, select};
use dif_codegen::{CompiledClause, Program};
use firings::Trace;
use keyed_hash::HashKey;
use std::alloc::{AllocError, Global};

/// A lane that runs the objects of a program.
pub type DifLane<'a> = Lane<'a, CompiledClause>;

// A lane that has run no firing, over what a script was compiled to.
fn dif_lane(alloc: Global, hash_key: HashKey, program: &Program) -> Result<DifLane<'_>, AllocError>
    requires { (m : ScriptMeant) × IsCompiled m program.now }
    ensures script { IfOk result (λ l. (m : ScriptMeant) → IsCompiled m program.now
        → ⟦<DifLane<'static> as Engine>⟧.runs l m) }
    ensures fresh { IfOk result
        (λ l. IsFresh l.spent (⟦<DifLane<'static> as Engine>⟧.seen l)) }
{
    let functions = Vec::from_slice(alloc, program.aggs())?;
    Lane::new(alloc, hash_key, program.clauses(), functions)
}

/// Gives lanes that run a program's objects.
#[derive(Drop)]
pub struct DifLanes<'a> {
    hash_key: HashKey,
    program: &'a Program,
}

impl<'a> DifLanes<'a> {
    /// Lanes of this program. Their maps hash by a fixed key.
    ///
    /// ```text
    /// let lanes = DifLanes::new(&program);
    /// let lane = lanes.lane(alloc)?;
    /// ```
    pub fn new(program: &'a Program) -> DifLanes<'a>
        ensures { result.program.now ≡ program.now }
    {
        DifLanes::with_hash_key(HashKey::of_seed(&[]), program)
    }

    /// Lanes of this program, whose maps hash by this key.
    ///
    /// ```text
    /// let lanes = DifLanes::with_hash_key(HashKey::random(&rt), &program);
    /// ```
    pub fn with_hash_key(hash_key: HashKey, program: &'a Program) -> DifLanes<'a>
        ensures { result.program.now ≡ program.now }
    {
        DifLanes { hash_key, program }
    }
}

impl<'a> Lanes for DifLanes<'a> {
    type Lane = Box<DifLane<'a>>;

    ghost runs = { λ l m. IsCompiled m l.program.now };

    fn exits(&self) -> bool {
        self.program.exits()
    }

    fn selections<'t>(
        &self,
        alloc: Global,
        trace: &'t Trace,
    ) -> Result<Selections<'t>, AllocError> {
        select(alloc, self.hash_key, self.program.clauses(), trace)
    }

    fn lane(&self, alloc: Global) -> Result<Box<DifLane<'a>>, AllocError> {
        boxed(alloc, dif_lane(alloc, self.hash_key, self.program)?)
    }
}
