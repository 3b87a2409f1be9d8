//! Lanes that walk the trees of a script.

ghost use Rattle.std.specs.Prelude.{◌≡◌, IfOk};
ghost use Rattle.replay_core.specs.Vocabulary.{ScriptMeant, typed_script_of};
ghost use Rattle.replay_core.specs.Lanes.{IsFresh};

use crate::lanes::Lanes;
use crate::lanes::engine::{Engine, boxed};
use crate::lanes::lane::Lane;
use crate::selection::{Selections, select};
use d_types::{TypedClause, TypedScript};
use firings::Trace;
use keyed_hash::HashKey;
use std::alloc::{AllocError, Global};

/// A lane that walks the trees of a script.
pub type TreeLane<'a> = Lane<'a, TypedClause>;

/// A lane of the script that has run no firing.
///
/// ```text
/// let lane = tree_lane(alloc, hash_key, &script)?;
/// ```
pub fn tree_lane(
    alloc: Global,
    hash_key: HashKey,
    script: &TypedScript,
) -> Result<TreeLane<'_>, AllocError>
    ensures script { IfOk result (λ l. (m : ScriptMeant) → m ≡ typed_script_of script.now
        → ⟦<TreeLane<'static> as Engine>⟧.runs l m) }
    ensures fresh { IfOk result
        (λ l. IsFresh l.spent (⟦<TreeLane<'static> as Engine>⟧.seen l)) }
{
    let functions = script.functions(alloc)?;
    Lane::new(alloc, hash_key, script.clauses(), functions)
}

/// Gives lanes that walk the trees of a script.
#[derive(Drop)]
pub struct TreeLanes<'a> {
    hash_key: HashKey,
    script: &'a TypedScript,
}

impl<'a> TreeLanes<'a> {
    /// Lanes of this script. Their maps hash by a fixed key.
    ///
    /// ```text
    /// let lanes = TreeLanes::new(&script);
    /// let lane = lanes.lane(alloc)?;
    /// ```
    pub fn new(script: &'a TypedScript) -> TreeLanes<'a>
        ensures { result.script.now ≡ script.now }
    {
        TreeLanes::with_hash_key(HashKey::of_seed(&[]), script)
    }

    /// Lanes of this script, whose maps hash by this key.
    ///
    /// ```text
    /// let lanes = TreeLanes::with_hash_key(HashKey::random(&rt), &script);
    /// ```
    pub fn with_hash_key(hash_key: HashKey, script: &'a TypedScript) -> TreeLanes<'a>
        ensures { result.script.now ≡ script.now }
    {
        TreeLanes { hash_key, script }
    }
}

impl<'a> Lanes for TreeLanes<'a> {
    type Lane = Box<TreeLane<'a>>;

    ghost runs = { λ l m. m ≡ typed_script_of l.script.now };

    fn exits(&self) -> bool {
        self.script.exits()
    }

    fn selections<'t>(
        &self,
        alloc: Global,
        trace: &'t Trace,
    ) -> Result<Selections<'t>, AllocError> {
        select(alloc, self.hash_key, self.script.clauses(), trace)
    }

    fn lane(&self, alloc: Global) -> Result<Box<TreeLane<'a>>, AllocError> {
        boxed(alloc, tree_lane(alloc, self.hash_key, self.script)?)
    }
}
