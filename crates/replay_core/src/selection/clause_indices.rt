//! The clauses that run for a firing.

ghost use Rattle.std.specs.Prelude.{◌≡◌, ◌==◌, ◌++◌, ◌∷◌, [], true, IfOk, OnOk, length};

use std::alloc::{AllocError, Global};
use std::marker::Model;

/// A clause's index, and how many times in a row the clause runs.
#[derive(Clone, Copy, PartialEq, Eq)]
pub(crate) struct Repeat {
    pub(crate) index: usize,
    pub(crate) times: u32,
}

/// The indices of the clauses that run for a firing, in the order in which they run. Contracts see
/// each index as often as its clause runs.
#[derive(Drop)]
pub struct ClauseIndices {
    pub(crate) repeats: Vec<Repeat>,
}

impl Model for ClauseIndices {
    ghost use Rattle.std.specs.Prelude.{◌<◌, ℕ, List, All};
    ghost use Rattle.replay_core.specs.Indices.{indices_in_turn};

    ghost Value = { List ℕ };

    ghost view = { λ s. indices_in_turn s.repeats.items };

    ghost invariant = { λ s. All (λ repeat. 0 < repeat.times) s.repeats.items };
}

impl ClauseIndices {
    pub(crate) fn new(alloc: Global) -> ClauseIndices
        ensures { result ≡ [] }
    {
        ClauseIndices {
            repeats: Vec::new(alloc),
        }
    }

    /// The list of these indices.
    pub(crate) fn of(alloc: Global, indices: &[usize]) -> Result<ClauseIndices, AllocError>
        ensures { IfOk result (λ c. c ≡ indices.now) }
    {
        let mut all = ClauseIndices::new(alloc);
        for index in indices {
            all.add(*index)?;
        }
        Ok(all)
    }

    // Adds an index at the end.
    fn add(&mut self, index: usize) -> Result<(), AllocError>
        ensures { OnOk result (self.new ≡ self.old ++ index ∷ []) }
    {
        let count = self.repeats.len();
        if count > 0 {
            let last = self.repeats[count - 1];
            if last.index == index && last.times < u32::MAX {
                self.repeats[count - 1].times += 1;
                return Ok(());
            }
        }
        self.repeats.push(Repeat { index, times: 1 })?;
        Ok(())
    }

    /// Whether no clause runs.
    pub(crate) fn is_empty(&self) -> bool
        ensures { result ≡ (length self.now == 0) }
    {
        self.repeats.is_empty()
    }

    /// Whether both are the same indices, each as often.
    pub(crate) fn is_same(&self, other: &ClauseIndices) -> bool
        ensures { result ≡ true → self.now ≡ other.now }
    {
        self.repeats.as_slice() == other.repeats.as_slice()
    }
}
