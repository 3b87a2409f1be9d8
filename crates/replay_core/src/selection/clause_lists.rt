//! Lists of clauses, equal ones kept once.

ghost use Rattle.std.specs.Prelude.{◌≡◌, [], true, IfOk, IfSome, Some, slice_get};
ghost use Rattle.replay_core.specs.{Selecting.list_at, Vocabulary.Extends};

use crate::selection::clause_indices::ClauseIndices;
use indexmap::IndexMap;
use keyed_hash::HashKey;
use std::alloc::{AllocError, Global};
use std::hash::{BuildHasher, Hasher};
use std::marker::Model;

/// Lists of clauses by their indices among a script's. Contracts see the lists.
#[derive(Drop)]
pub(crate) struct ClauseLists {
    lists: Vec<ClauseIndices>,
    // One without clauses.
    empty: ClauseIndices,
    // By the hash of a list, the index of the last one that was added.
    hashed: IndexMap<u64, usize, HashKey>,
}

impl Model for ClauseLists {
    ghost use Rattle.std.specs.Prelude.{◌≡◌, ℕ, List, []};

    ghost Value = { List (List ℕ) };

    ghost view = { λ s. s.lists.items };

    ghost invariant = { λ s. s.empty ≡ [] };
}

impl ClauseLists {
    pub(crate) fn new(alloc: Global, hash_key: HashKey) -> ClauseLists
        ensures { result ≡ [] }
    {
        ClauseLists {
            lists: Vec::new(alloc),
            empty: ClauseIndices::new(alloc),
            hashed: IndexMap::with_hasher(alloc, hash_key),
        }
    }

    /// The list at an index; an empty one if there is none.
    pub(crate) fn at(&self, index: usize) -> &ClauseIndices
        ensures { result.now ≡ list_at self.now index }
    {
        match self.lists.get(index) {
            Some(list) => list,
            None => &self.empty,
        }
    }

    /// The index of a list, which is added if it isn't there.
    pub(crate) fn intern(&mut self, list: ClauseIndices) -> Result<usize, AllocError>
        ensures grows { Extends self.old self.new }
        ensures index { IfOk result (λ p. slice_get self.new p ≡ Some list) }
    {
        let hash = hash_of(*self.hashed.hasher(), &list);
        if let Some(index) = self.kept_at(hash, &list) {
            return Ok(index);
        }
        let index = self.lists.len();
        self.lists.push(list)?;
        self.hashed.insert(hash, index)?;
        Ok(index)
    }

    // The index of a list that is found by its hash.
    fn kept_at(&self, hash: u64, list: &ClauseIndices) -> Option<usize>
        ensures { IfSome result (λ p. slice_get self.now p ≡ Some list.now) }
    {
        let index = *self.hashed.get(&hash)?;
        if is_at(&self.lists, index, list) {
            Some(index)
        } else {
            None
        }
    }
}

// Whether the list at an index is this one.
fn is_at(lists: &[ClauseIndices], index: usize, list: &ClauseIndices) -> bool
    ensures { result ≡ true → slice_get lists.now index ≡ Some list.now }
{
    match lists.get(index) {
        Some(kept) => kept.is_same(list),
        None => false,
    }
}

fn hash_of(hash_key: HashKey, list: &ClauseIndices) -> u64 {
    let mut hasher = hash_key.build_hasher();
    for repeat in &list.repeats {
        hasher.write(&(repeat.index as u64).to_le_bytes());
        hasher.write(&repeat.times.to_le_bytes());
    }
    hasher.finish()
}
