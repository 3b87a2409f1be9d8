//! Which owner each firing is of.

ghost use Rattle.std.specs.Prelude.{◌≡◌, ◌<◌, Some, length, slice_get};

use crate::stored_row::{Row, row_at};
use crate::unit::{OwnerEntry, owner_at};
use crate::units::Units;
use std::marker::Model;

/// The threads of firings' owners, and of each firing the index of its own owner among them. Two
/// firings with the same index are of the same thread.
///
/// ```text
/// // of rows of the threads 7, 9 and 7
/// let indices = trace.firings().owner_indices();
/// indices.owner_count(); // 2, if the rows of thread 7 have one owner
/// indices.thread(indices.index_of(1)); // 9
/// ```
#[derive(Drop)]
pub struct OwnerIndices<'a> {
    pub(crate) owners: &'a Units<OwnerEntry>,
    pub(crate) rows: &'a [Row],
}

impl<'a> Model for OwnerIndices<'a> {
    ghost use Rattle.std.specs.Prelude.{◌<◌, All, List, length, map, ℕ, ℤ};
    ghost use Rattle.firings.specs.Units.{owner_in};

    ghost Value = { List ℤ × List ℕ };

    ghost view = { λ p. (
      map (λ o. o.thread) (map owner_in p.owners.now),
      map (λ r. r.owner) p.rows.now,
    ) };

    ghost invariant = { λ p.
        All (λ r. r.owner < length (map owner_in p.owners.now)) p.rows.now };
}

impl<'a> OwnerIndices<'a> {
    /// How many owners there are.
    pub fn owner_count(&self) -> usize
        ensures { result ≡ length self.now.0 }
    {
        self.owners.len()
    }

    /// The thread of the owner at an index.
    pub fn thread(&self, index: usize) -> i32
        requires { index < length self.now.0 }
        ensures { slice_get self.now.0 index ≡ Some result }
    {
        owner_at(self.owners, index).thread
    }

    /// The index of a firing's owner.
    pub fn index_of(&self, at: usize) -> usize
        requires { at < length self.now.1 }
        ensures index { slice_get self.now.1 at ≡ Some result }
        ensures within { result < length self.now.0 }
    {
        row_at(self.rows, at).owner as usize
    }
}
