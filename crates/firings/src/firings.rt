//! The firings of a trace, as they are stored: rows of small fixed size, each owner and each probe
//! once, and of the arguments no zeros at the end.

ghost use Rattle.std.specs.Prelude.{◌≡◌, ◌<◌, ◌≤◌, All, Some, length, map, slice_get};
ghost use Rattle.firings.specs.Firings.{last_number as last_number_of, thread_of};
ghost use Rattle.firings.specs.{Probing.probe_of};
ghost use Rattle.firings.specs.Stored.{AreIndices, IsRowIn, firing_in, row_before};
ghost use Rattle.firings.specs.Units.{owner_in, probe_in};
ghost use Rattle.firings.specs.declared.limits.TheConstants.{MAX_TOGETHER};

use crate::firing::Firing;
use crate::firing_rows::{FiringRows, firing_of, rows_before};
use crate::owner_indices::OwnerIndices;
use crate::probe_indices::ProbeIndices;
use crate::stored_row::Row;
use crate::unit::{OwnerEntry, ProbeEntry};
use crate::units::Units;
use std::marker::Model;

/// The firings of a trace. Each is made when it is asked for, and takes no memory. Contracts see
/// the list of them.
#[derive(Drop)]
pub struct Firings {
    owners: Units<OwnerEntry>,
    probes: Units<ProbeEntry>,
    args: Vec<i64>,
    rows: Vec<Row>,
}

impl Model for Firings {
    ghost use Rattle.std.specs.Prelude.{All, List, map};
    ghost use Rattle.firings.specs.declared.firing.Firing.{Firing};
    ghost use Rattle.firings.specs.Stored.{IsRowIn, firing_in};
    ghost use Rattle.firings.specs.Units.{owner_in, probe_in};

    ghost Value = { List Firing };

    ghost view = { λ s. map
        (firing_in (map owner_in s.owners) (map probe_in s.probes) s.args.items) s.rows.items };

    ghost invariant = { λ s. All
        (IsRowIn (map owner_in s.owners) (map probe_in s.probes) s.args.items) s.rows.items };
}

impl Firings {
    /// The firings of rows, with the owners, the probes and the arguments that they name.
    ///
    /// ```text
    /// let trace = Trace::of(Firings::of(owners, probes, args, rows));
    /// ```
    pub fn of(
        owners: Units<OwnerEntry>,
        probes: Units<ProbeEntry>,
        args: Vec<i64>,
        rows: Vec<Row>,
    ) -> Firings
        requires { All (IsRowIn (map owner_in owners) (map probe_in probes) args.items) rows.items }
        ensures { result
            ≡ map (firing_in (map owner_in owners) (map probe_in probes) args.items) rows.items }
    {
        Firings {
            owners,
            probes,
            args,
            rows,
        }
    }

    /// How many there are.
    ///
    /// ```text
    /// trace.firings().len(); // 2, for a header and two rows
    /// ```
    pub fn len(&self) -> usize
        ensures { result ≡ length self.now }
    {
        self.rows.len()
    }

    /// The firing at an index, from 0.
    ///
    /// ```text
    /// // of rows with the numbers 1 and 40
    /// trace.firings().get(1).number; // 40
    /// ```
    pub fn get(&self, at: usize) -> Firing
        requires { at < length self.now }
        ensures { slice_get self.now at ≡ Some result }
    {
        firing_of(&self.owners, &self.probes, &self.args, self.rows[at])
    }

    /// The rows of the firings at these indices of a run, in which BEGIN comes before the first:
    /// row 0 has index 1. They are copied one right after the other, so that the processor waits
    /// for all of them at once.
    ///
    /// ```text
    /// let rows = trace.firings().rows(&[1, 40]);
    /// rows.get(1); // the firing of row 39, or None if there are fewer rows
    /// ```
    pub fn rows(&self, indices: &[u32]) -> FiringRows
        requires { length indices.now ≤ MAX_TOGETHER }
        ensures { result ≡ map (row_before self.now) indices.now }
    {
        FiringRows {
            owners: &self.owners,
            probes: &self.probes,
            args: &self.args,
            rows: rows_before(&self.rows, indices),
            count: indices.len(),
        }
    }

    /// Which probe each is of.
    ///
    /// ```text
    /// trace.firings().probe_indices().probe_count(); // 2, if the rows are of two probes
    /// ```
    pub fn probe_indices(&self) -> ProbeIndices
        ensures { AreIndices result.probes result.indices (map probe_of self.now) }
    {
        ProbeIndices::new(&self.probes, &self.rows)
    }

    /// Which owner each is of.
    ///
    /// ```text
    /// trace.firings().owner_indices().owner_count(); // 2, if the rows are of two owners
    /// ```
    pub fn owner_indices(&self) -> OwnerIndices
        ensures { AreIndices result.0 result.1 (map thread_of self.now) }
    {
        OwnerIndices {
            owners: &self.owners,
            rows: &self.rows,
        }
    }

    /// The number of the last, or 0 if there are none.
    ///
    /// ```text
    /// trace.firings().last_number(); // 9, if the last row begins with 9
    /// ```
    pub fn last_number(&self) -> u64
        ensures { result ≡ last_number_of self.now }
    {
        match self.rows.last() {
            Some(row) => row.number,
            None => 0,
        }
    }
}
