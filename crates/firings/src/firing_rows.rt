//! Rows that are read together, before a firing is made of any.

ghost use Rattle.std.specs.Prelude.{◌≡◌, ◌<◌, ◌≤◌, Some, length, map, slice_get, take};
ghost use Rattle.firings.specs.Stored.{IsRowIn, firing_in, row_before};
ghost use Rattle.firings.specs.Units.{owner_in, probe_in};
ghost use Rattle.firings.specs.declared.limits.TheConstants.{MAX_TOGETHER};

use crate::firing::{Args, Firing};
use crate::limits::MAX_TOGETHER;
use crate::stored_row::Row;
use crate::unit::{Owner, OwnerEntry, Probe, ProbeEntry, owner_at, probe_at};
use crate::units::Units;
use std::marker::Model;

/// Rows that were copied from a trace. Contracts see the firing of each; None if there was no
/// row.
#[derive(Drop)]
pub struct FiringRows<'a> {
    pub(crate) owners: &'a Units<OwnerEntry>,
    pub(crate) probes: &'a Units<ProbeEntry>,
    pub(crate) args: &'a [i64],
    pub(crate) rows: [Option<Row>; MAX_TOGETHER],
    pub(crate) count: usize,
}

impl<'a> Model for FiringRows<'a> {
    ghost use Rattle.std.specs.Prelude.{◌≤◌, All, IfSome, List, Option, map, option_map, take};
    ghost use Rattle.firings.specs.declared.firing.Firing.{Firing};
    ghost use Rattle.firings.specs.Stored.{IsRowIn, firing_in};
    ghost use Rattle.firings.specs.Units.{owner_in, probe_in};

    ghost Value = { List (Option Firing) };

    ghost view = { λ s. map (option_map
        (firing_in (map owner_in s.owners.now) (map probe_in s.probes.now) s.args.now))
        (take s.count s.rows) };

    ghost invariant = { λ s. (s.count ≤ 16) × All (λ r. IfSome r
        (IsRowIn (map owner_in s.owners.now) (map probe_in s.probes.now) s.args.now))
        (take s.count s.rows) };
}

impl<'a> FiringRows<'a> {
    /// The firing of one of them, from 0; None if there was no row.
    ///
    /// ```text
    /// trace.firings().rows(&[0, 1]).get(1); // the first row's firing
    /// ```
    #[inline(always)]
    pub fn get(&self, at: usize) -> Option<Firing<'a>>
        requires { at < length self.now }
        ensures { slice_get self.now at ≡ Some result }
    {
        let rows = &self.rows;
        let row = rows[at]?;
        Some(firing_of(self.owners, self.probes, self.args, row))
    }
}

/// The rows one before each of these indices.
pub(crate) fn rows_before(rows: &[Row], indices: &[u32]) -> [Option<Row>; MAX_TOGETHER]
    requires { length indices.now ≤ MAX_TOGETHER }
    ensures { take (length indices.now) result ≡ map (row_before rows.now) indices.now }
{
    let mut found = [None; MAX_TOGETHER];
    for (at, index) in indices.iter().enumerate() {
        found[at] = one_before(rows, *index);
    }
    found
}

// The row one before an index; None before the first and past the last.
fn one_before(rows: &[Row], index: u32) -> Option<Row>
    ensures { result ≡ row_before rows.now index }
{
    if index == 0 {
        return None;
    }
    rows.get(index as usize - 1).copied()
}

/// The firing of a row.
#[inline(always)]
pub(crate) fn firing_of<'a>(
    owners: &'a Units<OwnerEntry>,
    probes: &'a Units<ProbeEntry>,
    args: &'a [i64],
    row: Row,
) -> Firing<'a>
    requires { IsRowIn (map owner_in owners.now) (map probe_in probes.now) args.now row }
    ensures { result
        ≡ firing_in (map owner_in owners.now) (map probe_in probes.now) args.now row }
{
    let first = row.first as usize;
    let own = &args[first..first + row.count as usize];
    let Owner {
        cpu,
        thread,
        pid,
        execname,
    } = owner_at(owners, row.owner as usize);
    let Probe {
        provider,
        probemod,
        probefunc,
        name,
    } = probe_at(probes, row.probe as usize);
    Firing {
        number: row.number,
        cpu,
        thread,
        pid,
        execname,
        time: row.time,
        provider,
        probemod,
        probefunc,
        name,
        args: Args::of(own),
    }
}
