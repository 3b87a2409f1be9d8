//! Which probe each firing is of.

ghost use Rattle.std.specs.Prelude.{◌≡◌, ◌<◌, Some, All, length, map, slice_get};
ghost use Rattle.firings.specs.{Probing.probe_of, Units.probe_in};
ghost use Rattle.firings.specs.declared.stored_row.Row.{Row};

use crate::firing::Firing;
use crate::stored_row::{Row, row_at};
use crate::unit::{Probe, ProbeEntry, probe_at};
use crate::units::Units;
use std::marker::Model;

/// The probes of firings, and of each firing the index of its own among them. Two firings with the
/// same index are of the same probe.
///
/// ```text
/// // of rows of the probes p::read:entry, p::read:return and p::read:entry
/// let indices = trace.firings().probe_indices();
/// indices.len(); // 3
/// indices.probe_count(); // 2
/// indices.probe(1).name; // `return`
/// ```
#[derive(Drop)]
pub struct ProbeIndices<'a> {
    probes: &'a Units<ProbeEntry>,
    rows: &'a [Row],
}

impl<'a> Model for ProbeIndices<'a> {
    ghost use Rattle.std.specs.Prelude.{◌<◌, All, length, map};
    ghost use Rattle.firings.specs.{Probing.IndicesSeen, Units.probe_in};

    ghost Value = { IndicesSeen };

    ghost view = { λ p. record {
      probes = map probe_in p.probes.now;
      indices = map (λ r. r.probe) p.rows.now;
    } };

    ghost invariant = { λ p.
        All (λ r. r.probe < length (map probe_in p.probes.now)) p.rows.now };
}

impl<'a> ProbeIndices<'a> {
    pub(crate) fn new(probes: &'a Units<ProbeEntry>, rows: &'a [Row]) -> ProbeIndices<'a>
        requires { All (λ r. r.probe < length (map probe_in probes.now)) rows.now }
        ensures probes { result.probes ≡ map probe_in probes.now }
        ensures indices { result.indices ≡ map (λ (r : Row). r.probe) rows.now }
    {
        ProbeIndices { probes, rows }
    }

    /// How many firings there are.
    pub fn len(&self) -> usize
        ensures { result ≡ length self.now.indices }
    {
        self.rows.len()
    }

    /// How many probes there are.
    pub fn probe_count(&self) -> usize
        ensures { result ≡ length self.now.probes }
    {
        self.probes.len()
    }

    /// The probe at an index among the probes.
    pub fn probe(&self, index: usize) -> Probe
        requires { index < length self.now.probes }
        ensures { slice_get self.now.probes index ≡ Some result }
    {
        probe_at(self.probes, index)
    }

    /// The index of a firing's probe.
    ///
    /// ```text
    /// // of rows of the probes p::read:entry, p::read:return and p::read:entry
    /// let indices = trace.firings().probe_indices();
    /// indices.index_of(2) == indices.index_of(0); // true
    /// ```
    pub fn index_of(&self, at: usize) -> u32
        requires { at < length self.now.indices }
        ensures index { slice_get self.now.indices at ≡ Some result }
        ensures within { result < length self.now.probes }
    {
        row_at(self.rows, at).probe
    }
}

impl<'a> Firing<'a> {
    /// Its probe.
    ///
    /// ```text
    /// trace.firings().get(0).into_probe().name; // `entry`, of a row of p::read:entry
    /// ```
    pub fn into_probe(self) -> Probe<'a>
        ensures { result ≡ probe_of self.entry }
    {
        Probe {
            provider: self.provider,
            probemod: self.probemod,
            probefunc: self.probefunc,
            name: self.name,
        }
    }
}
