//! Firings that are being read.

ghost use Rattle.std.specs.Prelude.{◌≡◌, ◌<◌, ◌++◌, ◌∷◌, [], All, IfOk, IfSome};
ghost use Rattle.std.specs.Prelude.{MatchOption, length, map, option_map, slice_get};
ghost use Rattle.firings.specs.{declared.firing.Firing.Firing};
ghost use Rattle.firing_reader.specs.{Plain.ReadsRow};
ghost use Rattle.firings.specs.Firings.{last_number as last_number_of, number_of};
ghost use Rattle.firing_reader.specs.Steps.Stored.{IsMovable, moved_row as moved_row_of};

use crate::arguments::{add_arguments, keep_arguments};
use crate::owners::keep_owner;
use crate::plain::row::row;
use crate::probes::keep_probe;
use crate::unit_table::UnitTable;
use firings::{Firing, Firings, OwnerEntry, ProbeEntry, Row};
use keyed_hash::HashKey;
use std::alloc::{AllocError, Global};
use std::marker::Model;

// More owners and probes than this are forgotten with their firings.
const MAX_KEPT: usize = 1024;

/// The firings of the rows that were read. Contracts see the list of them.
#[derive(Drop)]
pub(crate) struct FiringsBuilder {
    alloc: Global,
    owners: UnitTable<OwnerEntry>,
    probes: UnitTable<ProbeEntry>,
    args: Vec<i64>,
    rows: Vec<Row>,
}

impl Model for FiringsBuilder {
    ghost use Rattle.firing_reader.specs.Vocabulary.{All, List, map};
    ghost use Rattle.firings.specs.declared.firing.Firing.{Firing};
    ghost use Rattle.firings.specs.Stored.{IsRowIn, firing_in};
    ghost use Rattle.firings.specs.Units.{owner_in, probe_in};

    ghost Value = { List Firing };

    ghost view = { λ s. map
        (firing_in (map owner_in s.owners) (map probe_in s.probes) s.args.items) s.rows.items };

    ghost invariant = { λ s. All
        (IsRowIn (map owner_in s.owners) (map probe_in s.probes) s.args.items) s.rows.items };
}

impl FiringsBuilder {
    pub(crate) fn new(alloc: Global, hash_key: HashKey) -> Result<FiringsBuilder, AllocError>
        ensures { IfOk result (λ s. s ≡ []) }
    {
        let owners = UnitTable::new(alloc, hash_key)?;
        let probes = UnitTable::new(alloc, hash_key)?;
        Ok(FiringsBuilder {
            alloc,
            owners,
            probes,
            args: Vec::new(alloc),
            rows: Vec::new(alloc),
        })
    }

    /// Where its memory comes from.
    pub(crate) fn alloc(&self) -> Global {
        self.alloc
    }

    /// These firings, to which none is added any more.
    pub(crate) fn finish(self) -> Firings
        ensures { result ≡ self }
    {
        let FiringsBuilder {
            owners,
            probes,
            args,
            rows,
            ..
        } = self;
        Firings::of(owners.into_units(), probes.into_units(), args, rows)
    }

    /// Forgets all firings. Owners and probes stay unless they are many, as others are likely to
    /// have the same.
    pub(crate) fn clear(&mut self)
        ensures { self.new ≡ [] }
    {
        self.rows.clear();
        self.args.clear();
        if self.owners.len().saturating_add(self.probes.len()) > MAX_KEPT {
            self.owners.clear();
            self.probes.clear();
        }
    }

    /// How many there are.
    pub(crate) fn len(&self) -> usize
        ensures { result ≡ length self.now }
    {
        self.rows.len()
    }

    /// The number of the first, if there is one.
    pub(crate) fn first_number(&self) -> Option<u64>
        ensures { result ≡ option_map number_of (slice_get self.now 0) }
    {
        self.rows.first().map(|row| row.number)
    }

    /// The number of the last, or 0 if there are none.
    pub(crate) fn last_number(&self) -> u64
        ensures { result ≡ last_number_of self.now }
    {
        self.rows.last().map_or(0, |row| row.number)
    }

    /// Stores one more. If memory is refused, returns None and leaves the firings as they were.
    pub(crate) fn push(&mut self, firing: &Firing) -> Option<()>
        ensures { MatchOption result (self.new ≡ self.old)
            (λ _. self.new ≡ self.old ++ firing.now ∷ []) }
    {
        let owner = keep_owner(&mut self.owners, self.alloc, firing)?;
        let probe = keep_probe(&mut self.probes, self.alloc, firing)?;
        let (first, count) = keep_arguments(&mut self.args, firing.args.stored())?;
        let row = Row {
            number: firing.number,
            time: firing.time,
            owner,
            probe,
            first,
            count,
        };
        push_row(&mut self.rows, row)
    }

    /// Reads the plain row after a line feed, whose number has to be above the last, and returns
    /// the bytes from its own line feed on. If it returns None, the firings stay as they were.
    #[inline(always)]
    pub(crate) fn read_row<'a>(&mut self, bytes: &'a [u8]) -> Option<&'a [u8]>
        ensures { MatchOption result (self.new ≡ self.old) (λ rest. (f : Firing)
            × (self.new ≡ self.old ++ f ∷ []) × ReadsRow bytes.now rest.now f
            × (last_number_of self.old < f.number)) }
    {
        let last = self.last_number();
        let (row, rest) = row(
            &mut self.owners,
            &mut self.probes,
            &mut self.args,
            bytes,
            last,
        )?;
        push_row(&mut self.rows, row)?;
        Some(rest)
    }

    /// Stores others after these: each owner and each probe of theirs is looked up once, and no
    /// firing is made. It returns None if memory is refused.
    pub(crate) fn append(&mut self, others: &FiringsBuilder) -> Option<()>
        ensures { IfSome result (λ _. self.new ≡ self.old ++ others.now) }
    {
        let owner_indices = self.owners.indices_of(self.alloc, &others.owners)?;
        let probe_indices = self.probes.indices_of(self.alloc, &others.probes)?;
        let shift = add_arguments(&mut self.args, &others.args)?;
        add_rows(
            &mut self.rows,
            &others.rows,
            &owner_indices,
            &probe_indices,
            shift,
        )
    }
}

// Adds a row, if there is memory for it.
fn push_row(rows: &mut Vec<Row>, row: Row) -> Option<()>
    ensures { MatchOption result (rows.new.items ≡ rows.old.items)
        (λ _. rows.new.items ≡ rows.old.items ++ row ∷ []) }
{
    rows.push(row).ok()
}

// Adds rows, with the indices of their owners and probes and the starts of their arguments changed
// to those among all.
fn add_rows(
    rows: &mut Vec<Row>,
    others: &[Row],
    owners: &[u32],
    probes: &[u32],
    shift: u32,
) -> Option<()>
    requires { All (IsMovable owners.now probes.now shift) others.now }
    ensures { MatchOption result (rows.new.items ≡ rows.old.items) (λ _. rows.new.items
        ≡ rows.old.items ++ map (moved_row_of owners.now probes.now shift) others.now) }
{
    rows.reserve(others.len()).ok()?;
    for row in others {
        rows.push_reserved(moved_row(row, owners, probes, shift));
    }
    Some(())
}

// One such row.
fn moved_row(row: &Row, owners: &[u32], probes: &[u32], shift: u32) -> Row
    requires { IsMovable owners.now probes.now shift row.now }
    ensures { result ≡ moved_row_of owners.now probes.now shift row.now }
{
    Row {
        owner: owners[row.owner as usize],
        probe: probes[row.probe as usize],
        first: row.first + shift,
        ..*row
    }
}
