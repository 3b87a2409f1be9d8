//! Which clauses run for each firing of a run: decided once for each probe, before any fires.

pub(crate) mod clause_indices;
pub(crate) mod clause_lists;
pub(crate) mod indices;
pub(crate) mod matching;
pub(crate) mod table;

ghost use Rattle.std.specs.Prelude.{◌≡◌, ◌≤◌, IfOk, List, OnOk, Some, [], get_or};
ghost use Rattle.std.specs.Prelude.{length, map, slice_get, sum_by, take};
ghost use Rattle.replay_core.specs.Vocabulary.{AllZip, ClauseMeant, Description};
ghost use Rattle.replay_core.specs.Vocabulary.{Extends, MAX_BYTES, MAX_TOGETHER, ScriptMeant};
ghost use Rattle.replay_core.specs.Vocabulary.{Slots, slots_of, with_ends};
ghost use Rattle.replay_core.specs.{Indices.indices_for};
ghost use Rattle.replay_core.specs.Steps.Described.{IsTableOf};
ghost use Rattle.replay_core.specs.{Patterns.probe_of};
ghost use Rattle.replay_core.specs.Selecting.{AreSelected, lent, selected_for};

use crate::lanes::clause::Clause;
use crate::selection::clause_indices::ClauseIndices;
use crate::selection::clause_lists::ClauseLists;
use crate::selection::table::DescriptionTable;
use d_parser::Description;
use firings::{Firing, MAX_TOGETHER, Probe, ProbeIndices, Text, Trace};
use keyed_hash::HashKey;
use std::alloc::{AllocError, Global};
use std::marker::Model;

/// Which clauses run for each firing of a run over a trace, if that was found before any fires.
/// Contracts see the indices of the clauses, firing by firing: of BEGIN, of each row, and of END.
/// They see none if nothing was found.
#[derive(Drop)]
pub struct Selections<'a> {
    found: Option<Found<'a>>,
}

impl<'a> Model for Selections<'a> {
    ghost use Rattle.std.specs.Prelude.{ℕ, List, [], unwrap_or};

    ghost Value = { List (List ℕ) };

    ghost view = { λ s. unwrap_or s.found [] };
}

impl<'a> Selections<'a> {
    /// None were found: a lane finds the clauses of each firing by itself.
    pub(crate) fn none() -> Selections<'a>
        ensures { result ≡ [] }
    {
        Selections { found: None }
    }

    // The selections that were found.
    fn of(found: Found<'a>) -> Selections<'a>
        ensures { result ≡ found.entry }
    {
        Selections { found: Some(found) }
    }

    /// The indices of the clauses that run for the firing of a run at an index, if they were found:
    /// BEGIN has index 0, the rows follow, and END is the last.
    pub fn at(&self, index: u32) -> Option<&ClauseIndices>
        ensures { lent result ≡ slice_get self.now index }
    {
        match &self.found {
            Some(found) => found.at(index),
            None => None,
        }
    }

    /// The indices of the clauses that run for the firings at these indices, in their order.
    pub(crate) fn lists(&self, indices: &[u32]) -> [Option<&ClauseIndices>; MAX_TOGETHER]
        requires { length indices.now ≤ MAX_TOGETHER }
        ensures { map lent (take (length indices.now) result)
            ≡ map (slice_get self.now) indices.now }
    {
        let mut lists = [None; MAX_TOGETHER];
        for (at, index) in indices.iter().enumerate() {
            lists[at] = self.at(*index);
        }
        lists
    }
}

// Which clauses run for each firing of a run over a trace.
#[derive(Drop)]
struct Found<'a> {
    // The probe of each row.
    firings: ProbeIndices<'a>,
    lists: ClauseLists,
    // The index of each probe's list.
    by_probe: Vec<usize>,
    begin: usize,
    end: usize,
}

impl<'a> Model for Found<'a> {
    ghost use Rattle.std.specs.Prelude.{ℕ, List, get_or, map};
    ghost use Rattle.replay_core.specs.Selecting.{selected_in};

    ghost Value = { List (List ℕ) };

    ghost view = { λ s. selected_in s.lists s.begin
        (map (λ p. get_or s.by_probe.items p 0) s.firings.indices) s.end };
}

impl<'a> Found<'a> {
    // The selections for clauses with these descriptions.
    fn new(
        alloc: Global,
        hash_key: HashKey,
        descriptions: &[&[Description]],
        trace: &'a Trace,
    ) -> Result<Found<'a>, AllocError>
        ensures { IfOk result (λ s.
            s ≡ map (λ f. indices_for (probe_of f) 0 (map (λ d. d.now) descriptions.now))
            (with_ends trace.now trace.now)) }
    {
        let firings = trace.firings().probe_indices();
        let table = DescriptionTable::new(alloc, hash_key, descriptions)?;
        let mut lists = ClauseLists::new(alloc, hash_key);
        let begin = list_for(alloc, &mut lists, &table, &trace.begin().into_probe())?;
        let end = list_for(alloc, &mut lists, &table, &trace.end().into_probe())?;
        let mut by_probe = Vec::new(alloc);
        for probe in 0..firings.probe_count() {
            by_probe.push(list_for(alloc, &mut lists, &table, &firings.probe(probe))?)?;
        }
        Ok(Found {
            firings,
            lists,
            by_probe,
            begin,
            end,
        })
    }

    // The indices of the clauses that run for the firing at an index, if there is one.
    fn at(&self, index: u32) -> Option<&ClauseIndices>
        ensures { lent result ≡ slice_get self.now index }
    {
        if index == 0 {
            return Some(self.lists.at(self.begin));
        }
        let row = index as usize - 1;
        if row < self.firings.len() {
            let list = list_of(&self.by_probe, self.firings.index_of(row));
            return Some(self.lists.at(list));
        }
        if row == self.firings.len() {
            return Some(self.lists.at(self.end));
        }
        None
    }
}

// The index of a probe's list.
fn list_of(by_probe: &[usize], probe: u32) -> usize
    ensures { result ≡ get_or by_probe.now probe 0 }
{
    match by_probe.get(probe as usize) {
        Some(list) => *list,
        None => 0,
    }
}

/// Which of these clauses run for each firing of a run over the trace.
pub(crate) fn select<'a, C: Clause>(
    alloc: Global,
    hash_key: HashKey,
    clauses: &[C],
    trace: &'a Trace,
) -> Result<Selections<'a>, AllocError>
    requires { sum_by C.probes clauses.now ≤ MAX_BYTES }
    ensures { IfOk result (AreSelected
        (λ m. AllZip (λ c. C.means c (slots_of m)) clauses.now m.clauses) trace.now) }
{
    let descriptions = descriptions(alloc, clauses)?;
    let found = Found::new(alloc, hash_key, &descriptions, trace)?;
    Ok(Selections::of(found))
}

/// The indices of those of these clauses that run for a firing.
pub(crate) fn clauses_for<C: Clause>(
    alloc: Global,
    hash_key: HashKey,
    clauses: &[C],
    firing: &Firing,
) -> Result<ClauseIndices, AllocError>
    ensures indices { IfOk result (λ indices. (m : ScriptMeant)
        → AllZip (λ c. C.means c (slots_of m)) clauses.now m.clauses
        → indices ≡ selected_for m firing.now) }
    ensures few { IfOk result (λ indices. length indices ≤ sum_by C.probes clauses.now) }
{
    let descriptions = descriptions(alloc, clauses)?;
    let table = DescriptionTable::new(alloc, hash_key, &descriptions)?;
    let indices = table.clauses(alloc, &probe_of(firing))?;
    ClauseIndices::of(alloc, &indices)
}

// The probe that fired.
fn probe_of<'a>(firing: &'a Firing) -> Probe<'a>
    ensures { result ≡ probe_of firing.now }
{
    Probe {
        provider: text_of(&firing.provider),
        probemod: text_of(&firing.probemod),
        probefunc: text_of(&firing.probefunc),
        name: text_of(&firing.name),
    }
}

// A text, borrowed from this one.
fn text_of<'a>(text: &'a Text) -> Text<'a>
    ensures { result ≡ text.now }
{
    match Text::from_bytes(text.as_bytes()) {
        Some(text) => text,
        None => unreachable!(),
    }
}

// The descriptions of each clause.
fn descriptions<'a, C: Clause>(
    alloc: Global,
    clauses: &'a [C],
) -> Result<Vec<&'a [Description]>, AllocError>
    ensures each { IfOk result (λ v. length v.items ≡ length clauses.now) }
    ensures probes { IfOk result (λ v.
        sum_by length (map (λ d. d.now) v.items) ≡ sum_by C.probes clauses.now) }
    ensures meaning { IfOk result (λ v. (slots : Slots) (cs : List ClauseMeant)
        → AllZip (λ c. C.means c slots) clauses.now cs
        → map (λ d. d.now) v.items ≡ map (λ c. c.descriptions) cs) }
{
    let mut all = Vec::new(alloc);
    for clause in clauses {
        all.push(clause.descriptions())?;
    }
    Ok(all)
}

// The index of the list for a probe.
fn list_for(
    alloc: Global,
    lists: &mut ClauseLists,
    table: &DescriptionTable,
    probe: &Probe,
) -> Result<usize, AllocError>
    ensures grows { OnOk result (Extends lists.old lists.new) }
    ensures index { (ds : List (List Description)) → IsTableOf table.now ds
        → IfOk result (λ p. slice_get lists.new p ≡ Some (indices_for probe.now 0 ds)) }
{
    let clauses = table.clauses(alloc, probe)?;
    lists.intern(ClauseIndices::of(alloc, &clauses)?)
}
