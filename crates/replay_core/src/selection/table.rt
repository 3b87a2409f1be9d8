//! The descriptions of a script's clauses, found by the names that they give.

ghost use Rattle.std.specs.Prelude.{◌≡◌, ◌++◌, ◌∷◌, [], true, IfOk, OnOk, List, Option, Some};
ghost use Rattle.std.specs.Prelude.{filter, map, slice_get};
ghost use Rattle.std.specs.Borrow.{Bor};
ghost use Rattle.d_parser.specs.declared.tree.Description.{Description};
ghost use Rattle.firings.specs.Stored.{Extends};
ghost use Rattle.replay_core.specs.Steps.Described.{HaveKinds, IsSameKind, IsTable, IsTableOf};
ghost use Rattle.replay_core.specs.Steps.Described.{given_of, hash_of_description};
ghost use Rattle.replay_core.specs.Steps.Described.{GiveSame, hash_of_probe, hash_sought, is_exact};
ghost use Rattle.replay_core.specs.Steps.Described.{is_found, is_given, where_given};
ghost use Rattle.replay_core.specs.Indices.{indices_for};
ghost use Rattle.replay_core.specs.Uniting.{InOrder, with_number};

use crate::selection::indices::merge;
use crate::selection::matching::{is_literal, is_selected};
use crate::sorting::{by_number, with_number};
use d_parser::Description;
use firings::Probe;
use keyed_hash::HashKey;
use std::alloc::{AllocError, Global};
use std::hash::{BuildHasher, Hasher};

/// A description, the index of its clause, and that of its kind.
#[derive(Drop)]
pub(crate) struct Described<'a> {
    clause: usize,
    kind: usize,
    description: &'a Description,
}

/// The descriptions of a script's clauses. Those without a pattern are found by the names that
/// they give.
#[derive(Drop)]
pub(crate) struct DescriptionTable<'a> {
    hash_key: HashKey,
    // Sorted by the hash of their names, which is 0 for those with a pattern.
    described: Vec<(u64, Described<'a>)>,
    // A description of each kind, which are those that give the same fields. Those with a pattern
    // are a kind of their own.
    kinds: Vec<Option<&'a Description>>,
}

impl<'a> DescriptionTable<'a> {
    /// A table of the descriptions of each clause.
    pub(crate) fn new(
        alloc: Global,
        hash_key: HashKey,
        descriptions: &[&'a [Description]],
    ) -> Result<DescriptionTable<'a>, AllocError>
        ensures { IfOk result (λ t. IsTableOf t (map (λ d. d.now) descriptions.now)) }
    {
        let mut table = DescriptionTable {
            hash_key,
            described: Vec::new(alloc),
            kinds: Vec::new(alloc),
        };
        for (clause, descriptions) in descriptions.iter().enumerate() {
            table.add_all(clause, descriptions)?;
        }
        table.sort()
    }

    // Adds the descriptions of a clause.
    fn add_all(&mut self, clause: usize, descriptions: &'a [Description]) -> Result<(), AllocError>
        ensures given { OnOk result (given_of self.new.described.items
            ≡ given_of self.old.described.items ++ map (λ d. (clause, d)) descriptions.now) }
        ensures kinds { OnOk result (HaveKinds self.old → HaveKinds self.new) }
    {
        for description in descriptions {
            self.add(clause, description)?;
        }
        Ok(())
    }

    fn add(&mut self, clause: usize, description: &'a Description) -> Result<(), AllocError>
        ensures given { OnOk result (given_of self.new.described.items
            ≡ given_of self.old.described.items ++ (clause, description.now) ∷ []) }
        ensures kinds { OnOk result (HaveKinds self.old → HaveKinds self.new) }
    {
        let mut own = None;
        let mut hash = 0;
        if is_exact(description) {
            own = Some(description);
            hash = hash_of_description(self.hash_key, description);
        }
        let kind = kind_of(&mut self.kinds, own)?;
        self.described.push((
            hash,
            Described {
                clause,
                kind,
                description,
            },
        ))?;
        Ok(())
    }

    // Sorts the table, once all descriptions are there.
    fn sort(self) -> Result<DescriptionTable<'a>, AllocError>
        ensures { HaveKinds self.entry
            → IfOk result (λ t. IsTable t (given_of self.entry.described.items)) }
    {
        let DescriptionTable {
            hash_key,
            described,
            kinds,
        } = self;
        let described = by_number(described)?;
        Ok(DescriptionTable {
            hash_key,
            described,
            kinds,
        })
    }

    /// The indices of the clauses that run for the probe: in the script's order, each once for each
    /// of its descriptions that selects it.
    pub(crate) fn clauses(&self, alloc: Global, probe: &Probe) -> Result<Vec<usize>, AllocError>
        ensures { (ds : List (List Description)) → IsTableOf self.now ds
            → IfOk result (λ v. v.items ≡ indices_for probe.now 0 ds) }
    {
        let mut clauses = Vec::new(alloc);
        for (kind, like) in self.kinds.iter().enumerate() {
            let hash = hash_sought(self.hash_key, *like, probe);
            let found = self.clauses_of_kind(alloc, kind, hash, probe)?;
            clauses = merge(alloc, clauses, found)?;
        }
        Ok(clauses)
    }

    // The indices of the clauses whose descriptions of a kind, with this hash, select the probe.
    fn clauses_of_kind(
        &self,
        alloc: Global,
        kind: usize,
        hash: u64,
        probe: &Probe,
    ) -> Result<Vec<usize>, AllocError>
        ensures { InOrder self.now.described.items → IfOk result (λ v. v.items
            ≡ map (λ x. x.1.clause) (filter (is_found kind probe.now)
            (with_number hash self.now.described.items))) }
    {
        let mut found = Vec::new(alloc);
        for (_, described) in with_number(&self.described, hash) {
            if described.kind == kind && is_selected(described.description, probe) {
                found.push(described.clause)?;
            }
        }
        Ok(found)
    }
}

// Whether no field of the description has a pattern.
fn is_exact(description: &Description) -> bool
    ensures { result ≡ is_exact description.now }
{
    is_literal(description.provider.as_slice())
        && is_literal(description.module.as_slice())
        && is_literal(description.function.as_slice())
        && is_literal(description.name.as_slice())
}

// The index of a kind, which is added if it isn't there.
fn kind_of<'a>(
    kinds: &mut Vec<Option<&'a Description>>,
    own: Option<&'a Description>,
) -> Result<usize, AllocError>
    ensures grows { OnOk result (Extends kinds.old.items kinds.new.items) }
    ensures kind { IfOk result (λ k. (kind : Option (Bor Description))
        × (slice_get kinds.new.items k ≡ Some kind) × IsSameKind kind own.entry) }
{
    if let Some(kind) = kinds.iter().position(|kind| is_same_kind(*kind, own)) {
        return Ok(kind);
    }
    let kind = kinds.len();
    kinds.push(own)?;
    Ok(kind)
}

fn is_same_kind(kind: Option<&Description>, own: Option<&Description>) -> bool
    ensures { result ≡ true → IsSameKind kind.entry own.entry }
{
    match (kind, own) {
        (None, None) => true,
        (Some(like), Some(description)) => give_same(like, description),
        (None, Some(_)) | (Some(_), None) => false,
    }
}

// Whether two descriptions give the same fields.
fn give_same(one: &Description, other: &Description) -> bool
    ensures { result ≡ true → GiveSame one.now other.now }
{
    give_both(one.provider.as_slice(), other.provider.as_slice())
        && give_both(one.module.as_slice(), other.module.as_slice())
        && give_both(one.function.as_slice(), other.function.as_slice())
        && give_both(one.name.as_slice(), other.name.as_slice())
}

// Whether both fields are given, or neither.
fn give_both(one: &[u8], other: &[u8]) -> bool
    ensures { result ≡ true → is_given one.now ≡ is_given other.now }
{
    one.is_empty() == other.is_empty()
}

// The hash of the names that a description gives.
fn hash_of_description(hash_key: HashKey, description: &Description) -> u64
    ensures { result ≡ hash_of_description hash_key description.now }
{
    let mut hasher = hash_key.build_hasher();
    hasher.write(description.provider.as_slice());
    hasher.write(description.module.as_slice());
    hasher.write(description.function.as_slice());
    hasher.write(description.name.as_slice());
    hasher.finish()
}

// The hash of the descriptions of a kind that select the probe.
fn hash_sought(hash_key: HashKey, kind: Option<&Description>, probe: &Probe) -> u64
    ensures { result ≡ hash_sought hash_key kind.entry probe.now }
{
    match kind {
        None => 0,
        Some(like) => hash_of_probe(hash_key, like, probe),
    }
}

// The hash of the probe's names in the fields that a description gives.
fn hash_of_probe(hash_key: HashKey, like: &Description, probe: &Probe) -> u64
    ensures { result ≡ hash_of_probe hash_key like.now probe.now }
{
    let mut hasher = hash_key.build_hasher();
    hasher.write(where_given(like.provider.as_slice(), probe.provider.as_bytes()));
    hasher.write(where_given(like.module.as_slice(), probe.probemod.as_bytes()));
    hasher.write(where_given(like.function.as_slice(), probe.probefunc.as_bytes()));
    hasher.write(where_given(like.name.as_slice(), probe.name.as_bytes()));
    hasher.finish()
}

// The name, if the field is given.
fn where_given<'a>(field: &[u8], name: &'a [u8]) -> &'a [u8]
    ensures { result.now ≡ where_given field.now name.now }
{
    if field.is_empty() { &[] } else { name }
}
