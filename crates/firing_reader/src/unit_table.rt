//! What rows share, each kept once with the bytes that it was read from, and found by these.

ghost use Rattle.std.specs.Prelude.{◌≡◌, ◌<◌, ◌++◌, ◌∷◌, [], true, ℕ, List, IfOk, IfSome};
ghost use Rattle.std.specs.Prelude.{MatchOption, Some, length, slice_get, vec_capacity, vec_len};
ghost use Rattle.firings.specs.Stored.{AreIndices};
ghost use Rattle.firing_reader.specs.Steps.Stored.{Gains, IsUnitOf};

use crate::slots::{NEAR, NOWHERE, Slots};
use firings::{Entry, Known, Units};
use keyed_hash::{HashKey, is_same};
use std::alloc::{AllocError, Global};
use std::marker::Model;

// How many units are looked for together, so that the processor waits for all of them at once.
const TOGETHER: usize = 16;

/// Units that are found by their bytes. Contracts see the list of their bytes and entries.
#[derive(Drop)]
pub(crate) struct UnitTable<E: PlainEntry> {
    bytes: Vec<u8>,
    known: Vec<Known<E>>,
    slots: Slots,
}

impl<E: PlainEntry> Model for UnitTable<E> {
    ghost use Rattle.std.specs.Prelude.{All, List, ℕ, map};
    ghost use Rattle.firings.specs.Units.{unit_in};
    ghost use Rattle.firing_reader.specs.UnitTable.{IsReadIn};

    ghost Value = { List (List ℕ × E) };

    ghost view = { λ u. map (unit_in u.bytes.items) u.known.items };

    ghost invariant = { λ u. All (IsReadIn E.is_in E.reads u.bytes.items) u.known.items };
}

/// An entry that plain fields write.
pub(crate) trait PlainEntry: Entry {
    // Plain fields write it.
    ghost reads: { Self → List ℕ → Type 0 };

    /// Whether it is this one.
    fn is(self, other: Self) -> bool
        ensures { result ≡ true → self ≡ other };

    /// The entry that plain fields write, if they are those of one.
    fn read(key: &[u8]) -> Option<Self>
        ensures inside { IfSome result (λ e. Self.is_in e key.now) }
        ensures reads { IfSome result (λ e. reads e key.now) };
}

/// Adds bytes, if there is memory for them.
pub(crate) fn add_bytes(all: &mut Vec<u8>, bytes: &[u8]) -> Option<()>
    ensures { MatchOption result (all.new.items ≡ all.old.items)
        (λ _. all.new.items ≡ all.old.items ++ bytes.now) }
{
    all.extend_from_slice(bytes).ok()
}

// Makes room for one more, if there is memory for it.
fn make_room<T>(all: &mut Vec<T>) -> Option<()>
    ensures same { all.new.items ≡ all.old.items }
    ensures room { IfSome result (λ _. vec_len all.new < vec_capacity all.new) }
{
    all.reserve(1).ok()
}

impl<E: PlainEntry> UnitTable<E> {
    pub(crate) fn new(alloc: Global, hash_key: HashKey) -> Result<UnitTable<E>, AllocError>
        ensures { IfOk result (λ units. units ≡ []) }
    {
        let slots = Slots::new(alloc, hash_key)?;
        Ok(UnitTable {
            bytes: Vec::new(alloc),
            known: Vec::new(alloc),
            slots,
        })
    }

    /// How many there are.
    pub(crate) fn len(&self) -> usize
        ensures { result ≡ length self.now }
    {
        self.known.len()
    }

    /// Forgets all of them.
    pub(crate) fn clear(&mut self)
        ensures { self.new ≡ [] }
    {
        self.slots.clear();
        self.known.clear();
        self.bytes.clear();
    }

    /// These units, which are no longer looked for.
    pub(crate) fn into_units(self) -> Units<E>
        ensures { result ≡ self }
    {
        let UnitTable {
            bytes,
            known,
            slots,
        } = self;
        drop(slots);
        Units::of(bytes, known)
    }

    // The unit at an index: its bytes, whether they are plain fields, and its entry.
    #[inline(always)]
    fn at(&self, index: usize) -> (&[u8], bool, E)
        requires { index < length self.now }
        ensures there { slice_get self.now index ≡ Some (result.0.now, result.2) }
        ensures inside { E.is_in result.2 result.0.now }
        ensures reads { result.1 ≡ true → E.reads result.2 result.0.now }
    {
        let known = self.known[index];
        let begin = known.begin as usize;
        let bytes = &self.bytes[begin..begin + known.count as usize];
        (bytes, known.plain, known.entry)
    }

    // Whether the unit at an index has these bytes, as plain fields or not.
    #[inline(always)]
    fn is_at(&self, index: u32, key: &[u8], plain: bool) -> bool
        ensures { result ≡ true → IsUnitOf E.reads self.now key.now plain index }
    {
        let index = index as usize;
        if index >= self.len() {
            return false;
        }
        let (bytes, is_plain, _) = self.at(index);
        is_plain == plain && is_same(bytes, key)
    }

    // The index of the unit of these bytes and this hash, if it is found.
    #[inline(always)]
    fn find(&self, key: &[u8], plain: bool, hash: u32) -> Option<u32>
        ensures { IfSome result (IsUnitOf E.reads self.now key.now plain) }
    {
        for n in 0..NEAR {
            let slot = self.slots.near(hash, n);
            if slot.is_of(hash) && self.is_at(slot.index, key, plain) {
                return Some(slot.index);
            }
            if slot.is_empty() {
                return None;
            }
        }
        None
    }

    // Keeps a unit at a new index. If memory is refused, nothing is kept.
    fn push(&mut self, key: &[u8], plain: bool, hash: u32, entry: E) -> Option<u32>
        requires inside { E.is_in entry key.now }
        requires reads { plain ≡ true → E.reads entry key.now }
        ensures { MatchOption result (self.new ≡ self.old)
            (λ p. (self.new ≡ self.old ++ (key.now, entry) ∷ []) × (p ≡ length self.old)) }
    {
        let index = u32::try_from(self.len()).ok()?;
        let begin = u32::try_from(self.bytes.len()).ok()?;
        let count = u32::try_from(key.len()).ok()?;
        make_room(&mut self.known)?;
        add_bytes(&mut self.bytes, key)?;
        self.known.push_reserved(Known {
            hash,
            begin,
            count,
            plain,
            entry,
        });
        self.slots.note(hash, index);
        Some(index)
    }

    /// The index of the unit that these plain fields write, which is kept if it isn't found.
    #[inline(always)]
    pub(crate) fn read(&mut self, key: &[u8]) -> Option<u32>
        ensures { Gains self.old self.new result (IsUnitOf E.reads self.new key.now true) }
    {
        let hash = self.slots.hash(key);
        match self.find(key, true, hash) {
            Some(index) => Some(index),
            None => self.add(key, hash),
        }
    }

    // Keeps the unit that plain fields write.
    #[cold]
    #[inline(never)]
    fn add(&mut self, key: &[u8], hash: u32) -> Option<u32>
        ensures { Gains self.old self.new result (IsUnitOf E.reads self.new key.now true) }
    {
        let entry = E::read(key)?;
        self.push(key, true, hash, entry)
    }

    /// The index of a unit that csv read, which is kept if it isn't found. Its bytes have to
    /// tell it from others.
    pub(crate) fn intern(&mut self, key: &[u8], entry: E) -> Option<u32>
        requires { E.is_in entry key.now }
        ensures { Gains self.old self.new result
            (λ p. slice_get self.new p ≡ Some (key.now, entry)) }
    {
        let hash = self.slots.hash(key);
        match self.find(key, false, hash) {
            Some(index) if self.is_of(index, entry) => Some(index),
            _ => self.push(key, false, hash, entry),
        }
    }

    // Whether the unit at an index has this entry.
    fn is_of(&self, index: u32, entry: E) -> bool
        requires { index < length self.now }
        ensures { result ≡ true → (bytes : List ℕ)
            × (slice_get self.now index ≡ Some (bytes, entry)) }
    {
        let (_, _, kept) = self.at(index as usize);
        kept.is(entry)
    }

    // The first slot of each of 16 others, from this one on: where it may be.
    fn first_indices(&self, others: &UnitTable<E>, from: usize) -> [u32; TOGETHER] {
        let mut indices = [NOWHERE; TOGETHER];
        for n in 0..TOGETHER {
            if let Some(other) = others.known.get(from.wrapping_add(n)) {
                indices[n] = self.slots.near(other.hash, 0).index;
            }
        }
        indices
    }

    // Where 16 of the others, from this one on, may be among these. These are guesses, to be
    // checked. Each step is taken for all 16 before the next.
    fn guesses(&self, others: &UnitTable<E>, from: usize) -> [u32; TOGETHER] {
        let mut guesses = self.first_indices(others, from);
        for n in 0..TOGETHER {
            if !self.begins_alike(guesses[n], others, from.wrapping_add(n)) {
                guesses[n] = NOWHERE;
            }
        }
        guesses
    }

    // Whether a unit has as many bytes as one of the others, and the same first byte.
    fn begins_alike(&self, index: u32, others: &UnitTable<E>, at: usize) -> bool {
        match (self.known.get(index as usize), others.known.get(at)) {
            (Some(known), Some(other)) => {
                known.count == other.count
                    && self.bytes.get(known.begin as usize)
                        == others.bytes.get(other.begin as usize)
            }
            _ => false,
        }
    }

    // The index of a unit of others, which is kept if it isn't found. It is looked for at a
    // guess first.
    fn index_of_other(&mut self, others: &UnitTable<E>, at: usize, guess: u32) -> Option<u32>
        requires { at < length others.now }
        ensures { Gains self.old self.new result
            (λ p. slice_get self.new p ≡ slice_get others.now at) }
    {
        let (key, plain, entry) = others.at(at);
        let hash = others.known[at].hash;
        let found = if self.is_at(guess, key, plain) {
            Some(guess)
        } else {
            self.find(key, plain, hash)
        };
        match found {
            Some(index) if self.is_of(index, entry) => Some(index),
            _ => self.push(key, plain, hash, entry),
        }
    }

    /// The indices of others, which are kept if they aren't found.
    pub(crate) fn indices_of(&mut self, alloc: Global, others: &UnitTable<E>) -> Option<Vec<u32>>
        ensures { Gains self.old self.new result
            (λ indices. AreIndices self.new indices.items others.now) }
    {
        let mut indices = Vec::new(alloc);
        let mut guesses = [NOWHERE; TOGETHER];
        for at in 0..others.len() {
            if at % TOGETHER == 0 {
                guesses = self.guesses(others, at);
            }
            let index = self.index_of_other(others, at, guesses[at % TOGETHER])?;
            indices.push(index).ok()?;
        }
        Some(indices)
    }
}
