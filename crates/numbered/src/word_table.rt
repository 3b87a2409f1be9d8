//! Tables of words.

ghost use Rattle.std.specs.Prelude.{◌≡◌, ◌==◌, [], ℕ, List, Some, true, not};
ghost use Rattle.indexmap.specs.IndexMap.{Updates};
ghost use Rattle.numbered.specs.Tables.{SetsWord, key_of, same_words, word_in};
ghost use Rattle.numbered.specs.Indices.{IsAt};

use crate::index_cache::IndexCache;
use crate::kept_key::KeptKey;
use crate::tuple::Tuple;
use crate::word::Word;
use indexmap::IndexMap;
use keyed_hash::{HashKey, mix};
use std::alloc::{AllocError, Global};
use std::hash::{BuildHasher, Hasher};
use std::marker::Model;

// At this number of entries those of 0 are left out for the first time.
const MIN_LIMIT: usize = 64;

type Map = IndexMap<KeptKey, u64, HashKey>;

/// A table to a word, 0 for a key that was never set. A key is two words and those of a tuple, of
/// which the kinds don't count.
#[derive(Drop)]
pub struct WordTable {
    map: Map,
    // Where entries were found.
    cache: IndexCache,
    secret: u64,
    // At this number of entries those of 0 are left out.
    limit: usize,
}

impl Model for WordTable {
    ghost use Rattle.numbered.specs.Tables.{Entries};

    ghost Value = { Entries };

    ghost view = { λ t. t.map.entries };
}

impl WordTable {
    /// A table in which each key has 0.
    ///
    /// ```text
    /// let mut table = WordTable::new(alloc, HashKey::random(&rt));
    /// table.get(0, 0, &Tuple::new(0)); // 0
    /// ```
    pub fn new(alloc: Global, hash_key: HashKey) -> WordTable
        ensures { result ≡ [] }
    {
        WordTable {
            map: IndexMap::with_hasher(alloc, hash_key),
            cache: IndexCache::new(alloc),
            secret: hash_key.build_hasher().finish(),
            limit: MIN_LIMIT,
        }
    }

    /// The word of a key. Takes no memory.
    ///
    /// ```text
    /// table.set(7, 1, &tuple, 5)?;
    /// table.get(7, 1, &tuple); // 5
    /// ```
    #[inline(always)]
    pub fn get(&mut self, first: u64, second: u64, tuple: &Tuple) -> u64
        ensures value { result ≡ word_in self.old (key_of first second tuple.now) }
        ensures same { self.new ≡ self.old }
    {
        let hash = self.hash(first, second, tuple);
        if let Some((key, word)) = self.map.get_index(self.cache.get(hash)) {
            if key.is(first, second, tuple) {
                return *word;
            }
        }
        self.get_by_hash(&KeptKey::of(first, second, tuple), hash)
    }

    // The word of a key that the cache doesn't have.
    #[cold]
    fn get_by_hash(&mut self, key: &KeptKey, hash: u64) -> u64
        ensures value { result ≡ word_in self.old key.now }
        ensures same { self.new ≡ self.old }
    {
        let Some((index, _, word)) = self.map.get_full(key) else {
            return 0;
        };
        let word = *word;
        self.cache.put(hash, index);
        word
    }

    /// Sets the word of a key.
    ///
    /// ```text
    /// table.set(7, 1, &tuple, 5)?;
    /// table.get(7, 1, &tuple); // 5
    /// ```
    #[inline(always)]
    pub fn set(
        &mut self,
        first: u64,
        second: u64,
        tuple: &Tuple,
        word: u64,
    ) -> Result<(), AllocError>
        ensures { SetsWord self.old (key_of first second tuple.now) word result self.new }
    {
        let hash = self.hash(first, second, tuple);
        let index = self.cache.get(hash);
        if is_at(&self.map, index, first, second, tuple) {
            put(&mut self.map, index, word);
            return Ok(());
        }
        self.set_by_hash(KeptKey::of(first, second, tuple), word, hash)
    }

    // Sets the word of a key that the cache doesn't have.
    #[cold]
    fn set_by_hash(&mut self, key: KeptKey, word: u64, hash: u64) -> Result<(), AllocError>
        ensures { SetsWord self.old key word result self.new }
    {
        make_room(&mut self.map, &mut self.limit);
        let (index, _) = self.map.insert_full(key, word)?;
        self.cache.put(hash, index);
        Ok(())
    }

    // A hash of a key. The tuple's hash comes first: a tuple of the first word alone has the same
    // product as that word, and the two would cancel.
    #[inline(always)]
    fn hash(&self, first: u64, second: u64, tuple: &Tuple) -> u64 {
        mix(mix(self.secret ^ tuple.hash(), first), second) >> 32
    }
}

// Whether the key's entry has this index.
#[inline(always)]
fn is_at(map: &Map, index: usize, first: u64, second: u64, tuple: &Tuple) -> bool
    ensures { result ≡ true
        → IsAt same_words map.now.entries index (key_of first second tuple.now) }
{
    match map.get_index(index) {
        Some((there, _)) => there.is(first, second, tuple),
        None => false,
    }
}

// Sets the word of the key whose entry is at this index.
#[inline(always)]
fn put(map: &mut Map, index: usize, word: u64)
    requires { (key : List ℕ) × IsAt same_words map.old.entries index key }
    ensures { (key : List ℕ) → IsAt same_words map.old.entries index key
        → Updates same_words map.old map.new key (Some word) }
{
    if let Some(place) = map.get_index_mut(index) {
        *place = word;
    }
}

// Leaves out the entries of 0 if the map has as many entries as the limit, which is then four times
// as many as are left.
fn make_room(map: &mut Map, limit: &mut usize)
    ensures { word_in map.new.entries ≡ word_in map.old.entries }
{
    if map.len() < *limit {
        return;
    }
    map.retain(
        |_key: &KeptKey, word: &mut u64| -> bool
            ensures { (result ≡ not (word.old == 0)) × (word.new ≡ word.old) }
        { *word != 0 },
    );
    *limit = map.len().saturating_mul(4).saturating_add(MIN_LIMIT);
}
