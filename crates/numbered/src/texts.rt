//! Texts, each with a number.

ghost use Rattle.std.specs.Prelude.{◌≡◌, ◌≤◌, ◌+◌, [], ◌∷◌, IfOk, IfSome, length, take};
ghost use Rattle.d_values.specs.Stores.{lent_value};
ghost use Rattle.numbered.specs.Texts.{AreDistinct, IsNumberOf, Numbers, text_at};
ghost use Rattle.numbered.specs.Words.{value_of};

use crate::index_cache::IndexCache;
use crate::word::Word;
use d_values::{Text, ValueRef};
use indexmap::IndexSet;
use keyed_hash::{HashKey, is_same, mix, word_at};
use std::alloc::{AllocError, Global};
use std::hash::{BuildHasher, Hasher};
use std::marker::Model;

/// Texts in the order in which they were first met, each once. A text's number is its index, and
/// that of the empty text is 0.
#[derive(Drop)]
pub struct Texts {
    texts: IndexSet<Text, HashKey>,
    cache: IndexCache,
    secret: u64,
    // The text that was sought last, whose memory is used again.
    spare: Text,
}

impl Model for Texts {
    ghost use Rattle.std.specs.Prelude.{List, ℕ};
    ghost use Rattle.numbered.specs.Texts.{AreDistinct};

    ghost Value = { List (List ℕ) };

    ghost view = { λ t. t.texts.keys };

    ghost invariant = { λ t. AreDistinct t.texts.keys };
}

impl Texts {
    /// The empty text alone. Err if memory was refused.
    ///
    /// ```text
    /// let mut texts = Texts::new(alloc, HashKey::random(&rt))?;
    /// texts.number(b"")?; // 0
    /// texts.number(b"cat")?; // 1
    /// ```
    pub fn new(alloc: Global, hash_key: HashKey) -> Result<Texts, AllocError>
        ensures texts { IfOk result (λ texts. texts ≡ [] ∷ []) }
        ensures distinct { IfOk result AreDistinct }
    {
        let mut texts = Texts {
            texts: IndexSet::with_hasher(alloc, hash_key),
            cache: IndexCache::new(alloc),
            secret: hash_key.build_hasher().finish(),
            spare: Text::new(alloc),
        };
        texts.texts.insert(Text::new(alloc))?;
        Ok(texts)
    }

    /// The number of these bytes, which get one if they have none.
    ///
    /// ```text
    /// texts.number(b"cat")?; // 1, if no other text was met but the empty one
    /// ```
    #[inline(always)]
    pub fn number(&mut self, bytes: &[u8]) -> Result<u64, AllocError>
        ensures { Numbers self.old bytes.now result self.new }
    {
        let hash = hash(self.secret, bytes);
        let index = self.cache.get(hash);
        if let Some(text) = self.texts.get_index(index) {
            if is_same(text.as_bytes(), bytes) {
                return Ok(index as u64);
            }
        }
        self.number_by_hash(bytes, hash)
    }

    // The number of bytes that the cache doesn't have.
    #[cold]
    fn number_by_hash(&mut self, bytes: &[u8], hash: u64) -> Result<u64, AllocError>
        ensures { Numbers self.old bytes.now result self.new }
    {
        self.spare.assign(bytes)?;
        if let Some(index) = index_of(&self.texts, &self.spare) {
            self.cache.put(hash, index);
            return Ok(index as u64);
        }
        let text = Text::from_slice(*self.texts.allocator(), bytes)?;
        let (index, _) = self.texts.insert_full(text)?;
        self.cache.put(hash, index);
        Ok(index as u64)
    }

    /// How many texts have numbers.
    ///
    /// ```text
    /// texts.len() // 1, if no other text was met but the empty one
    /// ```
    #[inline(always)]
    pub fn len(&self) -> usize
        ensures { result ≡ length self.now }
    {
        self.texts.len()
    }

    /// Forgets the texts from this number on.
    ///
    /// ```text
    /// texts.truncate(1); // the empty text alone has a number
    /// ```
    pub fn truncate(&mut self, len: usize)
        ensures { self.new ≡ take len self.old }
    {
        self.texts.truncate(len);
    }

    /// The text of a number: the empty one if no text has it.
    ///
    /// ```text
    /// texts.text(1); // b"cat"
    /// ```
    pub fn text(&self, number: u64) -> &[u8]
        ensures { result.now ≡ text_at self.now number }
    {
        match self.texts.get_index(number as usize) {
            Some(text) => text.as_bytes(),
            None => &[],
        }
    }

    /// The value of a word, lent.
    ///
    /// ```text
    /// texts.lent(Word::Text(1)); // ValueRef::Text(b"cat")
    /// ```
    #[inline(always)]
    pub fn lent(&self, word: Word) -> ValueRef<'_>
        ensures { lent_value result ≡ value_of self.now word }
    {
        match word {
            Word::Int(n) => ValueRef::Int(n),
            Word::Text(number) => ValueRef::Text(self.text(number)),
        }
    }
}

// The index of a text that has one.
fn index_of(texts: &IndexSet<Text, HashKey>, text: &Text) -> Option<usize>
    ensures { IfSome result (λ index. IsNumberOf texts.now.keys index text.now) }
{
    let (index, _) = texts.get_full(text)?;
    Some(index)
}

// A hash of the first bytes and the last ones.
#[inline(always)]
fn hash(secret: u64, bytes: &[u8]) -> u64 {
    let len = bytes.len();
    let (first, last) = if len >= 8 {
        (word_at(bytes, 0), word_at(bytes, len - 8))
    } else if len >= 4 {
        (half_at(bytes, 0), half_at(bytes, len - 4))
    } else if len >= 1 {
        (
            u64::from(bytes[0]),
            u64::from(bytes[len / 2]) << 8 | u64::from(bytes[len - 1]),
        )
    } else {
        (0, 0)
    };
    mix(mix(secret ^ len as u64, first), last) >> 32
}

// Four bytes from an index on, as one number.
#[inline(always)]
fn half_at(bytes: &[u8], at: usize) -> u64
    requires { at + 4 ≤ length bytes.now }
{
    let half = &bytes[at..at + 4];
    u64::from(u32::from_le_bytes([half[0], half[1], half[2], half[3]]))
}
