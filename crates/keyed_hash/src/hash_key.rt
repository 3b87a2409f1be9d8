//! Hashers that begin at a secret state.

ghost use Rattle.std.specs.Prelude.{◌≡◌, ℕ, List};
ghost use Rattle.std.specs.Hash.FoldHasher.{folded_multiply};
ghost use Rattle.keyed_hash.specs.Hashing.{key_of, mix as mix_of};

use std::hash::{BuildHasher, FoldHasher, Hasher};
use std::random::RandomSource;

/// A hasher that takes eight bytes at a time, and marks the end of each `write` by fewer. Given
/// more at once, `FoldHasher` multiplies bytes with bytes, and a trace could choose a product of 0.
#[derive(Clone, Copy)]
pub struct KeyedHasher {
    state: FoldHasher,
}

impl Hasher for KeyedHasher {
    ghost use Rattle.keyed_hash.specs.Hashing.{after_bytes, hash_of};

    ghost write = { after_bytes };

    ghost finish = { hash_of };

    fn finish(&self) -> u64 {
        self.state.finish()
    }

    fn write(&mut self, bytes: &[u8]) {
        let words = bytes.len() / 8;
        for word in 0..words {
            self.state.write(&bytes[8 * word..8 * word + 8]);
        }
        self.state.write(&bytes[8 * words..]);
    }
}

/// What the hashes of a table's keys depend on beside the keys. A table finds the same whatever it
/// is.
#[derive(Clone, Copy)]
pub struct HashKey {
    initial: KeyedHasher,
}

impl HashKey {
    /// The key that a seed makes.
    ///
    /// ```text
    /// let hash_key = HashKey::of_seed(b"12345678");
    /// ```
    pub fn of_seed(seed: &[u8]) -> HashKey
        ensures { result ≡ key_of seed.now }
    {
        let mut initial = KeyedHasher {
            state: FoldHasher::default(),
        };
        initial.write(seed);
        HashKey { initial }
    }

    /// A key of eight bytes of the source. If the source fails, it may be the same in each run.
    ///
    /// ```text
    /// let hash_key = HashKey::random(&rt);
    /// let mut reader = Reader::new(alloc, hash_key, 4, 1 << 22)?;
    /// ```
    pub fn random(source: &impl RandomSource) -> HashKey
        ensures { (seed : List ℕ) × (result ≡ key_of seed) }
    {
        let mut seed = [0; 8];
        let _ = source.fill_bytes(&mut seed);
        HashKey::of_seed(&seed)
    }
}

impl BuildHasher for HashKey {
    type Hasher = KeyedHasher;

    ghost build_hasher = { λ key. key.initial };

    fn build_hasher(&self) -> KeyedHasher {
        self.initial
    }
}

// The product of two numbers, its upper half joined to its lower.
#[inline(always)]
fn folded_product(left: u64, right: u64) -> u64
    ensures { result ≡ folded_multiply left right }
{
    let product = left as u128 * right as u128;
    (product & 0xffff_ffff_ffff_ffff) as u64 ^ (product >> 64) as u64
}

/// A hash with one more word, for tables that hash by words and begin at a secret hash. The word is
/// joined to the hash before the product, so who doesn't know the hash can't choose a product of 0.
///
/// ```text
/// mix(mix(secret, 7), 1); // a hash of 7 and 1
/// ```
#[inline(always)]
pub fn mix(hash: u64, word: u64) -> u64
    ensures { result ≡ mix_of hash word }
{
    folded_product(hash ^ word, 0x9e37_79b9_7f4a_7c15)
}
