//! Where to look for a thing that was kept, by its hash.

use keyed_hash::{HashKey, mix, word_at};
use std::alloc::{AllocError, Global};
use std::hash::{BuildHasher, Hasher};

// How many slots there are at first.
const MIN_SLOTS: usize = 2048;

/// How many slots are looked at for one hash.
pub(crate) const NEAR: usize = 8;

/// No index.
pub(crate) const NOWHERE: u32 = u32::MAX;

/// The index of a thing, and the upper half of its hash.
#[derive(Clone, Copy)]
pub(crate) struct Slot {
    hash: u32,
    pub(crate) index: u32,
}

impl Slot {
    const EMPTY: Slot = Slot {
        hash: 0,
        index: NOWHERE,
    };

    pub(crate) fn is_empty(self) -> bool {
        self.index == NOWHERE
    }

    pub(crate) fn is_of(self, hash: u32) -> bool {
        self.hash == hash
    }
}

/// The indices of things by their hashes, which begin at a secret state. Whoever looks asks whether
/// the thing is there, and keeps one that isn't found: only time and memory depend on what is
/// found.
#[derive(Drop)]
pub(crate) struct Slots {
    alloc: Global,
    secret: u64,
    slots: Vec<Slot>,
    used: usize,
}

impl Slots {
    pub(crate) fn new(alloc: Global, hash_key: HashKey) -> Result<Slots, AllocError> {
        let slots = vec![in alloc; Slot::EMPTY; MIN_SLOTS]?;
        Ok(Slots {
            alloc,
            secret: hash_key.build_hasher().finish(),
            slots,
            used: 0,
        })
    }

    /// The hash of bytes. The last eight may overlap those before, so how many there are is hashed
    /// too.
    #[inline(always)]
    pub(crate) fn hash(&self, key: &[u8]) -> u32 {
        if key.len() < 8 {
            return self.short_hash(key);
        }
        let mut hash = self.secret;
        for word in 0..key.len() / 8 {
            hash = mix(hash, word_at(key, 8 * word));
        }
        hash = mix(hash, word_at(key, key.len() - 8));
        (mix(hash, key.len() as u64) >> 32) as u32
    }

    // The hash of fewer bytes than a word has.
    fn short_hash(&self, key: &[u8]) -> u32 {
        let mut hash = self.secret;
        for b in key {
            hash = mix(hash, u64::from(*b));
        }
        (hash >> 32) as u32
    }

    /// The slot that is `n` after the first for a hash.
    #[inline(always)]
    pub(crate) fn near(&self, hash: u32, n: usize) -> Slot {
        let at = (hash as usize).wrapping_add(n) & self.slots.len().wrapping_sub(1);
        *self.slots.get(at).unwrap_or(&Slot::EMPTY)
    }

    /// Notes a new index, or returns None if memory is refused. If no slot near its first is
    /// free, it won't be found.
    pub(crate) fn note(&mut self, hash: u32, index: u32) -> Option<()> {
        if self.used > self.slots.len() / 4 {
            self.grow()?;
        }
        put(&mut self.slots, Slot { hash, index });
        self.used = self.used.wrapping_add(1);
        Some(())
    }

    /// Forgets all indices, and keeps the slots.
    pub(crate) fn clear(&mut self) {
        self.slots.fill(Slot::EMPTY);
        self.used = 0;
    }

    // Doubles the number of slots.
    #[cold]
    #[inline(never)]
    fn grow(&mut self) -> Option<()> {
        let more = 2 * self.slots.len();
        let mut slots = vec![in self.alloc; Slot::EMPTY; more].ok()?;
        for slot in &self.slots {
            if !slot.is_empty() {
                put(&mut slots, *slot);
            }
        }
        self.slots = slots;
        Some(())
    }
}

// Puts a slot at the first free place of those for its hash.
fn put(slots: &mut [Slot], slot: Slot) {
    for n in 0..NEAR {
        let at = (slot.hash as usize).wrapping_add(n) & slots.len().wrapping_sub(1);
        if at < slots.len() && slots[at].is_empty() {
            slots[at] = slot;
            return;
        }
    }
}
