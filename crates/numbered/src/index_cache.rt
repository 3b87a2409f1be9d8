//! A cache of indices.

use std::alloc::Global;
use std::mem::replace;

// How many slots the first cache has.
const MIN_SLOTS: usize = 32;

// How many slots there are for each entry, at least, unless there are as many as there may be.
const SPREAD: usize = 4;

// How many slots there are at most: more would not stay in the processor's own memory.
const MAX_SLOTS: usize = 1 << 15;

// How many slots a hash leads to, one after the other.
const NEAR: usize = 4;

// An index, and the hash that it was put for. Without one both are 0.
#[derive(Clone, Copy)]
struct Slot {
    hash: u32,
    index: u32,
}

impl Slot {
    const EMPTY: Slot = Slot { hash: 0, index: 0 };

    #[inline(always)]
    fn is_of(self, hash: u64) -> bool {
        u64::from(self.hash) == hash
    }

    fn is_empty(self) -> bool {
        self.hash == 0 && self.index == 0
    }
}

/// A cache of the indices of entries by hashes of 32 bits, which grows with them. The caller checks
/// that the entry is the one that it seeks, so a cached index is never wrong.
///
/// ```text
/// let mut cache = IndexCache::new(alloc);
/// cache.put(7, 3);
/// cache.get(7); // 3, unless it was forgotten
/// ```
#[derive(Drop)]
pub struct IndexCache {
    slots: Vec<Slot>,
    // One less than there are slots: their number is a power of 2.
    mask: usize,
}

impl IndexCache {
    /// Without slots.
    pub fn new(alloc: Global) -> IndexCache {
        IndexCache {
            slots: Vec::new(alloc),
            mask: 0,
        }
    }

    // The index of the slot that is `step` after the first for a hash.
    #[inline(always)]
    fn near(&self, hash: u64, step: usize) -> usize {
        (hash as usize).wrapping_add(step) & self.mask
    }

    /// The index that was put for this hash, or 0.
    #[inline(always)]
    pub fn get(&self, hash: u64) -> usize {
        match self.slots.get(self.near(hash, 0)) {
            Some(there) if there.is_of(hash) => there.index as usize,
            _ => self.get_near(hash),
        }
    }

    // The index that a slot after the first has for this hash, or 0.
    #[cold]
    fn get_near(&self, hash: u64) -> usize {
        for step in 1..NEAR {
            if let Some(there) = self.slots.get(self.near(hash, step)) {
                if there.is_of(hash) {
                    return there.index as usize;
                }
            }
        }
        0
    }

    /// Puts an index for this hash.
    pub fn put(&mut self, hash: u64, index: usize) {
        if self.slots.len() / SPREAD <= index && self.slots.len() < MAX_SLOTS {
            self.grow();
        }
        let index = u32::try_from(index).unwrap_or(0);
        self.put_near(Slot {
            hash: (hash & 0xffff_ffff) as u32,
            index,
        });
    }

    // Puts a slot where there is room, or else first.
    fn put_near(&mut self, new: Slot) {
        let hash = u64::from(new.hash);
        let mut free = self.near(hash, 0);
        for step in 0..NEAR {
            let near = self.near(hash, step);
            if let Some(there) = self.slots.get(near) {
                if there.is_empty() || there.is_of(hash) {
                    free = near;
                    break;
                }
            }
        }
        if let Some(slot) = self.slots.get_mut(free) {
            *slot = new;
        }
    }

    // Has twice as many slots, unless memory is refused.
    fn grow(&mut self) {
        let alloc = *self.slots.allocator();
        let slots = self.slots.len().saturating_mul(2).max(MIN_SLOTS);
        if let Ok(slots) = vec![in alloc; Slot::EMPTY; slots] {
            self.mask = slots.len() - 1;
            let old = replace(&mut self.slots, slots);
            for there in old.as_slice() {
                self.put_near(*there);
            }
        }
    }
}
