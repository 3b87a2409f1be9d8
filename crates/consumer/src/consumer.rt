//! What a run needs of its surroundings.

ghost use Rattle.std.specs.Prelude.{◌≡◌, []};
ghost use Rattle.keyed_hash.specs.Hashing.{key_of};

use keyed_hash::HashKey;
use std::alloc::Global;

/// Replays scripts over traces, with the threads of a runtime, and writes answers in a layout.
#[derive(Drop)]
pub struct Consumer<'a, R, L> {
    pub rt: &'a R,
    pub alloc: Global,
    pub layout: L,
    /// The key by which all maps of a run hash. No answer depends on it.
    pub hash_key: HashKey,
}

impl<'a, R, L> Consumer<'a, R, L> {
    /// A consumer whose maps hash by a fixed key: whoever writes a trace could choose keys that
    /// collide, and so make the run slow.
    ///
    /// ```text
    /// let consumer = Consumer::new(&rt, alloc, Report);
    /// let hash_key = HashKey::random(&rt); // for the traces of strangers
    /// let consumer = Consumer { hash_key, ..consumer };
    /// ```
    pub fn new(rt: &'a R, alloc: Global, layout: L) -> Consumer<'a, R, L>
        ensures layout { result.layout ≡ layout }
        ensures hash_key { result.hash_key ≡ key_of [] }
    {
        Consumer {
            rt,
            alloc,
            layout,
            hash_key: HashKey::of_seed(&[]),
        }
    }
}
