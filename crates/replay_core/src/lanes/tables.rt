//! Variables in tables of values.

ghost use Rattle.std.specs.Prelude.{◌≡◌, None};
ghost use Rattle.indexmap.specs.IndexMap.{Updates};
ghost use Rattle.replay_core.specs.Threads.{own_in};
ghost use Rattle.replay_core.specs.Vocabulary.{int_eq, lookup, own_of};

use crate::lanes::store::Store;
use d_values::{ClauseLocals, ThreadTable};
use firings::Firing;
use indexmap::IndexMap;
use keyed_hash::HashKey;
use std::alloc::{AllocError, Global};
use std::mem::replace;

/// The tables in which trees find variables.
#[derive(Drop)]
pub struct Tables {
    /// What the clauses of the present firing share.
    pub(crate) locals: ClauseLocals,
    /// What its thread keeps.
    pub(crate) own: ThreadTable,
    // The number of that thread.
    thread: i32,
    // What the others keep.
    others: IndexMap<i32, ThreadTable, HashKey>,
}

impl Store for Tables {
    ghost use Rattle.std.specs.Prelude.{⊤};
    ghost use Rattle.replay_core.specs.Threads.{tables_seen};

    ghost seen = { tables_seen };

    ghost knows = { λ tables firing. ⊤ };

    fn new(alloc: Global, hash_key: HashKey) -> Result<Tables, AllocError> {
        Ok(Tables {
            locals: ClauseLocals::new(alloc),
            own: ThreadTable::with_hash_key(alloc, hash_key),
            thread: 0,
            others: IndexMap::with_hasher(alloc, hash_key),
        })
    }

    fn enter(&mut self, firing: &Firing) -> Result<(), AllocError> {
        self.locals.reset();
        let empty = ThreadTable::with_hash_key(*self.others.allocator(), *self.others.hasher());
        let last = replace(&mut self.own, empty);
        drop(self.others.insert(self.thread, last)?);
        self.own = take_own(&mut self.others, firing.thread);
        self.thread = firing.thread;
        Ok(())
    }
}

// Takes out what a thread keeps.
fn take_own(others: &mut IndexMap<i32, ThreadTable, HashKey>, thread: i32) -> ThreadTable
    ensures own { own_of result ≡ own_in (lookup (int_eq thread) others.old.entries) }
    ensures others { Updates int_eq others.old others.new thread None }
{
    match others.swap_remove(&thread) {
        Some(own) => own,
        None => ThreadTable::with_hash_key(*others.allocator(), *others.hasher()),
    }
}
