//! An aggregation's slot in a table.

ghost use Rattle.std.specs.Prelude.{◌≡◌, ◌+◌, ◌<◌, ◌≤◌, ◌^◌, [], IfSome, IsNone};

use crate::entries::Entries;
use crate::function::AggFn;
use crate::partial::Partial;
use crate::word_key::{WordKey, key_in_room};
use d_values::Key;
use indexmap::IndexMap;
use keyed_hash::HashKey;
use std::alloc::{AllocError, Global};
use std::marker::Model;
use std::mem::replace;

/// One aggregation. Its entries have a map only once there is one: a script can have thousands of
/// aggregations in thousands of groups, most of them without an entry.
#[derive(Drop)]
pub(crate) struct Slot {
    function: AggFn,
    entries: Option<Box<Entries>>,
}

impl Model for Slot {
    ghost use Rattle.std.specs.Prelude.{◌≡◌, [], IfSome};
    ghost use Rattle.std.specs.Option.{option_map, unwrap_or};
    ghost use Rattle.aggregations.specs.Table.{Aggregation};

    ghost Value = { Aggregation };

    ghost view = { λ s. record {
      function = s.function;
      entries = unwrap_or (option_map (λ b. b.value.entries) s.entries) [];
    } };

    ghost invariant = { λ s. IfSome s.entries (λ b. b.value.function ≡ s.function) };
}

impl Slot {
    ghost use Rattle.aggregations.specs.{Table.count_of, Table.key_made};
    ghost use Rattle.aggregations.specs.Steps.Entries.{Adds, Merges};

    /// An aggregation without entries.
    pub(crate) fn new(function: AggFn) -> Slot
        ensures { result ≡ record { function = function; entries = [] } }
    {
        Slot {
            function,
            entries: None,
        }
    }

    pub(crate) fn function(&self) -> AggFn
        ensures { result ≡ self.now.function }
    {
        self.function
    }

    /// Takes one argument for the key, which is cloned only if it has no entry yet. A map that
    /// is made here hashes by this key.
    pub(crate) fn add(
        &mut self,
        alloc: Global,
        hash_key: HashKey,
        key: &Key,
        arg: i64,
    ) -> Result<(), AllocError>
        requires { count_of self.old < 2 ^ 52 }
        ensures { Adds self.old self.new key.now arg result }
    {
        match &mut self.entries {
            Some(entries) => entries.add(key, arg),
            None => {
                let mut entries = Entries::new(alloc, hash_key, self.function);
                if let Err(refused) = entries.add(key, arg) {
                    drop(entries);
                    return Err(refused);
                }
                let entries = Box::new(alloc, entries)?;
                drop(replace(&mut self.entries, Some(entries)));
                Ok(())
            }
        }
    }

    /// Takes one argument for the key that these words make. A map that is made here hashes by
    /// this key.
    #[inline(always)]
    pub(crate) fn add_words(
        &mut self,
        alloc: Global,
        hash_key: HashKey,
        made: WordKey<'_>,
        arg: i64,
    ) -> Result<(), AllocError>
        requires { count_of self.old < 2 ^ 52 }
        ensures { Adds self.old self.new (key_made made.entry) arg result }
    {
        if let Some(entries) = &mut self.entries {
            return entries.add_words(made, arg);
        }
        self.start(alloc, hash_key, made, arg)
    }

    // Takes the first argument, for the key that these words make.
    #[inline(never)]
    fn start(
        &mut self,
        alloc: Global,
        hash_key: HashKey,
        made: WordKey<'_>,
        arg: i64,
    ) -> Result<(), AllocError>
        requires { count_of self.old < 2 ^ 52 }
        ensures { Adds self.old self.new (key_made made.entry) arg result }
    {
        let key = key_in_room(alloc, Key::new(alloc), made)?;
        self.add(alloc, hash_key, &key, arg)
    }

    /// Takes the arguments of the other's entries too.
    pub(crate) fn merge(&mut self, other: Slot) -> Result<(), AllocError>
        requires function { self.old.function ≡ other.function }
        requires room { count_of self.old + count_of other ≤ 2 ^ 52 }
        ensures { Merges self.old other self.new result }
    {
        let Some(more) = other.entries else {
            return Ok(());
        };
        match &mut self.entries {
            Some(entries) => entries.merge(Box::into_inner(more)),
            None => {
                self.entries = Some(more);
                Ok(())
            }
        }
    }

    /// The map of the entries, if it was made.
    pub(crate) fn map(&self) -> Option<&IndexMap<Key, Partial, HashKey>>
        ensures some { IfSome result (λ m. m.now.entries ≡ self.now.entries) }
        ensures none { IsNone result → self.now.entries ≡ [] }
    {
        self.entries.as_ref().map(|entries| entries.map())
    }
}
