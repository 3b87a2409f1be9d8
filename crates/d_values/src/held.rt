//! What a thread-local variable holds.

ghost use Rattle.std.specs.Prelude.{◌≡◌, [], false, is_some, unwrap_or};
ghost use Rattle.indexmap.specs.IndexMap.{Updates, get};
ghost use Rattle.d_values.specs.{Outcomes.AllOrNothing, Vocabulary.lookup, Keys.same_key};
ghost use Rattle.d_values.specs.Stores.{blank, lent_value, value_to_keep};

use crate::key::Key;
use crate::value::{Kind, Value, ValueRef};
use indexmap::IndexMap;
use keyed_hash::HashKey;
use std::alloc::{AllocError, Global};

// What a variable holds under its keys. Zero and the empty text are not kept.
type Elements = IndexMap<Key, Value, HashKey>;

/// What a variable holds: as a scalar, and under its keys.
#[derive(Drop)]
pub struct Held {
    scalar: Option<Value>,
    elements: Elements,
    ghost keyed: { is_some (lookup (same_key []) elements.entries) ≡ false },
}

impl Held {
    ghost use Rattle.std.specs.Prelude.{List, MatchOption, None, Some, if◌then◌else◌};
    ghost use Rattle.d_values.specs.{Vocabulary.KeyPart, Tables.elements_of, Tables.with_scalar};

    /// What the variable holds without a key. Takes no memory.
    ///
    /// ```text
    /// // after `self->n = 5;`
    /// held.scalar(); // Some: the value 5
    /// ```
    pub fn scalar(&self) -> Option<&Value>
        ensures { MatchOption result (self.now.scalar ≡ None)
            (λ value. self.now.scalar ≡ Some value.now) }
    {
        self.scalar.as_ref()
    }

    /// What it holds under keys: none that is zero or the empty text. Takes no memory.
    ///
    /// ```text
    /// // after `self->times["cat"] = 5;`
    /// held.elements().len(); // 1
    /// ```
    pub fn elements(&self) -> &IndexMap<Key, Value, HashKey>
        ensures { elements_of self.now ≡ with_scalar self.now.scalar result.now.entries }
    {
        &self.elements
    }

    /// A variable that holds nothing.
    pub(crate) fn new(alloc: Global, hash_key: HashKey) -> Held
        ensures { elements_of result ≡ [] }
    {
        Held {
            scalar: None,
            elements: IndexMap::with_hasher(alloc, hash_key),
        }
    }

    /// Its value at the key, or else zero or the empty text.
    pub(crate) fn get(&self, key: &Key, kind: Kind) -> ValueRef<'_>
        ensures { lent_value result
            ≡ unwrap_or (lookup (same_key key.now) (elements_of self.now)) (blank kind) }
    {
        if !key.parts().is_empty() {
            return lend(&self.elements, key, kind);
        }
        match &self.scalar {
            Some(value) => value.as_ref(),
            None => ValueRef::blank(kind),
        }
    }

    /// Sets the key's value.
    pub(crate) fn set(&mut self, key: &Key, value: Value) -> Result<(), AllocError>
        ensures { AllOrNothing result (elements_of self.old) (elements_of self.new)
            ((k : List KeyPart) → lookup (same_key k) (elements_of self.new)
            ≡ (if same_key key.now k then value_to_keep value
            else lookup (same_key k) (elements_of self.old))) }
    {
        if key.parts().is_empty() {
            self.scalar = value.kept();
            return Ok(());
        }
        put(&mut self.elements, key, value)
    }

    /// Takes no more room than it needs.
    pub(crate) fn shrink_to_fit(&mut self)
        ensures { elements_of self.new ≡ elements_of self.old }
    {
        self.elements.shrink_to_fit();
    }
}

// The value at the key, or else zero or the empty text.
fn lend<'a>(elements: &'a Elements, key: &Key, kind: Kind) -> ValueRef<'a>
    ensures { lent_value result ≡ unwrap_or (get same_key elements.now key.now) (blank kind) }
{
    match elements.get(key) {
        Some(value) => value.as_ref(),
        None => ValueRef::blank(kind),
    }
}

// Sets the value at the key.
fn put(elements: &mut Elements, key: &Key, value: Value) -> Result<(), AllocError>
    ensures { AllOrNothing result elements.old.entries elements.new.entries
        (Updates same_key elements.old elements.new key.now (value_to_keep value)) }
{
    if value.is_blank() {
        elements.swap_remove(key);
        return Ok(());
    }
    let key = key.clone()?;
    elements.insert(key, value)?;
    Ok(())
}
