//! Keys as words.

ghost use Rattle.std.specs.Prelude.{◌≡◌, ◌<◌, length, slice_set, IfOk, OnOk, IsTrue};
ghost use Rattle.d_values.specs.{Keys.part_of, Stores.lent_value};
ghost use Rattle.aggregations.specs.{Table.key_made};

use d_values::{Key, KeyPart, ValueRef};
use numbered::{Texts, Word};
use std::alloc::{AllocError, Global};

/// A key as words, with the texts whose numbers they are, and a hash of them.
#[derive(Clone, Copy)]
pub struct WordKey<'a> {
    /// The texts.
    pub texts: &'a Texts,
    /// The words, from left to right.
    pub words: &'a [Word],
    /// A hash, for a cache: any number will do.
    pub hash: u64,
}

/// Whether the words are of the key.
#[inline(always)]
pub(crate) fn is_key_of(key: &Key, made: WordKey<'_>) -> bool
    ensures { IsTrue result → key.now ≡ key_made made.entry }
{
    let parts = key.parts();
    if parts.len() != made.words.len() {
        return false;
    }
    for index in 0..parts.len() {
        if !parts[index].is_of(made.texts.lent(made.words[index])) {
            return false;
        }
    }
    true
}

/// The key of words, in the room of another if both have as many parts.
pub(crate) fn key_in_room(alloc: Global, spare: Key, made: WordKey<'_>) -> Result<Key, AllocError>
    ensures { IfOk result (λ key. key ≡ key_made made.entry) }
{
    let mut key = with_parts(alloc, spare, made.words.len())?;
    for index in 0..made.words.len() {
        set_part(&mut key, index, made.texts.lent(made.words[index]))?;
    }
    Ok(key)
}

// A key of this many parts, whatever they are: the one that is given, or else a new one.
fn with_parts(alloc: Global, key: Key, parts: usize) -> Result<Key, AllocError>
    ensures { IfOk result (λ k. length k ≡ parts) }
{
    if key.parts().len() == parts {
        return Ok(key);
    }
    let mut key = Key::new(alloc);
    for _ in 0..parts {
        key.push(KeyPart::Number(0))?;
    }
    Ok(key)
}

// Puts a value in the place of a key's part.
fn set_part(key: &mut Key, index: usize, value: ValueRef<'_>) -> Result<(), AllocError>
    requires { index < length key.old }
    ensures { OnOk result (key.new ≡ slice_set key.old index (part_of (lent_value value.entry))) }
{
    match value {
        ValueRef::Int(word) => {
            key.set_number(index, word.cast_signed());
            Ok(())
        }
        ValueRef::Text(bytes) => key.set_name(index, bytes),
    }
}
