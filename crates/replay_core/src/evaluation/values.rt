//! Values, and what is lent of them.

ghost use Rattle.std.specs.Prelude.{◌≡◌, IfOk};
ghost use Rattle.d_types.specs.Storage as spec;
ghost use Rattle.replay_core.specs.Vocabulary.{lent_value, part_of};

use d_values::{KeyPart, Text, Value, ValueRef};
use std::alloc::{AllocError, Global};

/// The word of an integer, or 0.
pub(crate) fn word_in(value: &Value) -> u64
    ensures { result ≡ spec.word_of value.now }
{
    match value {
        Value::Int(word) => *word,
        Value::Text(_) => 0,
    }
}

/// Lends the bytes of a text, or none.
pub(crate) fn bytes_in(value: &Value) -> &[u8]
    ensures { result.now ≡ spec.bytes_of value.now }
{
    match value {
        Value::Int(_) => &[],
        Value::Text(text) => text.as_bytes(),
    }
}

/// The part of a key that a value makes.
pub(crate) fn part_of(value: Value) -> KeyPart
    ensures { result ≡ part_of value }
{
    match value {
        Value::Int(word) => KeyPart::Number(word.cast_signed()),
        Value::Text(text) => KeyPart::Name(text),
    }
}

/// A copy of a value that is lent.
pub(crate) fn owned_value(alloc: Global, value: ValueRef<'_>) -> Result<Value, AllocError>
    ensures { IfOk result (λ v. v ≡ lent_value value.entry) }
{
    match value {
        ValueRef::Int(word) => Ok(Value::Int(word)),
        ValueRef::Text(bytes) => {
            let text = Text::from_slice(alloc, bytes)?;
            Ok(Value::Text(text))
        }
    }
}
