//! Values of expressions.

ghost use Rattle.std.specs.Prelude.{◌≡◌};
ghost use Rattle.d_values.specs.Stores.{kind_of, is_blank, blank, lent_value, value_to_keep};

use crate::text::Text;
use std::alloc::AllocError;

/// Whether a value or a key's part is an integer or a text.
#[derive(Clone, Copy, Debug, PartialEq, Eq)]
pub enum Kind {
    /// An integer.
    Number,
    /// A text.
    Text,
}

/// The value of an expression.
#[derive(Drop, Debug, PartialEq, Eq)]
pub enum Value {
    /// The 64-bit extension of an integer of any type.
    Int(u64),
    /// A byte string.
    Text(Text),
}

impl Clone for Value {
    ghost is_clone = { λ v w. w ≡ v };

    fn clone(&self) -> Result<Value, AllocError> {
        match self {
            Value::Int(n) => Ok(Value::Int(*n)),
            Value::Text(text) => {
                let text = text.clone()?;
                Ok(Value::Text(text))
            }
        }
    }
}

impl Value {
    /// Whether it is an integer or a text.
    ///
    /// ```text
    /// Value::Int(5).kind(); // Kind::Number
    /// ```
    pub fn kind(&self) -> Kind
        ensures { result ≡ kind_of self.now }
    {
        match self {
            Value::Int(_) => Kind::Number,
            Value::Text(_) => Kind::Text,
        }
    }

    /// Whether it is zero or the empty text, as a variable is before it is assigned.
    ///
    /// ```text
    /// Value::Int(0).is_blank(); // true
    /// ```
    pub fn is_blank(&self) -> bool
        ensures { result ≡ is_blank self.now }
    {
        match self {
            Value::Int(n) => *n == 0,
            Value::Text(text) => text.as_bytes().is_empty(),
        }
    }

    /// The value, unless it is blank.
    pub(crate) fn kept(self) -> Option<Value>
        ensures { result ≡ value_to_keep self }
    {
        if self.is_blank() { None } else { Some(self) }
    }

    /// Lends it. Takes no memory.
    ///
    /// ```text
    /// Value::Int(5).as_ref(); // ValueRef::Int(5)
    /// ```
    pub fn as_ref(&self) -> ValueRef<'_>
        ensures { lent_value result ≡ self.now }
    {
        match self {
            Value::Int(n) => ValueRef::Int(*n),
            Value::Text(text) => ValueRef::Text(text.as_bytes()),
        }
    }
}

/// A value that a variable lends.
#[derive(Clone, Copy, Debug)]
pub enum ValueRef<'a> {
    /// The 64-bit extension of an integer of any type.
    Int(u64),
    /// The bytes of a text.
    Text(&'a [u8]),
}

impl ValueRef<'_> {
    /// Zero, or the empty text.
    ///
    /// ```text
    /// ValueRef::blank(Kind::Text); // ValueRef::Text(b"")
    /// ```
    pub fn blank(kind: Kind) -> ValueRef<'static>
        ensures { lent_value result ≡ blank kind }
    {
        match kind {
            Kind::Number => ValueRef::Int(0),
            Kind::Text => ValueRef::Text(&[]),
        }
    }
}
