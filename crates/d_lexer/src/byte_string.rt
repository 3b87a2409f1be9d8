//! The bytes that a token carries.

ghost use Rattle.std.specs.Prelude.{◌≡◌, IfOk};

use std::alloc::{AllocError, Global};
use std::marker::Model;

/// Bytes of a script, owned: in contracts the list of the bytes, wherever they are in memory.
#[derive(Debug, Drop)]
pub struct ByteString {
    bytes: Vec<u8>,
}

impl Model for ByteString {
    ghost use Rattle.std.specs.Prelude.{ℕ, List};

    ghost Value = { List ℕ };

    ghost view = { λ s. s.bytes.items };
}

impl ByteString {
    /// A copy of the bytes.
    ///
    /// ```text
    /// let word = ByteString::from_slice(alloc, b"self")?;
    /// word.as_slice(); // `self`
    /// ```
    pub fn from_slice(alloc: Global, bytes: &[u8]) -> Result<Self, AllocError>
        ensures { IfOk result (λ s. s ≡ bytes.now) }
    {
        let bytes = bytes.to_vec(alloc)?;
        Ok(ByteString { bytes })
    }

    /// The bytes themselves.
    pub(crate) fn from_vec(bytes: Vec<u8>) -> Self
        ensures { result ≡ bytes.items }
    {
        ByteString { bytes }
    }

    /// Lends the bytes.
    ///
    /// ```text
    /// // of the token `"cat"`
    /// text.as_slice(); // b"cat"
    /// ```
    pub fn as_slice(&self) -> &[u8]
        ensures { result.now ≡ self.now }
    {
        &self.bytes
    }
}

impl Clone for ByteString {
    ghost is_clone = { λ s t. t ≡ s };

    fn clone(&self) -> Result<ByteString, AllocError> {
        ByteString::from_slice(*self.bytes.allocator(), &self.bytes)
    }
}
