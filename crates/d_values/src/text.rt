//! Texts: byte strings that contracts see as lists of bytes.

ghost use Rattle.std.specs.Prelude.{◌≡◌, ◌↔◌, [], ◌∷◌, IfOk, IsTrue, refl};
ghost use Rattle.d_values.specs.{Outcomes.AllOrNothing};
ghost use Rattle.d_values.specs.Vocabulary.{ap, partial_equiv_from_equiv, po, as_partial_cmp};
ghost use Rattle.d_values.specs.Texts.{same_text, text_cmp, same_text_decides, same_text_equiv};
ghost use Rattle.d_values.specs.Texts.{text_cmp_total, text_cmp_ties, joined_text};

use keyed_hash::is_same;
use std::alloc::{AllocError, Global};
use std::cmp::Ordering;
use std::hash::{Hash, Hasher};
use std::marker::Model;

/// A byte string. Contracts see the list of its bytes: how it lies in memory isn't part of its
/// value.
#[derive(Drop, Debug)]
pub struct Text {
    bytes: Vec<u8>,
}

impl Model for Text {
    ghost use Rattle.std.specs.Prelude.{List, ℕ};

    ghost Value = { List ℕ };

    ghost view = { λ t. t.bytes.items };
}

impl Text {
    /// The empty text.
    ///
    /// ```text
    /// Text::new(alloc).as_bytes(); // b""
    /// ```
    pub fn new(alloc: Global) -> Text
        ensures { result ≡ [] }
    {
        Text {
            bytes: Vec::new(alloc),
        }
    }

    /// A copy of the bytes. Err if memory was refused.
    ///
    /// ```text
    /// Text::from_slice(alloc, b"cat")?.as_bytes(); // b"cat"
    /// ```
    pub fn from_slice(alloc: Global, bytes: &[u8]) -> Result<Text, AllocError>
        ensures { IfOk result (λ t. t ≡ bytes.now) }
    {
        let bytes = Vec::from_slice(alloc, bytes)?;
        Ok(Text { bytes })
    }

    /// Lends the bytes.
    ///
    /// ```text
    /// Text::from_slice(alloc, b"cat")?.as_bytes(); // b"cat"
    /// ```
    pub fn as_bytes(&self) -> &[u8]
        ensures { result.now ≡ self.now }
    {
        self.bytes.as_slice()
    }

    /// Gives the bytes back. Takes no memory.
    ///
    /// ```text
    /// Text::from_slice(alloc, b"cat")?.into_bytes(); // a vector of `cat`
    /// ```
    pub fn into_bytes(self) -> Vec<u8>
        ensures { result.items ≡ self }
    {
        let Text { bytes } = self;
        bytes
    }

    /// Takes these bytes in place of its own, reusing its room if they fit.
    ///
    /// ```text
    /// let mut text = Text::from_slice(alloc, b"cat")?;
    /// text.assign(b"ls")?;
    /// text.as_bytes(); // b"ls"
    /// ```
    pub fn assign(&mut self, bytes: &[u8]) -> Result<(), AllocError>
        ensures { AllOrNothing result self.old self.new (self.new ≡ bytes.now) }
    {
        if bytes.len() == self.bytes.len() {
            self.bytes.copy_from_slice(bytes);
            return Ok(());
        }
        let more = bytes.len().saturating_sub(self.bytes.len());
        self.bytes.reserve(more)?;
        self.bytes.clear();
        self.bytes.extend_from_slice(bytes)
    }
}

// How many bytes a text of the language has at most.
const MAX_TEXT: usize = 255;

/// Both texts joined, cut to the first 255 bytes.
///
/// ```text
/// join_text(alloc, b"sys", b"call")?; // the text "syscall"
/// ```
pub fn join_text(alloc: Global, a: &[u8], b: &[u8]) -> Result<Text, AllocError>
    ensures { IfOk result (λ t. t ≡ joined_text a.now b.now) }
{
    let first = &a[..a.len().min(MAX_TEXT)];
    let second = &b[..b.len().min(MAX_TEXT - first.len())];
    let mut text = Text::from_slice(alloc, first)?;
    text.bytes.extend_from_slice(second)?;
    Ok(text)
}

// Takes no memory.
impl From<Vec<u8>> for Text {
    ghost from_gives = { λ v t. t ≡ v.items };

    fn from(bytes: Vec<u8>) -> Text {
        Text { bytes }
    }
}

impl Clone for Text {
    ghost is_clone = { λ t u. u ≡ t };

    fn clone(&self) -> Result<Text, AllocError> {
        Text::from_slice(*self.bytes.allocator(), &self.bytes)
    }
}

impl PartialEq for Text {
    ghost eq = { same_text };

    ghost laws = { partial_equiv_from_equiv same_text_equiv };

    fn eq(&self, other: &Text) -> bool
        ensures value { result ≡ same_text self.now other.now }
        ensures meant { IsTrue result ↔ (self.now ≡ other.now) }
    {
        is_same(self.as_bytes(), other.as_bytes())
    }
}

impl Eq for Text {
    ghost laws = { same_text_equiv };
}

impl PartialOrd for Text {
    ghost partial_cmp = { as_partial_cmp text_cmp };

    ghost laws = { po text_cmp_total text_cmp_ties };

    fn partial_cmp(&self, other: &Text) -> Option<Ordering> {
        Some(self.cmp(other))
    }
}

impl Ord for Text {
    ghost cmp = { text_cmp };

    ghost total = { text_cmp_total };

    ghost matches_partial_cmp = { λ x y. refl };

    ghost matches_eq = { text_cmp_ties };

    fn cmp(&self, other: &Text) -> Ordering {
        self.as_bytes().cmp(other.as_bytes())
    }
}

impl Hash for Text {
    ghost hash_input = { λ t. t ∷ [] };

    ghost respects_eq = { λ x y same. ap (λ t. t ∷ []) ((same_text_decides x y).0 same) };

    fn hash<H: Hasher>(&self, state: &mut H) {
        state.write(&self.bytes);
    }
}
