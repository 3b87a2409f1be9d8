//! Keys of aggregations and of variables.

ghost use Rattle.std.specs.Prelude.{◌≡◌, ◌↔◌, ◌<◌, ◌++◌, ◌∷◌, [], length, IsTrue};
ghost use Rattle.std.specs.Prelude.{slice_set, refl};
ghost use Rattle.d_values.specs.Vocabulary.{ap, partial_equiv_from_equiv, po, flat_map};
ghost use Rattle.d_values.specs.Vocabulary.{as_partial_cmp};
ghost use Rattle.d_values.specs.Keys.{part_cmp, part_of, key_cmp, same_part, same_key};
ghost use Rattle.d_values.specs.Keys.{DecidesByFirstDifference, part_writes};
ghost use Rattle.d_values.specs.{Outcomes.AllOrNothing, Stores.lent_value};
ghost use Rattle.d_values.specs.KeyLaws.{same_part_decides, same_part_equiv, part_cmp_total};
ghost use Rattle.d_values.specs.KeyLaws.{part_cmp_ties, same_key_decides, same_key_equiv};
ghost use Rattle.d_values.specs.KeyLaws.{key_cmp_total, key_cmp_ties};

use crate::text::Text;
use crate::value::ValueRef;
use keyed_hash::is_same;
use std::alloc::{AllocError, Global};
use std::cmp::Ordering;
use std::hash::{Hash, Hasher};
use std::marker::Model;

/// One part of a key. Integers are kept as signed 64-bit numbers.
#[derive(Drop, Debug)]
pub enum KeyPart {
    /// An integer.
    Number(i64),
    /// A text.
    Name(Text),
}

impl KeyPart {
    /// Whether this is the part that a value makes.
    ///
    /// ```text
    /// KeyPart::Number(7).is_of(ValueRef::Int(7)); // true
    /// ```
    pub fn is_of(&self, value: ValueRef<'_>) -> bool
        ensures { IsTrue result ↔ (self.now ≡ part_of (lent_value value.entry)) }
    {
        match value {
            ValueRef::Int(word) => match self {
                KeyPart::Number(number) => *number == word.cast_signed(),
                KeyPart::Name(_) => false,
            },
            ValueRef::Text(bytes) => match self {
                KeyPart::Number(_) => false,
                KeyPart::Name(text) => is_same(text.as_bytes(), bytes),
            },
        }
    }

    // Becomes this text, reusing the room of its old text.
    fn set_name(&mut self, alloc: Global, bytes: &[u8]) -> Result<(), AllocError>
        ensures { AllOrNothing result self.old self.new (self.new ≡ KeyPart.Name bytes.now) }
    {
        match self {
            KeyPart::Number(_) => {
                let text = Text::from_slice(alloc, bytes)?;
                *self = KeyPart::Name(text);
                Ok(())
            }
            KeyPart::Name(text) => text.assign(bytes),
        }
    }
}

impl Clone for KeyPart {
    ghost is_clone = { λ x y. y ≡ x };

    fn clone(&self) -> Result<KeyPart, AllocError> {
        match self {
            KeyPart::Number(n) => Ok(KeyPart::Number(*n)),
            KeyPart::Name(text) => {
                let text = text.clone()?;
                Ok(KeyPart::Name(text))
            }
        }
    }
}

impl PartialEq for KeyPart {
    ghost eq = { same_part };

    ghost laws = { partial_equiv_from_equiv same_part_equiv };

    fn eq(&self, other: &KeyPart) -> bool {
        match self {
            KeyPart::Number(x) => match other {
                KeyPart::Number(y) => x == y,
                KeyPart::Name(_) => false,
            },
            KeyPart::Name(x) => match other {
                KeyPart::Number(_) => false,
                KeyPart::Name(y) => x == y,
            },
        }
    }
}

impl Eq for KeyPart {
    ghost laws = { same_part_equiv };
}

impl PartialOrd for KeyPart {
    ghost partial_cmp = { as_partial_cmp part_cmp };

    ghost laws = { po part_cmp_total part_cmp_ties };

    fn partial_cmp(&self, other: &KeyPart) -> Option<Ordering> {
        Some(self.cmp(other))
    }
}

impl Ord for KeyPart {
    ghost cmp = { part_cmp };

    ghost total = { part_cmp_total };

    ghost matches_partial_cmp = { λ x y. refl };

    ghost matches_eq = { part_cmp_ties };

    fn cmp(&self, other: &KeyPart) -> Ordering {
        match self {
            KeyPart::Number(x) => match other {
                KeyPart::Number(y) => x.cmp(y),
                KeyPart::Name(_) => Ordering::Less,
            },
            KeyPart::Name(x) => match other {
                KeyPart::Number(_) => Ordering::Greater,
                KeyPart::Name(y) => x.cmp(y),
            },
        }
    }
}

impl Hash for KeyPart {
    ghost hash_input = { part_writes };

    ghost respects_eq = { λ x y same. ap part_writes ((same_part_decides x y).0 same) };

    fn hash<H: Hasher>(&self, state: &mut H) {
        match self {
            KeyPart::Number(n) => n.hash(state),
            KeyPart::Name(text) => text.hash(state),
        }
    }
}

/// The key of an entry: its parts from left to right. Contracts see the list of its parts, so equal
/// keys are `≡`.
#[derive(Drop, Debug)]
pub struct Key {
    parts: Vec<KeyPart>,
}

impl Model for Key {
    ghost use Rattle.d_values.specs.Vocabulary.{KeyPart, List};

    ghost Value = { List KeyPart };

    ghost view = { λ k. k.parts.items };
}

impl Key {
    /// The key of no parts, which a scalar has.
    ///
    /// ```text
    /// let mut key = Key::new(alloc);
    /// key.push(KeyPart::Number(7))?;
    /// key.parts(); // [KeyPart::Number(7)]
    /// ```
    pub fn new(alloc: Global) -> Key
        ensures { result ≡ [] }
    {
        Key {
            parts: Vec::new(alloc),
        }
    }

    /// The parts, from left to right.
    ///
    /// ```text
    /// let mut key = Key::new(alloc);
    /// key.push(KeyPart::Number(7))?;
    /// key.parts(); // [KeyPart::Number(7)]
    /// ```
    pub fn parts(&self) -> &[KeyPart]
        ensures { result.now ≡ self.now }
    {
        self.parts.as_slice()
    }

    /// Adds a part at the right. If memory was refused, the key stays as it was.
    ///
    /// ```text
    /// let mut key = Key::new(alloc);
    /// key.push(KeyPart::Number(7))?;
    /// key.push(KeyPart::Name(Text::from_slice(alloc, b"cat")?))?;
    /// key.parts(); // the number 7 and the text `cat`
    /// ```
    pub fn push(&mut self, part: KeyPart) -> Result<(), AllocError>
        ensures { AllOrNothing result self.old self.new (self.new ≡ self.old ++ part ∷ []) }
    {
        self.parts.push(part)?;
        Ok(())
    }

    /// Puts an integer in the place of a part.
    ///
    /// ```text
    /// // of a key with one part
    /// key.set_number(0, 8);
    /// key.parts(); // [KeyPart::Number(8)]
    /// ```
    pub fn set_number(&mut self, index: usize, number: i64)
        requires { index < length self.old }
        ensures { self.new ≡ slice_set self.old index (KeyPart.Number number) }
    {
        self.parts[index] = KeyPart::Number(number);
    }

    /// Puts a text in the place of a part, in the room of the text that was there.
    ///
    /// ```text
    /// // of a key with one part
    /// key.set_name(0, b"cat")?;
    /// key.parts(); // the text `cat`
    /// ```
    pub fn set_name(&mut self, index: usize, bytes: &[u8]) -> Result<(), AllocError>
        requires { index < length self.old }
        ensures { AllOrNothing result self.old self.new
            (self.new ≡ slice_set self.old index (KeyPart.Name bytes.now)) }
    {
        let alloc = *self.parts.allocator();
        self.parts[index].set_name(alloc, bytes)
    }
}

// Takes no memory.
impl From<Vec<KeyPart>> for Key {
    ghost from_gives = { λ v k. k ≡ v.items };

    fn from(parts: Vec<KeyPart>) -> Key {
        Key { parts }
    }
}

impl Clone for Key {
    ghost is_clone = { λ k l. l ≡ k };

    fn clone(&self) -> Result<Key, AllocError> {
        let parts = Vec::from_clones(*self.parts.allocator(), &self.parts)?;
        Ok(Key { parts })
    }
}

impl PartialEq for Key {
    ghost eq = { same_key };

    ghost laws = { partial_equiv_from_equiv same_key_equiv };

    fn eq(&self, other: &Key) -> bool
        ensures value { result ≡ same_key self.now other.now }
        ensures meant { IsTrue result ↔ (self.now ≡ other.now) }
    {
        are_same(self.parts(), other.parts())
    }
}

// Whether the parts are the same. A comparison of slices would make a call for each part.
fn are_same(a: &[KeyPart], b: &[KeyPart]) -> bool
    ensures { result ≡ same_key a.now b.now }
{
    if a.len() != b.len() {
        return false;
    }
    for index in 0..a.len() {
        if a[index] != b[index] {
            return false;
        }
    }
    true
}

impl Eq for Key {
    ghost laws = { same_key_equiv };
}

impl PartialOrd for Key {
    ghost partial_cmp = { as_partial_cmp key_cmp };

    ghost laws = { po key_cmp_total key_cmp_ties };

    fn partial_cmp(&self, other: &Key) -> Option<Ordering> {
        Some(self.cmp(other))
    }
}

impl Ord for Key {
    ghost cmp = { key_cmp };

    ghost total = { key_cmp_total };

    ghost matches_partial_cmp = { λ x y. refl };

    ghost matches_eq = { key_cmp_ties };

    fn cmp(&self, other: &Key) -> Ordering
        ensures value { result ≡ key_cmp self.now other.now }
        ensures equal { result ≡ Ordering.Equal ↔ (self.now ≡ other.now) }
        ensures decided { DecidesByFirstDifference self.now other.now result }
    {
        self.parts().cmp(other.parts())
    }
}

impl Hash for Key {
    ghost hash_input = { flat_map part_writes };

    ghost respects_eq = { λ x y same. ap (flat_map part_writes) ((same_key_decides x y).0 same) };

    fn hash<H: Hasher>(&self, state: &mut H) {
        KeyPart::hash_slice(&self.parts, state);
    }
}
