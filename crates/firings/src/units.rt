//! What rows share, each kept once with the bytes that it was read from.

ghost use Rattle.std.specs.Prelude.{◌≡◌, ◌<◌, All, List, ℕ, Some, length, map, slice_get};
ghost use Rattle.firings.specs.Units.{IsUnitIn, unit_in};

use std::marker::Model;

/// What is known of a unit: the hash of its bytes, where they begin among all and how many they
/// are, whether they are plain fields, and what they say.
#[derive(Clone, Copy)]
pub struct Known<E> {
    pub hash: u32,
    pub begin: u32,
    pub count: u32,
    pub plain: bool,
    pub entry: E,
}

/// What is kept of a unit beside its bytes.
pub trait Entry: Copy {
    // An entry says where its texts are in these bytes.
    ghost is_in: { Self → List ℕ → Type 0 };
}

/// Units. Contracts see the list of their bytes and entries.
#[derive(Drop)]
pub struct Units<E: Entry> {
    bytes: Vec<u8>,
    known: Vec<Known<E>>,
}

impl<E: Entry> Model for Units<E> {
    ghost use Rattle.std.specs.Prelude.{All, List, ℕ, map};
    ghost use Rattle.firings.specs.Units.{IsUnitIn, unit_in};

    ghost Value = { List (List ℕ × E) };

    ghost view = { λ u. map (unit_in u.bytes.items) u.known.items };

    ghost invariant = { λ u. All (IsUnitIn E.is_in u.bytes.items) u.known.items };
}

impl<E: Entry> Units<E> {
    /// The units of these bytes.
    ///
    /// ```text
    /// let owners = Units::of(bytes, known); // none, if both are empty
    /// ```
    pub fn of(bytes: Vec<u8>, known: Vec<Known<E>>) -> Units<E>
        requires { All (IsUnitIn E.is_in bytes.items) known.items }
        ensures { result ≡ map (unit_in bytes.items) known.items }
    {
        Units { bytes, known }
    }

    /// How many there are.
    pub(crate) fn len(&self) -> usize
        ensures { result ≡ length self.now }
    {
        self.known.len()
    }

    /// The unit at an index: its bytes and its entry.
    #[inline(always)]
    pub(crate) fn at(&self, index: usize) -> (&[u8], E)
        requires { index < length self.now }
        ensures there { slice_get self.now index ≡ Some (result.0.now, result.1) }
        ensures inside { E.is_in result.1 result.0.now }
    {
        let known = self.known[index];
        let begin = known.begin as usize;
        let bytes = &self.bytes[begin..begin + known.count as usize];
        (bytes, known.entry)
    }
}
