//! Keys as tables keep them.

ghost use Rattle.std.specs.Prelude.{◌≡◌, ◌↔◌, ◌<◌, ◌++◌, ◌∷◌, [], length, map, IsTrue, true};
ghost use Rattle.d_values.specs.Vocabulary.{ap, partial_equiv_from_equiv, flat_map};
ghost use Rattle.std.specs.Cmp.Lexicographic.{bytes_decides, nat_list_eq_equiv};
ghost use Rattle.std.specs.Hash.{u64};
ghost use Rattle.numbered.specs.{Tables.key_of, Tables.same_words, Words.bits_of};

use crate::tuple::Tuple;
use crate::word::Word;
use std::hash::{Hash, Hasher};
use std::marker::Model;

/// Up to ten words, from left to right. Contracts see the list of them.
#[derive(Drop)]
pub(crate) struct KeptKey {
    words: [u64; 10],
    len: usize,
}

impl Model for KeptKey {
    ghost use Rattle.std.specs.Prelude.{◌≤◌, List, ℕ, take};

    ghost Value = { List ℕ };

    ghost view = { λ k. take k.len k.words };

    ghost invariant = { λ k. k.len ≤ 10 };
}

impl KeptKey {
    /// Two words, and those of a tuple.
    pub(crate) fn of(first: u64, second: u64, tuple: &Tuple) -> KeptKey
        ensures { result ≡ key_of first second tuple.now }
    {
        let mut key = KeptKey {
            words: [0; 10],
            len: 0,
        };
        key.push(first);
        key.push(second);
        let words = tuple.words();
        for word in words {
            key.push(word.bits());
        }
        key
    }

    // Adds a word at the right.
    fn push(&mut self, word: u64)
        requires { length self.old < 10 }
        ensures { self.new ≡ self.old ++ word ∷ [] }
    {
        self.words[self.len] = word;
        self.len += 1;
    }

    // The words.
    #[inline(always)]
    fn words(&self) -> &[u64]
        ensures { result.now ≡ self.now }
    {
        &self.words[..self.len]
    }

    /// Whether it has these two words, and those of this tuple.
    #[inline(always)]
    pub(crate) fn is(&self, first: u64, second: u64, tuple: &Tuple) -> bool
        ensures { result ≡ true → self.now ≡ key_of first second tuple.now }
    {
        let kept = self.words();
        let words = tuple.words();
        kept.len() == words.len() + 2
            && kept[1] == second
            && kept[0] == first
            && are_words(&kept[2..], words)
    }
}

// Whether these are the words of a tuple.
#[inline(always)]
fn are_words(kept: &[u64], words: &[Word]) -> bool
    requires { length kept.now ≡ length words.now }
    ensures { result ≡ true → kept.now ≡ map bits_of words.now }
{
    for index in 0..words.len() {
        if kept[index] != words[index].bits() {
            return false;
        }
    }
    true
}

impl PartialEq for KeptKey {
    ghost eq = { same_words };

    ghost laws = { partial_equiv_from_equiv nat_list_eq_equiv };

    fn eq(&self, other: &KeptKey) -> bool {
        self.words() == other.words()
    }
}

impl Eq for KeptKey {
    ghost laws = { nat_list_eq_equiv };
}

impl Hash for KeptKey {
    ghost hash_input = { flat_map u64 };

    ghost respects_eq = { λ x y same. ap (flat_map u64) ((bytes_decides x y).0 same) };

    fn hash<H: Hasher>(&self, state: &mut H) {
        u64::hash_slice(self.words(), state);
    }
}
