//! Up to eight words.

ghost use Rattle.std.specs.Prelude.{◌≡◌, ◌<◌, ◌≤◌, ◌++◌, ◌∷◌, [], length};
ghost use Rattle.numbered.specs.Shapes.{digit_of, shape_of};

use crate::word::Word;
use keyed_hash::mix;
use std::marker::Model;

/// Up to eight words, from left to right. Contracts see the list of them.
#[derive(Drop)]
pub struct Tuple {
    words: [Word; 8],
    len: usize,
    shape: u64,
    hash: u64,
    secret: u64,
}

impl Model for Tuple {
    ghost use Rattle.std.specs.Prelude.{◌≡◌, ◌≤◌, List, take};
    ghost use Rattle.numbered.specs.declared.word.Word.{Word};
    ghost use Rattle.numbered.specs.Shapes.{shape_of};

    ghost Value = { List Word };

    ghost view = { λ t. take t.len t.words };

    ghost invariant = { λ t. (t.len ≤ 8) × (t.shape ≡ shape_of (take t.len t.words)) };
}

impl Tuple {
    /// No words. The hash of words begins at this secret.
    ///
    /// ```text
    /// let mut tuple = Tuple::new(0);
    /// tuple.push(Word::Int(7));
    /// tuple.words(); // [Word::Int(7)]
    /// ```
    pub fn new(secret: u64) -> Tuple
        ensures { result ≡ [] }
    {
        Tuple {
            words: [Word::Int(0); 8],
            len: 0,
            shape: 1,
            hash: secret,
            secret,
        }
    }

    /// Forgets all words.
    ///
    /// ```text
    /// tuple.clear();
    /// tuple.words(); // []
    /// ```
    #[inline(always)]
    pub fn clear(&mut self)
        ensures { self.new ≡ [] }
    {
        self.len = 0;
        self.shape = 1;
        self.hash = self.secret;
    }

    /// Adds a word at the right.
    ///
    /// ```text
    /// tuple.push(Word::Text(1));
    /// ```
    #[inline(always)]
    pub fn push(&mut self, word: Word)
        requires { length self.old < 8 }
        ensures { self.new ≡ self.old ++ word ∷ [] }
    {
        self.words[self.len] = word;
        self.len += 1;
        self.shape = 2 * self.shape + digit(word);
        self.hash = mix(self.hash, word.bits());
    }

    /// The words.
    ///
    /// ```text
    /// tuple.words(); // [Word::Int(7), Word::Text(1)]
    /// ```
    #[inline(always)]
    pub fn words(&self) -> &[Word]
        ensures words { result.now ≡ self.now }
        ensures few { length result.now ≤ 8 }
    {
        &self.words[..self.len]
    }

    /// Which words are integers and which are texts, as one number.
    ///
    /// ```text
    /// tuple.shape(); // 5, of an integer and a text
    /// ```
    #[inline(always)]
    pub fn shape(&self) -> u64
        ensures shape { result ≡ shape_of self.now }
        ensures small { result < 512 }
    {
        self.shape
    }

    /// A hash of the words.
    #[inline(always)]
    pub(crate) fn hash(&self) -> u64 {
        self.hash
    }
}

// Tells an integer from a text.
#[inline(always)]
fn digit(word: Word) -> u64
    ensures { result ≡ digit_of word }
{
    match word {
        Word::Int(_) => 0,
        Word::Text(_) => 1,
    }
}
