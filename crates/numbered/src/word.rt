//! Values as words.

ghost use Rattle.std.specs.Prelude.{◌≡◌};
ghost use Rattle.numbered.specs.Words.{bits_of, word_of};

use d_values::Kind;

/// A value as a word: an integer, or the number of a text.
#[derive(Clone, Copy, Debug)]
pub enum Word {
    /// The 64-bit extension of an integer of any type.
    Int(u64),
    /// The number that a text has among those of a lane.
    Text(u64),
}

impl Word {
    /// The word of this kind with these bits.
    ///
    /// ```text
    /// Word::of(Kind::Text, 0); // Word::Text(0): the empty text
    /// ```
    #[inline(always)]
    pub fn of(kind: Kind, bits: u64) -> Word
        ensures { result ≡ word_of kind bits }
    {
        match kind {
            Kind::Number => Word::Int(bits),
            Kind::Text => Word::Text(bits),
        }
    }

    /// The integer, or the text's number.
    ///
    /// ```text
    /// Word::Text(7).bits(); // 7
    /// ```
    #[inline(always)]
    pub fn bits(self) -> u64
        ensures { result ≡ bits_of self }
    {
        match self {
            Word::Int(n) => n,
            Word::Text(number) => number,
        }
    }
}
