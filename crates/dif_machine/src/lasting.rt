//! Texts that last: a run forgets those that it made and that nothing keeps.

ghost use Rattle.std.specs.Prelude.{◌≤◌, ◌∷◌, ℕ, IsFalse, List, length, take};
ghost use Rattle.std.specs.List.{All};
ghost use Rattle.dif_machine.specs.Machine.{IsWithin};
ghost use Rattle.dif_machine.specs.Steps.Lasting.{LastsWith};

use numbered::{Texts, Word};

/// How many texts last, if those of a word and of a key's words are among them.
#[inline(always)]
pub(crate) fn lasting_with(texts: &Texts, lasting: usize, word: Word, key: &[Word]) -> usize
    requires within { All (IsWithin texts.now) (word ∷ key.now) }
    requires inside { lasting ≤ length texts.now }
    ensures { LastsWith texts.now lasting (word ∷ key.now) result }
{
    if lasting < texts.len() && is_one_made(word, key, lasting) {
        texts.len()
    } else {
        lasting
    }
}

// If a word or one of a key is the number of a text that doesn't last.
#[inline(never)]
fn is_one_made(word: Word, key: &[Word], lasting: usize) -> bool
    ensures { IsFalse result → (texts : List (List ℕ)) → All (IsWithin texts) (word ∷ key.now)
        → lasting ≤ length texts → All (IsWithin (take lasting texts)) (word ∷ key.now) }
{
    for part in key {
        if is_made(*part, lasting) {
            return true;
        }
    }
    is_made(word, lasting)
}

// If a word is the number of a text that doesn't last.
fn is_made(word: Word, lasting: usize) -> bool
    ensures { IsFalse result → (texts : List (List ℕ)) → IsWithin texts word
        → lasting ≤ length texts → IsWithin (take lasting texts) word }
{
    match word {
        Word::Int(_) => false,
        Word::Text(number) => number >= lasting as u64,
    }
}
