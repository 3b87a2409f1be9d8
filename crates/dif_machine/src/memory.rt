//! Where variables are.

ghost use Rattle.std.specs.Prelude.{◌≡◌, [], ◌∷◌};
ghost use Rattle.std.specs.List.{All};
ghost use Rattle.numbered.specs.Texts.{AreDistinct};
ghost use Rattle.dif_machine.specs.Machine.{IsWithin, key_in, value_of};
ghost use Rattle.dif_machine.specs.Memories.{LoadsWord, StaysOver, StoresWord};
ghost use Rattle.dif_machine.specs.Sources.{local_in, own_value};
ghost use Rattle.dif_machine.specs.Vocabulary.{kind_of, set_local, set_own};

use d_values::Var;
use numbered::{Texts, Tuple, Word};
use std::alloc::AllocError;

/// The variables of a clause and of a thread, as words over texts with numbers.
pub trait Memory {
    ghost use Rattle.std.specs.Prelude.{◌≡◌, List, ℕ};
    ghost use Rattle.dif_machine.specs.Vocabulary.{Variables};
    ghost use Rattle.numbered.specs.Texts.{Keeps};

    /// What the variables hold, if texts have these numbers.
    ghost holds: { Self → List (List ℕ) → Variables };

    /// Its numbers are those of texts.
    ghost is_over: { Self → List (List ℕ) → Type 0 };

    /// What it has beside, as words at keys of words: no call changes that.
    ghost beside: { Self → List ℕ → ℕ };

    /// The word of what a variable of the clause holds.
    fn load_local(&mut self, texts: &mut Texts, x: Var) -> Result<Word, AllocError>
        requires { is_over self.old texts.old }
        ensures { LoadsWord self.old texts.old self.new texts.new result
            (local_in (holds self.old texts.old) x) };

    /// Gives a variable of the clause a value of its kind.
    fn store_local(&mut self, texts: &Texts, x: Var, word: Word) -> Result<(), AllocError>
        requires over { is_over self.old texts.now }
        requires within { IsWithin texts.now word }
        requires kind { kind_of (value_of texts.now word) ≡ x.kind }
        ensures over { StaysOver is_over self.old (word ∷ []) self.new }
        ensures stores { StoresWord holds beside self.old texts.now self.new result
            (set_local (holds self.old texts.now) x (value_of texts.now word)) };

    /// The word of what a variable of the thread holds at a key, which is empty for a scalar.
    fn load_own(&mut self, texts: &mut Texts, x: Var, key: &Tuple) -> Result<Word, AllocError>
        requires over { is_over self.old texts.old }
        requires distinct { AreDistinct texts.old }
        requires within { All (IsWithin texts.old) key.now }
        ensures { LoadsWord self.old texts.old self.new texts.new result
            (own_value (holds self.old texts.old) x (key_in texts.old key.now)) };

    /// Gives a variable of the thread a value of its kind, at a key.
    fn store_own(
        &mut self,
        texts: &Texts,
        x: Var,
        key: &Tuple,
        word: Word,
    ) -> Result<(), AllocError>
        requires over { is_over self.old texts.now }
        requires distinct { AreDistinct texts.now }
        requires keyed { All (IsWithin texts.now) key.now }
        requires within { IsWithin texts.now word }
        requires kind { kind_of (value_of texts.now word) ≡ x.kind }
        ensures over { StaysOver is_over self.old (word ∷ key.now) self.new }
        ensures stores { StoresWord holds beside self.old texts.now self.new result
            (set_own (holds self.old texts.now) x (key_in texts.now key.now)
            (value_of texts.now word)) };

    /// More texts with numbers change nothing.
    ghost stays: { (m : Self) (old new : List (List ℕ)) → is_over m old → Keeps old new
        → is_over m new × (holds m new ≡ holds m old) };
}

/// A variable, as an instruction names it.
#[derive(Clone, Copy, Debug)]
pub(crate) enum Variable {
    /// A variable of the clause.
    Local(Var),
    /// A variable of the thread, without a key.
    Scalar(Var),
    /// A variable of the thread, at the tuple.
    Element(Var),
}
