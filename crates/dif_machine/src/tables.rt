//! Variables in tables of values.

ghost use Rattle.std.specs.Prelude.{◌≡◌, refl, IfOk};
ghost use Rattle.numbered.specs.Texts.{Keeps};
ghost use Rattle.d_values.specs.Keys as keys;
ghost use Rattle.d_values.specs.Storage.{as_kind, variables};
ghost use Rattle.d_values.specs.Stores.{kind_of, lent_value};
ghost use Rattle.dif_machine.specs.Machine.{IsWordOf, key_in, value_of};
ghost use Rattle.dif_machine.specs.Vocabulary.{Kind, Value};

use crate::memory::Memory;
use d_values::{ClauseLocals, Key, KeyPart, Text, ThreadTable, Value, ValueRef, Var};
use numbered::{Texts, Tuple, Word};
use std::alloc::{AllocError, Global};

/// The variables of a clause and of a thread, in tables of values.
#[derive(Drop)]
pub(crate) struct Tables {
    pub(crate) alloc: Global,
    pub(crate) locals: ClauseLocals,
    pub(crate) own: ThreadTable,
}

impl Memory for Tables {
    ghost holds = { λ t texts. variables t.locals t.own };

    ghost is_over = { λ t texts. Unit {0} };

    ghost beside = { λ t key. 0 };

    fn load_local(&mut self, texts: &mut Texts, x: Var) -> Result<Word, AllocError> {
        word_of(texts, self.locals.get(x))
    }

    fn store_local(&mut self, texts: &Texts, x: Var, word: Word) -> Result<(), AllocError> {
        let value = value_in(self.alloc, texts, word)?;
        self.locals.set(x, value)
    }

    fn load_own(&mut self, texts: &mut Texts, x: Var, key: &Tuple) -> Result<Word, AllocError> {
        let key = key_of(self.alloc, texts, key.words())?;
        word_of(texts, self.own.get(x, &key))
    }

    fn store_own(
        &mut self,
        texts: &Texts,
        x: Var,
        key: &Tuple,
        word: Word,
    ) -> Result<(), AllocError> {
        let key = key_of(self.alloc, texts, key.words())?;
        let value = value_in(self.alloc, texts, word)?;
        self.own.set(x, &key, value)
    }

    ghost stays = { λ m old new over kept. (tt, refl) };
}

/// The word of a text.
#[inline(always)]
pub(crate) fn text_word(texts: &mut Texts, bytes: &[u8]) -> Result<Word, AllocError>
    ensures kept { Keeps texts.old texts.new }
    ensures word { IfOk result (λ word. IsWordOf texts.new word (Value.Text bytes.now)) }
{
    let number = texts.number(bytes)?;
    Ok(Word::Text(number))
}

// The word of a value that is lent.
fn word_of(texts: &mut Texts, lent: ValueRef<'_>) -> Result<Word, AllocError>
    ensures kept { Keeps texts.old texts.new }
    ensures word { IfOk result (λ word. (k : Kind) → kind_of (lent_value lent.entry) ≡ k
        → IsWordOf texts.new word (as_kind k (lent_value lent.entry))) }
{
    match lent {
        ValueRef::Int(n) => Ok(Word::Int(n)),
        ValueRef::Text(bytes) => text_word(texts, bytes),
    }
}

/// The value of a word.
pub(crate) fn value_in(alloc: Global, texts: &Texts, word: Word) -> Result<Value, AllocError>
    ensures { IfOk result (λ value. value ≡ value_of texts.now word) }
{
    match word {
        Word::Int(n) => Ok(Value::Int(n)),
        Word::Text(number) => Ok(Value::Text(Text::from_slice(alloc, texts.text(number))?)),
    }
}

// Words as a key.
fn key_of(alloc: Global, texts: &Texts, words: &[Word]) -> Result<Key, AllocError>
    ensures { IfOk result (λ key. key ≡ key_in texts.now words.now) }
{
    let mut key = Key::new(alloc);
    for word in words {
        key.push(part_of(alloc, texts, *word)?)?;
    }
    Ok(key)
}

// A word as a part of a key.
fn part_of(alloc: Global, texts: &Texts, word: Word) -> Result<KeyPart, AllocError>
    ensures { IfOk result (λ part. part ≡ keys.part_of (value_of texts.now word)) }
{
    match value_in(alloc, texts, word)? {
        Value::Int(n) => Ok(KeyPart::Number(n.cast_signed())),
        Value::Text(text) => Ok(KeyPart::Name(text)),
    }
}
