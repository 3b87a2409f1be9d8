//! Variables of a lane's threads, in tables of words.

ghost use Rattle.std.specs.Prelude.{◌≡◌, ◌==◌, ◌<◌, ◌^◌, [], ℕ, if◌then◌else◌};
ghost use Rattle.std.specs.Prelude.{slice_index, OnErr, OnOk};
ghost use Rattle.std.specs.Int.{cast_unsigned, w64};
ghost use Rattle.d_values.specs.Variables.{variable_number};
ghost use Rattle.dif_machine.specs.Cells.{cell_of};

use crate::memory::Memory;
use d_values::{Kind, Var};
use keyed_hash::HashKey;
use numbered::{Texts, Tuple, Word, WordTable};
use std::alloc::{AllocError, Global};

/// The variables of a clause, and those of all threads of a lane, of which one is looked at.
#[derive(Drop)]
pub struct LaneMemory {
    /// The words of the clause's variables, each at its variable's number.
    pub locals: Vec<u64>,
    /// The words of the threads' variables.
    pub table: WordTable,
    /// The number of the thread that is looked at.
    pub thread: u64,
}

impl LaneMemory {
    /// Variables of which none is set.
    ///
    /// ```text
    /// let mut memory = LaneMemory::new(alloc, hash_key);
    /// ```
    pub fn new(alloc: Global, hash_key: HashKey) -> LaneMemory
        ensures table { result.table ≡ [] }
        ensures locals { result.locals.items ≡ [] }
        ensures thread { result.thread ≡ 0 }
    {
        LaneMemory {
            locals: Vec::new(alloc),
            table: WordTable::new(alloc, hash_key),
            thread: 0,
        }
    }

    /// Looks at another thread, and forgets the variables of the clause.
    ///
    /// ```text
    /// memory.enter(firing.thread);
    /// ```
    #[inline(always)]
    pub fn enter(&mut self, thread: i32)
        ensures thread { self.new.thread ≡ cast_unsigned w64 thread }
        ensures table { self.new.table ≡ self.old.table }
        ensures locals { self.new.locals.items ≡ [] }
    {
        self.thread = i64::from(thread).cast_unsigned();
        self.locals.clear();
    }
}

impl Memory for LaneMemory {
    ghost use Rattle.dif_machine.specs.Cells.{AreLocalsOver, IsTableOver, locals_in, own_in};
    ghost use Rattle.dif_machine.specs.Cells.{words_beside};
    ghost use Rattle.dif_machine.specs.CellLaws.{lane_stays};

    ghost holds = { λ m texts. record {
      locals = locals_in texts m.locals.items;
      own = own_in texts m.table m.thread;
    } };

    ghost beside = { λ m. words_beside m.table m.thread };

    ghost is_over = { λ m texts. IsTableOver texts m.table × AreLocalsOver texts m.locals.items };

    #[inline(always)]
    fn load_local(&mut self, _texts: &mut Texts, x: Var) -> Result<Word, AllocError> {
        let bits = self.locals.get(number(x) as usize).copied().unwrap_or(0);
        Ok(Word::of(x.kind, bits))
    }

    #[inline(always)]
    fn store_local(&mut self, _texts: &Texts, x: Var, word: Word) -> Result<(), AllocError> {
        set_at(&mut self.locals, number(x) as usize, word.bits())
    }

    #[inline(always)]
    fn load_own(&mut self, _texts: &mut Texts, x: Var, key: &Tuple) -> Result<Word, AllocError> {
        let bits = self.table.get(self.thread, cell(x, key), key);
        Ok(Word::of(x.kind, bits))
    }

    #[inline(always)]
    fn store_own(
        &mut self,
        _texts: &Texts,
        x: Var,
        key: &Tuple,
        word: Word,
    ) -> Result<(), AllocError> {
        let _few = key.words();
        self.table.set(self.thread, cell(x, key), key, word.bits())
    }

    ghost stays = { λ m old new over kept.
        lane_stays m.locals.items m.table m.thread old new over kept };
}

// A number for each variable.
#[inline(always)]
fn number(x: Var) -> u64
    ensures value { result ≡ variable_number x }
    ensures small { result < 2 ^ 17 }
{
    match x.kind {
        Kind::Number => 2 * u64::from(x.slot),
        Kind::Text => 2 * u64::from(x.slot) + 1,
    }
}

// A number for each variable and the kinds of the words of its key.
#[inline(always)]
fn cell(x: Var, key: &Tuple) -> u64
    ensures { result ≡ cell_of x key.now }
{
    512 * number(x) + key.shape()
}

// Sets the word at an index, and makes room for it.
fn set_at(words: &mut Vec<u64>, index: usize, word: u64) -> Result<(), AllocError>
    ensures ok { OnOk result ((k : ℕ) → slice_index words.new.items k
        ≡ (if k == index then word else slice_index words.old.items k)) }
    ensures err { OnErr result ((k : ℕ) → slice_index words.new.items k
        ≡ slice_index words.old.items k) }
{
    while words.len() <= index {
        words.push(0)?;
    }
    words[index] = word;
    Ok(())
}
