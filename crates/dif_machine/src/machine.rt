//! What changes from step to step, but for the variables.

ghost use Rattle.std.specs.Prelude.{◌≡◌, ◌≢◌, ◌<◌, ◌++◌, ◌∷◌, [], ℕ, List, length};
ghost use Rattle.std.specs.Prelude.{Some, None, IfOk, slice_index_or};
ghost use Rattle.numbered.specs.Texts.{Keeps, text_at};
ghost use Rattle.d_values.specs.{Keys.part_of};
ghost use Rattle.dif_machine.specs.Vocabulary.{at, kind_of, Value};
ghost use Rattle.dif_machine.specs.{Operators.call_of, Sources.built_ins, Sources.own_value};
ghost use Rattle.dif_machine.specs.Frames.{start, with_known, with_parts, with_register};
ghost use Rattle.dif_machine.specs.Machine.{IsContentWithin, IsWithin, IsWordOf, Knows, content_of};
ghost use Rattle.dif_machine.specs.Machine.{key_in, knows_nothing, value_of};
ghost use Rattle.dif_machine.specs.Memories.{LoadsWord, StoresWord};
ghost use Rattle.dif_machine.specs.Steps.Instructions.{Grows, held_in, kind_in, set_in, with_frame};
ghost use Rattle.dif_machine.specs.Steps.Lasting.{Lasts, Rests, restarted};

use crate::built_in::{Numbers, built_in};
use crate::comparing::Comparison;
use crate::content::Content;
use crate::lasting::lasting_with;
use crate::memory::{Memory, Variable};
use crate::tables::{text_word, value_in};
use d_values::{Value, Var, join_text};
use dif_validate::{Function, Reg};
use firings::Firing;
use keyed_hash::HashKey;
use numbered::{Texts, Tuple, Word};
use std::alloc::{AllocError, Global};
use std::hash::{BuildHasher, Hasher};
use std::marker::Model;

// The first register is 0, and no other is set.
const FIRST: [Content; 8] = [
    Content::Int(0),
    Content::Unset,
    Content::Unset,
    Content::Unset,
    Content::Unset,
    Content::Unset,
    Content::Unset,
    Content::Unset,
];

/// The registers, the comparison and the tuple, the texts that have numbers, and what was found of
/// a firing's texts. Contracts see the texts, those of them that last when a run has ended, the
/// frame that the words stand for, at index 0, and those of the firing's texts that were found.
#[derive(Drop)]
pub struct Machine {
    alloc: Global,
    registers: [Content; 8],
    comparison: Option<Comparison>,
    tuple: Tuple,
    texts: Texts,
    // How many texts last. Those after them were made by a run.
    lasting: usize,
    numbers: Numbers,
}

impl Model for Machine {
    ghost use Rattle.dif_machine.specs.Machine.{IsSound, Seen, seen_of};

    ghost Value = { Seen };

    ghost view = { λ m. seen_of m.texts m.lasting m.registers m.comparison m.tuple m.numbers };

    ghost invariant = { λ m. IsSound m.texts m.lasting m.registers m.tuple m.numbers };
}

impl Machine {
    /// A machine for any number of runs, one after another. Of texts the empty one has a number.
    ///
    /// ```text
    /// let mut machine = Machine::new(alloc, hash_key)?;
    /// ```
    pub fn new(alloc: Global, hash_key: HashKey) -> Result<Machine, AllocError>
        ensures texts { IfOk result (λ m. m.texts ≡ [] ∷ []) }
        ensures frame { IfOk result (λ m. m.frame ≡ start) }
        ensures known { IfOk result (λ m. m.known ≡ knows_nothing) }
    {
        let texts = Texts::new(alloc, hash_key)?;
        Ok(Machine {
            alloc,
            registers: FIRST,
            comparison: None,
            tuple: Tuple::new(hash_key.build_hasher().finish()),
            texts,
            lasting: 1,
            numbers: [None; 5],
        })
    }

    /// Turns to another firing, of whose texts nothing is known.
    ///
    /// ```text
    /// machine.turn();
    /// object.run_on(&firing, &mut machine, &mut memory)?;
    /// ```
    #[inline(always)]
    pub fn turn(&mut self)
        ensures texts { self.new.texts ≡ self.old.texts }
        ensures frame { self.new.frame ≡ self.old.frame }
        ensures known { self.new.known ≡ knows_nothing }
    {
        self.numbers = [None; 5];
    }

    /// Before the first instruction, whatever an earlier run left.
    #[inline(always)]
    pub(crate) fn restart(&mut self)
        ensures { self.new ≡ restarted self.old }
    {
        self.registers = FIRST;
        self.comparison = None;
        self.tuple.clear();
        self.lasting = self.texts.len();
    }

    /// Ends a run with the word that a register holds, whose text lasts.
    #[inline(always)]
    pub(crate) fn end(&mut self, a: Reg) -> Word
        requires { at self.old.frame.registers a ≢ None }
        ensures is { at self.old.frame.registers a ≡ Some (value_of self.new.texts result) }
        ensures within { IsWithin self.new.texts result }
        ensures rests { Rests self.old self.new }
    {
        let word = self.word(a);
        if self.lasting < self.texts.len() {
            self.lasting = lasting_with(&self.texts, self.lasting, word, &[]);
            self.forget();
        }
        word
    }

    /// Forgets the texts that a run made and that nothing keeps. Registers and the tuple may have
    /// their numbers.
    #[cold]
    pub(crate) fn forget(&mut self)
        ensures rests { Rests self.old self.new }
        ensures lasting { self.new.lasting ≡ self.old.lasting }
    {
        self.registers = FIRST;
        self.tuple.clear();
        self.texts.truncate(self.lasting);
    }

    /// The word that a register holds.
    #[inline(always)]
    pub(crate) fn word(&self, a: Reg) -> Word
        requires { at self.now.frame.registers a ≢ None }
        ensures is { at self.now.frame.registers a ≡ Some (value_of self.now.texts result) }
        ensures within { IsWithin self.now.texts result }
    {
        match self.registers[a.number()] {
            Content::Unset => unreachable!(),
            Content::Int(n) => Word::Int(n),
            Content::Text(number) => Word::Text(number),
        }
    }

    /// The integer that a register holds.
    #[inline(always)]
    pub(crate) fn number(&self, a: Reg) -> u64
        requires set { at self.now.frame.registers a ≢ None }
        requires number { (bytes : List ℕ) → at self.now.frame.registers a
            ≢ Some (Value.Text bytes) }
        ensures { at self.now.frame.registers a ≡ Some (Value.Int result) }
    {
        match self.word(a) {
            Word::Int(n) => n,
            Word::Text(_) => unreachable!(),
        }
    }

    /// The number of the text that a register holds.
    #[inline(always)]
    pub(crate) fn text_number(&self, a: Reg) -> u64
        requires set { at self.now.frame.registers a ≢ None }
        requires text { (n : ℕ) → at self.now.frame.registers a ≢ Some (Value.Int n) }
        ensures is { at self.now.frame.registers a
            ≡ Some (Value.Text (text_at self.now.texts result)) }
        ensures within { result < length self.now.texts }
    {
        match self.word(a) {
            Word::Int(_) => unreachable!(),
            Word::Text(number) => number,
        }
    }

    /// The value of a word.
    ///
    /// ```text
    /// machine.value(Word::Int(5))?; // Value::Int(5)
    /// ```
    pub fn value(&self, word: Word) -> Result<Value, AllocError>
        ensures { IfOk result (λ value. value ≡ value_of self.now.texts word) }
    {
        value_in(self.alloc, &self.texts, word)
    }

    /// The texts that have numbers.
    ///
    /// ```text
    /// machine.texts().text(1); // the bytes of the text with the number 1
    /// ```
    #[inline(always)]
    pub fn texts(&self) -> &Texts
        ensures { result.now ≡ self.now.texts }
    {
        &self.texts
    }

    /// Puts a word into a register.
    #[inline(always)]
    pub(crate) fn put(&mut self, d: Reg, word: Word)
        requires { IsWithin self.old.texts word }
        ensures { self.new ≡ with_frame self.old
            (with_register self.old.frame d (Some (value_of self.old.texts word))) }
    {
        if d == Reg::R0 {
            return;
        }
        self.registers[d.number()] = content(word);
    }

    /// Keeps a comparison.
    #[inline(always)]
    pub(crate) fn compare(&mut self, comparison: Comparison)
        ensures { self.new ≡ with_frame self.old (with_known self.old.frame comparison) }
    {
        self.comparison = Some(comparison);
    }

    /// How the two values compare that were compared last.
    #[inline(always)]
    pub(crate) fn compared(&self) -> Comparison
        requires { self.now.frame.comparison ≢ None }
        ensures { self.now.frame.comparison ≡ Some result }
    {
        match self.comparison {
            Some(known) => known,
            None => unreachable!(),
        }
    }

    /// Adds a word to the tuple.
    #[inline(always)]
    pub(crate) fn push(&mut self, word: Word)
        requires room { length self.old.frame.tuple < 8 }
        requires within { IsWithin self.old.texts word }
        ensures { self.new ≡ with_frame self.old (with_parts self.old.frame
            (self.old.frame.tuple ++ part_of (value_of self.old.texts word) ∷ [])) }
    {
        self.tuple.push(word);
    }

    /// Empties the tuple.
    #[inline(always)]
    pub(crate) fn flush(&mut self)
        ensures { self.new ≡ with_frame self.old (with_parts self.old.frame []) }
    {
        self.tuple.clear();
    }

    /// The word of what a function makes of the tuple.
    #[inline(never)]
    pub(crate) fn call(&mut self, function: Function) -> Result<Word, AllocError>
        requires { call_of function self.old.frame.tuple ≢ None }
        ensures grows { Grows self.old self.new }
        ensures word { IfOk result (λ word. (value : Value)
            → call_of function self.old.frame.tuple ≡ Some value
            → IsWordOf self.new.texts word value) }
    {
        call(self.alloc, &mut self.texts, function, self.tuple.words())
    }

    /// The word of a text, which lasts.
    #[inline(never)]
    pub(crate) fn text_word(&mut self, bytes: &[u8]) -> Result<Word, AllocError>
        ensures grows { Grows self.old self.new }
        ensures word { IfOk result (λ word. IsWordOf self.new.texts word (Value.Text bytes.now)) }
    {
        let word = text_word(&mut self.texts, bytes)?;
        self.lasting = lasting_with(&self.texts, self.lasting, word, &[]);
        Ok(word)
    }

    /// The word of a built-in variable.
    #[inline(always)]
    pub(crate) fn built_in(&mut self, firing: &Firing, v: u8) -> Result<Word, AllocError>
        requires there { v < 9 }
        requires known { Knows firing.now self.old.known }
        ensures kept { Keeps self.old.texts self.new.texts }
        ensures lasting { Lasts self.old self.new }
        ensures frame { self.new.frame ≡ self.old.frame }
        ensures known { Knows firing.now self.new.known }
        ensures word { IfOk result (λ word. IsWordOf self.new.texts word
            (slice_index_or (built_ins firing.now) v (Value.Int 0))) }
    {
        built_in(
            &mut self.texts,
            &mut self.lasting,
            &mut self.numbers,
            firing,
            v,
        )
    }

    /// The word of what a variable holds.
    #[inline(always)]
    pub(crate) fn load<M: Memory>(
        &mut self,
        memory: &mut M,
        variable: Variable,
    ) -> Result<Word, AllocError>
        requires { M.is_over memory.old self.old.texts }
        ensures grows { Grows self.old self.new }
        ensures loads { LoadsWord memory.old self.old.texts memory.new self.new.texts result
            (held_in (M.holds memory.old self.old.texts) variable self.old.frame.tuple) }
    {
        match variable {
            Variable::Local(x) => memory.load_local(&mut self.texts, x),
            Variable::Scalar(x) => memory.load_own(&mut self.texts, x, &Tuple::new(0)),
            Variable::Element(x) => memory.load_own(&mut self.texts, x, &self.tuple),
        }
    }

    /// The word of what a variable of the thread holds at one word.
    #[inline(always)]
    pub(crate) fn load_at<M: Memory>(
        &mut self,
        memory: &mut M,
        x: Var,
        key: Word,
    ) -> Result<Word, AllocError>
        requires over { M.is_over memory.old self.old.texts }
        requires within { IsWithin self.old.texts key }
        ensures known { self.new.known ≡ self.old.known }
        ensures loads { LoadsWord memory.old self.old.texts memory.new self.new.texts result
            (own_value (M.holds memory.old self.old.texts) x (key_in self.old.texts (key ∷ []))) }
    {
        self.tuple.clear();
        self.tuple.push(key);
        memory.load_own(&mut self.texts, x, &self.tuple)
    }

    /// Stores a word in a variable. Its text lasts, and so do those of the key.
    #[inline(always)]
    pub(crate) fn store<M: Memory>(
        &mut self,
        memory: &mut M,
        variable: Variable,
        word: Word,
    ) -> Result<(), AllocError>
        requires over { M.is_over memory.old self.old.texts }
        requires within { IsWithin self.old.texts word }
        requires kind { kind_of (value_of self.old.texts word) ≡ kind_in variable }
        ensures grows { Grows self.old self.new }
        ensures texts { self.new.texts ≡ self.old.texts }
        ensures over { M.is_over memory.old self.old.lasting
            → M.is_over memory.new self.new.lasting }
        ensures stores { StoresWord M.holds M.beside memory.old self.old.texts memory.new result
            (set_in (M.holds memory.old self.old.texts) variable self.old.frame.tuple
            (value_of self.old.texts word)) }
    {
        match variable {
            Variable::Local(x) => {
                self.lasting = lasting_with(&self.texts, self.lasting, word, &[]);
                memory.store_local(&self.texts, x, word)
            }
            Variable::Scalar(x) => {
                self.lasting = lasting_with(&self.texts, self.lasting, word, &[]);
                memory.store_own(&self.texts, x, &Tuple::new(0), word)
            }
            Variable::Element(x) => {
                let key = self.tuple.words();
                self.lasting = lasting_with(&self.texts, self.lasting, word, key);
                memory.store_own(&self.texts, x, &self.tuple, word)
            }
        }
    }
}

// The word of what a function makes of a tuple.
fn call(
    alloc: Global,
    texts: &mut Texts,
    function: Function,
    tuple: &[Word],
) -> Result<Word, AllocError>
    requires { call_of function (key_in texts.old tuple.now) ≢ None }
    ensures kept { Keeps texts.old texts.new }
    ensures word { IfOk result (λ word. (value : Value)
        → call_of function (key_in texts.old tuple.now) ≡ Some value
        → IsWordOf texts.new word value) }
{
    match function {
        Function::Strlen => match tuple {
            [Word::Text(number)] => Ok(Word::Int(texts.text(*number).len() as u64)),
            _ => unreachable!(),
        },
        Function::Strjoin => match tuple {
            [Word::Text(a), Word::Text(b)] => {
                let joined = join_text(alloc, texts.text(*a), texts.text(*b))?;
                text_word(texts, joined.as_bytes())
            }
            _ => unreachable!(),
        },
    }
}

// A word, as a register holds it.
#[inline(always)]
fn content(word: Word) -> Content
    ensures value { (texts : List (List ℕ))
        → content_of texts result ≡ Some (value_of texts word) }
    ensures within { (texts : List (List ℕ))
        → IsWithin texts word → IsContentWithin texts result }
{
    match word {
        Word::Int(n) => Content::Int(n),
        Word::Text(number) => Content::Text(number),
    }
}
