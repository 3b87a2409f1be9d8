//! Objects, run by the machine.

ghost use Rattle.std.specs.Prelude.{◌≡◌, ◌+◌, [], All, List, OnOk, ℕ};
ghost use Rattle.d_types.specs.Storage.{word_of};
ghost use Rattle.d_types.specs.Typed as typed;
ghost use Rattle.dif_codegen.specs.Meaning as spec;
ghost use Rattle.numbered.specs.{Texts.Keeps, Words.value_of};
ghost use Rattle.dif_machine.specs.Machine.{IsWithin};
ghost use Rattle.replay_core.specs.{Evaluation.Meets, WordStore.words_seen};
ghost use Rattle.replay_core.specs.Vocabulary.{action_code, argument_by, effect_by, number_outcome};
ghost use Rattle.replay_core.specs.{Effects.HasMore, Effects.HasRoom};
ghost use Rattle.replay_core.specs.Steps.Effects.{IsPerformed};
ghost use Rattle.replay_core.specs.Steps.Evaluation.{MakesKey};

use crate::evaluation::EvalFault;
use crate::lanes::piece::Piece;
use crate::lanes::state::State;
use crate::lanes::word_store::Words;
use crate::statements::expression::{Arguments, Expression};
use crate::statements::statement::{Statement, exit, plain, print, trace};
use aggregations::WordKey;
use d_values::{DType, Value};
use dif_codegen::{Action, TypedObject};
use numbered::Word;

const MULTIPLIER: u64 = 0x9e37_79b9_7f4a_7c15;

// The integer that is a word, or 0.
fn number_in(word: Word) -> u64
    ensures { (texts : List (List ℕ)) → result ≡ word_of (value_of texts word) }
{
    match word {
        Word::Int(n) => n,
        Word::Text(_) => 0,
    }
}

// The integer that a run of an object returns, or 0.
#[inline(always)]
fn run_for_word(object: &TypedObject, state: &mut State<'_, '_, Words>) -> Result<u64, EvalFault>
    ensures { Meets words_seen (λ f vars. number_outcome (spec.value_of f object.now.object vars))
        result state.old state.new }
{
    let word = state.store.run(object, state.firing)?;
    Ok(number_in(word))
}

// What an aggregating function is given; 0 if it takes nothing.
fn run_for_argument(
    argument: &Option<TypedObject>,
    state: &mut State<'_, '_, Words>,
) -> Result<i64, EvalFault>
    ensures meets { Meets words_seen
        (λ f. argument_by (spec.by_objects f) argument.now) result state.old state.new }
    ensures kept { Keeps state.old.store.now.texts state.new.store.now.texts }
{
    match argument {
        None => Ok(0),
        Some(object) => {
            let word = state.store.run(object, state.firing)?;
            Ok(number_in(word).cast_signed())
        }
    }
}

// The words of a key, from left to right, and a hash of them for a cache.
#[inline(always)]
fn run_for_key(
    objects: &[TypedObject],
    key: &mut Vec<Word>,
    state: &mut State<'_, '_, Words>,
) -> Result<u64, EvalFault>
    requires { key.old.items ≡ [] }
    ensures meets { MakesKey (λ f. spec.key_of_objects f objects.now) result key.new.items
        state.old state.new }
    ensures within { OnOk result (All (IsWithin state.new.store.now.texts) key.new.items) }
{
    let mut hash = 0;
    for object in objects {
        let word = state.store.run(object, state.firing)?;
        hash = (hash ^ word.bits()).wrapping_mul(MULTIPLIER);
        key.push(word)?;
    }
    Ok(hash >> 32)
}

// The value that a run of an object returns.
fn run_for_value(object: &TypedObject, state: &mut State<'_, '_, Words>) -> Result<Value, EvalFault>
    ensures { Meets words_seen (λ f. spec.value_of f object.now.object)
        result state.old state.new }
{
    let word = state.store.run(object, state.firing)?;
    let value = state.store.machine().value(word)?;
    Ok(value)
}

// `@name[keys] = function(argument)`
fn aggregate(
    index: usize,
    keys: &[TypedObject],
    argument: &Option<TypedObject>,
    state: &mut State<'_, '_, Words>,
    piece: &mut Piece,
) -> Result<bool, EvalFault>
    requires { HasRoom (index + 1) 1 piece.old }
    ensures more { HasMore 1 piece.old piece.new }
    ensures effect { IsPerformed words_seen
        (λ f. effect_by (spec.by_objects f) (typed.Aggregate index keys.now argument.now))
        result state.old state.new piece.old piece.new }
{
    piece.key.clear();
    let hash = run_for_key(keys, &mut piece.key, state)?;
    let given = run_for_argument(argument, state)?;
    let made = WordKey {
        texts: state.store.machine().texts(),
        words: &piece.key,
        hash,
    };
    piece.table.add_words(index, made, given)?;
    Ok(false)
}

impl Expression for TypedObject {
    type Store = Words;

    ghost by = { spec.by_objects };

    ghost returned = { λ x. x.returns };

    fn returns(&self) -> DType {
        self.returns
    }

    fn evaluate(&self, state: &mut State<'_, '_, Words>) -> Result<Value, EvalFault> {
        run_for_value(self, state)
    }

    #[inline(always)]
    fn evaluate_word(&self, state: &mut State<'_, '_, Words>) -> Result<u64, EvalFault> {
        run_for_word(self, state)
    }

    fn evaluate_arguments(
        arguments: &[TypedObject],
        state: &mut State<'_, '_, Words>,
    ) -> Result<Arguments, EvalFault> {
        let mut values = Vec::new(state.alloc);
        for object in arguments {
            let value = run_for_value(object, state)?;
            values.push((object.returns, value))?;
        }
        Ok(Arguments { values })
    }
}

impl Statement<TypedObject> for Action {
    ghost form = { action_code };

    fn perform(
        &self,
        state: &mut State<'_, '_, Words>,
        piece: &mut Piece,
    ) -> Result<bool, EvalFault> {
        match self {
            Action::Plain(e) => plain(e, state, piece),
            Action::Trace(e) => trace(e, state, piece),
            Action::Printf(format, arguments) => { print(format, arguments, state, piece) }
            Action::Exit(e) => exit(e, state, piece),
            Action::Aggregate(index, keys, argument) => aggregate(
                *index, keys, argument, state, piece,
            ),
        }
    }
}
