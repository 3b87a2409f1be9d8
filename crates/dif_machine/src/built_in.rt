//! Built-in variables.

ghost use Rattle.std.specs.Prelude.{◌≡◌, ◌<◌, IfOk, slice_index_or};
ghost use Rattle.numbered.specs.Texts.{text_at};
ghost use Rattle.dif_machine.specs.Machine.{IsWordOf, texts_of};
ghost use Rattle.dif_machine.specs.Sources.{argument_of, built_ins};
ghost use Rattle.dif_machine.specs.Steps.Found.{Finds, FindsText, HasFound};
ghost use Rattle.dif_machine.specs.Vocabulary.{Value};

use crate::lasting::lasting_with;
use firings::Firing;
use numbered::{Texts, Word};
use std::alloc::AllocError;

/// The numbers of execname and of the four texts of a firing's probe, if they were found.
pub(crate) type Numbers = [Option<u64>; 5];

/// The word of a built-in variable.
#[inline(always)]
pub(crate) fn built_in(
    texts: &mut Texts,
    lasting: &mut usize,
    numbers: &mut Numbers,
    firing: &Firing,
    v: u8,
) -> Result<Word, AllocError>
    requires there { v < 9 }
    requires ready { HasFound firing.now texts.old lasting.old numbers.old }
    ensures finds { Finds firing.now texts.old lasting.old texts.new lasting.new numbers.new }
    ensures word { IfOk result (λ word. IsWordOf texts.new word
        (slice_index_or (built_ins firing.now) v (Value.Int 0))) }
{
    match v {
        0 => Ok(Word::Int(time(firing))),
        1 => Ok(Word::Int(i64::from(firing.cpu).cast_unsigned())),
        2 => Ok(Word::Int(i64::from(firing.pid).cast_unsigned())),
        3 => Ok(Word::Int(i64::from(firing.thread).cast_unsigned())),
        _ => {
            let index = v as usize - 4;
            match numbers[index] {
                Some(number) => Ok(Word::Text(number)),
                None => Ok(Word::Text(find(texts, lasting, numbers, firing, index)?)),
            }
        }
    }
}

// The number of the firing's text of this index, which isn't known. The text lasts.
#[inline(never)]
fn find(
    texts: &mut Texts,
    lasting: &mut usize,
    numbers: &mut Numbers,
    firing: &Firing,
    index: usize,
) -> Result<u64, AllocError>
    requires text { index < 5 }
    requires ready { HasFound firing.now texts.old lasting.old numbers.old }
    ensures { FindsText firing.now index texts.old lasting.old result texts.new lasting.new
        numbers.new }
{
    let number = texts.number(text(firing, index))?;
    *lasting = lasting_with(texts, *lasting, Word::Text(number), &[]);
    numbers[index] = Some(number);
    Ok(number)
}

// The firing's time.
#[inline(always)]
fn time(firing: &Firing) -> u64
    ensures { result ≡ firing.now.time }
{
    firing.time
}

// The bytes of the firing's text of this index: of none past the last.
#[inline(always)]
fn text<'a>(firing: &'a Firing, index: usize) -> &'a [u8]
    ensures { result.now ≡ text_at (texts_of firing.now) index }
{
    match index {
        0 => firing.execname.as_bytes(),
        1 => firing.provider.as_bytes(),
        2 => firing.probemod.as_bytes(),
        3 => firing.probefunc.as_bytes(),
        4 => firing.name.as_bytes(),
        _ => &[],
    }
}

/// The firing's argument of this number, 0 past the last.
#[inline(always)]
#[tactic(auto, using(crate::proofs::Knowing::argument_is))]
pub(crate) fn argument(firing: &Firing, n: u64) -> u64
    ensures { result ≡ argument_of firing.now n }
{
    firing.args.nth(n as usize).cast_unsigned()
}
