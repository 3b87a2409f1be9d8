//! Instructions on the tuple.

ghost use Rattle.dif_machine.specs.Vocabulary.{Pushtr, Pushtv, Call};
ghost use Rattle.dif_machine.specs.Steps.Instructions.{CanExecute, Executes};

use crate::machine::Machine;
use crate::onward::{Onward, Step};
use dif_validate::{Function, Reg};
use numbered::Word;

/// `pushtr a`: adds a text.
#[inline(always)]
pub(super) fn pushtr(machine: &mut Machine, a: Reg) -> Step
    requires { CanExecute (Pushtr a) machine.old.frame }
    ensures { Executes (Pushtr a) machine.old result machine.new }
{
    let number = machine.text_number(a);
    machine.push(Word::Text(number));
    Ok(Onward::Next)
}

/// `pushtv a`: adds an integer.
#[inline(always)]
pub(super) fn pushtv(machine: &mut Machine, a: Reg) -> Step
    requires { CanExecute (Pushtv a) machine.old.frame }
    ensures { Executes (Pushtv a) machine.old result machine.new }
{
    let word = machine.number(a);
    machine.push(Word::Int(word));
    Ok(Onward::Next)
}

/// `call f, d`: what a function makes of the tuple.
#[inline(always)]
pub(super) fn call(machine: &mut Machine, function: Function, d: Reg) -> Step
    requires { CanExecute (Call function d) machine.old.frame }
    ensures { Executes (Call function d) machine.old result machine.new }
{
    let word = machine.call(function)?;
    machine.put(d, word);
    Ok(Onward::Next)
}
