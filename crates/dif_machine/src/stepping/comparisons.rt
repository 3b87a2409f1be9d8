//! Instructions that compare, and branches.

ghost use Rattle.dif_machine.specs.Vocabulary.{Cmp, Tst, Scmp, Branch};
ghost use Rattle.dif_machine.specs.Steps.Instructions.{CanExecute, Executes};

use crate::comparing::{compare_numbers, compare_texts, holds};
use crate::machine::Machine;
use crate::onward::{Onward, Step};
use dif_validate::{Condition, Reg};

/// `cmp a, b`: compares two integers.
#[inline(always)]
pub(super) fn cmp(machine: &mut Machine, a: Reg, b: Reg) -> Step
    requires { CanExecute (Cmp a b) machine.old.frame }
    ensures { Executes (Cmp a b) machine.old result machine.new }
{
    let known = compare_numbers(machine.number(a), machine.number(b));
    machine.compare(known);
    Ok(Onward::Next)
}

/// `tst a`: compares an integer with 0.
#[inline(always)]
#[tactic(auto, using(crate::proofs::Executing::still_lasts, crate::proofs::Holding::keeps_refl))]
pub(super) fn tst(machine: &mut Machine, a: Reg) -> Step
    requires { CanExecute (Tst a) machine.old.frame }
    ensures { Executes (Tst a) machine.old result machine.new }
{
    let known = compare_numbers(machine.number(a), 0);
    machine.compare(known);
    Ok(Onward::Next)
}

/// `scmp a, b`: compares two texts.
#[inline(always)]
pub(super) fn scmp(machine: &mut Machine, a: Reg, b: Reg) -> Step
    requires { CanExecute (Scmp a b) machine.old.frame }
    ensures { Executes (Scmp a b) machine.old result machine.new }
{
    let texts = machine.texts();
    let left = texts.text(machine.text_number(a));
    let right = texts.text(machine.text_number(b));
    let known = compare_texts(left, right);
    machine.compare(known);
    Ok(Onward::Next)
}

/// `bCOND to`: goes to an index if COND holds of the last comparison.
#[inline(always)]
#[tactic(auto, using(crate::proofs::Executing::still_lasts, crate::proofs::Holding::keeps_refl))]
pub(super) fn branch(machine: &mut Machine, condition: Condition, to: usize) -> Step
    requires { CanExecute (Branch condition to) machine.old.frame }
    ensures { Executes (Branch condition to) machine.old result machine.new }
{
    let known = machine.compared();
    if holds(condition, known) {
        Ok(Onward::Goes(to))
    } else {
        Ok(Onward::Next)
    }
}
