//! Objects that only load a value.

ghost use Rattle.std.specs.Prelude.{◌≡◌, Some, IfSome};
ghost use Rattle.dif_validate.specs.Loads.{IsAlone, IsArgument, IsElement, Loads};
ghost use Rattle.dif_validate.specs.Objects.{object_of};

use crate::instruction::{Instr, MAX_BUILT_IN};
use crate::object::Difo;
use crate::register::Reg;
use d_values::Var;

/// What an object loads, if it only loads a value and returns it.
#[derive(Clone, Copy, Debug)]
pub enum Load {
    /// The built-in variable of this number.
    BuiltIn(u8),
    /// The firing's argument of this number.
    Argument(u64),
    /// A variable of the clause.
    Local(Var),
    /// A variable of the thread, without a key.
    Scalar(Var),
    /// The element of a variable of the thread at the built-in variable of this number, a text.
    Element(Var, u8),
    /// Nothing: it does more, or something else.
    Nothing,
}

impl Load {
    /// What an object loads.
    pub(crate) fn of(difo: &Difo) -> Load
        ensures { Loads result (object_of difo.now) }
    {
        if let Some(n) = argument_alone(difo) {
            return Load::Argument(n);
        }
        if let Some((x, v)) = element_alone(difo) {
            return Load::Element(x, v);
        }
        match before_return(difo) {
            Some(Instr::Ldgs(v, Reg::R1)) if v <= MAX_BUILT_IN => Load::BuiltIn(v),
            Some(Instr::Ldls(x, Reg::R1)) => Load::Local(x),
            Some(Instr::Ldts(x, Reg::R1)) => Load::Scalar(x),
            _ => Load::Nothing,
        }
    }
}

// The number of the argument that an object loads and returns. None of any other object.
fn argument_alone(difo: &Difo) -> Option<u64>
    ensures { IfSome result (IsArgument (object_of difo.now)) }
{
    let Some(Instr::Ldga(0, Reg::R1, Reg::R1)) = difo.code.get(1) else {
        return None;
    };
    let Some(Instr::Ret(Reg::R1)) = difo.code.get(2) else {
        return None;
    };
    let Some(Instr::Setx(i, Reg::R1)) = difo.code.get(0) else {
        return None;
    };
    let n = difo.numbers.get(*i)?;
    Some(*n)
}

// The variable whose element an object loads and returns, and the built-in variable that is the
// key. None of any other object.
fn element_alone(difo: &Difo) -> Option<(Var, u8)>
    ensures { IfSome result (λ e. IsElement (object_of difo.now) e.0 e.1) }
{
    let Some(Instr::Ldgs(v, Reg::R1)) = difo.code.get(0) else {
        return None;
    };
    let Some(Instr::Pushtr(Reg::R1)) = difo.code.get(1) else {
        return None;
    };
    let Some(Instr::Ldtaa(x, Reg::R1)) = difo.code.get(2) else {
        return None;
    };
    let Some(Instr::Flushts) = difo.code.get(3) else {
        return None;
    };
    let Some(Instr::Ret(Reg::R1)) = difo.code.get(4) else {
        return None;
    };
    if 4 <= *v && *v <= MAX_BUILT_IN {
        Some((*x, *v))
    } else {
        None
    }
}

// The first instruction, if the second returns the first free register.
fn before_return(difo: &Difo) -> Option<Instr>
    ensures { IfSome result (IsAlone (object_of difo.now)) }
{
    let Some(Instr::Ret(Reg::R1)) = difo.code.get(1) else {
        return None;
    };
    let first = difo.code.get(0)?;
    Some(*first)
}
