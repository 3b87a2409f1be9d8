//! Variables, and elements by their keys in registers.

ghost use Rattle.std.specs.Prelude.{◌≡◌, ◌≤◌, ◌+◌, OnOk};
ghost use Rattle.d_types.specs.{Needs.count, Storage.var_of, Typed.typeds_of};
ghost use Rattle.dif_codegen.specs.Steps.Drafts.{Adds};
ghost use Rattle.dif_codegen.specs.Steps.Code.{fetching, element_code, lowering, pushing, saving};

use crate::draft::put;
use crate::operators::{push_of, register};
use d_types::{Space, TypedExpr, Variable, var_of};
use dif_validate::{Difo, Instr, Reg};
use std::alloc::AllocError;

/// A variable, or its element at these keys.
#[derive(Clone, Copy)]
pub(crate) struct Target<'a> {
    /// The variable.
    pub(crate) variable: Variable,
    /// The keys, none if it is the variable itself.
    pub(crate) keys: &'a [TypedExpr],
}

/// The number of the register after the keys.
#[tactic(auto, using(d_types::proofs::Rows::count_is))]
pub(crate) fn after(keys: &[TypedExpr], r: u8) -> u8
    requires few { r + count (typeds_of keys.now) ≤ 7 }
    ensures { result ≡ r + count (typeds_of keys.now) }
{
    r + keys.len() as u8
}

// Makes the values in this register and those after it the parts of a key.
fn put_key(draft: &mut Difo, keys: &[TypedExpr], r: u8) -> Result<(), AllocError>
    requires few { r + count (typeds_of keys.now) ≤ 8 }
    ensures { OnOk result (Adds (pushing (typeds_of keys.now) r) draft.old draft.new) }
{
    let mut q = r;
    for key in keys {
        put(draft, push_of(key.type_of(), register(q)))?;
        q += 1;
    }
    Ok(())
}

// Puts an instruction on an element.
fn put_keyed(draft: &mut Difo, keys: &[TypedExpr], r: u8, i: Instr) -> Result<(), AllocError>
    requires few { r + count (typeds_of keys.now) ≤ 8 }
    ensures { OnOk result (Adds (element_code (typeds_of keys.now) r i) draft.old draft.new) }
{
    put_key(draft, keys, r)?;
    put(draft, i)?;
    put(draft, Instr::Flushts)
}

/// Loads a variable.
pub(crate) fn fetch(draft: &mut Difo, target: Target<'_>, r: u8, d: Reg) -> Result<(), AllocError>
    requires few { r + count (typeds_of target.keys.now) ≤ 8 }
    ensures { OnOk result
        (Adds (fetching target.entry.variable.space (typeds_of target.entry.keys.now)
        (var_of target.entry.variable) r d) draft.old draft.new) }
{
    let Target { variable, keys } = target;
    let var = var_of(variable);
    match variable.space {
        Space::Clause => put(draft, Instr::Ldls(var, d)),
        Space::Thread => match keys {
            [] => put(draft, Instr::Ldts(var, d)),
            _ => put_keyed(draft, keys, r, Instr::Ldtaa(var, d)),
        },
    }
}

/// Stores a variable.
pub(crate) fn save(draft: &mut Difo, target: Target<'_>, r: u8, a: Reg) -> Result<(), AllocError>
    requires few { r + count (typeds_of target.keys.now) ≤ 8 }
    ensures { OnOk result
        (Adds (saving target.entry.variable.space (typeds_of target.entry.keys.now)
        (var_of target.entry.variable) r a) draft.old draft.new) }
{
    let Target { variable, keys } = target;
    let var = var_of(variable);
    match variable.space {
        Space::Clause => put(draft, Instr::Stls(var, a)),
        Space::Thread => match keys {
            [] => put(draft, Instr::Stts(var, a)),
            _ => put_keyed(draft, keys, r, Instr::Sttaa(var, a)),
        },
    }
}

/// Moves a value from behind the keys to where they begin.
pub(crate) fn lower(draft: &mut Difo, keys: &[TypedExpr], a: Reg, d: Reg) -> Result<(), AllocError>
    ensures { OnOk result (Adds (lowering (typeds_of keys.now) a d) draft.old draft.new) }
{
    match keys {
        [] => Ok(()),
        _ => put(draft, Instr::Mov(a, d)),
    }
}
