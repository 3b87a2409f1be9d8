//! The table of variables.

ghost use Rattle.std.specs.Prelude.{◌≡◌, ◌<◌, [], Some, None, IfOk, map};
ghost use Rattle.d_types.specs.{Storage.var_of, Typed.typeds_of};
ghost use Rattle.d_types.specs.Steps.Variables.{rows_of_entries};
ghost use Rattle.d_types.specs.Variables as spec;
ghost use Rattle.d_types.specs.Steps.Variables as steps;

use crate::typed::{Space, TypedExpr, Variable};
use d_lexer::ByteString;
use d_values::{DType, Kind, Var};
use std::alloc::{AllocError, Global};

/// A variable. Its keys are known before its type.
#[derive(Drop)]
pub struct Entry {
    pub space: Space,
    pub name: ByteString,
    pub keys: Vec<Kind>,
    pub holds: Option<DType>,
}

/// Which key a value of the type is.
///
/// ```text
/// kind_of(DType::Text); // Kind::Text
/// ```
pub fn kind_of(t: DType) -> Kind
    ensures { result ≡ spec.kind_of_type t }
{
    match t {
        DType::Int(_) => Kind::Number,
        DType::Text => Kind::Text,
    }
}

/// What tables know a variable by.
///
/// ```text
/// locals.get(var_of(variable)); // what the clause-local variable holds
/// ```
pub fn var_of(x: Variable) -> Var
    ensures { result ≡ var_of x }
{
    Var {
        slot: x.slot,
        kind: kind_of(x.holds),
    }
}

fn is_named(entry: &Entry, space: Space, name: &[u8]) -> bool
    ensures { result ≡ steps.names_row space name.now (steps.row_of_entry entry.now) }
{
    entry.space == space && entry.name.as_slice() == name
}

/// The slot of a variable.
pub(crate) fn find(table: &[Entry], space: Space, name: &[u8]) -> Option<usize>
    ensures { result ≡ spec.find space name.now (rows_of_entries table.now) }
{
    for (slot, entry) in table.iter().enumerate() {
        if is_named(entry, space, name) {
            return Some(slot);
        }
    }
    None
}

/// The type of a slot's variable, once it is known.
#[tactic(auto, using(crate::proofs::Tables::type_at_within, crate::proofs::Tables::type_at_past))]
pub(crate) fn type_at(table: &[Entry], slot: usize) -> Option<DType>
    ensures { result ≡ spec.type_at (rows_of_entries table.now) slot }
{
    if slot < table.len() {
        table[slot].holds
    } else {
        None
    }
}

/// Whether the keys are of the kinds.
pub(crate) fn fit(kinds: &[Kind], keys: &[TypedExpr]) -> bool
    ensures { result ≡ steps.fit kinds.now (typeds_of keys.now) }
{
    match kinds {
        [] => match keys {
            [] => true,
            [_first, ..] => false,
        },
        [kind, other_kinds @ ..] => match keys {
            [] => false,
            [key, other_keys @ ..] => kind_of(key.type_of()) == *kind
                && fit(other_kinds, other_keys),
        },
    }
}

/// Whether a slot has keys of these kinds.
#[tactic(auto, using(crate::proofs::Tables::keys_fit_within, crate::proofs::Tables::keys_fit_past))]
pub(crate) fn keys_fit(table: &[Entry], slot: usize, keys: &[TypedExpr]) -> bool
    ensures { result ≡ steps.keys_fit (rows_of_entries table.now) slot (typeds_of keys.now) }
{
    slot < table.len() && fit(&table[slot].keys, keys)
}

/// Gives a slot's variable its type.
pub(crate) fn set_type(table: &mut [Entry], slot: usize, t: DType)
    ensures { rows_of_entries table.new ≡ spec.set_type slot t (rows_of_entries table.old) }
{
    if slot < table.len() {
        table[slot].holds = Some(t);
    }
}

/// The kinds of keys.
pub(crate) fn kinds_of(alloc: Global, keys: &[TypedExpr]) -> Result<Vec<Kind>, AllocError>
    ensures { IfOk result (λ kinds. kinds.items ≡ spec.kinds_of_typed (typeds_of keys.now)) }
{
    let mut kinds = Vec::new(alloc);
    for key in keys {
        kinds.push(kind_of(key.type_of()))?;
    }
    Ok(kinds)
}

/// The types of all variables.
pub(crate) fn types_in(alloc: Global, table: &[Entry]) -> Result<Vec<Option<DType>>, AllocError>
    ensures { IfOk result (λ types. types.items ≡ map (λ e. e.holds) table.now) }
{
    table.iter().map(|entry| entry.holds).collect(alloc)
}
