//! Declarations of variables.

ghost use Rattle.std.specs.Prelude.{◌≡◌, ◌++◌, ◌∷◌, [], IfOk, OnOk, Some};
ghost use Rattle.d_types.specs.{Vocabulary.declaration_of, Constants.declared_type};
ghost use Rattle.d_types.specs.Steps.Faults.{Gives};
ghost use Rattle.d_types.specs.Variables.{find};
ghost use Rattle.d_types.specs.Steps.Variables.{rows_of_entries};
ghost use Rattle.d_types.specs.Steps.Scripts as spec;
ghost use Rattle.d_types.specs.Steps.Scripts.{declared_kinds};

use crate::constants::declared_type;
use crate::fault::TypeFault;
use crate::limits::MAX_KEYS;
use crate::targets::{VariableName, copy_of};
use crate::variables::{Entry, find, kind_of};
use d_parser::{Declaration, DeclaredType};
use d_values::Kind;
use std::alloc::{AllocError, Global};

fn declared_kinds(alloc: Global, keys: &[DeclaredType]) -> Result<Vec<Kind>, AllocError>
    ensures { IfOk result (λ kinds. kinds.items ≡ declared_kinds keys.now) }
{
    keys.iter()
        .map(|key| kind_of(declared_type(*key)))
        .collect(alloc)
}

// A new variable of a known type.
fn add_declared(
    alloc: Global,
    table: &mut Vec<Entry>,
    variable: VariableName<'_>,
    declared: DeclaredType,
    keys: &[DeclaredType],
) -> Result<(), AllocError>
    ensures added { OnOk result (rows_of_entries table.new.items ≡ rows_of_entries table.old.items
        ++ record {
          space = variable.entry.space;
          word = variable.entry.name.now;
          keys = declared_kinds keys.now;
          holds = Some (declared_type declared);
        } ∷ []) }
{
    let space = variable.space;
    let name = copy_of(alloc, variable.name)?;
    let keys = declared_kinds(alloc, keys)?;
    let holds = Some(declared_type(declared));
    table.push(Entry {
        space,
        name,
        keys,
        holds,
    })?;
    Ok(())
}

fn declare(
    alloc: Global,
    table: &mut Vec<Entry>,
    variable: VariableName<'_>,
    declared: DeclaredType,
    keys: &[DeclaredType],
) -> Result<(), TypeFault>
    ensures { Gives (λ x. rows_of_entries table.new.items) result
        (spec.declare variable.entry.space variable.entry.line variable.entry.name.now declared
        keys.now
        (rows_of_entries table.old.items)
        (find variable.entry.space variable.entry.name.now (rows_of_entries table.old.items))) }
{
    let line = variable.line;
    match find(table, variable.space, variable.name.as_slice()) {
        Some(_) => Err(TypeFault::Mismatch { line }),
        None => {
            if keys.len() > MAX_KEYS {
                return Err(TypeFault::Keys { line });
            }
            add_declared(alloc, table, variable, declared, keys)?;
            Ok(())
        }
    }
}

/// A declaration of a variable.
pub(crate) fn declaration(
    alloc: Global,
    table: &mut Vec<Entry>,
    declaration: &Declaration,
) -> Result<(), TypeFault>
    ensures { Gives (λ x. rows_of_entries table.new.items) result
        (spec.declaration (rows_of_entries table.old.items) (declaration_of declaration.now)) }
{
    match declaration {
        Declaration::Thread {
            line,
            declared,
            name,
            keys,
        } => {
            let variable = VariableName::of_thread(*line, name);
            declare(alloc, table, variable, *declared, keys)
        }
        Declaration::Clause {
            line,
            declared,
            name,
        } => {
            let variable = VariableName::of_clause(*line, name);
            declare(alloc, table, variable, *declared, &[])
        }
    }
}
