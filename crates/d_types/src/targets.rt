//! Variables that are read and assigned.

ghost use Rattle.std.specs.Prelude.{◌≡◌, ◌++◌, ◌∷◌, [], IfOk, OnOk, Ok, Err, length};
ghost use Rattle.std.specs.Prelude.{if◌then◌else◌};
ghost use Rattle.d_types.specs.Steps.Faults.{Gives};
ghost use Rattle.d_types.specs.Typed.{typed_of, typeds_of, Typed};
ghost use Rattle.d_types.specs.Variables.{Rows, find, type_at, kinds_of_typed};
ghost use Rattle.d_types.specs.Steps.Variables.{rows_of_entries};
ghost use Rattle.d_types.specs.Targets as spec;
ghost use Rattle.d_types.specs.Steps.Targets as steps;
ghost use Rattle.d_types.specs.Lines.{line_of_variable};

use crate::fault::TypeFault;
use crate::limits::MAX_KEYS;
use crate::typed::{BuiltIn, Space, TypedExpr, Variable};
use crate::variables::{Entry, find, keys_fit, kinds_of, set_type, type_at};
use crate::words::built_in;
use d_lexer::ByteString;
use d_values::DType;
use std::alloc::{AllocError, Global};

/// The line of a variable's first token.
pub(crate) fn line_of_variable(variable: &d_parser::Variable) -> usize
    ensures { result ≡ line_of_variable variable.now }
{
    match variable {
        d_parser::Variable::Plain { line, .. } => *line,
        d_parser::Variable::Thread { line, .. } => *line,
        d_parser::Variable::Clause { line, .. } => *line,
    }
}

/// Where a target is kept.
pub(crate) fn space_of(variable: &d_parser::Variable) -> Space
    ensures { result ≡ spec.space_of variable.now }
{
    match variable {
        d_parser::Variable::Clause { .. } => Space::Clause,
        d_parser::Variable::Plain { .. } | d_parser::Variable::Thread { .. } => Space::Thread,
    }
}

/// A script has at most 65,536 declarations and places of variables, so a slot always fits; this
/// isn't proved, and such a slot would be reported as out of memory.
pub(crate) fn variable_at(space: Space, slot: usize, holds: DType) -> Result<Variable, AllocError>
    ensures ok { IfOk result (λ v. v ≡ record { space = space; slot = slot; holds = holds }) }
{
    match u16::try_from(slot) {
        Ok(slot) => Ok(Variable { space, slot, holds }),
        Err(_) => Err(AllocError),
    }
}

fn read_of(variable: Variable, keys: Vec<TypedExpr>) -> TypedExpr
    ensures { typed_of result ≡ Typed.Read variable (typeds_of keys.items) }
{
    TypedExpr::Read(variable, keys)
}

fn plain(line: usize, named: Option<BuiltIn>, keys: &[TypedExpr]) -> Result<TypedExpr, TypeFault>
    ensures { Gives typed_of result (steps.plain line named (typeds_of keys.now)) }
{
    match (named, keys) {
        (None, _) => Err(TypeFault::Undeclared { line }),
        (Some(built_in), []) => Ok(TypedExpr::BuiltIn(built_in)),
        (Some(_), [_first, ..]) => Err(TypeFault::Keys { line }),
    }
}

fn load_at(
    space: Space,
    line: usize,
    table: &[Entry],
    found: Option<usize>,
    keys: Vec<TypedExpr>,
) -> Result<TypedExpr, TypeFault>
    ensures { Gives typed_of result
        (steps.load_at space line (rows_of_entries table.now) found (typeds_of keys.items)) }
{
    let Some(slot) = found else {
        return Err(TypeFault::Undeclared { line });
    };
    let Some(holds) = type_at(table, slot) else {
        return Err(TypeFault::Undeclared { line });
    };
    if keys_fit(table, slot, &keys) {
        let variable = variable_at(space, slot, holds)?;
        Ok(read_of(variable, keys))
    } else {
        Err(TypeFault::Keys { line })
    }
}

/// A variable of a thread or of the clauses, as the script names it.
#[derive(Clone, Copy)]
pub(crate) struct VariableName<'a> {
    pub(crate) space: Space,
    pub(crate) line: usize,
    pub(crate) name: &'a ByteString,
}

impl<'a> VariableName<'a> {
    /// `self->name`
    pub(crate) fn of_thread(line: usize, name: &'a ByteString) -> VariableName<'a>
        ensures space { result.space ≡ Space.Thread }
        ensures line { result.line ≡ line }
        ensures name { result.name.now ≡ name.now }
    {
        let space = Space::Thread;
        VariableName { space, line, name }
    }

    /// `this->name`
    pub(crate) fn of_clause(line: usize, name: &'a ByteString) -> VariableName<'a>
        ensures space { result.space ≡ Space.Clause }
        ensures line { result.line ≡ line }
        ensures name { result.name.now ≡ name.now }
    {
        let space = Space::Clause;
        VariableName { space, line, name }
    }
}

fn load(
    table: &[Entry],
    variable: VariableName<'_>,
    keys: Vec<TypedExpr>,
) -> Result<TypedExpr, TypeFault>
    ensures { Gives typed_of result
        (steps.load_at variable.entry.space variable.entry.line (rows_of_entries table.now)
        (find variable.entry.space variable.entry.name.now (rows_of_entries table.now))
        (typeds_of keys.items)) }
{
    let found = find(table, variable.space, variable.name.as_slice());
    load_at(variable.space, variable.line, table, found, keys)
}

/// The typed tree of a variable or built-in that is read.
pub(crate) fn read(
    table: &[Entry],
    variable: &d_parser::Variable,
    keys: Vec<TypedExpr>,
) -> Result<TypedExpr, TypeFault>
    ensures { Gives typed_of result
        (steps.read_variable (rows_of_entries table.now) variable.now (typeds_of keys.items)) }
{
    match variable {
        d_parser::Variable::Plain { line, name } => plain(*line, built_in(name.as_slice()), &keys),
        d_parser::Variable::Thread { line, name } => {
            load(table, VariableName::of_thread(*line, name), keys)
        }
        d_parser::Variable::Clause { line, name } => {
            load(table, VariableName::of_clause(*line, name), keys)
        }
    }
}

/// A copy of a name.
pub(crate) fn copy_of(alloc: Global, name: &ByteString) -> Result<ByteString, AllocError>
    ensures ok { IfOk result (λ w. w ≡ name.now) }
{
    ByteString::from_slice(alloc, name.as_slice())
}

fn plain_target(
    alloc: Global,
    line: usize,
    name: &ByteString,
    named: Option<BuiltIn>,
    keys: &[TypedExpr],
) -> Result<usize, TypeFault>
    ensures { (rows : Rows) → Gives (λ slot. (slot, rows)) result
        (steps.plain_target line name.now named (typeds_of keys.now)) }
{
    match (named, keys) {
        (None, _) => {
            let name = copy_of(alloc, name)?;
            Err(TypeFault::GlobalAssignment { name, line })
        }
        (Some(_), []) => Err(TypeFault::ReadOnly { line }),
        (Some(_), [_first, ..]) => Err(TypeFault::Keys { line }),
    }
}

fn most_keys(space: Space) -> usize
    ensures { result ≡ spec.most_keys space }
{
    match space {
        Space::Thread => MAX_KEYS,
        Space::Clause => 0,
    }
}

fn settle(table: &mut [Entry], slot: usize, holds: Option<DType>)
    ensures { rows_of_entries table.new
        ≡ spec.settle_slot (type_at (rows_of_entries table.old) slot) slot holds
        (rows_of_entries table.old) }
{
    match (type_at(table, slot), holds) {
        (None, Some(holds)) => set_type(table, slot, holds),
        (Some(_), _) | (None, None) => {}
    }
}

// A new variable, and its slot.
fn add_entry(
    alloc: Global,
    table: &mut Vec<Entry>,
    variable: VariableName<'_>,
    holds: Option<DType>,
    keys: &[TypedExpr],
) -> Result<usize, AllocError>
    ensures slot { IfOk result (λ slot. slot ≡ length (rows_of_entries table.old.items)) }
    ensures added { OnOk result (rows_of_entries table.new.items ≡ rows_of_entries table.old.items
        ++ spec.new_row variable.entry.space variable.entry.name.now holds
        (kinds_of_typed (typeds_of keys.now)) ∷ []) }
{
    let slot = table.len();
    let space = variable.space;
    let name = copy_of(alloc, variable.name)?;
    let keys = kinds_of(alloc, keys)?;
    table.push(Entry {
        space,
        name,
        keys,
        holds,
    })?;
    Ok(slot)
}

// Refuses a variable with too many keys, or with keys of other kinds.
fn check_keys(fit: bool, line: usize) -> Result<(), TypeFault>
    ensures { result ≡ (if fit then Ok tt else Err (TypeFault.Keys line)) }
{
    if fit {
        Ok(())
    } else {
        Err(TypeFault::Keys { line })
    }
}

fn slot_for(
    alloc: Global,
    table: &mut Vec<Entry>,
    variable: VariableName<'_>,
    holds: Option<DType>,
    keys: &[TypedExpr],
) -> Result<usize, TypeFault>
    ensures { Gives (λ slot. (slot, rows_of_entries table.new.items)) result
        (steps.slot_for variable.entry.space variable.entry.line variable.entry.name.now
        (rows_of_entries table.old.items)
        holds (typeds_of keys.now)
        (find variable.entry.space variable.entry.name.now (rows_of_entries table.old.items))) }
{
    match find(table, variable.space, variable.name.as_slice()) {
        None => {
            check_keys(keys.len() <= most_keys(variable.space), variable.line)?;
            let slot = add_entry(alloc, table, variable, holds, keys)?;
            Ok(slot)
        }
        Some(slot) => {
            check_keys(keys_fit(table, slot, keys), variable.line)?;
            settle(table, slot, holds);
            Ok(slot)
        }
    }
}

/// The slot of a variable that is assigned.
pub(crate) fn target(
    alloc: Global,
    table: &mut Vec<Entry>,
    variable: &d_parser::Variable,
    holds: Option<DType>,
    keys: &[TypedExpr],
) -> Result<usize, TypeFault>
    ensures { Gives (λ slot. (slot, rows_of_entries table.new.items)) result
        (steps.target (rows_of_entries table.old.items) variable.now holds (typeds_of keys.now)) }
{
    match variable {
        d_parser::Variable::Plain { line, name } => {
            plain_target(alloc, *line, name, built_in(name.as_slice()), keys)
        }
        d_parser::Variable::Thread { line, name } => {
            let variable = VariableName::of_thread(*line, name);
            slot_for(alloc, table, variable, holds, keys)
        }
        d_parser::Variable::Clause { line, name } => {
            let variable = VariableName::of_clause(*line, name);
            slot_for(alloc, table, variable, holds, keys)
        }
    }
}
