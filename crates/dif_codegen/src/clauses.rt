//! Statements, clauses and scripts to compiled ones.

ghost use Rattle.std.specs.Prelude.{◌≡◌, IfOk, map};
ghost use Rattle.d_types.specs.{Fitting.FitsRegisters, TypedScripts.typed_script_of};
ghost use Rattle.d_types.specs.Held.{IsConsistent, Slots};
ghost use Rattle.d_types.specs.Typed.{action_of, actions_of, meant_of, typed_argument, typeds_of};
ghost use Rattle.d_types.specs.Typed.{Aggregate, Print, types_of};
ghost use Rattle.d_types.specs.Wholes.{ActionIs, ActionsAre, ClauseIs, ClausesAre, EachIs};
ghost use Rattle.dif_codegen.specs.{Meaning.IsProgramOf};
ghost use Rattle.dif_codegen.specs.Programs.{action_code, clause_code};
ghost use Rattle.dif_codegen.specs.Steps.Programs.{compiled_action};
ghost use Rattle.dif_codegen.specs.Steps.Programs.{compiled_clause};

use crate::compiling::{compile_expression, compile_expressions, compile_optional};
use crate::program::{Action, CompiledClause, Program};
use d_types::{Piece, TypedClause, TypedExpr, TypedScript, TypedStmt};
use std::alloc::{AllocError, Global};

// `printf(format, arguments)`
fn compile_printf(
    alloc: Global,
    format: &[Piece],
    arguments: &[TypedExpr],
) -> Result<Action, AllocError>
    requires few { EachIs FitsRegisters (typeds_of arguments.now) }
    requires consistent { (slots : Slots) × EachIs (IsConsistent slots) (typeds_of arguments.now) }
    ensures { IfOk result (λ a. action_code a ≡ compiled_action
        (Print format.now (types_of (typeds_of arguments.now)) (typeds_of arguments.now))) }
{
    let arguments = compile_expressions(alloc, arguments)?;
    let format: Vec<Piece> = format.to_vec(alloc)?;
    Ok(Action::Printf(format, arguments))
}

// `@name[keys] = function(argument)`
fn compile_aggregate(
    alloc: Global,
    index: usize,
    keys: &[TypedExpr],
    argument: &Option<TypedExpr>,
) -> Result<Action, AllocError>
    requires few { ActionIs FitsRegisters
        (Aggregate index (typeds_of keys.now) (typed_argument argument.now)) }
    requires consistent { (slots : Slots) × ActionIs (IsConsistent slots)
        (Aggregate index (typeds_of keys.now) (typed_argument argument.now)) }
    ensures { IfOk result (λ a. action_code a ≡ compiled_action
        (Aggregate index (typeds_of keys.now) (typed_argument argument.now))) }
{
    let keys = compile_expressions(alloc, keys)?;
    let argument = compile_optional(alloc, argument)?;
    Ok(Action::Aggregate(index, keys, argument))
}

fn compile_statement(alloc: Global, s: &TypedStmt) -> Result<Action, AllocError>
    requires few { ActionIs FitsRegisters (action_of s.now) }
    requires consistent { (slots : Slots) × ActionIs (IsConsistent slots) (action_of s.now) }
    ensures { IfOk result (λ a. action_code a ≡ compiled_action (action_of s.now)) }
{
    match s {
        TypedStmt::Evaluate(e) => compile_expression(alloc, e).map(Action::Plain),
        TypedStmt::Trace(e) => compile_expression(alloc, e).map(Action::Trace),
        TypedStmt::Print(format, arguments) => compile_printf(alloc, format, arguments),
        TypedStmt::Exit(e) => compile_expression(alloc, e).map(Action::Exit),
        TypedStmt::Aggregate(index, keys, argument) => {
            compile_aggregate(alloc, *index, keys, argument)
        }
    }
}

fn compile_statements(alloc: Global, all: &[TypedStmt]) -> Result<Vec<Action>, AllocError>
    requires few { ActionsAre FitsRegisters (actions_of all.now) }
    requires consistent { (slots : Slots) × ActionsAre (IsConsistent slots) (actions_of all.now) }
    ensures { IfOk result (λ v. map action_code v.items
        ≡ map compiled_action (actions_of all.now)) }
{
    let mut actions = Vec::new(alloc);
    for s in all {
        let action = compile_statement(alloc, s)?;
        actions.push(action)?;
    }
    Ok(actions)
}

fn compile_clause(alloc: Global, c: &TypedClause) -> Result<CompiledClause, AllocError>
    requires few { ClauseIs FitsRegisters (meant_of c.now) }
    requires consistent { (slots : Slots) × ClauseIs (IsConsistent slots) (meant_of c.now) }
    ensures { IfOk result (λ r. clause_code r ≡ compiled_clause (meant_of c.now)) }
{
    let descriptions = c.descriptions.clone()?;
    let predicate = compile_optional(alloc, &c.predicate)?;
    let actions = compile_statements(alloc, &c.statements)?;
    Ok(CompiledClause {
        descriptions,
        predicate,
        actions,
    })
}

fn compile_clauses(alloc: Global, all: &[TypedClause]) -> Result<Vec<CompiledClause>, AllocError>
    requires few { ClausesAre FitsRegisters (map meant_of all.now) }
    requires consistent { (slots : Slots) × ClausesAre (IsConsistent slots) (map meant_of all.now) }
    ensures { IfOk result (λ v. map clause_code v.items
        ≡ map compiled_clause (map meant_of all.now)) }
{
    let mut clauses = Vec::new(alloc);
    for c in all {
        let clause = compile_clause(alloc, c)?;
        clauses.push(clause)?;
    }
    Ok(clauses)
}

/// The program of a script: each expression is an object of its own. Refused for memory alone.
///
/// ```text
/// let program = compile(alloc, &script)?; // of `hit { trace(timestamp); }`
/// println!(rt; "{program}")?;
/// // clause
/// //   trace
/// //     ldgs 0, r1
/// //     ret r1
/// ```
pub fn compile(alloc: Global, script: &TypedScript) -> Result<Program, AllocError>
    ensures { IfOk result
        (λ p. IsProgramOf (typed_script_of script.now) p.clauses.items p.functions.items) }
{
    let functions = script.functions(alloc)?;
    let clauses = compile_clauses(alloc, script.clauses())?;
    Ok(Program { clauses, functions })
}
