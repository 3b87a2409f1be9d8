//! Clauses and their statements.

ghost use Rattle.std.specs.Prelude.{[], Some, Ok};
ghost use Rattle.d_types.specs.Steps.Faults.{Gives};
ghost use Rattle.d_types.specs.Steps.Variables.{rows_of_entries};
ghost use Rattle.d_types.specs.Vocabulary.{tree_of, stmt_of, stmts_of, predicate_of, clause_of};
ghost use Rattle.d_types.specs.Typed.{action_of, actions_of, typed_argument, meant_of, aggs_of};
ghost use Rattle.d_types.specs.Steps.Scripts as spec;

use crate::action::action;
use crate::aggregation::{WrittenAggregation, aggregate};
use crate::expression::{expr, line_of};
use crate::fault::TypeFault;
use crate::limits::MAX_NEED;
use crate::needs::fits;
use crate::typed::{TypedAggregation, TypedClause, TypedExpr, TypedStmt};
use crate::variables::Entry;
use d_parser::{Clause, Description, Expr, Stmt};
use d_values::DType;
use std::alloc::Global;

fn test_of(alloc: Global, table: &mut Vec<Entry>, e: &Expr) -> Result<Option<TypedExpr>, TypeFault>
    ensures { Gives (λ p. (typed_argument p, rows_of_entries table.new.items)) result
        (spec.predicate (rows_of_entries table.old.items) (Some (tree_of e.now))) }
{
    let x = expr(alloc, table, e)?;
    if x.type_of() == DType::Text {
        drop(x);
        Err(TypeFault::Mismatch { line: line_of(e) })
    } else if fits(&x, MAX_NEED) {
        Ok(Some(x))
    } else {
        drop(x);
        Err(TypeFault::NoRegister { line: line_of(e) })
    }
}

fn predicate(
    alloc: Global,
    table: &mut Vec<Entry>,
    predicate: &Option<Expr>,
) -> Result<Option<TypedExpr>, TypeFault>
    ensures { Gives (λ p. (typed_argument p, rows_of_entries table.new.items)) result
        (spec.predicate (rows_of_entries table.old.items) (predicate_of predicate.now)) }
{
    match predicate {
        Some(e) => test_of(alloc, table, e),
        None => Ok(None),
    }
}

fn statement(
    alloc: Global,
    table: &mut Vec<Entry>,
    aggs: &mut Vec<TypedAggregation>,
    statement: &Stmt,
) -> Result<TypedStmt, TypeFault>
    ensures { Gives (λ s. (
      action_of s,
      (rows_of_entries table.new.items, aggs_of aggs.new.items),
    )) result
        (spec.statement (rows_of_entries table.old.items) (aggs_of aggs.old.items)
        (stmt_of statement.now)) }
{
    match statement {
        Stmt::Expression(e) => action(alloc, table, e),
        Stmt::Aggregation {
            line,
            name,
            keys,
            function,
            arguments,
        } => {
            let written = WrittenAggregation {
                line: *line,
                name,
                keys,
                function: function.as_slice(),
                arguments,
            };
            aggregate(alloc, table, aggs, written)
        }
    }
}

fn statements(
    alloc: Global,
    table: &mut Vec<Entry>,
    aggs: &mut Vec<TypedAggregation>,
    list: &[Stmt],
) -> Result<Vec<TypedStmt>, TypeFault>
    ensures { Gives
        (λ all. (
          actions_of all.items,
          (rows_of_entries table.new.items, aggs_of aggs.new.items),
        )) result
        (spec.statements [] (rows_of_entries table.old.items) (aggs_of aggs.old.items)
        (stmts_of list.now)) }
{
    let mut done = Vec::new(alloc);
    for stmt in list {
        let typed = statement(alloc, table, aggs, stmt)?;
        done.push(typed)?;
    }
    Ok(done)
}

/// A clause: its predicate comes before its statements.
pub(crate) fn clause(
    alloc: Global,
    table: &mut Vec<Entry>,
    aggs: &mut Vec<TypedAggregation>,
    clause: &Clause,
) -> Result<TypedClause, TypeFault>
    ensures { Gives (λ c. (
      meant_of c,
      (rows_of_entries table.new.items, aggs_of aggs.new.items),
    )) result
        (spec.clause (rows_of_entries table.old.items) (aggs_of aggs.old.items)
        (clause_of clause.now)) }
{
    let predicate = predicate(alloc, table, &clause.predicate)?;
    let statements = statements(alloc, table, aggs, &clause.statements);
    let (predicate, statements) = statements.map(|statements| (predicate, statements))?;
    with_descriptions(alloc, &clause.descriptions, predicate, statements)
}

// A clause with copies of these descriptions.
fn with_descriptions(
    alloc: Global,
    descriptions: &[Description],
    predicate: Option<TypedExpr>,
    statements: Vec<TypedStmt>,
) -> Result<TypedClause, TypeFault>
    ensures { Gives meant_of result (Ok (record {
      descriptions = descriptions.now;
      predicate = typed_argument predicate;
      statements = actions_of statements.items;
    })) }
{
    let clause = Vec::from_clones(alloc, descriptions).map(|descriptions| TypedClause {
        descriptions,
        predicate,
        statements,
    })?;
    Ok(clause)
}
