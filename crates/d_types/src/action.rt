//! Expressions as statements, and actions.

ghost use Rattle.std.specs.Prelude.{◌≡◌, option_map};
ghost use Rattle.d_types.specs.Steps.Faults.{Gives};
ghost use Rattle.d_types.specs.Words.{callee_named};
ghost use Rattle.d_types.specs.Steps.Variables.{rows_of_entries};
ghost use Rattle.d_types.specs.Vocabulary.{tree_of, trees_of, Tree};
ghost use Rattle.d_types.specs.Typed.{typeds_of, action_of, Typeds};
ghost use Rattle.d_types.specs.Steps.Statements as spec;
ghost use Rattle.d_types.specs.Steps.Statements.{text_of_constant};

use crate::calls::only;
use crate::expression::whole;
use crate::fault::TypeFault;
use crate::format::{arguments_fit, pieces};
use crate::typed::{TypedExpr, TypedStmt};
use crate::variables::Entry;
use crate::words::{Callee, callee_named};
use d_lexer::ByteString;
use d_parser::{Constant, Expr};
use d_values::DType;
use std::alloc::Global;

/// The typed trees of whole expressions, which aren't parts of others.
#[tactic(auto, using(crate::proofs::Rows::typeds_push))]
pub(crate) fn wholes(
    alloc: Global,
    table: &mut Vec<Entry>,
    list: &[Expr],
) -> Result<Vec<TypedExpr>, TypeFault>
    ensures { Gives (λ xs. (typeds_of xs.items, rows_of_entries table.new.items)) result
        (spec.wholes Typeds.end (rows_of_entries table.old.items) (trees_of list.now)) }
{
    let mut done = Vec::new(alloc);
    for e in list {
        let x = whole(alloc, table, e)?;
        done.push(x)?;
    }
    Ok(done)
}

// `trace(value)`
fn trace(
    alloc: Global,
    table: &mut Vec<Entry>,
    line: usize,
    args: &[Expr],
) -> Result<TypedStmt, TypeFault>
    ensures { Gives (λ s. (action_of s, rows_of_entries table.new.items)) result
        (spec.trace line (rows_of_entries table.old.items) (trees_of args.now)) }
{
    let args = wholes(alloc, table, args)?;
    match only(args) {
        Some(x) => Ok(TypedStmt::Trace(x)),
        None => Err(TypeFault::Mismatch { line }),
    }
}

// `exit(status)`
fn exit(
    alloc: Global,
    table: &mut Vec<Entry>,
    line: usize,
    args: &[Expr],
) -> Result<TypedStmt, TypeFault>
    ensures { Gives (λ s. (action_of s, rows_of_entries table.new.items)) result
        (spec.exit line (rows_of_entries table.old.items) (trees_of args.now)) }
{
    let args = wholes(alloc, table, args)?;
    let Some(x) = only(args) else {
        return Err(TypeFault::Mismatch { line });
    };
    if x.type_of() == DType::Text {
        drop(x);
        return Err(TypeFault::Mismatch { line });
    }
    Ok(TypedStmt::Exit(x))
}

// `printf(format, arguments)`
fn print_with(
    alloc: Global,
    table: &mut Vec<Entry>,
    line: usize,
    format: &ByteString,
    args: &[Expr],
) -> Result<TypedStmt, TypeFault>
    ensures { Gives (λ s. (action_of s, rows_of_entries table.new.items)) result
        (spec.print_with line (rows_of_entries table.old.items) format.now (trees_of args.now)) }
{
    let args = wholes(alloc, table, args)?;
    let Some(format) = pieces(alloc, format.as_slice())? else {
        return Err(TypeFault::PrintfArguments { line });
    };
    if arguments_fit(&format, &args) {
        Ok(TypedStmt::Print(format, args))
    } else {
        Err(TypeFault::PrintfArguments { line })
    }
}

fn print(
    alloc: Global,
    table: &mut Vec<Entry>,
    line: usize,
    args: &[Expr],
) -> Result<TypedStmt, TypeFault>
    ensures { Gives (λ s. (action_of s, rows_of_entries table.new.items)) result
        (spec.print line (rows_of_entries table.old.items) (trees_of args.now)) }
{
    if let [first, rest @ ..] = args {
        if let Some(format) = text_of(first) {
            return print_with(alloc, table, line, format, rest);
        }
    }
    let _ = wholes(alloc, table, args)?;
    Err(TypeFault::PrintfArguments { line })
}

// The bytes of a text constant.
fn text_of(e: &Expr) -> Option<&ByteString>
    ensures { option_map (λ b. b.now) result ≡ text_of_constant (tree_of e.now) }
{
    match e {
        Expr::Constant {
            constant: Constant::Text(bytes),
            ..
        } => Some(bytes),
        Expr::Constant {
            constant: Constant::Number { .. },
            ..
        }
        | Expr::Read(_)
        | Expr::Call { .. }
        | Expr::Unary { .. }
        | Expr::Cast { .. }
        | Expr::Before { .. }
        | Expr::After { .. }
        | Expr::Binary { .. }
        | Expr::Choice { .. }
        | Expr::Assign { .. } => None,
    }
}

fn evaluate(alloc: Global, table: &mut Vec<Entry>, e: &Expr) -> Result<TypedStmt, TypeFault>
    ensures { Gives (λ s. (action_of s, rows_of_entries table.new.items)) result
        (spec.evaluate (rows_of_entries table.old.items) (tree_of e.now)) }
{
    let x = whole(alloc, table, e)?;
    Ok(TypedStmt::Evaluate(x))
}

// A call that is a whole statement.
#[derive(Clone, Copy)]
struct Call<'a> {
    line: usize,
    name: &'a [u8],
    args: &'a [Expr],
}

fn call_statement(
    alloc: Global,
    table: &mut Vec<Entry>,
    call: Call<'_>,
    e: &Expr,
) -> Result<TypedStmt, TypeFault>
    requires { tree_of e.now ≡ Tree.Call call.line call.name.now (trees_of call.args.now) }
    ensures { Gives (λ s. (action_of s, rows_of_entries table.new.items)) result
        (spec.call_statement (callee_named call.entry.name.now) call.entry.line
        call.entry.name.now (rows_of_entries table.old.items) (trees_of call.entry.args.now)) }
{
    let Call { line, name, args } = call;
    match callee_named(name) {
        Some(Callee::Trace) => trace(alloc, table, line, args),
        Some(Callee::Exit) => exit(alloc, table, line, args),
        Some(Callee::Printf) => print(alloc, table, line, args),
        Some(Callee::Strlen | Callee::Strjoin) | None => evaluate(alloc, table, e),
    }
}

/// An expression that is a whole statement.
pub(crate) fn action(
    alloc: Global,
    table: &mut Vec<Entry>,
    e: &Expr,
) -> Result<TypedStmt, TypeFault>
    ensures { Gives (λ s. (action_of s, rows_of_entries table.new.items)) result
        (spec.action (rows_of_entries table.old.items) (tree_of e.now)) }
{
    match e {
        Expr::Call {
            line,
            function,
            arguments,
        } => {
            let call = Call {
                line: *line,
                name: function.as_slice(),
                args: arguments,
            };
            call_statement(alloc, table, call, e)
        }
        Expr::Constant { .. }
        | Expr::Read(_)
        | Expr::Unary { .. }
        | Expr::Cast { .. }
        | Expr::Before { .. }
        | Expr::After { .. }
        | Expr::Binary { .. }
        | Expr::Choice { .. }
        | Expr::Assign { .. } => evaluate(alloc, table, e),
    }
}
