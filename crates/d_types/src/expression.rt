//! From trees of expressions to typed ones.

ghost use Rattle.std.specs.Prelude.{◌≡◌, IfOk, option_map};
ghost use Rattle.d_types.specs.Steps.Variables.{rows_of_entries};
ghost use Rattle.d_types.specs.Vocabulary.{tree_of, trees_of, Tree, Int};
ghost use Rattle.d_types.specs.Steps.Faults.{Gives, OnlyMemory};
ghost use Rattle.d_types.specs.Typed.{typed_of, typeds_of, type_of, Typeds};
ghost use Rattle.d_types.specs.Variables.{Rows, type_at};
ghost use Rattle.d_types.specs.{Words.callee_named};
ghost use Rattle.d_types.specs.Constants as constants;
ghost use Rattle.d_types.specs.Steps.Operators as operators;
ghost use Rattle.d_types.specs.Targets as targets;
ghost use Rattle.d_types.specs.Steps.Targets as target_steps;
ghost use Rattle.d_types.specs.Steps.Typing as spec;
ghost use Rattle.d_types.specs.Lines.{line_of};

use crate::assignments::{Assignee, StepOperator, assignment, step, type_at_once};
use crate::calls::call;
use crate::constants::{int_type, integer, type_of_constant};
use crate::fault::TypeFault;
use crate::limits::MAX_NEED;
use crate::needs::fits;
use crate::operations::{as_type, binary, choice, unary};
use crate::targets::{line_of_variable, read, space_of, target};
use crate::typed::{Answer, TypedExpr};
use crate::variables::{Entry, type_at};
use crate::words::callee_named;
use d_parser::{
    AssignOperator, BinaryOperator, Constant, Expr, IntegerType, Step, Target, UnaryOperator,
    Variable,
};
use d_values::{DType, join_text};
use std::alloc::Global;

/// The line of the first token.
pub(crate) fn line_of(e: &Expr) -> usize
    ensures { result ≡ line_of (tree_of e.now) }
{
    match e {
        Expr::Constant { line, .. } => *line,
        Expr::Read(target) => line_of_variable(&target.variable),
        Expr::Call { line, .. } => *line,
        Expr::Unary { line, .. } => *line,
        Expr::Cast { line, .. } => *line,
        Expr::Before { line, .. } => *line,
        Expr::After { target, .. } => line_of_variable(&target.variable),
        Expr::Binary { left, .. } => line_of(left),
        Expr::Choice { test, .. } => line_of(test),
        Expr::Assign { target, .. } => line_of_variable(&target.variable),
    }
}

// What is typed, or that its construct, on the line, doesn't take such operands.
fn typed_or_mismatch(line: usize, typed: Option<TypedExpr>) -> Result<TypedExpr, TypeFault>
    ensures { (rows : Rows) → Gives (λ x. (typed_of x, rows)) result
        (spec.fitting line (spec.beside rows (option_map typed_of typed))) }
{
    match typed {
        Some(x) => Ok(x),
        None => Err(TypeFault::Mismatch { line }),
    }
}

// A text is cut to its first 255 bytes.
fn constant_expr(alloc: Global, constant: &Constant) -> Result<TypedExpr, TypeFault>
    ensures ok { IfOk result (λ x. typed_of x ≡ constants.constant constant.now) }
    ensures err { OnlyMemory result }
{
    match constant {
        Constant::Number { value, suffix } => {
            Ok(TypedExpr::Constant(type_of_constant(*value, *suffix), *value))
        }
        Constant::Text(bytes) => { Ok(TypedExpr::Text(join_text(alloc, bytes.as_slice(), &[])?)) }
    }
}

/// The typed tree of an expression, whole or part of another.
#[cycle(typing)]
pub(crate) fn expr(alloc: Global, table: &mut Vec<Entry>, e: &Expr) -> Result<TypedExpr, TypeFault>
    ensures { Gives (λ x. (typed_of x, rows_of_entries table.new.items)) result
        (spec.expr (rows_of_entries table.old.items) (tree_of e.now)) }
{
    match e {
        Expr::Constant { constant, .. } => constant_expr(alloc, constant),
        Expr::Read(target) => read_expr(alloc, table, target),
        Expr::Call {
            line,
            function,
            arguments,
        } => call_expr(alloc, table, *line, function.as_slice(), arguments),
        Expr::Unary {
            line,
            operator,
            operand,
        } => unary_expr(alloc, table, *line, *operator, operand),
        Expr::Cast { line, to, operand } => cast_expr(alloc, table, *line, *to, operand),
        Expr::Before { line, step, target } => before_expr(alloc, table, *line, *step, target),
        Expr::After { target, step } => after_expr(alloc, table, target, *step),
        Expr::Binary {
            operator,
            left,
            right,
        } => binary_expr(alloc, table, *operator, left, right),
        Expr::Choice {
            test,
            first,
            second,
        } => choice_expr(alloc, table, test, first, second),
        Expr::Assign {
            operator,
            target,
            value,
        } => assign_expr(alloc, table, *operator, target, value),
    }
}

#[cycle(typing)]
fn unary_expr(
    alloc: Global,
    table: &mut Vec<Entry>,
    line: usize,
    operator: UnaryOperator,
    operand: &Expr,
) -> Result<TypedExpr, TypeFault>
    ensures { Gives (λ x. (typed_of x, rows_of_entries table.new.items)) result
        (spec.expr (rows_of_entries table.old.items)
        (Tree.Unary line operator (tree_of operand.now))) }
{
    let x = expr(alloc, table, operand)?;
    unary_rest(alloc, line, operator, x)
}

// A unary operator, once its operand is typed.
fn unary_rest(
    alloc: Global,
    line: usize,
    operator: UnaryOperator,
    x: TypedExpr,
) -> Result<TypedExpr, TypeFault>
    ensures { (rows : Rows) → Gives (λ y. (typed_of y, rows)) result
        (spec.fitting line
        (spec.beside rows (operators.unary operator (type_of (typed_of x)) (typed_of x)))) }
{
    let typed = unary(alloc, operator, x)?;
    typed_or_mismatch(line, typed)
}

#[cycle(typing)]
fn cast_expr(
    alloc: Global,
    table: &mut Vec<Entry>,
    line: usize,
    to: IntegerType,
    operand: &Expr,
) -> Result<TypedExpr, TypeFault>
    ensures { Gives (λ x. (typed_of x, rows_of_entries table.new.items)) result
        (spec.expr (rows_of_entries table.old.items) (Tree.Cast line to (tree_of operand.now))) }
{
    let x = expr(alloc, table, operand)?;
    cast_rest(alloc, line, to, x)
}

// A cast, once its operand is typed.
fn cast_rest(
    alloc: Global,
    line: usize,
    to: IntegerType,
    x: TypedExpr,
) -> Result<TypedExpr, TypeFault>
    ensures { (rows : Rows) → Gives (λ y. (typed_of y, rows)) result
        (spec.fitting line
        (spec.beside rows (operators.as_type (type_of (typed_of x)) (Int (constants.int_type to))
        (typed_of x)))) }
{
    let typed = as_type(alloc, DType::Int(int_type(to)), x)?;
    typed_or_mismatch(line, typed)
}

#[cycle(typing)]
fn binary_expr(
    alloc: Global,
    table: &mut Vec<Entry>,
    operator: BinaryOperator,
    left: &Expr,
    right: &Expr,
) -> Result<TypedExpr, TypeFault>
    ensures { Gives (λ x. (typed_of x, rows_of_entries table.new.items)) result
        (spec.expr (rows_of_entries table.old.items)
        (Tree.Binary operator (tree_of left.now) (tree_of right.now))) }
{
    let x = expr(alloc, table, left)?;
    let y = expr(alloc, table, right);
    let (x, y) = y.map(|y| (x, y))?;
    binary_rest(alloc, line_of(left), operator, x, y)
}

// A binary operator, once its operands are typed.
fn binary_rest(
    alloc: Global,
    line: usize,
    operator: BinaryOperator,
    x: TypedExpr,
    y: TypedExpr,
) -> Result<TypedExpr, TypeFault>
    ensures { (rows : Rows) → Gives (λ z. (typed_of z, rows)) result
        (spec.fitting line
        (spec.beside rows (operators.binary operator (type_of (typed_of x))
        (type_of (typed_of y)) (typed_of x) (typed_of y)))) }
{
    let typed = binary(alloc, operator, x, y)?;
    typed_or_mismatch(line, typed)
}

#[cycle(typing)]
fn read_expr(alloc: Global, table: &mut Vec<Entry>, target: &Target) -> Result<TypedExpr, TypeFault>
    ensures { Gives (λ x. (typed_of x, rows_of_entries table.new.items)) result
        (spec.expr (rows_of_entries table.old.items)
        (Tree.Read target.now.variable (trees_of target.now.keys.items))) }
{
    let keys = exprs(alloc, table, &target.keys)?;
    read(table, &target.variable, keys)
}

#[cycle(typing)]
fn call_expr(
    alloc: Global,
    table: &mut Vec<Entry>,
    line: usize,
    function: &[u8],
    args: &[Expr],
) -> Result<TypedExpr, TypeFault>
    ensures { Gives (λ x. (typed_of x, rows_of_entries table.new.items)) result
        (spec.expr (rows_of_entries table.old.items)
        (Tree.Call line function.now (trees_of args.now))) }
{
    let args = exprs(alloc, table, args)?;
    call_rest(alloc, line, function, args)
}

// A call, once its arguments are typed.
fn call_rest(
    alloc: Global,
    line: usize,
    function: &[u8],
    args: Vec<TypedExpr>,
) -> Result<TypedExpr, TypeFault>
    ensures { (rows : Rows) → Gives (λ x. (typed_of x, rows)) result
        (spec.typed_call line (callee_named function.now) (typeds_of args.items) rows) }
{
    let Some(callee) = callee_named(function) else {
        return Err(TypeFault::Undeclared { line });
    };
    let typed = call(alloc, callee, args)?;
    typed_or_mismatch(line, typed)
}

// What is assigned, once its keys are typed.
#[derive(Drop)]
struct TypedTarget<'a> {
    variable: &'a Variable,
    keys: Vec<TypedExpr>,
}

// `++` and `--`, once the keys are typed.
fn step_rest(
    alloc: Global,
    table: &mut Vec<Entry>,
    operator: StepOperator,
    to: TypedTarget<'_>,
) -> Result<TypedExpr, TypeFault>
    ensures { Gives (λ x. (typed_of x, rows_of_entries table.new.items)) result
        (spec.step_rest (rows_of_entries table.old.items) operator.line operator.by operator.answer
        to.entry.variable.now (typeds_of to.entry.keys.items)) }
{
    let TypedTarget { variable, keys } = to;
    let long = Some(integer(IntegerType::Int64));
    let slot = target(alloc, table, variable, long, &keys)?;
    let space = space_of(variable);
    step(table, operator, Assignee { space, slot, keys })
}

#[cycle(typing)]
fn before_expr(
    alloc: Global,
    table: &mut Vec<Entry>,
    line: usize,
    by: Step,
    target: &Target,
) -> Result<TypedExpr, TypeFault>
    ensures { Gives (λ x. (typed_of x, rows_of_entries table.new.items)) result
        (spec.expr (rows_of_entries table.old.items)
        (Tree.Before line by target.now.variable (trees_of target.now.keys.items))) }
{
    let variable = &target.variable;
    let keys = exprs(alloc, table, &target.keys)?;
    let answer = Answer::New;
    let operator = StepOperator { line, by, answer };
    step_rest(alloc, table, operator, TypedTarget { variable, keys })
}

#[cycle(typing)]
fn after_expr(
    alloc: Global,
    table: &mut Vec<Entry>,
    target: &Target,
    by: Step,
) -> Result<TypedExpr, TypeFault>
    ensures { Gives (λ x. (typed_of x, rows_of_entries table.new.items)) result
        (spec.expr (rows_of_entries table.old.items)
        (Tree.After target.now.variable (trees_of target.now.keys.items) by)) }
{
    let variable = &target.variable;
    let keys = exprs(alloc, table, &target.keys)?;
    let line = line_of_variable(variable);
    let answer = Answer::Old;
    let operator = StepOperator { line, by, answer };
    step_rest(alloc, table, operator, TypedTarget { variable, keys })
}

#[cycle(typing)]
fn choice_expr(
    alloc: Global,
    table: &mut Vec<Entry>,
    test: &Expr,
    first: &Expr,
    second: &Expr,
) -> Result<TypedExpr, TypeFault>
    ensures { Gives (λ x. (typed_of x, rows_of_entries table.new.items)) result
        (spec.expr (rows_of_entries table.old.items)
        (Tree.Choice (tree_of test.now) (tree_of first.now) (tree_of second.now))) }
{
    let x = expr(alloc, table, test)?;
    let y = expr(alloc, table, first);
    let (x, y) = y.map(|y| (x, y))?;
    let z = expr(alloc, table, second);
    let (x, y, z) = z.map(|z| (x, y, z))?;
    choice_rest(alloc, line_of(test), x, y, z)
}

// `x ? y : z`, once the three are typed.
fn choice_rest(
    alloc: Global,
    line: usize,
    x: TypedExpr,
    y: TypedExpr,
    z: TypedExpr,
) -> Result<TypedExpr, TypeFault>
    ensures { (rows : Rows) → Gives (λ w. (typed_of w, rows)) result
        (spec.fitting line
        (spec.beside rows (operators.choice (type_of (typed_of x)) (type_of (typed_of y))
        (type_of (typed_of z)) (typed_of x) (typed_of y) (typed_of z)))) }
{
    let typed = choice(alloc, x, y, z)?;
    typed_or_mismatch(line, typed)
}

#[cycle(typing)]
fn assign_expr(
    alloc: Global,
    table: &mut Vec<Entry>,
    operator: AssignOperator,
    target: &Target,
    value: &Expr,
) -> Result<TypedExpr, TypeFault>
    ensures { Gives (λ x. (typed_of x, rows_of_entries table.new.items)) result
        (spec.expr (rows_of_entries table.old.items)
        (Tree.Assign operator target.now.variable (trees_of target.now.keys.items)
        (tree_of value.now))) }
{
    let keys = exprs(alloc, table, &target.keys)?;
    let variable = &target.variable;
    assign_rest(
        alloc,
        table,
        operator,
        TypedTarget { variable, keys },
        value,
    )
}

// An assignment, once its target's keys are typed.
#[cycle(typing)]
fn assign_rest(
    alloc: Global,
    table: &mut Vec<Entry>,
    operator: AssignOperator,
    to: TypedTarget<'_>,
    value: &Expr,
) -> Result<TypedExpr, TypeFault>
    ensures { Gives (λ x. (typed_of x, rows_of_entries table.new.items)) result
        (spec.assign_rest (rows_of_entries table.old.items) operator to.entry.variable.now
        (typeds_of to.entry.keys.items) (tree_of value.now)) }
{
    let line = line_of_variable(to.variable);
    let assignee = assignee(alloc, table, operator, to)?;
    let x = expr(alloc, table, value)?;
    assignment_rest(alloc, table, line, operator, assignee, x)
}

// The slot that is assigned, under its keys.
fn assignee(
    alloc: Global,
    table: &mut Vec<Entry>,
    operator: AssignOperator,
    to: TypedTarget<'_>,
) -> Result<Assignee, TypeFault>
    ensures slot { Gives (λ a. (a.slot, rows_of_entries table.new.items)) result
        (target_steps.target (rows_of_entries table.old.items) to.entry.variable.now
        (targets.type_at_once operator) (typeds_of to.entry.keys.items)) }
    ensures rest { IfOk result (λ a. (a.space ≡ targets.space_of to.entry.variable.now)
        × (a.keys ≡ to.entry.keys)) }
{
    let TypedTarget { variable, keys } = to;
    let slot = target(alloc, table, variable, type_at_once(operator), &keys)?;
    let space = space_of(variable);
    Ok(Assignee { space, slot, keys })
}

// An assignment, once its right side is typed.
fn assignment_rest(
    alloc: Global,
    table: &mut [Entry],
    line: usize,
    operator: AssignOperator,
    to: Assignee,
    x: TypedExpr,
) -> Result<TypedExpr, TypeFault>
    ensures { Gives (λ y. (typed_of y, rows_of_entries table.new)) result
        (spec.fitting line
        (target_steps.assignment operator to.space (type_at (rows_of_entries table.old) to.slot)
        (type_of (typed_of x)) to.slot (typeds_of to.keys.items) (typed_of x)
        (rows_of_entries table.old))) }
{
    let typed = assignment(alloc, table, operator, to, x)?;
    match typed {
        Some(y) => Ok(y),
        None => Err(TypeFault::Mismatch { line }),
    }
}

#[cycle(typing)]
#[tactic(auto, using(crate::proofs::Rows::typeds_push))]
pub(crate) fn exprs(
    alloc: Global,
    table: &mut Vec<Entry>,
    list: &[Expr],
) -> Result<Vec<TypedExpr>, TypeFault>
    ensures { Gives (λ xs. (typeds_of xs.items, rows_of_entries table.new.items)) result
        (spec.exprs Typeds.end (rows_of_entries table.old.items) (trees_of list.now)) }
{
    let mut done = Vec::new(alloc);
    for e in list {
        let x = expr(alloc, table, e)?;
        done.push(x)?;
    }
    Ok(done)
}

/// The typed tree of a whole expression, which isn't part of another.
pub(crate) fn whole(alloc: Global, table: &mut Vec<Entry>, e: &Expr) -> Result<TypedExpr, TypeFault>
    ensures { Gives (λ x. (typed_of x, rows_of_entries table.new.items)) result
        (spec.whole (rows_of_entries table.old.items) (tree_of e.now)) }
{
    let x = expr(alloc, table, e)?;
    if fits(&x, MAX_NEED) {
        Ok(x)
    } else {
        drop(x);
        Err(TypeFault::NoRegister { line: line_of(e) })
    }
}
