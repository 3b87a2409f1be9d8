//! Small trees put together.

ghost use Rattle.std.specs.Prelude.{◌≡◌, IfOk};
ghost use Rattle.d_parser.specs.{Vocabulary.Constant};
ghost use Rattle.d_parser.specs.Tree as spec;
ghost use Rattle.d_parser.specs.Steps.Tree as steps;

use crate::operators::{AssignOperator, BinaryOperator, Step, UnaryOperator};
use crate::tree::{Constant, Expr, IntegerType, Target, Variable};
use d_lexer::{ByteString, Suffix};
use std::alloc::{AllocError, Global};

pub(crate) fn call(line: usize, function: ByteString, arguments: Vec<Expr>) -> Expr
    ensures { spec.tree_of result ≡ spec.Call line function (spec.trees_of arguments.items) }
{
    Expr::Call {
        line,
        function,
        arguments,
    }
}

pub(crate) fn target(variable: Variable, keys: Vec<Expr>) -> Target
    ensures { steps.target_of result ≡ (variable, spec.trees_of keys.items) }
{
    Target { variable, keys }
}

pub(crate) fn read(target: Target) -> Expr
    ensures { spec.tree_of result
        ≡ spec.Read (steps.target_of target).0 (steps.target_of target).1 }
{
    Expr::Read(target)
}

fn boxed(alloc: Global, e: Expr) -> Result<Box<Expr>, AllocError>
    ensures ok { IfOk result (λ b. b.value ≡ e) }
{
    let boxed = Box::new(alloc, e)?;
    Ok(boxed)
}

fn boxed_two(alloc: Global, a: Expr, b: Expr) -> Result<(Box<Expr>, Box<Expr>), AllocError>
    ensures ok { IfOk result (λ both. (both.0.value ≡ a) × (both.1.value ≡ b)) }
{
    let a = boxed(alloc, a);
    let (a, b) = a.map(|a| (a, b))?;
    boxed(alloc, b).map(|b| (a, b))
}

fn assignment(operator: AssignOperator, target: Target, value: Box<Expr>) -> Expr
    ensures { spec.tree_of result ≡ spec.Assign operator (steps.target_of target).0
        (steps.target_of target).1 (spec.tree_of value.value) }
{
    Expr::Assign {
        operator,
        target,
        value,
    }
}

pub(crate) fn assign(
    alloc: Global,
    operator: AssignOperator,
    target: Target,
    value: Expr,
) -> Result<Expr, AllocError>
    ensures ok { IfOk result (λ e. spec.tree_of e ≡ spec.Assign operator (steps.target_of target).0
        (steps.target_of target).1 (spec.tree_of value)) }
{
    let value = boxed(alloc, value)?;
    Ok(assignment(operator, target, value))
}

pub(crate) fn before(line: usize, step: Step, target: Target) -> Expr
    ensures { spec.tree_of result
        ≡ spec.Before line step (steps.target_of target).0 (steps.target_of target).1 }
{
    Expr::Before { line, step, target }
}

pub(crate) fn after(target: Target, step: Step) -> Expr
    ensures { spec.tree_of result
        ≡ spec.After (steps.target_of target).0 (steps.target_of target).1 step }
{
    Expr::After { target, step }
}

pub(crate) fn number(line: usize, value: u64, suffix: Suffix) -> Expr
    ensures { spec.tree_of result ≡ spec.Known line (Constant.Number value suffix) }
{
    Expr::Constant {
        line,
        constant: Constant::Number { value, suffix },
    }
}

pub(crate) fn text(line: usize, bytes: ByteString) -> Expr
    ensures { spec.tree_of result ≡ spec.Known line (Constant.Text bytes) }
{
    Expr::Constant {
        line,
        constant: Constant::Text(bytes),
    }
}

pub(crate) fn unary(
    alloc: Global,
    line: usize,
    operator: UnaryOperator,
    operand: Expr,
) -> Result<Expr, AllocError>
    ensures ok { IfOk result
        (λ e. spec.tree_of e ≡ spec.Unary line operator (spec.tree_of operand)) }
{
    let operand = boxed(alloc, operand)?;
    Ok(Expr::Unary {
        line,
        operator,
        operand,
    })
}

pub(crate) fn cast(
    alloc: Global,
    line: usize,
    to: IntegerType,
    operand: Expr,
) -> Result<Expr, AllocError>
    ensures ok { IfOk result (λ e. spec.tree_of e ≡ spec.Cast line to (spec.tree_of operand)) }
{
    let operand = boxed(alloc, operand)?;
    Ok(Expr::Cast { line, to, operand })
}

pub(crate) fn binary(
    alloc: Global,
    operator: BinaryOperator,
    left: Expr,
    right: Expr,
) -> Result<Expr, AllocError>
    ensures ok { IfOk result
        (λ e. spec.tree_of e ≡ spec.Binary operator (spec.tree_of left) (spec.tree_of right)) }
{
    let (left, right) = boxed_two(alloc, left, right)?;
    Ok(Expr::Binary {
        operator,
        left,
        right,
    })
}

pub(crate) fn choice(
    alloc: Global,
    test: Expr,
    first: Expr,
    second: Expr,
) -> Result<Expr, AllocError>
    ensures ok { IfOk result (λ e. spec.tree_of e
        ≡ spec.Choice (spec.tree_of test) (spec.tree_of first) (spec.tree_of second)) }
{
    let sides = boxed_two(alloc, first, second);
    let (test, (first, second)) = sides.map(|sides| (test, sides))?;
    boxed(alloc, test).map(|test| Expr::Choice {
        test,
        first,
        second,
    })
}
