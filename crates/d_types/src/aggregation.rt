//! Aggregation statements.

ghost use Rattle.std.specs.Prelude.{◌≡◌, ◌++◌, ◌∷◌, [], IfOk, OnOk, Some, None, length, option_map};
ghost use Rattle.d_types.specs.Vocabulary.{tree_of, trees_of};
ghost use Rattle.d_types.specs.Steps.Faults.{Gives};
ghost use Rattle.d_types.specs.Typed.{typed_of, typeds_of, types_of, action_of, aggs_of, Aggs};
ghost use Rattle.d_types.specs.Typed.{agg_of};
ghost use Rattle.d_types.specs.Variables.{kinds_of_typed};
ghost use Rattle.d_types.specs.Steps.Variables.{rows_of_entries};
ghost use Rattle.std.specs.List.{list_all};
ghost use Rattle.d_types.specs.Aggregations as spec;
ghost use Rattle.d_types.specs.Steps.Aggregations as steps;

use crate::action::wholes;
use crate::fault::TypeFault;
use crate::limits::MAX_KEYS;
use crate::targets::copy_of;
use crate::typed::{TypedAggregation, TypedExpr, TypedStmt};
use crate::variables::{Entry, fit, kinds_of};
use crate::words::{Aggregating, aggregating_named};
use aggregations::{AggFn, LinearRange, MAX_STEP};
use d_lexer::ByteString;
use d_parser::{Constant, Expr, UnaryOperator};
use d_values::DType;
use std::alloc::{AllocError, Global};

fn number_of(e: &Expr) -> Option<u64>
    ensures { result ≡ spec.natural (tree_of e.now) }
{
    match e {
        Expr::Constant {
            constant: Constant::Number { value, .. },
            ..
        } => Some(*value),
        Expr::Constant {
            constant: Constant::Text(_),
            ..
        }
        | Expr::Read(_)
        | Expr::Call { .. }
        | Expr::Unary { .. }
        | Expr::Cast { .. }
        | Expr::Before { .. }
        | Expr::After { .. }
        | Expr::Binary { .. }
        | Expr::Choice { .. }
        | Expr::Assign { .. } => None,
    }
}

fn positive(value: Option<u64>) -> Option<i32>
    ensures { result ≡ steps.positive value }
{
    match value {
        Some(value) if value <= 2147483647 => Some(value as i32),
        _ => None,
    }
}

fn negative(value: Option<u64>) -> Option<i32>
    ensures { result ≡ steps.negative value }
{
    match value {
        Some(value) if value <= 2147483648 => Some((-(value as i64)) as i32),
        _ => None,
    }
}

// A bound: a constant, perhaps with one minus.
fn bound(e: &Expr) -> Option<i32>
    ensures { result ≡ steps.bound (tree_of e.now) }
{
    match e {
        Expr::Unary {
            operator: UnaryOperator::Negate,
            operand,
            ..
        } => negative(number_of(operand)),
        Expr::Unary {
            operator: UnaryOperator::Not | UnaryOperator::Complement | UnaryOperator::Keep,
            ..
        } => None,
        Expr::Constant { .. } => positive(number_of(e)),
        Expr::Read(_)
        | Expr::Call { .. }
        | Expr::Cast { .. }
        | Expr::Before { .. }
        | Expr::After { .. }
        | Expr::Binary { .. }
        | Expr::Choice { .. }
        | Expr::Assign { .. } => None,
    }
}

fn step(e: &Expr) -> Option<u16>
    ensures { result ≡ steps.small (spec.natural (tree_of e.now)) }
{
    match number_of(e) {
        Some(value) if value <= MAX_STEP as u64 => Some(value as u16),
        _ => None,
    }
}

fn linear(range: Option<LinearRange>) -> Option<AggFn>
    ensures { result ≡ option_map AggFn.Lquantize range }
{
    match range {
        Some(range) => Some(AggFn::Lquantize(range)),
        None => None,
    }
}

fn buckets(lower: Option<i32>, upper: Option<i32>, step: Option<u16>) -> Option<AggFn>
    ensures { result ≡ spec.buckets_between lower upper step }
{
    match (lower, upper, step) {
        (Some(lower), Some(upper), Some(step)) => { linear(LinearRange::new(lower, upper, step)) }
        _ => None,
    }
}

fn lquantize(args: &[Expr]) -> Option<AggFn>
    ensures { result ≡ steps.lquantize_by_bounds (trees_of args.now) }
{
    match args {
        [_value, lower, upper] => buckets(bound(lower), bound(upper), Some(1)),
        [_value, lower, upper, width] => buckets(bound(lower), bound(upper), step(width)),
        [] => None,
        [_value] => None,
        [_value, _lower] => None,
        [_value, _lower, _upper, _width, _more, ..] => None,
    }
}

// An aggregating function with its bounds. None if they aren't in range.
#[tactic(auto, using(crate::proofs::Bounds::lquantize_kept))]
fn function_of(aggregating: Aggregating, args: &[Expr]) -> Option<AggFn>
    ensures { result ≡ spec.function aggregating (trees_of args.now) }
{
    match aggregating {
        Aggregating::Named(function) => Some(function),
        Aggregating::Lquantize => lquantize(args),
    }
}

fn is_integer(t: DType) -> bool
    ensures { result ≡ spec.is_integer t }
{
    matches!(t, DType::Int(_))
}

fn integers(args: &[TypedExpr]) -> bool
    ensures { result ≡ list_all spec.is_integer (types_of (typeds_of args.now)) }
{
    match args {
        [] => true,
        [first, rest @ ..] => is_integer(first.type_of()) && integers(rest),
    }
}

fn takes(aggregating: Aggregating, n: usize) -> bool
    ensures { result ≡ spec.takes_arguments aggregating n }
{
    match aggregating {
        Aggregating::Named(AggFn::Count) => n <= 0,
        Aggregating::Lquantize => 3 <= n && n <= 4,
        Aggregating::Named(
            AggFn::Sum
            | AggFn::Min
            | AggFn::Max
            | AggFn::Avg
            | AggFn::Quantize
            | AggFn::Lquantize(_),
        ) => 1 <= n && n <= 1,
    }
}

// Whether the arguments are integers, as many as the function takes.
#[tactic(auto, using(crate::proofs::Rows::count_is))]
fn arguments_fit(aggregating: Aggregating, args: &[TypedExpr]) -> bool
    ensures { result ≡ spec.arguments_fit aggregating (typeds_of args.now) }
{
    takes(aggregating, args.len()) && integers(args)
}

fn is_again(function: Option<AggFn>, known: AggFn) -> bool
    ensures { result ≡ steps.is_again function known }
{
    match function {
        Some(function) => function == known,
        None => false,
    }
}

// The first argument.
fn first(args: Vec<TypedExpr>) -> Option<TypedExpr>
    ensures { option_map typed_of result ≡ spec.first (typeds_of args.items) }
{
    args.into_iter().next()
}

// The index of an aggregation, and what it is.
fn find<'a>(aggs: &'a [TypedAggregation], name: &[u8]) -> Option<(usize, &'a TypedAggregation)>
    ensures { option_map (λ p. (p.0, agg_of p.1.now)) result
        ≡ spec.find_from 0 name.now (aggs_of aggs.now) }
{
    for (index, aggregation) in aggs.iter().enumerate() {
        if aggregation.name.as_slice() == name {
            return Some((index, aggregation));
        }
    }
    None
}

// What a statement says of its aggregation, once the keys are typed. No function if the bounds
// aren't in range.
#[derive(Clone, Copy)]
struct AggregationUse<'a> {
    line: usize,
    name: &'a ByteString,
    keys: &'a [TypedExpr],
    function: Option<AggFn>,
}

fn known_index(
    index: usize,
    known: &TypedAggregation,
    usage: AggregationUse<'_>,
) -> Result<usize, TypeFault>
    ensures { (aggs : Aggs) → Gives (λ p. (p, aggs)) result
        (steps.index_for usage.entry.line usage.entry.name.now
        (typeds_of usage.entry.keys.now) usage.entry.function aggs
        (Some (index, agg_of known.now))) }
{
    let line = usage.line;
    if !fit(&known.keys, usage.keys) {
        Err(TypeFault::Keys { line })
    } else if is_again(usage.function, known.function) {
        Ok(index)
    } else {
        Err(TypeFault::AggregationRedefined { line })
    }
}

// A new aggregation, and its index.
fn define(
    alloc: Global,
    aggs: &mut Vec<TypedAggregation>,
    name: &ByteString,
    keys: &[TypedExpr],
    function: AggFn,
) -> Result<usize, AllocError>
    ensures index { IfOk result (λ index. index ≡ length (aggs_of aggs.old.items)) }
    ensures added { OnOk result (aggs_of aggs.new.items ≡ aggs_of aggs.old.items
        ++ record {
          name = name.now;
          keys = kinds_of_typed (typeds_of keys.now);
          function = function;
        }
        ∷ []) }
{
    let index = aggs.len();
    let name = copy_of(alloc, name)?;
    let keys = kinds_of(alloc, keys)?;
    aggs.push(TypedAggregation {
        name,
        keys,
        function,
    })?;
    Ok(index)
}

fn new_index(
    alloc: Global,
    aggs: &mut Vec<TypedAggregation>,
    usage: AggregationUse<'_>,
) -> Result<usize, TypeFault>
    ensures { Gives (λ index. (index, aggs_of aggs.new.items)) result
        (steps.index_for usage.entry.line usage.entry.name.now
        (typeds_of usage.entry.keys.now) usage.entry.function
        (aggs_of aggs.old.items) None) }
{
    let line = usage.line;
    let keys = usage.keys;
    if keys.len() > MAX_KEYS {
        return Err(TypeFault::Keys { line });
    }
    match usage.function {
        Some(function) => {
            let index = define(alloc, aggs, usage.name, keys, function)?;
            Ok(index)
        }
        None => Err(TypeFault::LquantizeBounds { line }),
    }
}

// The index of an aggregation. The first statement fixes its keys and its function.
fn index_for(
    alloc: Global,
    aggs: &mut Vec<TypedAggregation>,
    usage: AggregationUse<'_>,
) -> Result<usize, TypeFault>
    ensures { Gives (λ index. (index, aggs_of aggs.new.items)) result
        (steps.index_for usage.entry.line usage.entry.name.now
        (typeds_of usage.entry.keys.now) usage.entry.function
        (aggs_of aggs.old.items) (spec.find_from 0 usage.entry.name.now (aggs_of aggs.old.items))) }
{
    match find(aggs, usage.name.as_slice()) {
        Some((index, known)) => known_index(index, known, usage),
        None => new_index(alloc, aggs, usage),
    }
}

/// An aggregation statement, as it is written.
#[derive(Clone, Copy)]
pub(crate) struct WrittenAggregation<'a> {
    pub(crate) line: usize,
    pub(crate) name: &'a ByteString,
    pub(crate) keys: &'a [Expr],
    pub(crate) function: &'a [u8],
    pub(crate) arguments: &'a [Expr],
}

/// `@name[keys] = function(arguments)`
pub(crate) fn aggregate(
    alloc: Global,
    table: &mut Vec<Entry>,
    aggs: &mut Vec<TypedAggregation>,
    written: WrittenAggregation<'_>,
) -> Result<TypedStmt, TypeFault>
    ensures { Gives (λ s. (
      action_of s,
      (rows_of_entries table.new.items, aggs_of aggs.new.items),
    )) result
        (steps.aggregate written.entry.line written.entry.name.now (trees_of written.entry.keys.now)
        written.entry.function.now (trees_of written.entry.arguments.now)
        (rows_of_entries table.old.items) (aggs_of aggs.old.items)) }
{
    let line = written.line;
    let keys = wholes(alloc, table, written.keys)?;
    let Some(aggregating) = aggregating_named(written.function) else {
        return Err(TypeFault::Undeclared { line });
    };
    let values = wholes(alloc, table, written.arguments)?;
    if !arguments_fit(aggregating, &values) {
        return Err(TypeFault::Mismatch { line });
    }
    let usage = AggregationUse {
        line,
        name: written.name,
        keys: &keys,
        function: function_of(aggregating, written.arguments),
    };
    let index = index_for(alloc, aggs, usage)?;
    Ok(TypedStmt::Aggregate(index, keys, first(values)))
}
