//! Comparisons, and what branches ask of them.

ghost use Rattle.std.specs.Prelude.{◌≡◌};
ghost use Rattle.dif_machine.specs.Operators as spec;

use d_values::{ComparisonOperator, IntType, compare, compare_text};
use dif_validate::Condition;
use std::cmp::Ordering;

/// How two values compare. Two texts compare by their bytes either way.
#[derive(Clone, Copy, Debug)]
pub struct Comparison {
    /// The order of the two as signed integers.
    pub signed: Ordering,
    /// The order of the two as unsigned integers.
    pub unsigned: Ordering,
}

/// How two integers compare.
pub(crate) fn compare_numbers(a: u64, b: u64) -> Comparison
    ensures { result ≡ spec.comparison_of a b }
{
    Comparison {
        signed: compare(IntType::INT64, a, b),
        unsigned: compare(IntType::UINT64, a, b),
    }
}

/// How two texts compare.
#[inline(never)]
pub(crate) fn compare_texts(a: &[u8], b: &[u8]) -> Comparison
    ensures { result ≡ spec.text_comparison_of a.now b.now }
{
    let order = compare_text(a, b);
    Comparison {
        signed: order,
        unsigned: order,
    }
}

/// Whether a branch is taken.
pub(crate) fn holds(condition: Condition, known: Comparison) -> bool
    ensures { result ≡ spec.holds condition known }
{
    match condition {
        Condition::Equal => ComparisonOperator::Equal.holds(known.unsigned),
        Condition::NotEqual => ComparisonOperator::NotEqual.holds(known.unsigned),
        Condition::Greater => ComparisonOperator::Greater.holds(known.signed),
        Condition::GreaterEqual => ComparisonOperator::GreaterEqual.holds(known.signed),
        Condition::Less => ComparisonOperator::Less.holds(known.signed),
        Condition::LessEqual => ComparisonOperator::LessEqual.holds(known.signed),
        Condition::Above => ComparisonOperator::Greater.holds(known.unsigned),
        Condition::AboveEqual => ComparisonOperator::GreaterEqual.holds(known.unsigned),
        Condition::Below => ComparisonOperator::Less.holds(known.unsigned),
        Condition::BelowEqual => ComparisonOperator::LessEqual.holds(known.unsigned),
    }
}
