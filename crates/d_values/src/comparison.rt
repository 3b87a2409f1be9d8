//! The order of integers and of texts.

ghost use Rattle.std.specs.Prelude.{◌≡◌};
ghost use Rattle.d_values.specs.Vocabulary.{int_cmp};
ghost use Rattle.d_values.specs.{Numbers.number_of, Words.order_of, Operators.holds_of};
ghost use Rattle.d_values.specs.{Texts.text_cmp};

use crate::int_type::IntType;
use crate::operators::ComparisonOperator;
use std::cmp::Ordering;

impl ComparisonOperator {
    /// Whether it holds between two operands in this order.
    ///
    /// ```text
    /// ComparisonOperator::LessEqual.holds(Ordering::Equal); // true
    /// ```
    pub fn holds(self, order: Ordering) -> bool
        ensures { result ≡ holds_of self order }
    {
        match self {
            ComparisonOperator::Less => order == Ordering::Less,
            ComparisonOperator::LessEqual => order != Ordering::Greater,
            ComparisonOperator::Greater => order == Ordering::Greater,
            ComparisonOperator::GreaterEqual => order != Ordering::Less,
            ComparisonOperator::Equal => order == Ordering::Equal,
            ComparisonOperator::NotEqual => order != Ordering::Equal,
        }
    }
}

/// The order of two integers of a type, both words of it.
///
/// ```text
/// compare(IntType::INT64, u64::MAX, 0); // Less: the word is that of -1
/// compare(IntType::UINT64, u64::MAX, 0); // Greater
/// ```
pub fn compare(t: IntType, a: u64, b: u64) -> Ordering
    ensures word { result ≡ order_of t a b }
    ensures number { result ≡ int_cmp (number_of t a) (number_of t b) }
{
    if t.signed {
        a.cast_signed().cmp(&b.cast_signed())
    } else {
        a.cmp(&b)
    }
}

/// The order of two texts: the first byte that differs decides, and a beginning comes first.
///
/// ```text
/// compare_text(b"ab", b"b"); // Less
/// compare_text(b"ab", b"a"); // Greater
/// ```
pub fn compare_text(a: &[u8], b: &[u8]) -> Ordering
    ensures { result ≡ text_cmp a.now b.now }
{
    a.cmp(b)
}
