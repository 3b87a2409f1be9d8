//! `<<` and `>>` on words.

ghost use Rattle.std.specs.Prelude.{◌≡◌, ◌<◌, ◌%◌};
ghost use Rattle.d_values.specs.Numbers.{number_of, modulo, wrap, whole_shift_of};
ghost use Rattle.d_values.specs.{Vocabulary.IntType};
ghost use Rattle.d_values.specs.Words.{shift_result, shift_of};

use crate::int_type::IntType;
use crate::operators::ShiftOperator;
use crate::word::narrow_word;

/// The left operand, of the type, moved by the count modulo the type's width. A right shift of a
/// signed one copies its sign.
///
/// ```text
/// shift(ShiftOperator::Left, IntType::INT32, 1, 33); // 2
/// shift(ShiftOperator::Right, IntType::INT64, u64::MAX, 1); // u64::MAX: -1 stays -1
/// ```
pub fn shift(op: ShiftOperator, t: IntType, a: u64, count: u64) -> u64
    ensures word { result ≡ shift_of op t a count }
    ensures number { number_of t result
        ≡ wrap t (whole_shift_of op (number_of t a) (count % t.width)) }

    // The count may be of any type.
    ensures counted { (c : IntType) → count % t.width ≡ modulo (number_of c count) t.width }
{
    narrow_word(
        t,
        shift_word(op, t.signed, a, (count % u64::from(t.width)) as u32),
    )
}

// The shift in 64 bits.
fn shift_word(op: ShiftOperator, signed: bool, a: u64, count: u32) -> u64
    requires { count < 64 }
    ensures { result ≡ shift_result op signed a count }
{
    match op {
        ShiftOperator::Left => a.wrapping_shl(count),
        // Copies of the sign come from the left, or zeros.
        ShiftOperator::Right if signed => (a.cast_signed() >> count).cast_unsigned(),
        ShiftOperator::Right => a >> count,
    }
}
