//! Integers as 64-bit words, each the extension of a typed value.

ghost use Rattle.std.specs.Prelude.{◌≡◌, ◌-◌, ◌^◌, pos, neg_ℤ, ◌-ℤ◌};
ghost use Rattle.d_values.specs.Numbers.{number_of, wrap};
ghost use Rattle.d_values.specs.Words.{difference_of, narrow};

use crate::int_type::IntType;

/// The word of the type whose lowest bits are those of this one.
pub(crate) fn narrow_word(t: IntType, word: u64) -> u64
    ensures { result ≡ narrow t word }
{
    if t.width == 64 {
        return word;
    }
    let size = 1u64 << t.width;
    let low = word & (size - 1);
    if t.signed && size / 2 <= low {
        low + (u64::MAX - size + 1)
    } else {
        low
    }
}

/// The value of one type as a value of another (Guide, "Type Conversions").
///
/// ```text
/// convert(255, IntType::UINT8, IntType::INT8); // u64::MAX, the word of -1
/// convert(300, IntType::INT32, IntType::UINT8); // 44
/// ```
pub fn convert(value: u64, from: IntType, to: IntType) -> u64
    ensures word { result ≡ narrow to value }
    ensures number { number_of to result ≡ wrap to (number_of from value) }
{
    narrow_word(to, value)
}

/// `-a` in the type.
///
/// ```text
/// negate(IntType::INT32, 5); // 2^64 - 5, the word of -5
/// ```
pub fn negate(t: IntType, a: u64) -> u64
    ensures word { result ≡ narrow t (difference_of 0 a) }
    ensures number { number_of t result ≡ wrap t (neg_ℤ (number_of t a)) }
{
    narrow_word(t, 0u64.wrapping_sub(a))
}

/// `~a` in the type.
///
/// ```text
/// complement(IntType::UINT8, 1); // 254
/// ```
pub fn complement(t: IntType, a: u64) -> u64
    ensures word { result ≡ narrow t (2 ^ 64 - 1 - a) }
    ensures number { number_of t result ≡ wrap t (neg_ℤ (number_of t a) -ℤ pos 1) }
{
    narrow_word(t, !a)
}
