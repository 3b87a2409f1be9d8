//! The types that operands are brought to (Guide, "Type Promotion").

ghost use Rattle.std.specs.Prelude.{◌≡◌};
ghost use Rattle.d_values.specs.Types.{promoted_of, common_of, type_rank};

use crate::int_type::IntType;

/// What an operand of the type is brought to: `int` below 32 bits, else the type itself.
///
/// ```text
/// promotion_of(IntType::UINT8); // INT32
/// ```
pub fn promotion_of(t: IntType) -> IntType
    ensures { result ≡ promoted_of t }
{
    if t.width < 32 { IntType::INT32 } else { t }
}

// The index of a promoted type among int, unsigned int, long, unsigned long.
fn rank(t: IntType) -> u8
    ensures { result ≡ type_rank t }
{
    2 * t.width + u8::from(!t.signed)
}

/// The type that two operands of an operator are brought to: of their promoted types the one of
/// higher rank. The ranks rise: `int`, `unsigned int`, `long`, `unsigned long`.
///
/// ```text
/// common(IntType::INT32, IntType::UINT32); // UINT32
/// common(IntType::INT64, IntType::UINT32); // INT64
/// ```
pub fn common(a: IntType, b: IntType) -> IntType
    ensures { result ≡ common_of a b }
{
    let a = promotion_of(a);
    let b = promotion_of(b);
    if rank(a) < rank(b) { b } else { a }
}
