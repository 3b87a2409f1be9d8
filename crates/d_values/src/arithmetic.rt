//! `* / % + - & ^ |` on words.

ghost use Rattle.std.specs.Prelude.{◌≡◌, ◌≢◌, ◌↔◌, true, IfOk, IsErr};
ghost use Rattle.d_values.specs.Numbers.{number_of, wrap, whole_of};
ghost use Rattle.d_values.specs.Words.{divides, operate, binary_of};

use crate::int_type::IntType;
use crate::operators::ArithmeticOperator;
use crate::word::narrow_word;

/// The refusal of `/` and `%` by zero.
#[derive(Clone, Copy, Debug, PartialEq, Eq)]
pub struct OutOfZero;

/// The operator's result in the type that both operands have. Refused exactly if `/` or `%` has
/// 0 on its right.
///
/// ```text
/// binary(ArithmeticOperator::Divide, IntType::INT32, 7, 2); // Ok(3)
/// binary(ArithmeticOperator::Divide, IntType::INT32, 7, 0); // Err(OutOfZero)
/// ```
pub fn binary(op: ArithmeticOperator, t: IntType, a: u64, b: u64) -> Result<u64, OutOfZero>
    ensures word { result ≡ binary_of op t a b }
    ensures number { IfOk result (λ r.
        number_of t r ≡ wrap t (whole_of op (number_of t a) (number_of t b))) }
    ensures refused { IsErr result ↔ ((divides op ≡ true) × (b ≡ 0)) }
{
    if op.divides() && b == 0 {
        return Err(OutOfZero);
    }
    Ok(narrow_word(t, operate(op, t.signed, a, b)))
}

impl ArithmeticOperator {
    // Whether it is `/` or `%`.
    fn divides(self) -> bool
        ensures { result ≡ divides self }
    {
        matches!(
            self,
            ArithmeticOperator::Divide | ArithmeticOperator::Remainder
        )
    }
}

// The operator's result in 64 bits. A quotient is cut toward zero.
fn operate(op: ArithmeticOperator, signed: bool, a: u64, b: u64) -> u64
    requires { divides op ≡ true → b ≢ 0 }
    ensures { result ≡ operate op signed a b }
{
    match op {
        ArithmeticOperator::Multiply => a.wrapping_mul(b),
        ArithmeticOperator::Divide if signed => {
            let whole = a.cast_signed().wrapping_div(b.cast_signed());
            whole.cast_unsigned()
        }
        ArithmeticOperator::Divide => a / b,
        ArithmeticOperator::Remainder if signed => {
            let rest = a.cast_signed().wrapping_rem(b.cast_signed());
            rest.cast_unsigned()
        }
        ArithmeticOperator::Remainder => a % b,
        ArithmeticOperator::Add => a.wrapping_add(b),
        ArithmeticOperator::Subtract => a.wrapping_sub(b),
        ArithmeticOperator::BitAnd => a & b,
        ArithmeticOperator::BitXor => a ^ b,
        ArithmeticOperator::BitOr => a | b,
    }
}
