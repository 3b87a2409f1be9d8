//! The types that constants have, and those that words name.

ghost use Rattle.std.specs.Prelude.{◌≡◌};
ghost use Rattle.d_types.specs.Vocabulary.{DType, Suffix};
ghost use Rattle.d_types.specs.Constants as spec;

use d_lexer::Suffix;
use d_parser::{DeclaredType, IntegerType};
use d_values::{DType, IntType};

// The greatest value of `int`.
const INT_MAX: u64 = 2147483647;
// The greatest value of `long`.
const LONG_MAX: u64 = 9223372036854775807;

fn unsuffixed_type(value: u64) -> IntType
    ensures { result ≡ spec.type_of_constant value Suffix.Absent }
{
    if value <= INT_MAX {
        IntType::INT32
    } else if value <= LONG_MAX {
        IntType::INT64
    } else {
        IntType::UINT64
    }
}

/// The type of a constant.
pub(crate) fn type_of_constant(value: u64, suffix: Suffix) -> IntType
    ensures { result ≡ spec.type_of_constant value suffix }
{
    match suffix {
        Suffix::Absent => unsuffixed_type(value),
        Suffix::Unsigned if value <= INT_MAX => IntType::UINT32,
        Suffix::Long if value <= LONG_MAX => IntType::INT64,
        Suffix::Unsigned | Suffix::Long | Suffix::UnsignedLong => IntType::UINT64,
    }
}

/// The type of a cast.
pub(crate) fn int_type(named: IntegerType) -> IntType
    ensures { result ≡ spec.int_type named }
{
    match named {
        IntegerType::Int8 => IntType::INT8,
        IntegerType::Int16 => IntType::INT16,
        IntegerType::Int32 => IntType::INT32,
        IntegerType::Int64 => IntType::INT64,
        IntegerType::Uint8 => IntType::UINT8,
        IntegerType::Uint16 => IntType::UINT16,
        IntegerType::Uint32 => IntType::UINT32,
        IntegerType::Uint64 => IntType::UINT64,
    }
}

pub(crate) fn integer(named: IntegerType) -> DType
    ensures { result ≡ DType.Int (spec.int_type named) }
{
    DType::Int(int_type(named))
}

/// The type of a declaration.
pub(crate) fn declared_type(declared: DeclaredType) -> DType
    ensures { result ≡ spec.declared_type declared }
{
    match declared {
        DeclaredType::Integer(named) => integer(named),
        DeclaredType::Text => DType::Text,
    }
}
