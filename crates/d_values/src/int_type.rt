//! The types of integers and texts.

ghost use Rattle.std.specs.Prelude.{IsTrue};
ghost use Rattle.d_values.specs.Widths.{is_width};

/// A type of integers (Guide, "Data Types and Sizes"): 8, 16, 32 or 64 bits, signed or not.
/// An integer of it is kept as a word: extended to 64 bits, by its sign or by zeros.
#[derive(Clone, Copy, Debug, PartialEq, Eq)]
pub struct IntType {
    /// How many bits it has.
    pub width: u8,
    /// Whether it has numbers below zero.
    pub signed: bool,
    pub ghost known: { IsTrue (is_width width) },
}

impl IntType {
    /// `char` and `int8_t`.
    pub const INT8: IntType = IntType {
        width: 8,
        signed: true,
    };
    /// `short` and `int16_t`.
    pub const INT16: IntType = IntType {
        width: 16,
        signed: true,
    };
    /// `int` and `int32_t`.
    pub const INT32: IntType = IntType {
        width: 32,
        signed: true,
    };
    /// `long`, `long long` and `int64_t`.
    pub const INT64: IntType = IntType {
        width: 64,
        signed: true,
    };
    /// `unsigned char` and `uint8_t`.
    pub const UINT8: IntType = IntType {
        width: 8,
        signed: false,
    };
    /// `unsigned short` and `uint16_t`.
    pub const UINT16: IntType = IntType {
        width: 16,
        signed: false,
    };
    /// `unsigned int` and `uint32_t`.
    pub const UINT32: IntType = IntType {
        width: 32,
        signed: false,
    };
    /// `unsigned long`, `unsigned long long` and `uint64_t`.
    pub const UINT64: IntType = IntType {
        width: 64,
        signed: false,
    };
}

/// The type of an expression.
#[derive(Clone, Copy, Debug, PartialEq, Eq)]
pub enum DType {
    /// Integers of a type.
    Int(IntType),
    /// Texts.
    Text,
}
