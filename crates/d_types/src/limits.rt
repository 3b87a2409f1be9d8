//! The limits of a typed script.

/// The most registers that an expression may need.
pub const MAX_NEED: usize = 6;

/// The most keys of a thread-local variable or of an aggregation.
pub const MAX_KEYS: usize = 8;

/// The greatest width of a conversion.
pub const MAX_WIDTH: u16 = 255;
