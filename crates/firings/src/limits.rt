//! The limits of a trace.

/// The most bytes of a text.
pub const MAX_TEXT: usize = 255;

/// The most rows that a trace has.
pub const MAX_ROWS: u32 = 1_000_000;

/// How many rows are read together, at most.
pub const MAX_TOGETHER: usize = 16;
