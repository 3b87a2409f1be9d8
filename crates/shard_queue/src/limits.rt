//! The limits of a run.

/// The most groups that lists or a deal may make, beside that of thread 0.
pub const MAX_GROUPS: u32 = 4096;

/// The most workers that share a queue or a board.
pub const MAX_WORKERS: u32 = 16;
