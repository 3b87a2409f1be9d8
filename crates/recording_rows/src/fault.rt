//! How a conversion ends.

use std::alloc::{AllocError, AllocFailed};
use thiserror::Error;

/// How much of a recording was converted.
#[derive(Clone, Copy, Debug, PartialEq, Eq)]
pub enum End {
    /// All of it.
    Whole,
    /// The lines before this one, which isn't known here. The first line has the number 1.
    Stopped { line: u64 },
}

/// Why nothing can be said of what was written.
#[derive(Clone, Copy, Debug, PartialEq, Eq, Error)]
pub enum ConvertFault {
    /// Memory was refused.
    #[error("out of memory")]
    Memory,
    /// The recording couldn't be read.
    #[error("read failed")]
    Read,
    /// The trace couldn't be written.
    #[error("write failed")]
    Write,
}

impl From<AllocError> for ConvertFault {
    fn from(_e: AllocError) -> ConvertFault {
        ConvertFault::Memory
    }
}

/// Why a line has no rows.
#[derive(Clone, Copy, Debug, PartialEq, Eq)]
pub(crate) enum Halt {
    /// The line isn't known, or the trace is full.
    Unknown,
    /// Memory was refused.
    Memory,
}

impl From<AllocError> for Halt {
    fn from(_e: AllocError) -> Halt {
        Halt::Memory
    }
}

impl<T: Drop> From<AllocFailed<T>> for Halt {
    fn from(_e: AllocFailed<T>) -> Halt {
        Halt::Memory
    }
}
