//! The limits of a recording. Its texts are at most as long as those of a trace.

/// The most bytes of a recording that are held. A larger one stops after them.
pub const MAX_BYTES: u64 = 1 << 27;

/// The most lines between the lines of a call that begins a thread or a process.
pub(crate) const MAX_BETWEEN: usize = 40_000;

/// The greatest number of a thread or a process.
pub(crate) const MAX_ID: u64 = 0x7FFF_FFFF;

/// The most digits of a thread's number.
pub(crate) const MAX_THREAD: usize = 9;

/// The most digits of the seconds of a time.
pub(crate) const MAX_SECONDS: usize = 11;

/// The most digits of the seconds of a duration.
pub(crate) const MAX_DURATION: usize = 9;

/// The most letters of a system call's name.
pub(crate) const MAX_NAME: usize = 81;

/// The most decimal digits of a number that fits in 64 bits whatever they are.
pub(crate) const MAX_DECIMAL: usize = 19;

/// The most hexadecimal digits of such a number.
pub(crate) const MAX_HEXADECIMAL: usize = 16;
