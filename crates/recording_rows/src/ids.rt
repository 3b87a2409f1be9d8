//! The numbers of threads and processes.

ghost use Rattle.std.specs.Prelude.{◌≡◌, ◌≤◌, IfSome};

use crate::limits::MAX_ID;

/// The number of a thread or a process: a positive one of 31 bits.
#[derive(Clone, Copy)]
pub(crate) struct Id {
    /// The number.
    pub(crate) number: u64,
    pub ghost positive: { 1 ≤ number },
    pub ghost small: { number ≤ 0x7FFF_FFFF },
}

impl Id {
    /// The id of this number, if it is one of a thread or a process.
    pub(crate) fn of(number: u64) -> Option<Id>
        ensures { IfSome result (λ id. id.number ≡ number) }
    {
        if number < 1 || number > MAX_ID {
            return None;
        }
        Some(Id { number })
    }
}
