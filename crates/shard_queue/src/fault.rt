//! Why lists of threads aren't groups of a trace.

ghost use Rattle.std.specs.Prelude.{◌≡◌};
ghost use Rattle.shard_queue.specs.declared.fault.GroupFault.TheVariants.{Memory};

use crate::limits::MAX_GROUPS;
use std::alloc::AllocError;
use thiserror::Error;

/// The first fault of lists of threads: `TooMany`, else the first thread, in the order of the
/// lists, that is `Stranger` or `Doubled`, else the least that is `Missing`.
#[derive(Clone, Copy, Debug, PartialEq, Eq, Error)]
pub enum GroupFault {
    /// A thread that fired and is in no list.
    #[error("thread {thread} is in no list")]
    Missing { thread: i32 },
    /// A thread that is in the lists a second time.
    #[error("thread {thread} is listed twice")]
    Doubled { thread: i32 },
    /// A thread in a list that didn't fire.
    #[error("thread {thread} is listed and did not fire")]
    Stranger { thread: i32 },
    /// More than `MAX_GROUPS` lists.
    #[error("more than {most} lists", most = MAX_GROUPS)]
    TooMany,
    /// Memory was refused.
    #[error("out of memory")]
    Memory,
}

impl From<AllocError> for GroupFault {
    ghost from_gives = { λ _ e. e ≡ Memory };

    fn from(_e: AllocError) -> GroupFault {
        GroupFault::Memory
    }
}
