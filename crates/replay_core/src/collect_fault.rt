//! Why pieces aren't a whole.

ghost use Rattle.std.specs.Prelude.{◌≡◌};
ghost use Rattle.replay_core.specs.declared.collect_fault.CollectFault.TheVariants.{Memory};

use std::alloc::AllocError;
use thiserror::Error;

/// Why pieces are no whole: the first piece in the list that is `Twice` or `Stranger` decides, else
/// the least group without a piece.
#[derive(Clone, Copy, Debug, PartialEq, Eq, Error)]
pub enum CollectFault {
    /// A second piece of a group.
    #[error("group {group} has two pieces")]
    Twice { group: u32 },
    /// A piece of no group.
    #[error("there is no group {group}")]
    Stranger { group: u32 },
    /// No piece of a group.
    #[error("group {group} has no piece")]
    Missing { group: u32 },
    /// Memory was refused.
    #[error("out of memory")]
    Memory,
}

impl From<AllocError> for CollectFault {
    ghost from_gives = { λ _ e. e ≡ Memory };

    fn from(_e: AllocError) -> CollectFault {
        CollectFault::Memory
    }
}
