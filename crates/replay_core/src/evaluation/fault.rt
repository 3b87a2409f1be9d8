//! Why an expression has no value.

ghost use Rattle.std.specs.Prelude.{◌≡◌};
ghost use Rattle.replay_core.specs.declared.evaluation.fault.EvalFault.TheVariants.{Memory};

use std::alloc::{AllocError, AllocFailed};

/// Why an expression has no value (Dynamic Tracing Guide, "dtrace:::ERROR").
#[derive(Clone, Copy, Debug, PartialEq, Eq)]
pub(crate) enum EvalFault {
    /// `/` or `%` had a divisor of 0.
    DivideByZero,
    /// Memory was refused.
    Memory,
}

impl From<AllocError> for EvalFault {
    ghost from_gives = { λ _ e. e ≡ Memory };

    fn from(_e: AllocError) -> EvalFault {
        EvalFault::Memory
    }
}

impl<T: Drop> From<AllocFailed<T>> for EvalFault {
    ghost from_gives = { λ _ e. e ≡ Memory };

    fn from(_e: AllocFailed<T>) -> EvalFault {
        EvalFault::Memory
    }
}
