//! Why an object is refused.

ghost use Rattle.std.specs.Prelude.{◌≡◌};
ghost use Rattle.dif_validate.specs.declared.fault.DifFault.TheVariants.{Memory};

use std::alloc::{AllocError, AllocFailed};
use std::fmt;
use thiserror::Error;

/// The first fault of an object: `Empty` and `NoReturn` first, then that of the least `pc`, and
/// there the one listed first here.
#[derive(Clone, Copy, Debug, PartialEq, Eq, Error)]
pub enum DifFault {
    /// No instructions.
    Empty,
    /// The last instruction is not `ret`.
    NoReturn,
    /// A branch to its own index or to an earlier one.
    Backward { pc: usize },
    /// A branch past the last instruction.
    OutOfCode { pc: usize },
    /// A register of the wrong kind, or a returned value of another kind than the first.
    RegisterKind { pc: usize },
    /// A register that is read while unset, or a branch before any comparison.
    Unset { pc: usize },
    /// A tuple that the instruction can't take, or two ways that meet with different tuples.
    TupleShape { pc: usize },
    /// An index outside its table.
    TableIndex { pc: usize },
    /// No such built-in variable.
    Variable { pc: usize },
    /// Memory was refused.
    Memory,
}

impl DifFault {
    // The index that it names.
    fn pc(self) -> Option<usize> {
        match self {
            DifFault::Backward { pc }
            | DifFault::OutOfCode { pc }
            | DifFault::RegisterKind { pc }
            | DifFault::Unset { pc }
            | DifFault::TupleShape { pc }
            | DifFault::TableIndex { pc }
            | DifFault::Variable { pc } => Some(pc),
            DifFault::Empty | DifFault::NoReturn | DifFault::Memory => None,
        }
    }

    // What is wrong, without the index.
    fn message(self) -> &'static str {
        match self {
            DifFault::Empty => "no instructions",
            DifFault::NoReturn => "the last instruction is not ret",
            DifFault::Backward { .. } => "a branch backward",
            DifFault::OutOfCode { .. } => "a branch out of the code",
            DifFault::RegisterKind { .. } => "a register of the wrong kind",
            DifFault::Unset { .. } => "a register or the comparison is unset",
            DifFault::TupleShape { .. } => "a tuple of the wrong shape",
            DifFault::TableIndex { .. } => "an index outside its table",
            DifFault::Variable { .. } => "no such variable",
            DifFault::Memory => "out of memory",
        }
    }
}

impl fmt::Display for DifFault {
    fn fmt<W: fmt::Write>(&self, f: &mut fmt::Formatter<W>) -> fmt::Result {
        let message = self.message();
        match self.pc() {
            Some(pc) => write!(f, "pc {pc}: {message}"),
            None => f.write_str(message),
        }
    }
}

impl From<AllocError> for DifFault {
    ghost from_gives = { λ _ e. e ≡ Memory };

    fn from(_e: AllocError) -> DifFault {
        DifFault::Memory
    }
}

impl<T: Drop> From<AllocFailed<T>> for DifFault {
    ghost from_gives = { λ _ e. e ≡ Memory };

    fn from(_e: AllocFailed<T>) -> DifFault {
        DifFault::Memory
    }
}
