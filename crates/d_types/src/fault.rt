//! Why a script isn't well typed.

ghost use Rattle.std.specs.Prelude.{◌≡◌};
ghost use Rattle.d_types.specs.declared.fault.TypeFault.TheVariants.{Memory};

use d_lexer::ByteString;
use std::alloc::{AllocError, AllocFailed};
use std::fmt;
use thiserror::Error;

/// Why a script is refused. The line is that of the first token of the refused construct.
#[derive(Debug, Drop, Error)]
pub enum TypeFault {
    /// A word that isn't a variable is assigned.
    GlobalAssignment { name: ByteString, line: usize },
    /// A word that names nothing, or a variable that is read before its type is known.
    Undeclared { line: usize },
    /// Operands or arguments of another kind or number than the construct takes, or a second
    /// declaration.
    Mismatch { line: usize },
    /// Keys of another number or kind than before, or more than eight.
    Keys { line: usize },
    /// One aggregation with two functions, or with two sets of buckets.
    AggregationRedefined { line: usize },
    /// Bounds or a step of `lquantize` that aren't constants in range.
    LquantizeBounds { line: usize },
    /// A format that isn't a text constant, has an unknown conversion, or doesn't fit its
    /// arguments.
    PrintfArguments { line: usize },
    /// A built-in variable is assigned.
    ReadOnly { line: usize },
    /// An expression needs more than six registers.
    NoRegister { line: usize },
    /// Memory ran out.
    Memory,
}

impl TypeFault {
    fn line(&self) -> Option<usize> {
        match self {
            TypeFault::GlobalAssignment { line, .. } => Some(*line),
            TypeFault::Undeclared { line } => Some(*line),
            TypeFault::Mismatch { line } => Some(*line),
            TypeFault::Keys { line } => Some(*line),
            TypeFault::AggregationRedefined { line } => Some(*line),
            TypeFault::LquantizeBounds { line } => Some(*line),
            TypeFault::PrintfArguments { line } => Some(*line),
            TypeFault::ReadOnly { line } => Some(*line),
            TypeFault::NoRegister { line } => Some(*line),
            TypeFault::Memory => None,
        }
    }

    fn message(&self) -> &'static str {
        match self {
            TypeFault::GlobalAssignment { .. } => "use self-> or this-> for a variable",
            TypeFault::Undeclared { .. } => "not declared",
            TypeFault::Mismatch { .. } => "of the wrong type",
            TypeFault::Keys { .. } => "other keys",
            TypeFault::AggregationRedefined { .. } => "the aggregation has another function",
            TypeFault::LquantizeBounds { .. } => "bounds of lquantize",
            TypeFault::PrintfArguments { .. } => "the format and its arguments",
            TypeFault::ReadOnly { .. } => "can't be assigned",
            TypeFault::NoRegister { .. } => "the expression is too deep",
            TypeFault::Memory => "out of memory",
        }
    }
}

impl fmt::Display for TypeFault {
    fn fmt<W: fmt::Write>(&self, f: &mut fmt::Formatter<W>) -> fmt::Result {
        if let Some(line) = self.line() {
            write!(f, "line {line}: ")?;
        }
        f.write_str(self.message())
    }
}

impl From<AllocError> for TypeFault {
    ghost from_gives = { λ _ e. e ≡ Memory };

    fn from(_e: AllocError) -> TypeFault {
        TypeFault::Memory
    }
}

impl<T: Drop> From<AllocFailed<T>> for TypeFault {
    ghost from_gives = { λ _ e. e ≡ Memory };

    fn from(_e: AllocFailed<T>) -> TypeFault {
        TypeFault::Memory
    }
}
