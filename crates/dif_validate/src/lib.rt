//! DIF: its instructions, its objects, and which of them are valid.
#![tactic(auto)]

mod asks;
mod fault;
mod faults;
mod flow;
mod instruction;
pub mod laws;
mod leaves;
mod load;
mod object;
mod pass;
mod register;
mod row;
mod shape;
mod show;
mod valid;

pub use fault::DifFault;
pub use instruction::{Condition, Function, Instr, Operator};
pub use load::Load;
pub use object::Difo;
pub use register::Reg;
pub use valid::{ValidDifo, validate};

// What the validator asks and knows. No caller needs them: they are public since definitions speak
// of them.
pub use row::{Asks, Change, InstructionRow};
pub use shape::{Shape, Tuple};
