//! What follows an instruction.

use crate::fault::MachineFault;
use dif_validate::Reg;

/// What a step leads to.
pub(crate) type Step = Result<Onward, MachineFault>;

/// If a run goes from an instruction, unless it faults.
#[derive(Clone, Copy, Debug)]
pub(crate) enum Onward {
    /// To the instruction after it.
    Next,
    /// To the instruction at an index.
    Goes(usize),
    /// To its end, with the value that a register holds.
    Ends(Reg),
}
