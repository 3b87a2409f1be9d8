//! The machine that runs valid DIF objects.
#![tactic(auto)]

mod built_in;
mod comparing;
mod content;
mod fault;
mod lane_memory;
mod lasting;
pub mod laws;
mod machine;
mod memory;
mod onward;
mod operating;
mod running;
mod stepping;
mod tables;

pub use comparing::Comparison;
pub use fault::MachineFault;
pub use lane_memory::LaneMemory;
pub use machine::Machine;
pub use memory::Memory;
pub use running::{run, run_on};
