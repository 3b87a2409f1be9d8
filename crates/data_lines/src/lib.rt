//! The whole of a run as JSON Lines. `docs/DATA.md` has the format.
#![tactic(auto)]

pub mod laws;
mod layout;
mod lines;
mod numbers;
mod rendering;
mod texts;
mod values;

pub use layout::DataLines;
pub use rendering::render;
