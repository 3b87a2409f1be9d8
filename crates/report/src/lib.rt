//! What a run shows, and how its bytes are written: the layout of aggregations for people.
#![tactic(auto)]

mod columns;
mod entry;
mod histograms;
pub mod laws;
pub mod listing;
mod rendering;
mod report;

pub use rendering::render;
pub use report::Report;
pub use streams::{Failed, Feed, Sink, Watched, WriteFault, emit};
