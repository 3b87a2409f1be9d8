//! What a trace keeps: its firings, each a row of small fixed size, with the owners, the probes and
//! the arguments that rows name.
//!
//! ```text
//! for at in 0..trace.firings().len() {
//!     let firing = trace.firings().get(at);
//!     println!(rt; "{} on thread {}", firing.number, firing.thread)?;
//! }
//! ```
#![tactic(auto)]

mod ends;
mod firing;
mod firing_rows;
mod firings;
pub mod laws;
mod limits;
mod owner_indices;
mod probe_indices;
mod stored_row;
mod text;
mod trace;
mod unit;
mod units;

pub use firing::{Args, Firing};
pub use firing_rows::FiringRows;
pub use firings::Firings;
pub use limits::{MAX_ROWS, MAX_TEXT, MAX_TOGETHER};
pub use owner_indices::OwnerIndices;
pub use probe_indices::ProbeIndices;
pub use stored_row::Row;
pub use text::Text;
pub use trace::Trace;
pub use unit::{Owner, OwnerEntry, Probe, ProbeEntry};
pub use units::{Entry, Known, Units};
