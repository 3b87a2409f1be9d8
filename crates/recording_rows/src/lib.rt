//! The rows of a trace that a recording of strace makes, if its lines are those that
//! `dreplay-record` records. Whatever the recording is, what is written is a trace.
//!
//! ```text
//! match convert(alloc, input, &mut output)? {
//!     End::Whole => {}            // each line is in the trace
//!     End::Stopped { line } => {} // the lines before this one are
//! }
//! ```
#![tactic(auto)]

mod arguments;
mod bytes;
mod call;
mod conversion;
mod errors;
mod fault;
mod fields;
mod ids;
mod limits;
mod line;
mod marks;
mod numbers;
mod processes;
mod resumed;
mod row;
mod rows;
mod words;

pub use conversion::convert;
pub use fault::{ConvertFault, End};
pub use limits::MAX_BYTES;
