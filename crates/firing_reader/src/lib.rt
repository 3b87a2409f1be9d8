//! Recorded probe firings, read from CSV.
//!
//! The first record is the header, and each record after it is one firing. `read_trace` returns the
//! trace that the bytes write, exactly as `specs/Trace.antt` defines it, or its first fault. Rows
//! are read where they lie in the bytes up to the first that has a quote or a fault; from there on
//! `csv` reads them.
#![tactic(auto)]

mod arguments;
mod blocks;
mod builder;
mod columns;
mod fault;
mod header;
pub mod laws;
mod owners;
mod pieces;
mod plain;
mod probes;
mod reading;
mod records;
mod row;
mod row_ends;
mod slots;
mod unit_table;
mod waiting;
mod whole_rows;

pub use blocks::Reader;
pub use fault::TraceFault;
pub use firings::{
    Args, Firing, FiringRows, Firings, MAX_ROWS, MAX_TEXT, MAX_TOGETHER, OwnerIndices, Probe,
    ProbeIndices, Text, Trace,
};
pub use reading::read_trace;
