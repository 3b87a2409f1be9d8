//! What a run over a trace made.

use aggregations::AggTable;
use d_values::Text;

/// What a run over a trace made.
#[derive(Drop)]
pub struct Whole {
    /// The texts in the order of the firings, each with its firing's number.
    pub events: Vec<(u64, Text)>,
    /// The aggregations.
    pub table: AggTable,
    /// For each group the numbers of its firings, in order. BEGIN and END are a group of their own,
    /// the last.
    pub ran: Vec<Vec<u64>>,
    /// The number of the first firing that exited, and its status.
    pub exit: Option<(u64, u8)>,
}
