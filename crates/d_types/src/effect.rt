//! What statements make.

use d_values::{Key, Text};

/// What a statement does beside its assignments.
#[derive(Drop, Debug)]
pub enum Effect {
    /// Nothing.
    Nothing,
    /// `trace` and `printf`: a text.
    Says(Text),
    /// An aggregation statement: the aggregation's index, the key, and what its function is given.
    Adds(usize, Key, i64),
    /// `exit`: the status.
    Exits(u8),
}
