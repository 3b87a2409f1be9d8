//! What seats know. No value of these types is ever made: they are in proofs alone.

use std::collections::LinkedList;

/// What was handed to some seats: the end, how many seats these are, how many of them are at the
/// end, and the numbers that they drew.
pub struct Hand {
    pub end: u64,
    pub seats: u64,
    pub at_end: u64,
    pub drawn: LinkedList<u32>,
}

/// The least number that some seats lowered, and the least that they were shown; 2^64 - 1 if
/// none.
pub struct Low {
    pub lowered: u64,
    pub seen: u64,
}

/// What some seats of a board know.
pub struct BoardView {
    pub hand: Hand,
    pub low: Low,
}

/// What some seats of a queue know: what was handed to them, and how many seats there are.
pub struct QueueView {
    pub hand: Hand,
    pub seats: u64,
}
