//! A worker's place at a queue.

ghost use Rattle.std.specs.Prelude.{◌≡◌, ◌≤◌, ◌+◌, if◌then◌else◌, vec_capacity};
ghost use Rattle.shard_queue.specs.{Hands.hand, QueueRule.among, Vocabulary.pass_view};

use crate::knowledge::QueueView;
use crossbeam_queue::Pass;

/// A worker's place at a queue: the numbers that it took, and whether it is at the end.
#[derive(Drop)]
pub struct QueueSeat {
    pub(crate) pass: Pass<u32, QueueView>,
    pub(crate) taken: Vec<u32>,
    pub(crate) end: u32,
    pub(crate) workers: u32,
    pub(crate) at_end: bool,
    ghost knows: { pass_view pass
        ≡ among workers (hand (end + workers) 1 (if at_end then 1 else 0) taken.items) },
    ghost room: { end ≤ vec_capacity taken },
}
