//! A worker's place at a board.

ghost use Rattle.std.specs.Prelude.{◌≡◌, ◌≤◌, [], if◌then◌else◌, vec_capacity};
ghost use Rattle.shard_queue.specs.Hands.{hand};

use crate::knowledge::BoardView;
use atomic_table::Seat;

/// A worker's place at a board: the numbers that it claimed, and whether it is at the end.
#[derive(Drop)]
pub struct ClaimSeat {
    pub(crate) seat: Seat<(), BoardView>,
    pub(crate) taken: Vec<u32>,
    pub(crate) end: u32,
    pub(crate) at_end: bool,
    ghost knows: { seat.me.0.hand ≡ hand end 1 (if at_end then 1 else 0) taken.items },
    ghost empty: { seat.me.1 ≡ [] },
    ghost room: { end ≤ vec_capacity taken },
}
