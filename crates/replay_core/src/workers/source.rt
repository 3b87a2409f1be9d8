//! Where workers get their groups.

ghost use Rattle.std.specs.Prelude.{◌≡◌, ℕ, ◌≤◌, min};
ghost use Rattle.replay_core.specs.Vocabulary.{Handed, IsHanded};

use shard_queue::{ClaimBoard, ClaimSeat, GroupQueue, QueueSeat};
use std::sync::Wait;

/// Hands out numbers below its end. That no two seats get one number is known once all are back.
pub trait Source {
    type Seat;

    /// The numbers are below this.
    ghost end: { Self → ℕ };

    /// The seat is at this source.
    ghost is_at: { Self → Self.Seat → Type 0 };

    /// What a seat was handed.
    ghost handed: { Self.Seat → Handed };

    /// The least number that a seat lowered, 2^64 - 1 without any.
    ghost lowered: { Self.Seat → ℕ };

    /// The least number that a seat was shown, 2^64 - 1 without any.
    ghost seen: { Self.Seat → ℕ };

    /// The next number, which this seat didn't have before, or `None` at the end.
    fn take<R: Wait>(&self, rt: &R, seat: &mut Self::Seat) -> Option<u32>
        requires { is_at self.now seat.old }
        ensures seat { is_at self.now seat.new }
        ensures next { IsHanded (end self.now) (handed seat.old) (handed seat.new) result }
        ensures least { (lowered seat.new ≡ lowered seat.old) × (seen seat.new ≡ seen seat.old) };
}

/// A source whose seats also share the least number that any of them lowered.
pub trait Exits: Source {
    /// The least number becomes the lesser of itself and this one.
    fn lower(&self, seat: &mut Self::Seat, number: u64)
        requires { Self.is_at self.now seat.old }
        ensures seat { Self.is_at self.now seat.new
            × (Self.handed seat.new ≡ Self.handed seat.old) }
        ensures lowered { Self.lowered seat.new ≡ min (Self.lowered seat.old) number }
        ensures seen { Self.seen seat.new ≡ Self.seen seat.old };

    /// The least number, which is no more than what this seat lowered or was shown.
    fn least(&self, seat: &mut Self::Seat) -> u64
        requires { Self.is_at self.now seat.old }
        ensures seat { Self.is_at self.now seat.new
            × (Self.handed seat.new ≡ Self.handed seat.old) }
        ensures own { (result ≤ Self.lowered seat.old) × (result ≤ Self.seen seat.old) }
        ensures lowered { Self.lowered seat.new ≡ Self.lowered seat.old }
        ensures seen { Self.seen seat.new ≡ result };
}

impl Source for ClaimBoard {
    ghost use Rattle.shard_queue.specs.Boards.{IsAt, claim_handed, number_lowered, number_seen};

    type Seat = ClaimSeat;

    ghost end = { λ board. board.end };

    ghost is_at = { IsAt };

    ghost handed = { claim_handed };

    ghost lowered = { number_lowered };

    ghost seen = { number_seen };

    fn take<R: Wait>(&self, _rt: &R, seat: &mut ClaimSeat) -> Option<u32> {
        self.claim(seat)
    }
}

impl Exits for ClaimBoard {
    fn lower(&self, seat: &mut ClaimSeat, number: u64) {
        ClaimBoard::lower(self, seat, number)
    }

    fn least(&self, seat: &mut ClaimSeat) -> u64 {
        ClaimBoard::least(self, seat)
    }
}

impl Source for GroupQueue {
    ghost use Rattle.shard_queue.specs.{Least.no_number, Queues.IsIn, Queues.queue_handed};

    type Seat = QueueSeat;

    ghost end = { λ queue. queue.end };

    ghost is_at = { IsIn };

    ghost handed = { queue_handed };

    ghost lowered = { λ seat. no_number };

    ghost seen = { λ seat. no_number };

    fn take<R: Wait>(&self, rt: &R, seat: &mut QueueSeat) -> Option<u32> {
        GroupQueue::take(self, rt, seat)
    }
}
