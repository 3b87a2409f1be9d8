//! A board of two atomic words: how many claims were made, and the least number that a seat
//! lowered.

ghost use Rattle.std.specs.Prelude.{◌≡◌, ◌≤◌, [], true, min, map, All, vec_len, IfOk};
ghost use Rattle.shard_queue.specs.{BoardRule.view, Least.nothing_lowered};
ghost use Rattle.shard_queue.specs.Hands.{IsHandOut, IsHanded, hand};

use crate::board_rule::{Arrives, Claims, Gathers, Looks, Lowers, OneSeat};
use crate::claim_seat::ClaimSeat;
use crate::knowledge::BoardView;
use crate::limits::MAX_WORKERS;
use atomic_table::{Seat, Table};
use std::alloc::{AllocError, Global};

/// Hands out the numbers below its end.
#[derive(Drop)]
pub struct ClaimBoard {
    pub(crate) table: Table<(), BoardView, (u64, u64), Claims, Global>,
    pub(crate) end: u32,
    pub(crate) workers: usize,
    ghost sized: { (table.shared.table_id.words ≡ 2) × (table.shared.table_id.slots ≡ 0) },
    ghost key_is: { table.shared.key ≡ (end, workers) },
}

/// What a board had at its end: the numbers that each seat claimed, and the least that a seat
/// lowered.
#[derive(Drop)]
pub struct Closed {
    pub lists: Vec<Vec<u32>>,
    pub least: u64,
}

impl ClaimBoard {
    ghost use Rattle.shard_queue.specs.Boards.{IsAt, IsNew, claim_handed, claim_numbers};
    ghost use Rattle.shard_queue.specs.Boards.{claim_seats_at_end, least_lowered, least_seen};
    ghost use Rattle.shard_queue.specs.Boards.{number_lowered, number_seen};

    /// A board of the numbers below `end`, and a seat for each worker. Err if memory was
    /// refused.
    ///
    /// ```text
    /// let (board, seats) = ClaimBoard::open(alloc, 3, 2)?; // the numbers 0, 1 and 2, two seats
    /// ```
    pub fn open(
        alloc: Global,
        end: u32,
        workers: usize,
    ) -> Result<(ClaimBoard, Vec<ClaimSeat>), AllocError>
        requires { workers ≤ MAX_WORKERS }
        ensures board { IfOk result (λ r. (r.0.end ≡ end) × (r.0.workers ≡ workers)) }
        ensures seats { IfOk result
            (λ r. (vec_len r.1 ≡ workers) × All (λ s. IsAt r.0 s × IsNew s) r.1.items) }
    {
        let key = (u64::from(end), workers as u64);
        let (table, rest) = Table::of_words(alloc, &[0, u64::MAX], &key)?;
        let board = ClaimBoard {
            table,
            end,
            workers,
        };
        let seats = board.seats(alloc, rest)?;
        Ok((board, seats))
    }

    // Splits a seat for each worker off the view that counts all seats.
    fn seats(
        &self,
        alloc: Global,
        mut rest: Seat<(), BoardView>,
    ) -> Result<Vec<ClaimSeat>, AllocError>
        requires at { rest.table_id ≡ self.now.table.shared.table_id }
        requires view { rest.me
            ≡ (view (hand self.now.end self.now.workers 0 []) nothing_lowered, []) }
        ensures { IfOk result
            (λ v. (vec_len v ≡ self.now.workers) × All (λ s. IsAt self.now s × IsNew s) v.items) }
    {
        let mut seats = Vec::with_capacity(alloc, self.workers)?;
        for _ in 0..self.workers {
            let taken = Vec::with_capacity(alloc, self.end as usize)?;
            let seat = self.table.shared.split_seat::<OneSeat>(&mut rest);
            seats.push_reserved(ClaimSeat {
                seat,
                taken,
                end: self.end,
                at_end: false,
            });
        }
        Ok(seats)
    }

    /// The next number, which this seat didn't have before, or `None` at the end. A seat that is at
    /// the end stays there, without a step. `close` says that no other seat had the number.
    ///
    /// ```text
    /// while let Some(group) = board.claim(&mut seat) {
    ///     // no other seat has this group
    /// }
    /// ```
    pub fn claim(&self, seat: &mut ClaimSeat) -> Option<u32>
        requires { IsAt self.now seat.old }
        ensures seat { IsAt self.now seat.new }
        ensures handed { IsHanded self.now.end (claim_handed seat.old) (claim_handed seat.new)
            result }
        ensures again { seat.old.at_end ≡ true → seat.new ≡ seat.old }
        ensures least { (number_lowered seat.new ≡ number_lowered seat.old)
            × (number_seen seat.new ≡ number_seen seat.old) }
    {
        if seat.at_end {
            return None;
        }
        let found = self.table.shared.fetch_add::<Claims>(&mut seat.seat, 0, 1);
        if found < u64::from(seat.end) {
            let number = found as u32;
            seat.taken.push_reserved(number);
            Some(number)
        } else {
            seat.at_end = true;
            None
        }
    }

    /// The least number of the board becomes the lesser of itself and this one.
    ///
    /// ```text
    /// board.lower(&mut seat, 7); // the firing of number 7 exits
    /// ```
    pub fn lower(&self, seat: &mut ClaimSeat, number: u64)
        requires { IsAt self.now seat.old }
        ensures seat { IsAt self.now seat.new × (claim_handed seat.new ≡ claim_handed seat.old) }
        ensures lowered { number_lowered seat.new ≡ min (number_lowered seat.old) number }
        ensures seen { number_seen seat.new ≡ number_seen seat.old }
    {
        self.table
            .shared
            .fetch_min::<Lowers>(&mut seat.seat, 1, number);
    }

    /// The least number that some seat lowered, 2^64 - 1 without any. It is no more than what this
    /// seat lowered or was shown.
    ///
    /// ```text
    /// board.lower(&mut seat, 7);
    /// board.least(&mut seat) // 7, or less if another seat lowered a lesser one
    /// ```
    pub fn least(&self, seat: &mut ClaimSeat) -> u64
        requires { IsAt self.now seat.old }
        ensures seat { IsAt self.now seat.new × (claim_handed seat.new ≡ claim_handed seat.old) }
        ensures own { result ≤ number_lowered seat.old }
        ensures before { result ≤ number_seen seat.old }
        ensures lowered { number_lowered seat.new ≡ number_lowered seat.old }
        ensures seen { number_seen seat.new ≡ result }
    {
        self.table.shared.load::<Looks>(&mut seat.seat, 1)
    }

    /// Each seat's list, and the least number. With all seats, the lists have the numbers below
    /// some front, each once, and all if a seat is at the end. Err if memory was refused.
    ///
    /// ```text
    /// let closed = board.close(alloc, seats)?;
    /// closed.lists // as [[0, 2], [1]], if the first seat claimed 0 and 2
    /// ```
    pub fn close(self, alloc: Global, seats: Vec<ClaimSeat>) -> Result<Closed, AllocError>
        requires at { All (IsAt self) seats.items }
        requires every { vec_len seats ≡ self.workers }
        ensures lists { IfOk result (λ c. c.lists.items ≡ map (λ s. s.taken) seats.items) }
        ensures whole { IfOk result
            (λ c. IsHandOut self.end (claim_seats_at_end seats.items) (claim_numbers seats.items)) }
        ensures least { IfOk result (λ c. (c.least ≡ least_lowered seats.items)
            × (c.least ≤ least_seen seats.items)) }
    {
        let mut lists = Vec::with_capacity(alloc, seats.len())?;
        let (_, mut all) = self.table.shared.load_new_seat::<Arrives>(0);
        for place in seats {
            let ClaimSeat {
                seat,
                taken,
                end: _,
                at_end: _,
            } = place;
            self.table.shared.join_seat::<Gathers>(&mut all, seat);
            lists.push_reserved(taken);
        }
        let ClaimBoard {
            table,
            end: _,
            workers: _,
        } = self;
        let closed = table.close_with(all);
        let least = closed.word(1);
        closed.free();
        Ok(Closed { lists, least })
    }
}
