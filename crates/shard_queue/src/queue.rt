//! A queue of numbers, from which each seat takes. After them comes an end mark for each seat.

ghost use Rattle.std.specs.Prelude.{◌≡◌, ◌<◌, ◌≤◌, ◌+◌, [], true, None, Some, map, All, vec_len};
ghost use Rattle.std.specs.Prelude.{IfOk, IfSome};
ghost use Rattle.shard_queue.specs.Hands.{IsHandOut, IsHanded, hand};
ghost use Rattle.shard_queue.specs.QueueRule.{among, joint};
ghost use Rattle.shard_queue.specs.Vocabulary.{IsPassOf, pass_view};

use crate::knowledge::QueueView;
use crate::limits::{MAX_GROUPS, MAX_WORKERS};
use crate::queue_rule::{Deals, Gathers, Grows, OneSeat, Puts, Takes};
use crate::queue_seat::QueueSeat;
use crossbeam_queue::{Pass, RuledArrayQueue};
use std::alloc::{AllocError, Global};
use std::sync::Wait;

/// Hands out the numbers below its end.
#[derive(Drop)]
pub struct GroupQueue {
    pub(crate) queue: RuledArrayQueue<u32, QueueView, Deals>,
    pub(crate) end: u32,
    pub(crate) workers: u32,
    ghost some_worker: { 0 < workers },
}

impl GroupQueue {
    ghost use Rattle.shard_queue.specs.Queues.{IsIn, IsUnused, queue_handed, queue_numbers};
    ghost use Rattle.shard_queue.specs.Queues.{queue_seats_at_end};

    /// A queue of the numbers below `end`, and a seat for each worker. Err if memory was
    /// refused.
    ///
    /// ```text
    /// let (queue, seats) = GroupQueue::open(&rt, alloc, 3, 2)?; // the numbers 0 to 2, two seats
    /// ```
    pub fn open<R: Wait>(
        rt: &R,
        alloc: Global,
        end: u32,
        workers: u32,
    ) -> Result<(GroupQueue, Vec<QueueSeat>), AllocError>
        requires { (end ≤ MAX_GROUPS + 1) × (0 < workers) × (workers ≤ MAX_WORKERS) }
        ensures queue { IfOk result (λ r. (r.0.end ≡ end) × (r.0.workers ≡ workers)) }
        ensures seats { IfOk result
            (λ r. (vec_len r.1 ≡ workers) × All (λ s. IsIn r.0 s × IsUnused s) r.1.items) }
    {
        let (queue, first) = RuledArrayQueue::ruled(alloc, end as usize + workers as usize)?;
        let queue = GroupQueue {
            queue,
            end,
            workers,
        };
        let all = queue.count_seats(first);
        let full = queue.fill(rt, all);
        let seats = queue.seats(alloc, full)?;
        Ok((queue, seats))
    }

    // Counts all seats.
    fn count_seats(&self, mut pass: Pass<u32, QueueView>) -> Pass<u32, QueueView>
        requires { IsPassOf self.now.queue pass × (pass_view pass ≡ among 1 (hand 0 1 0 [])) }
        ensures { IsPassOf self.now.queue result
            × (pass_view result ≡ among self.now.workers (hand 0 self.now.workers 0 [])) }
    {
        for _ in 1..self.workers {
            self.queue.another::<Grows>(&mut pass);
        }
        pass
    }

    // Puts each number, and the marks.
    fn fill<R: Wait>(&self, rt: &R, mut pass: Pass<u32, QueueView>) -> Pass<u32, QueueView>
        requires end { (self.now.end ≤ MAX_GROUPS + 1) × (self.now.workers ≤ MAX_WORKERS) }
        requires pass { IsPassOf self.now.queue pass
            × (pass_view pass ≡ among self.now.workers (hand 0 self.now.workers 0 [])) }
        ensures { let seats = self.now.workers in IsPassOf self.now.queue result
            × (pass_view result ≡ among seats (hand (self.now.end + seats) seats 0 [])) }
    {
        let mut next = 0;
        for _ in rt.forever() {
            if next >= self.end + self.workers {
                break;
            }
            if self.queue.try_push_as::<Puts>(&mut pass, next).is_ok() {
                next += 1;
            }
        }
        pass
    }

    fn seats(
        &self,
        alloc: Global,
        mut rest: Pass<u32, QueueView>,
    ) -> Result<Vec<QueueSeat>, AllocError>
        requires { let seats = self.now.workers in IsPassOf self.now.queue rest
            × (pass_view rest ≡ among seats (hand (self.now.end + seats) seats 0 [])) }
        ensures { IfOk result (λ v. (vec_len v ≡ self.now.workers)
            × All (λ s. IsIn self.now s × IsUnused s) v.items) }
    {
        let mut seats = Vec::with_capacity(alloc, self.workers as usize)?;
        for _ in 0..self.workers {
            let taken = Vec::with_capacity(alloc, self.end as usize)?;
            let pass = self.queue.another::<OneSeat>(&mut rest);
            seats.push_reserved(QueueSeat {
                pass,
                taken,
                end: self.end,
                workers: self.workers,
                at_end: false,
            });
        }
        Ok(seats)
    }

    /// The next number, which this seat didn't have before, or `None` at the end. `close` says that
    /// no other seat had the number.
    ///
    /// ```text
    /// while let Some(group) = queue.take(&rt, &mut seat) {
    ///     // no other seat has this group
    /// }
    /// ```
    pub fn take<R: Wait>(&self, rt: &R, seat: &mut QueueSeat) -> Option<u32>
        requires { IsIn self.now seat.old }
        ensures seat { IsIn self.now seat.new }
        ensures handed { IsHanded self.now.end (queue_handed seat.old) (queue_handed seat.new)
            result }
        ensures again { seat.old.at_end ≡ true → seat.new ≡ seat.old }
    {
        if seat.at_end {
            return None;
        }
        let Some(number) = self.queue.pop_as::<Takes, R>(rt, &mut seat.pass) else {
            unreachable!()
        };
        if number < seat.end {
            seat.taken.push_reserved(number);
            Some(number)
        } else {
            seat.at_end = true;
            None
        }
    }

    /// Each seat's list. With all seats, they have the numbers below some front, each once, and all
    /// if a seat is at the end. Err if memory was refused.
    ///
    /// ```text
    /// queue.close(alloc, seats)? // as [[0, 2], [1]], if the first seat took 0 and 2
    /// ```
    pub fn close(self, alloc: Global, seats: Vec<QueueSeat>) -> Result<Vec<Vec<u32>>, AllocError>
        requires at { All (IsIn self) seats.items }
        requires every { vec_len seats ≡ self.workers }
        ensures lists { IfOk result (λ v. v.items ≡ map (λ s. s.taken) seats.items) }
        ensures whole { IfOk result
            (λ v. IsHandOut self.end (queue_seats_at_end seats.items) (queue_numbers seats.items)) }
    {
        let mut lists = Vec::with_capacity(alloc, seats.len())?;
        let mut all = None;
        for place in seats {
            let QueueSeat {
                pass,
                taken,
                end: _,
                workers: _,
                at_end: _,
            } = place;
            all = Some(self.join(all, pass));
            lists.push_reserved(taken);
        }
        if let Some(mut pass) = all {
            self.queue.learn_as::<Gathers>(&mut pass);
        }
        Ok(lists)
    }

    // One pass that knows what two know.
    fn join(
        &self,
        all: Option<Pass<u32, QueueView>>,
        pass: Pass<u32, QueueView>,
    ) -> Pass<u32, QueueView>
        requires all { IfSome all (IsPassOf self.now.queue) }
        requires pass { IsPassOf self.now.queue pass × (0 < (pass_view pass).hand.seats) }
        ensures pass { IsPassOf self.now.queue result }
        ensures one { all ≡ None → pass_view result ≡ pass_view pass }
        ensures both { IfSome all (λ p. pass_view result ≡ joint (pass_view p) (pass_view pass)) }
    {
        let Some(mut all) = all else {
            return pass;
        };
        self.queue.absorb::<Gathers>(&mut all, pass);
        all
    }
}
