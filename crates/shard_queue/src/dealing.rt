//! Threads dealt out into groups.

ghost use Rattle.std.specs.Prelude.{◌≡◌, ◌<◌, ◌≤◌, ◌%◌, map, IfOk};
ghost use Rattle.shard_queue.specs.{Groupings.IsDealt, Numbers.below, Threads.run_threads};
ghost use Rattle.shard_queue.specs.Groups.{AreOf, grouping};

use crate::groups::Groups;
use crate::limits::MAX_GROUPS;
use firings::Trace;
use std::alloc::{AllocError, Global};

impl Groups {
    /// Deals the trace's threads into this many groups, with one of thread 0 after them: the i-th
    /// thread, ascending, goes to group `i` modulo their number. Err if memory was refused.
    ///
    /// ```text
    /// let groups = Groups::deal(alloc, &trace, 2)?; // of a trace whose threads are 9, 3, 9, 5
    /// groups.group_of(9) // Some(0), as of 3, 5 and 9 it is the third
    /// ```
    pub fn deal(alloc: Global, trace: &Trace, groups: u32) -> Result<Groups, AllocError>
        requires { (0 < groups) × (groups ≤ MAX_GROUPS) }
        ensures dealt { IfOk result (λ r. IsDealt groups trace.now (grouping r)) }
        ensures of { IfOk result (λ r. AreOf r (run_threads trace.now)) }
    {
        let threads = trace.threads(alloc)?;
        let numbers = numbers_in_turn(alloc, threads.len(), groups)?;
        let dealt = Groups::with_numbers(alloc, trace, threads, numbers, groups)?;
        Ok(dealt)
    }
}

// 0, 1 and so on to the last group, again and again.
fn numbers_in_turn(alloc: Global, count: usize, groups: u32) -> Result<Vec<u32>, AllocError>
    requires { 0 < groups }
    ensures { IfOk result (λ v. v.items ≡ map (λ i. i % groups) (below count)) }
{
    (0..count)
        .map(|i| (i % groups as usize) as u32)
        .collect(alloc)
}
