//! Threads grouped by lists.

ghost use Rattle.std.specs.Prelude.{◌≡◌, ◌<◌, ◌≤◌, ◌+◌, ◌++◌, ◌⊎◌, ℕ, ℤ, false, Some, None, []};
ghost use Rattle.std.specs.Prelude.{List, map, take, set, length, slice_get, slice_index_or};
ghost use Rattle.std.specs.Prelude.{is_some, IfOk, OnOk, IfErr, MatchResult};
ghost use Rattle.shard_queue.specs.Faults.{IsListFault, IsListed, all_of, first_wrong};
ghost use Rattle.shard_queue.specs.Faults.{thread_fault};
ghost use Rattle.shard_queue.specs.Steps.Faults.{first_missing, first_unfound};
ghost use Rattle.shard_queue.specs.{Groupings.list_of};
ghost use Rattle.shard_queue.specs.Groups.{AreOf, grouping};
ghost use Rattle.shard_queue.specs.Threads.{has, items_of, run_threads};
ghost use Rattle.shard_queue.specs.Vocabulary.{Doubled, IsStrictlySortedBy, Memory, Stranger};
ghost use Rattle.shard_queue.specs.Vocabulary.{int_cmp};

use crate::fault::GroupFault;
use crate::groups::Groups;
use crate::limits::MAX_GROUPS;
use crate::threads::index_of;
use firings::Trace;
use std::alloc::{AllocError, Global};

impl Groups {
    /// A group for each list, of the threads in it, and after them one of thread 0. Each of the
    /// trace's threads has to be in one list, and no others may be: else the first fault is
    /// returned. No list at all is read as one empty list.
    ///
    /// ```text
    /// // of a trace whose threads are 1 and 2
    /// Groups::from_lists(alloc, &trace, &[[2], [1]]) // 2 in group 0, 1 in group 1
    /// Groups::from_lists(alloc, &trace, &[[1], [2, 1]]) // Err(Doubled { thread: 1 })
    /// ```
    pub fn from_lists(
        alloc: Global,
        trace: &Trace,
        lists: &[Vec<i32>],
    ) -> Result<Groups, GroupFault>
        ensures listed { IfOk result (λ r. IsListed (items_of lists.now) trace.now (grouping r)) }
        ensures of { IfOk result (λ r. AreOf r (run_threads trace.now)) }
        ensures fault { IfErr result
            (λ e. (e ≡ Memory) ⊎ IsListFault (items_of lists.now) trace.now e) }
    {
        if lists.len() > MAX_GROUPS as usize {
            return Err(GroupFault::TooMany);
        }
        let threads = trace.threads(alloc)?;
        let numbers = list_numbers(alloc, &threads, lists)?;
        let own = lists.len().max(1) as u32;
        let listed = Groups::with_numbers(alloc, trace, threads, numbers, own)?;
        Ok(listed)
    }
}

// The number of each thread's list.
fn list_numbers(alloc: Global, threads: &[i32], lists: &[Vec<i32>]) -> Result<Vec<u32>, GroupFault>
    requires ascending { IsStrictlySortedBy int_cmp threads.now }
    requires few { length lists.now ≤ MAX_GROUPS }
    ensures right { OnOk result (first_wrong threads.now [] (all_of (items_of lists.now)) ≡ None) }
    ensures whole { OnOk result (first_missing threads.now (all_of (items_of lists.now)) ≡ None) }
    ensures numbers { IfOk result
        (λ v. map Some v.items ≡ map (list_of (items_of lists.now)) threads.now) }
    ensures fault { IfErr result
        (λ e. (e ≡ Memory) ⊎ (thread_fault threads.now (items_of lists.now) ≡ Some e)) }
{
    let mut found = no_numbers(alloc, threads)?;
    for list in 0..lists.len() {
        note_list(threads, &mut found, lists, list)?;
    }
    let numbers = every_number(alloc, threads, &found)?;
    Ok(numbers)
}

// No thread has a number yet.
fn no_numbers(alloc: Global, threads: &[i32]) -> Result<Vec<Option<u32>>, AllocError>
    ensures { IfOk result (λ v. v.items ≡ map (λ t. None) threads.now) }
{
    threads.iter().map(|_| None).collect(alloc)
}

// Notes the threads of one list, after those of the lists before it.
fn note_list(
    threads: &[i32],
    found: &mut [Option<u32>],
    lists: &[Vec<i32>],
    list: usize,
) -> Result<(), GroupFault>
    requires ascending { IsStrictlySortedBy int_cmp threads.now }
    requires few { (list < length lists.now) × (length lists.now ≤ MAX_GROUPS) }
    requires before { found.old ≡ map (list_of (take list (items_of lists.now))) threads.now }
    ensures noted { OnOk result
        (found.new ≡ map (list_of (take (list + 1) (items_of lists.now))) threads.now) }
    ensures right { (rest : List ℤ) → let before = all_of (take list (items_of lists.now)) in
        let these = slice_index_or (items_of lists.now) list [] in MatchResult result
        (λ _. first_wrong threads.now before (these ++ rest)
        ≡ first_wrong threads.now (before ++ these) rest)
        (λ e. first_wrong threads.now before (these ++ rest) ≡ Some e) }
{
    let listed = lists[list].as_slice();
    for thread in listed {
        let thread = *thread;
        note(threads, found, thread, list as u32)?;
    }
    Ok(())
}

// Notes that a thread is in a list.
fn note(
    threads: &[i32],
    found: &mut [Option<u32>],
    thread: i32,
    list: u32,
) -> Result<(), GroupFault>
    requires ascending { IsStrictlySortedBy int_cmp threads.now }
    requires sized { length found.old ≡ length threads.now }
    ensures noted { OnOk result ((index : ℕ) × (slice_get threads.now index ≡ Some thread)
        × (slice_get found.old index ≡ Some None)
        × (found.new ≡ set found.old index (Some list))) }
    ensures wrong { IfErr result (λ e. ((e ≡ Stranger thread) × (has threads.now thread ≡ false))
        ⊎ ((e ≡ Doubled thread) × ((index n : ℕ) × (slice_get threads.now index ≡ Some thread)
        × (slice_get found.old index ≡ Some (Some n))))) }
{
    let Some(index) = index_of(threads, thread) else {
        return Err(GroupFault::Stranger { thread });
    };
    if found[index].is_some() {
        return Err(GroupFault::Doubled { thread });
    }
    found[index] = Some(list);
    Ok(())
}

// The number of each thread's list, if every thread is in one.
fn every_number(
    alloc: Global,
    threads: &[i32],
    found: &[Option<u32>],
) -> Result<Vec<u32>, GroupFault>
    requires { length found.now ≡ length threads.now }
    ensures all { IfOk result (λ v. map Some v.items ≡ found.now) }
    ensures missing { IfErr result
        (λ e. (e ≡ Memory) ⊎ (first_unfound threads.now found.now ≡ Some e)) }
{
    let mut numbers = Vec::with_capacity(alloc, found.len())?;
    for (index, number) in found.iter().enumerate() {
        let Some(number) = *number else {
            let thread = threads[index];
            return Err(GroupFault::Missing { thread });
        };
        numbers.push_reserved(number);
    }
    Ok(numbers)
}
