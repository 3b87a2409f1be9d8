//! The indices of each group's firings, noted in one pass over the trace.

ghost use Rattle.std.specs.Prelude.{◌≡◌, ◌<◌, ◌≤◌, ◌+◌, ℕ, [], All, map, length, slice_index_or};
ghost use Rattle.std.specs.Prelude.{IfOk, IfSome, OnOk, vec_len};
ghost use Rattle.shard_queue.specs.Vocabulary.{int_eq, lookup, zip};
ghost use Rattle.shard_queue.specs.Groupings.{indices_of, with_own_group};
ghost use Rattle.shard_queue.specs.Groups.{AreOf, grouping, indices};
ghost use Rattle.shard_queue.specs.Threads.{AreThreads, run_threads};

use crate::groups::Groups;
use crate::limits::MAX_GROUPS;
use firings::{Firings, MAX_ROWS, OwnerIndices, Trace};
use std::alloc::{AllocError, Global};

impl Groups {
    /// Groups in which each of the trace's threads has the number at its index, and thread 0 has
    /// `own`.
    pub(crate) fn with_numbers(
        alloc: Global,
        trace: &Trace,
        threads: Vec<i32>,
        numbers: Vec<u32>,
        own: u32,
    ) -> Result<Groups, AllocError>
        requires threads { AreThreads trace.now threads.items }
        requires numbers { (vec_len numbers ≡ vec_len threads) × All (λ g. g < own) numbers.items }
        requires few { own ≤ MAX_GROUPS }
        ensures grouping { IfOk result (λ r. grouping r
            ≡ with_own_group own (λ t. lookup (int_eq t) (zip threads.items numbers.items))) }
        ensures of { IfOk result (λ r. AreOf r (run_threads trace.now)) }
    {
        let indices = empty_lists(alloc, own as usize + 1)?;
        let mut groups = Groups {
            threads,
            numbers,
            own,
            indices,
        };
        groups.fill(trace.firings())?;
        Ok(groups)
    }

    // Notes the indices of the firings, with BEGIN before them and END after them.
    fn fill(&mut self, firings: &Firings) -> Result<(), AllocError>
        requires empty { (g : ℕ) → indices self.old g ≡ [] }
        requires few { length firings.now ≤ MAX_ROWS }
        ensures grouping { OnOk result (grouping self.new ≡ grouping self.old) }
        ensures indices { OnOk result ((g : ℕ) → indices self.new g
            ≡ indices_of (grouping self.old) g (run_threads firings.now)) }
    {
        let owners = firings.owner_indices();
        let groups = self.groups_of(&owners)?;
        self.add(Some(self.own), 0)?;
        let mut index = 1;
        for at in 0..firings.len() {
            let owner = owners.index_of(at);
            self.add(groups[owner], index)?;
            index += 1;
        }
        self.add(Some(self.own), index)?;
        Ok(())
    }

    // The group of each owner's thread.
    fn groups_of(&self, owners: &OwnerIndices) -> Result<Vec<Option<u32>>, AllocError>
        ensures groups { IfOk result (λ v. v.items ≡ map (grouping self.now).group owners.now.0) }
        ensures below { IfOk result
            (λ v. All (λ o. IfSome o (λ g. g < (grouping self.now).count)) v.items) }
    {
        let count = owners.owner_count();
        let mut groups = Vec::with_capacity(*self.threads.allocator(), count)?;
        for index in 0..count {
            groups.push_reserved(self.group_of(owners.thread(index)));
        }
        Ok(groups)
    }
}

fn empty_lists(alloc: Global, count: usize) -> Result<Vec<Vec<u32>>, AllocError>
    ensures len { IfOk result (λ v. vec_len v ≡ count) }
    ensures empty { IfOk result
        (λ v. (g : ℕ) → slice_index_or (map (λ l. l.items) v.items) g [] ≡ []) }
{
    let mut lists = Vec::with_capacity(alloc, count)?;
    for _ in 0..count {
        lists.push_reserved(Vec::new(alloc));
    }
    Ok(lists)
}
