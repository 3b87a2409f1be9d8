//! Groups of threads.

ghost use Rattle.std.specs.Prelude.{◌≡◌, ◌<◌, ◌≤◌, ◌+◌, ◌∷◌, ◌++◌, [], ℕ, All, IfSome, OnOk};
ghost use Rattle.std.specs.Prelude.{if◌then◌else◌, vec_len};
ghost use Rattle.shard_queue.specs.{Groupings.is_group};
ghost use Rattle.shard_queue.specs.Vocabulary.{IsStrictlySortedBy, IsStrictlySortedBy-prop};
ghost use Rattle.shard_queue.specs.Vocabulary.{MAX_GROUPS, int_cmp};

use crate::threads::index_of;
use std::alloc::AllocError;

/// Which thread is in which group, and for each group the indices of its firings in the run: BEGIN
/// has index 0, the rows of the trace follow, and END is the last.
#[derive(Drop)]
pub struct Groups {
    // the threads of the trace, and at the same index the group of each
    pub(crate) threads: Vec<i32>,
    pub(crate) numbers: Vec<u32>,
    // the group of thread 0
    pub(crate) own: u32,
    pub(crate) indices: Vec<Vec<u32>>,
    ghost ascending: { IsStrictlySortedBy int_cmp threads.items } by { IsStrictlySortedBy-prop
        int_cmp threads.items },
    ghost numbered: { vec_len numbers ≡ vec_len threads },
    ghost small: { All (λ g. g < own) numbers.items },
    ghost sized: { vec_len indices ≡ own + 1 },
    ghost few: { own ≤ MAX_GROUPS },
}

impl Groups {
    ghost use Rattle.shard_queue.specs.Groups.{grouping, indices};

    /// How many groups there are, that of thread 0 among them: no more than a deal or lists make.
    ///
    /// ```text
    /// Groups::deal(alloc, &trace, 2)?.len() // 3
    /// ```
    pub fn len(&self) -> usize
        ensures count { result ≡ (grouping self.now).count }
        ensures few { result ≤ MAX_GROUPS + 1 }
    {
        self.indices.len()
    }

    /// The group of a thread, `None` for a stranger.
    ///
    /// ```text
    /// // the threads 9, 3, 9 and 5, dealt into two groups
    /// groups.group_of(5) // Some(1)
    /// groups.group_of(0) // Some(2)
    /// groups.group_of(4) // None
    /// ```
    pub fn group_of(&self, thread: i32) -> Option<u32>
        ensures group { result ≡ (grouping self.now).group thread }
        ensures below { IfSome result (λ g. g < (grouping self.now).count) }
    {
        if thread == 0 {
            return Some(self.own);
        }
        let index = index_of(&self.threads, thread)?;
        Some(self.numbers[index])
    }

    /// The indices of a group's firings, ascending.
    ///
    /// ```text
    /// // the threads 9, 3, 9 and 5, dealt into two groups
    /// groups.indices(0) // [1, 2, 3]
    /// groups.indices(2) // [0, 5], those of BEGIN and END
    /// ```
    pub fn indices(&self, group: u32) -> &[u32]
        requires { group < (grouping self.now).count }
        ensures { result.now ≡ indices self.now group }
    {
        self.indices[group as usize].as_slice()
    }

    /// Notes the index of a firing of a group.
    pub(crate) fn add(&mut self, group: Option<u32>, index: u32) -> Result<(), AllocError>
        requires { IfSome group (λ g. g < (grouping self.old).count) }
        ensures grouping { OnOk result (grouping self.new ≡ grouping self.old) }
        ensures indices { OnOk result ((g : ℕ) → indices self.new g
            ≡ (if is_group g group then indices self.old g ++ index ∷ [] else indices self.old g)) }
    {
        if let Some(group) = group {
            self.indices[group as usize].push(index)?;
        }
        Ok(())
    }
}
