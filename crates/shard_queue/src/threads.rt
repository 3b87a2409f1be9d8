//! Threads in ascending order.

ghost use Rattle.std.specs.Prelude.{◌≡◌, false, Some, MatchOption, slice_get};
ghost use Rattle.shard_queue.specs.{Threads.has, Vocabulary.IsStrictlySortedBy, Vocabulary.int_cmp};

/// The index of a thread among these, if it is there.
pub(crate) fn index_of(threads: &[i32], thread: i32) -> Option<usize>
    requires { IsStrictlySortedBy int_cmp threads.now }
    ensures { MatchOption result (has threads.now thread ≡ false)
        (λ i. slice_get threads.now i ≡ Some thread) }
{
    threads.binary_search(&thread).ok()
}
