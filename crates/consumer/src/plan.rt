//! How a run is carried out, and what it gave.

ghost use Rattle.std.specs.Prelude.{◌≤◌};
ghost use Rattle.shard_queue.specs.declared.limits.TheConstants.{MAX_GROUPS, MAX_WORKERS};
ghost use Rattle.consumer.specs.Bounds.{dealt};

/// How a run is carried out. The answer is the same under every plan.
///
/// ```text
/// let plan = Plan { workers: 4, groups: GroupPlan::Dealt(16), engine: EngineKind::Dif };
/// ```
#[derive(Debug, Drop, PartialEq, Eq)]
pub struct Plan {
    /// How many workers there are, from 1 to `MAX_WORKERS`.
    pub workers: u32,
    /// Which threads are in which group.
    pub groups: GroupPlan,
    /// What evaluates the script.
    pub engine: EngineKind,
    pub ghost some_workers: { 1 ≤ workers },
    pub ghost few_workers: { workers ≤ MAX_WORKERS },
    pub ghost some_groups: { 1 ≤ dealt groups },
    pub ghost few_groups: { dealt groups ≤ MAX_GROUPS },
}

/// How the threads of a trace are grouped.
#[derive(Debug, Drop, PartialEq, Eq)]
pub enum GroupPlan {
    /// The i-th thread, ascending, goes to group `i` modulo this number, which is from 1 to
    /// `MAX_GROUPS`.
    Dealt(u32),
    /// The threads of each group.
    Lists(Vec<Vec<i32>>),
}

/// What evaluates a script.
#[derive(Clone, Copy, Debug, PartialEq, Eq)]
pub enum EngineKind {
    /// The typed tree.
    Tree,
    /// Compiled code.
    Dif,
}

/// What a run gave.
#[derive(Debug, Drop)]
pub struct Replayed {
    /// All that the script shows.
    pub bytes: Vec<u8>,
    /// The groups that each worker took.
    pub by_worker: Vec<Vec<u32>>,
    /// For each group the numbers of the firings that were run; BEGIN and END are the last group.
    pub ran: Vec<Vec<u64>>,
    /// The status of the script's exit, or 0.
    pub status: u8,
}
