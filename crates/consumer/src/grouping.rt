//! The groups of a plan.

ghost use Rattle.std.specs.Prelude.{◌≡◌, ◌≤◌, ◌⊎◌, IfErr, IfOk};
ghost use Rattle.shard_queue.specs.{Threads.run_threads};
ghost use Rattle.shard_queue.specs.{declared.fault.GroupFault.TheVariants.Memory};
ghost use Rattle.shard_queue.specs.Groups.{AreOf, grouping};
ghost use Rattle.consumer.specs.{Bounds.dealt, Vocabulary.MAX_GROUPS};
ghost use Rattle.consumer.specs.Plans.{IsGroupedBy, IsMisgrouped};

use crate::plan::GroupPlan;
use firings::Trace;
use shard_queue::{GroupFault, Groups};
use std::alloc::Global;

/// The groups into which a plan puts the threads of a trace, or the first fault of its lists.
///
/// ```text
/// // the threads 9, 3, 9 and 5
/// groups_of(alloc, &GroupPlan::Dealt(2), &trace)?.group_of(5); // Some(1)
/// groups_of(alloc, &GroupPlan::Lists(none), &trace); // Err(GroupFault::Missing { thread: 3 })
/// ```
pub fn groups_of(alloc: Global, plan: &GroupPlan, trace: &Trace) -> Result<Groups, GroupFault>
    requires { (1 ≤ dealt plan.now) × (dealt plan.now ≤ MAX_GROUPS) }
    ensures grouped { IfOk result (λ g. IsGroupedBy plan.now trace.now (grouping g)) }
    ensures of { IfOk result (λ g. AreOf g (run_threads trace.now)) }
    ensures fault { IfErr result (λ e. (e ≡ Memory) ⊎ IsMisgrouped plan.now trace.now e) }
{
    match plan {
        GroupPlan::Dealt(count) => Ok(Groups::deal(alloc, trace, *count)?),
        GroupPlan::Lists(lists) => Groups::from_lists(alloc, trace, lists),
    }
}
