//! The firings of a run.

ghost use Rattle.std.specs.Prelude.{◌≡◌, ◌<◌, ◌≤◌, Some, length, slice_get};
ghost use Rattle.replay_core.specs.{Sizes.most_firings, Vocabulary.with_ends};
ghost use Rattle.replay_core.specs.Vocabulary.{row_before};

use firings::{Firing, FiringRows, Trace};

/// The firing of a run over a trace at an index: BEGIN has index 0, the rows follow, and END is the
/// last.
pub(crate) fn firing_at(trace: &Trace, index: u32) -> Firing<'_>
    requires { index < length (with_ends trace.now trace.now) }
    ensures firing { slice_get (with_ends trace.now trace.now) index ≡ Some result }
    ensures few { length (with_ends trace.now trace.now) ≤ most_firings }
{
    let rows = trace.firings();
    if index == 0 {
        return trace.begin();
    }
    let row = index as usize - 1;
    if row < rows.len() {
        return rows.get(row);
    }
    trace.end()
}

/// The firing of a run at an index, whose row was read with others, if it has one.
pub(crate) fn read_at<'a>(
    trace: &'a Trace,
    index: u32,
    rows: &FiringRows<'a>,
    at: usize,
) -> Firing<'a>
    requires row { slice_get rows.now at ≡ Some (row_before trace.now index) }
    requires within { index < length (with_ends trace.now trace.now) }
    ensures { slice_get (with_ends trace.now trace.now) index ≡ Some result }
{
    match rows.get(at) {
        Some(firing) => firing,
        None => firing_at(trace, index),
    }
}
