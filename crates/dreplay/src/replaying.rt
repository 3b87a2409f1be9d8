//! The report of a script over a trace.

ghost use Rattle.std.specs.Prelude.{IfErr, IfOk};
ghost use Rattle.consumer.specs.Replaying.{IsAnswered, IsRefusalUnder, IsReplay, IsRunUnder};
ghost use Rattle.report.specs.{Report.IsReport};

use consumer::{Consumer, Plan, Refusal, Replayed};
use replay_core::{Gate, OpenGate};
use report::Report;
use std::alloc::Global;
use std::sync::Wait;
use std::thread::Threads;

/// Runs a script over a trace, between BEGIN and END. The script is refused before the trace, and
/// the trace before the groups; `Refusal::Memory` may come at any point. Maps hash by a fixed key;
/// a `Consumer` has one of its own.
///
/// ```text
/// let plan = Plan { workers: 4, groups: GroupPlan::Dealt(16), engine: EngineKind::Dif };
/// let replayed = replay(&rt, alloc, b"BEGIN { trace(1); exit(3); }", &trace, &plan)?;
/// replayed.bytes; // `1` and a line feed
/// replayed.status; // 3
/// replay(&rt, alloc, b"BEGIN {\n 08 }", &trace, &plan); // Err(Refusal::Lex(..)), of line 2
/// ```
pub fn replay<R: Threads + Wait + Sync>(
    rt: &R,
    alloc: Global,
    script: &[u8],
    trace: &[u8],
    plan: &Plan,
) -> Result<Replayed, Refusal>
    ensures answer { IsAnswered IsReport script.now trace.now result }
    ensures fault { IfErr result (IsRefusalUnder plan.now script.now trace.now) }
    ensures carried { IfOk result (IsRunUnder plan.now script.now trace.now) }
{
    replay_with(rt, alloc, script, trace, plan, &OpenGate)
}

/// Does the same, and calls a gate with each group that a worker takes, before the group's first
/// firing. That it does so is tested, and no contract says it: the answer doesn't depend on the
/// gate.
///
/// ```text
/// replay_with(&rt, alloc, script, &trace, &plan, &OpenGate)?; // as `replay` does
/// ```
pub fn replay_with<R: Threads + Wait + Sync, G: Gate + Sync>(
    rt: &R,
    alloc: Global,
    script: &[u8],
    trace: &[u8],
    plan: &Plan,
    gate: &G,
) -> Result<Replayed, Refusal>
    ensures { IsReplay IsReport script.now trace.now plan.now result }
{
    Consumer::new(rt, alloc, Report).replay_with(script, trace, plan, gate)
}
