//! The answer of a script over a trace.

ghost use Rattle.std.specs.Prelude.{◌≡◌, [], ℕ, IfErr, IfOk, List, OnOk, option_map, unwrap_or};
ghost use Rattle.firing_reader.specs.{Gives.Gives};
ghost use Rattle.shard_queue.specs.{Groups.AreOf, Groups.grouping, Threads.run_threads};
ghost use Rattle.replay_core.specs.{Exit.firings_over, Working.IsReady};
ghost use Rattle.consumer.specs.{Answer.HasOutput, Scripts.IsAccepted};
ghost use Rattle.consumer.specs.Vocabulary.{Firing, Grouping, Plan, ScriptMeant, functions_in};
ghost use Rattle.consumer.specs.Vocabulary.{functions_of, reads, trace_of, typed_script_of};
ghost use Rattle.consumer.specs.{Plans.IsGroupedBy};
ghost use Rattle.consumer.specs.Replaying.{IsAnswered, IsCarriedOut, IsRefusalUnder, IsReplay};
ghost use Rattle.consumer.specs.Replaying.{IsRunUnder, output_of};
ghost use Rattle.consumer.specs.Steps.{Judging.IsJudged, Replaying.IsRunBy};

use crate::consumer::Consumer;
use crate::grouping::groups_of;
use crate::intake::{Input, Intake};
use crate::plan::{EngineKind, Plan, Replayed};
use crate::refusal::Refusal;
use d_types::TypedScript;
use dif_codegen::compile;
use firing_reader::TraceFault;
use firings::Trace;
use replay_core::{DifLanes, Gate, Lanes, Layout, OpenGate, TreeLanes, Whole, run_all};
use shard_queue::Groups;
use std::alloc::AllocError;
use std::sync::Wait;
use std::thread::Threads;

// The whole of a run, and the groups that each worker took.
type Ran = (Whole, Vec<Vec<u32>>);

impl<'a, R: Threads + Wait + Sync, L: Layout> Consumer<'a, R, L> {
    /// Runs a script over a trace, between BEGIN and END. The script is refused before the trace,
    /// and the trace before the groups; `Refusal::Memory` may come at any point.
    ///
    /// ```text
    /// let consumer = Consumer::new(&rt, alloc, Report);
    /// let plan = Plan { workers: 4, groups: GroupPlan::Dealt(16), engine: EngineKind::Dif };
    /// let replayed = consumer.replay(b"BEGIN { trace(1); exit(3); }", &trace, &plan)?;
    /// replayed.bytes; // `1` and a line feed
    /// replayed.status; // 3
    /// consumer.replay(b"BEGIN {\n 08 }", &trace, &plan); // Err(Refusal::Lex(..)), of line 2
    /// ```
    pub fn replay(&self, script: &[u8], trace: &[u8], plan: &Plan) -> Result<Replayed, Refusal>
        ensures answer { IsAnswered L.shows script.now trace.now result }
        ensures fault { IfErr result (IsRefusalUnder plan.now script.now trace.now) }
        ensures carried { IfOk result (IsRunUnder plan.now script.now trace.now) }
    {
        self.replay_with(script, trace, plan, &OpenGate)
    }

    /// Does the same, and calls a gate with each group that a worker takes, before the group's
    /// first firing. That it does so is tested, and no contract says it: the answer doesn't depend
    /// on the gate.
    ///
    /// ```text
    /// consumer.replay_with(script, trace, &plan, &OpenGate); // as `replay` does
    /// ```
    pub fn replay_with<G: Gate + Sync>(
        &self,
        script: &[u8],
        trace: &[u8],
        plan: &Plan,
        gate: &G,
    ) -> Result<Replayed, Refusal>
        ensures { IsReplay L.shows script.now trace.now plan.now result }
    {
        let input = self.intake(plan).begun(script, trace)?;
        self.answer(input, plan, gate)
    }

    /// How the input of a run is taken.
    pub(crate) fn intake(&self, plan: &Plan) -> Intake<'_, R> {
        Intake {
            rt: self.rt,
            alloc: self.alloc,
            workers: plan.workers,
            hash_key: self.hash_key,
        }
    }

    /// The answer of a script over its trace.
    pub(crate) fn answer<G: Gate + Sync>(
        &self,
        input: Input,
        plan: &Plan,
        gate: &G,
    ) -> Result<Replayed, Refusal>
        ensures { (script trace : List ℕ) → IsJudged script input.script
            → OnOk input.script (reads input.trace [] ≡ trace_of trace)
            → IsReplay L.shows script trace plan.now result }
    {
        let Input { script, trace } = input;
        match script {
            Ok(script) => {
                let read = trace.finish(self.rt);
                let answer = self.replay_read(&script, read, plan, gate);
                drop(script);
                answer
            }
            Err(refusal) => {
                drop(trace);
                Err(refusal)
            }
        }
    }

    // Replays a script that was accepted over what was read of its trace.
    fn replay_read<G: Gate + Sync>(
        &self,
        script: &TypedScript,
        read: Result<Trace, TraceFault>,
        plan: &Plan,
        gate: &G,
    ) -> Result<Replayed, Refusal>
        ensures { (source trace : List ℕ) → IsAccepted source (typed_script_of script.now)
            → Gives read (trace_of trace) → IsReplay L.shows source trace plan.now result }
    {
        let trace = read?;
        let replayed = self.replay_trace(script, &trace, plan, gate);
        drop(trace);
        replayed
    }

    // Replays a script that was accepted over its trace.
    fn replay_trace<G: Gate + Sync>(
        &self,
        script: &TypedScript,
        trace: &Trace,
        plan: &Plan,
        gate: &G,
    ) -> Result<Replayed, Refusal>
        ensures { (source bytes : List ℕ) → IsAccepted source (typed_script_of script.now)
            → trace_of bytes ≡ Ok trace.now → IsReplay L.shows source bytes plan.now result }
    {
        let groups = groups_of(self.alloc, &plan.groups, trace)?;
        let ran = self.run(script, trace, &groups, plan, gate);
        drop(groups);
        let replayed = self.run_output(script, ran?)?;
        Ok(replayed)
    }

    // Runs a script over a trace, by the engine and the workers of a plan.
    fn run<G: Gate + Sync>(
        &self,
        script: &TypedScript,
        trace: &Trace,
        groups: &Groups,
        plan: &Plan,
        gate: &G,
    ) -> Result<Ran, AllocError>
        requires { AreOf groups.now (run_threads trace.now) }
        ensures { IfOk result (IsRunBy (typed_script_of script.now) trace.now
            (grouping groups.now) plan.now.workers) }
    {
        match plan.engine {
            EngineKind::Tree => {
                let lanes = TreeLanes::with_hash_key(self.hash_key, script);
                self.run_lanes(&lanes, trace, groups, plan, gate)
            }
            EngineKind::Dif => {
                let program = compile(self.alloc, script)?;
                let lanes = DifLanes::with_hash_key(self.hash_key, &program);
                let ran = self.run_lanes(&lanes, trace, groups, plan, gate);
                drop(program);
                ran
            }
        }
    }

    // Runs what lanes run over a trace, by the workers of a plan.
    fn run_lanes<K: Lanes + Sync, G: Gate + Sync>(
        &self,
        lanes: &K,
        trace: &Trace,
        groups: &Groups,
        plan: &Plan,
        gate: &G,
    ) -> Result<Ran, AllocError>
        requires { IsReady (K.runs lanes.now) groups.now trace.now }
        ensures { (m : ScriptMeant) → K.runs lanes.now m
            → IfOk result (IsRunBy m trace.now
            (grouping groups.now) plan.now.workers) }
    {
        let workers = plan.workers;
        run_all(self.rt, self.alloc, lanes, trace, groups, workers, gate)
    }

    // What a run shows.
    fn run_output(&self, script: &TypedScript, ran: Ran) -> Result<Replayed, AllocError>
        requires { functions_of ran.0.table ≡ functions_in (typed_script_of script.now) }
        ensures { let m = typed_script_of script.now in
            (plan : Plan) (trace : List Firing) (grouping : Grouping)
            → IsGroupedBy plan.groups trace grouping → IsRunBy m trace grouping plan.workers ran
            → IfOk result (λ r. HasOutput L.shows m trace (output_of r)
            × IsCarriedOut plan trace (firings_over m trace) r) }
    {
        match self.layout.render(self.rt, self.alloc, script, &ran.0) {
            Ok(bytes) => Ok(replayed_of(bytes, ran)),
            Err(e) => {
                drop(ran);
                Err(e)
            }
        }
    }
}

// What a run shows in these bytes.
fn replayed_of(bytes: Vec<u8>, ran: Ran) -> Replayed
    ensures bytes { result.bytes ≡ bytes }
    ensures by_worker { result.by_worker ≡ ran.1 }
    ensures status { result.status ≡ unwrap_or (option_map (λ exit. exit.1) ran.0.exit) 0 }
    ensures ran { result.ran ≡ ran.0.ran }
{
    let (whole, by_worker) = ran;
    Replayed {
        bytes,
        by_worker,
        status: status(whole.exit),
        ran: whole.ran,
    }
}

// The status of an exit, or 0.
fn status(exit: Option<(u64, u8)>) -> u8
    ensures { result ≡ unwrap_or (option_map (λ exit. exit.1) exit) 0 }
{
    exit.map_or(0, |(_, status)| status)
}
