//! A test that lanes of two groups run at the same time.

use crate::calls::{LATENCY, TWO_THREADS};
use crate::{GroupPlan, Refusal};
use consumer::{groups_of, read_script};
use d_types::{TypedScript, check};
use firing_reader::read_trace;
use firings::{Firing, Trace};
use replay_core::{Engine, Lanes, OpenGate, Piece, TreeLanes, run_all};
use std::alloc::{AllocError, Global};
use std::sync::Wait;
use std::sync::atomic::{AtomicU64, Ordering};
use std::test::Fail;
use std::thread;
use std::thread::Threads;

// The typed script of this text.
fn typed(alloc: Global, script: &[u8]) -> Result<TypedScript, Refusal> {
    let tree = read_script(alloc, script)?;
    let script = check(alloc, tree)?;
    Ok(script)
}

const MAX_LOOKS: u32 = 100_000_000;

// Where two lanes meet.
#[derive(Drop)]
struct Meeting {
    came: AtomicU64,
    gave_up: AtomicU64,
}

impl Meeting {
    fn new() -> Meeting {
        Meeting {
            came: AtomicU64::new(0),
            gave_up: AtomicU64::new(0),
        }
    }

    // Comes, and waits until two have, for at most this many looks.
    fn meet(&self) {
        let _ = self.came.fetch_add(1, Ordering::SeqCst);
        for _ in 0..MAX_LOOKS {
            if self.came.load(Ordering::SeqCst) == 2 {
                return;
            }
            thread::yield_now();
        }
        self.gave_up.store(1, Ordering::SeqCst);
    }
}

// A lane that comes to a meeting before its first firing, unless that is BEGIN.
#[derive(Drop)]
struct MeetingLane<'a, E> {
    lane: E,
    meeting: &'a Meeting,
    has_fired: bool,
}

impl<'a, E: Engine> Engine for MeetingLane<'a, E> {
    ghost runs = { λ l m. E.runs l.lane m };

    ghost seen = { λ l. E.seen l.lane };

    ghost is_spent = { λ l. E.is_spent l.lane };

    fn fire(&mut self, firing: &Firing) -> Result<bool, AllocError> {
        if !self.has_fired && firing.thread != 0 {
            self.meeting.meet();
        }
        self.has_fired = true;
        self.lane.fire(firing)
    }

    fn finish(self) -> Piece {
        self.lane.finish()
    }
}

// Gives lanes that meet.
#[derive(Drop)]
struct MeetingLanes<'a, L> {
    lanes: &'a L,
    meeting: &'a Meeting,
}

impl<'a, L: Lanes> Lanes for MeetingLanes<'a, L> {
    type Lane = MeetingLane<'a, L::Lane>;

    ghost runs = { λ l m. L.runs l.lanes.now m };

    fn exits(&self) -> bool {
        self.lanes.exits()
    }

    fn lane(&self, alloc: Global) -> Result<MeetingLane<'a, L::Lane>, AllocError> {
        let lane = self.lanes.lane(alloc)?;
        Ok(MeetingLane {
            lane,
            meeting: self.meeting,
            has_fired: false,
        })
    }
}

// How many groups ran, if the lanes of a trace's two threads meet.
fn groups_over<R: Threads + Wait + Sync>(
    rt: &R,
    alloc: Global,
    meeting: &Meeting,
    script: &TypedScript,
    trace: &Trace,
) -> Result<usize, Refusal> {
    let groups = groups_of(alloc, &GroupPlan::Dealt(2), trace)?;
    let lanes = TreeLanes::new(script);
    let lanes = MeetingLanes {
        lanes: &lanes,
        meeting,
    };
    let (whole, _) = run_all(rt, alloc, &lanes, trace, &groups, 2, &OpenGate)?;
    Ok(whole.ran.len())
}

// How many groups of the trace of two threads ran.
fn groups_of_two<R: Threads + Wait + Sync>(
    rt: &R,
    alloc: Global,
    meeting: &Meeting,
    script: &TypedScript,
) -> Result<usize, Refusal> {
    let trace = read_trace(alloc, TWO_THREADS)?;
    groups_over(rt, alloc, meeting, script, &trace)
}

// How many groups ran, if the lanes of the two threads meet.
fn groups_run<R: Threads + Wait + Sync>(
    rt: &R,
    alloc: Global,
    meeting: &Meeting,
) -> Result<usize, Refusal> {
    let script = typed(alloc, LATENCY)?;
    groups_of_two(rt, alloc, meeting, &script)
}

#[test]
fn lanes_meet(rt: HostRuntime) -> Result<(), Fail> {
    let meeting = Meeting::new();
    let groups = groups_run(&rt, rt.alloc(), &meeting)?;
    assert_eq!(rt; meeting.gave_up.load(Ordering::SeqCst), 0);
    assert_eq!(rt; meeting.came.load(Ordering::SeqCst), 2);
    assert_eq!(rt; groups, 3);
    Ok(())
}
