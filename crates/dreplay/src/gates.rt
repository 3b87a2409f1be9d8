//! Tests that groups run at the same time: a gate holds one until another has begun.

use crate::calls::{LATENCY, TWO_THREADS, is_shown, plan_for_two};
use crate::{EngineKind, replay_with};
use replay_core::Gate;
use std::alloc::AllocGlobal;
use std::process::Abort;
use std::sync::Wait;
use std::sync::atomic::{AtomicU64, Ordering};
use std::thread;
use std::thread::Threads;

// Holds one group until another has begun, or until it has looked for that too often.
#[derive(Drop)]
struct Holding {
    held: u32,
    until: u32,
    begun: [AtomicU64; 3],
    gave_up: AtomicU64,
}

const MAX_LOOKS: u32 = 100_000_000;

impl Holding {
    fn new(held: u32, until: u32) -> Holding {
        Holding {
            held,
            until,
            begun: [AtomicU64::new(0), AtomicU64::new(0), AtomicU64::new(0)],
            gave_up: AtomicU64::new(0),
        }
    }

    fn times_begun(&self, group: u32) -> u64 {
        self.begun[group as usize % 3].load(Ordering::SeqCst)
    }
}

impl Gate for Holding {
    fn begun(&self, group: u32) {
        let _ = self.begun[group as usize % 3].fetch_add(1, Ordering::SeqCst);
        if group != self.held {
            return;
        }
        for _ in 0..MAX_LOOKS {
            if self.times_begun(self.until) > 0 {
                return;
            }
            thread::yield_now();
        }
        self.gave_up.store(1, Ordering::SeqCst);
    }
}

// Two groups run at the same time: the one goes on only after the other has begun.
fn expect_held(rt: &(impl Abort + AllocGlobal + Threads + Wait + Sync), gate: &Holding) {
    let plan = plan_for_two(EngineKind::Dif);
    let answer = replay_with(rt, rt.alloc(), LATENCY, TWO_THREADS, &plan, gate);
    assert!(rt; is_shown(&answer, &[&[1, 3], &[2, 4], &[0, 5]]));
    assert_eq!(rt; gate.gave_up.load(Ordering::SeqCst), 0);
    for group in 0..3 {
        assert_eq!(rt; gate.times_begun(group), 1);
    }
}

#[test]
fn gate_holds_group_0(rt: HostRuntime) {
    expect_held(&rt, &Holding::new(0, 1));
}

#[test]
fn gate_holds_group_1(rt: HostRuntime) {
    expect_held(&rt, &Holding::new(1, 0));
}
