//! Tests of the crate's calls, each with its answer.

use crate::{
    Asked, ConsumeFault, EngineKind, GroupPlan, Plan, Refusal, Replayed, UsageFault, consume,
    read_words, refusal_status, refusal_text, replay,
};
use std::alloc::{AllocError, AllocGlobal, Global};
use std::sync::Wait;
use std::test::Fail;
use std::thread::Threads;
use streams::Watched;
use streams::faulty::Faulty;

pub(crate) const LATENCY: &[u8] = b":::entry { self->t = timestamp; } \
:::return / self->t / { @[probefunc] = sum(timestamp - self->t); self->t = 0; }";

pub(crate) const TWO_THREADS: &[u8] =
    b"number,cpu,thread,pid,execname,time,provider,module,function,name,\
arg0,arg1,arg2,arg3,arg4,arg5,arg6,arg7,arg8,arg9\n\
1,0,1,1,a,100,p,,read,entry,0,0,0,0,0,0,0,0,0,0\n\
2,0,2,1,a,110,p,,read,entry,0,0,0,0,0,0,0,0,0,0\n\
3,0,1,1,a,130,p,,read,return,0,0,0,0,0,0,0,0,0,0\n\
4,0,2,1,a,170,p,,read,return,0,0,0,0,0,0,0,0,0,0";

const BUNDLE: &[u8] = b":::entry { self->t = timestamp; } \
:::return / self->t / { @[probefunc] = sum(timestamp - self->t); self->t = 0; }\n---\n\
number,cpu,thread,pid,execname,time,provider,module,function,name,\
arg0,arg1,arg2,arg3,arg4,arg5,arg6,arg7,arg8,arg9\n\
1,0,1,1,a,100,p,,read,entry,0,0,0,0,0,0,0,0,0,0\n\
2,0,2,1,a,110,p,,read,entry,0,0,0,0,0,0,0,0,0,0\n\
3,0,1,1,a,130,p,,read,return,0,0,0,0,0,0,0,0,0,0\n\
4,0,2,1,a,170,p,,read,return,0,0,0,0,0,0,0,0,0,0";

const SHOWN: &[u8] = b"\n  read                                                             90\n";

/// Two workers, and a group for each of two threads.
pub(crate) fn plan_for_two(engine: EngineKind) -> Plan {
    Plan {
        workers: 2,
        groups: GroupPlan::Dealt(2),
        engine,
    }
}

// Whether these firings ran, group by group.
fn has_run(replayed: &Replayed, ran: &[&[u64]]) -> bool {
    replayed.ran.len() == ran.len()
        && replayed
            .ran
            .iter()
            .zip(ran.iter())
            .all(|(numbers, wanted)| numbers.as_slice() == *wanted)
}

/// Whether an answer is the sums, by two workers, and these firings ran in its groups.
pub(crate) fn is_shown(answer: &Result<Replayed, Refusal>, ran: &[&[u64]]) -> bool {
    match answer {
        Ok(replayed) => {
            replayed.bytes.as_slice() == SHOWN
                && replayed.status == 0
                && replayed.by_worker.len() == 2
                && has_run(replayed, ran)
        }
        Err(_) => false,
    }
}

#[test]
fn replay_sums_latency_by_either_engine(rt: HostRuntime) {
    for engine in [EngineKind::Tree, EngineKind::Dif] {
        let plan = plan_for_two(engine);
        let answer = replay(&rt, rt.alloc(), LATENCY, TWO_THREADS, &plan);
        assert!(rt; is_shown(&answer, &[&[1, 3], &[2, 4], &[0, 5]]));
    }
}

// Two workers, and a group for each of these threads.
fn plan_of_lists(alloc: Global, threads: &[i32]) -> Result<Plan, AllocError> {
    let mut groups = Vec::new(alloc);
    for thread in threads {
        let list = Vec::from_slice(alloc, &[*thread])?;
        groups.push(list)?;
    }
    Ok(Plan {
        workers: 2,
        groups: GroupPlan::Lists(groups),
        engine: EngineKind::Dif,
    })
}

// A replay with a group for each of these threads.
fn replay_lists<R: AllocGlobal + Threads + Wait + Sync>(
    rt: &R,
    threads: &[i32],
) -> Result<Replayed, Refusal> {
    let plan = plan_of_lists(rt.alloc(), threads)?;
    replay(rt, rt.alloc(), LATENCY, TWO_THREADS, &plan)
}

#[test]
fn replay_groups_threads_by_lists(rt: HostRuntime) {
    let answer = replay_lists(&rt, &[2, 1]);
    assert!(rt; is_shown(&answer, &[&[2, 4], &[1, 3], &[0, 5]]));
}

// A script, a trace, and the status and the line of their refusal.
const REFUSED: [(&[u8], &[u8], u8, &str); 4] = [
    (
        b":::hit { trace(08); }",
        TWO_THREADS,
        3,
        "dreplay: script refused: Lex 4 line 1",
    ),
    (
        b":::hit { trace(1 }",
        TWO_THREADS,
        3,
        "dreplay: script refused: Parse 1 line 1",
    ),
    (
        b":::hit { x = 1; }",
        TWO_THREADS,
        3,
        "dreplay: script refused: Type 1 line 1",
    ),
    (LATENCY, b"", 4, "dreplay: trace refused: Trace 1"),
];

// Whether a refusal has this status and this line.
fn is_refusal(
    alloc: Global,
    refusal: &Refusal,
    status: u8,
    line: &str,
) -> Result<bool, AllocError> {
    let text = refusal_text(alloc, refusal)?;
    Ok(text.as_str() == line && refusal_status(refusal) == status)
}

// Whether an answer is the refusal of this status and this line.
fn is_refused(
    alloc: Global,
    answer: &Result<Replayed, Refusal>,
    status: u8,
    line: &str,
) -> Result<bool, AllocError> {
    match answer {
        Ok(_) => Ok(false),
        Err(refusal) => is_refusal(alloc, refusal, status, line),
    }
}

#[test]
fn replay_refuses_by_a_line_and_a_status(rt: HostRuntime) -> Result<(), Fail> {
    for (script, trace, status, line) in REFUSED {
        let answer = replay(
            &rt,
            rt.alloc(),
            script,
            trace,
            &plan_for_two(EngineKind::Dif),
        );
        let is_refused = is_refused(rt.alloc(), &answer, status, line)?;
        assert!(rt; is_refused, "{line}");
    }
    Ok(())
}

#[test]
fn replay_refuses_lists_that_are_no_groups(rt: HostRuntime) -> Result<(), Fail> {
    let answer = replay_lists(&rt, &[1]);
    let line = "dreplay: groups refused: Group 1 thread 2";
    let is_refused = is_refused(rt.alloc(), &answer, 4, line)?;
    assert!(rt; is_refused);
    Ok(())
}

// What becomes of a bundle, and what is written, if these many calls of the reader and of the
// writer go well. Each call moves a byte.
fn consumed<R: AllocGlobal + Threads + Wait + Sync>(
    rt: &R,
    bundle: &[u8],
    reads: u64,
    writes: u64,
) -> (Result<Replayed, ConsumeFault>, Vec<u8>) {
    let mut feed = Watched::new(Faulty::new(bundle, reads));
    let mut sink = Watched::new(Faulty::new(Vec::new(rt.alloc()), writes));
    let plan = plan_for_two(EngineKind::Dif);
    let answer = consume(rt, rt.alloc(), &mut feed, &mut sink, &plan);
    (answer, sink.into_inner().into_inner())
}

#[test]
fn consume_writes_the_answer(rt: HostRuntime) {
    let (answer, out) = consumed(&rt, BUNDLE, 1000, 100);
    assert!(rt; answer.is_ok() && out.as_slice() == SHOWN);
}

#[test]
fn consume_says_that_a_read_failed(rt: HostRuntime) {
    let (answer, out) = consumed(&rt, BUNDLE, 10, 100);
    assert!(rt; matches!(answer, Err(ConsumeFault::Read)) && out.is_empty());
}

#[test]
fn consume_says_that_a_write_failed(rt: HostRuntime) {
    let (answer, out) = consumed(&rt, BUNDLE, 1000, 10);
    assert!(rt; matches!(answer, Err(ConsumeFault::Write)) && out.as_slice() == &SHOWN[..10]);
}

#[test]
fn consume_refuses_a_bundle_without_a_trace(rt: HostRuntime) {
    let (answer, out) = consumed(&rt, LATENCY, 1000, 100);
    let is_refused = matches!(answer, Err(ConsumeFault::Refused(Refusal::Trace(_))));
    assert!(rt; is_refused && out.is_empty());
}

// The file of the script, empty for a bundle; how many workers, how many groups, and what engine.
type Wanted<'a> = (&'a str, u32, u32, EngineKind);

const ASKED: [(&[&str], Wanted<'_>); 5] = [
    (&[], ("", 4, 16, EngineKind::Dif)),
    (
        &["-w", "16", "-g", "4096", "-e", "tree"],
        ("", 16, 4096, EngineKind::Tree),
    ),
    (&["-s", "s.d", "-w", "2"], ("s.d", 2, 16, EngineKind::Dif)),
    (&["-w1", "-g1", "-edif"], ("", 1, 1, EngineKind::Dif)),
    (&["-g", "+7"], ("", 4, 7, EngineKind::Dif)),
];

// Whether this is asked for.
fn is_asked(asked: &Asked, wanted: Wanted<'_>) -> bool {
    let (file, workers, groups, engine) = wanted;
    let is_file = match &asked.file {
        Some(name) => name.as_str() == file,
        None => file.is_empty(),
    };
    let plan = &asked.plan;
    let is_dealt = plan.groups == GroupPlan::Dealt(groups);
    is_file && plan.workers == workers && is_dealt && plan.engine == engine
}

// Whether these arguments ask for this.
fn ask_for(alloc: Global, arguments: &[&str], wanted: Wanted<'_>) -> bool {
    match read_words(alloc, arguments) {
        Ok(asked) => is_asked(&asked, wanted),
        Err(_) => false,
    }
}

#[test]
fn arguments_name_a_file_and_a_plan(rt: HostRuntime) {
    for (arguments, wanted) in ASKED {
        assert!(rt; ask_for(rt.alloc(), arguments, wanted), "{arguments:?}");
    }
}

const MISTAKES: [&[&str]; 7] = [
    &["-w", "0"],
    &["-w", "17"],
    &["-g", "0"],
    &["-g", "4097"],
    &["-e", "jit"],
    &["-e", ""],
    &["-w"],
];

#[test]
fn arguments_out_of_range_are_a_mistake(rt: HostRuntime) {
    for arguments in MISTAKES {
        let asked = read_words(rt.alloc(), arguments);
        assert!(rt; matches!(asked, Err(UsageFault::Usage(_))));
    }
}

#[test]
fn arguments_ask_for_help(rt: HostRuntime) {
    let asked = read_words(rt.alloc(), &["--help"]);
    assert!(rt; matches!(asked, Err(UsageFault::Help(_))));
}
