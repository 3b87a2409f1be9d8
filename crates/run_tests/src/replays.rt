//! Calls that no run of the program shows: what ran in which group and by whom, groups as lists,
//! failing readers and writers, and what is said of each refusal.

use crate::stream_calls::read;
use consumer::{
    ConsumeFault, Consumer, EngineKind, GroupPlan, Help, Plan, Refusal, Replayed, refusal_status,
    refusal_text,
};
use d_lexer::LexFault;
use d_parser::ParseFault;
use d_types::TypeFault;
use firing_reader::TraceFault;
use report::Report;
use shard_queue::GroupFault;
use std::alloc::{AllocError, AllocGlobal, Global};
use std::sync::Wait;
use std::test::Fail;
use std::thread::Threads;
use streams::Watched;
use streams::faulty::Faulty;

pub(crate) const SCRIPT: &[u8] = b"syscall::read:entry { @[execname] = count(); }";

pub(crate) const TRACE: &[u8] =
    b"number,cpu,thread,pid,execname,time,provider,module,function,name,\
arg0,arg1,arg2,arg3,arg4,arg5,arg6,arg7,arg8,arg9\n\
1,0,7,700,cat,1000,syscall,,read,entry,3,0,0,0,0,0,0,0,0,0\n\
4,0,8,700,cat,1000,syscall,,write,entry,3,0,0,0,0,0,0,0,0,0";

const NO_ROWS: &[u8] = b"number,cpu,thread,pid,execname,time,provider,module,function,name,\
arg0,arg1,arg2,arg3,arg4,arg5,arg6,arg7,arg8,arg9";

pub(crate) const BUNDLE: &[u8] = b"syscall::read:entry { @[execname] = count(); }\n---\n\
number,cpu,thread,pid,execname,time,provider,module,function,name,\
arg0,arg1,arg2,arg3,arg4,arg5,arg6,arg7,arg8,arg9\n\
1,0,7,700,cat,1000,syscall,,read,entry,3,0,0,0,0,0,0,0,0,0";

pub(crate) const SHOWN: &[u8] =
    b"\n  cat                                                               1\n";

const EXITING: &[u8] = b":::hit / arg0 / { exit(arg0); } :::hit { @ = count(); } \
dtrace:::END { printf(\"end\\n\"); }";

pub(crate) const FOUR_HITS: &[u8] =
    b"number,cpu,thread,pid,execname,time,provider,module,function,name,\
arg0,arg1,arg2,arg3,arg4,arg5,arg6,arg7,arg8,arg9\n\
10,0,1,1,a,0,p,,f,hit,0,0,0,0,0,0,0,0,0,0\n\
12,0,2,1,a,0,p,,f,hit,5,0,0,0,0,0,0,0,0,0\n\
20,0,1,1,a,0,p,,f,hit,0,0,0,0,0,0,0,0,0,0\n\
40,0,1,1,a,0,p,,f,hit,3,0,0,0,0,0,0,0,0,0";

const SAID: [(Refusal, u8, &str); 17] = [
    (Refusal::Memory, 1, "dreplay: out of memory"),
    (Refusal::Lex(LexFault::Memory), 1, "dreplay: out of memory"),
    (
        Refusal::Parse(ParseFault::Memory),
        1,
        "dreplay: out of memory",
    ),
    (
        Refusal::Typing(TypeFault::Memory),
        1,
        "dreplay: out of memory",
    ),
    (
        Refusal::Trace(TraceFault::Memory),
        1,
        "dreplay: out of memory",
    ),
    (
        Refusal::Trace(TraceFault::Header),
        4,
        "dreplay: trace refused: Trace 1",
    ),
    (
        Refusal::Trace(TraceFault::Columns { row: 2 }),
        4,
        "dreplay: trace refused: Trace 2 row 2",
    ),
    (
        Refusal::Trace(TraceFault::Number { row: 2, column: 4 }),
        4,
        "dreplay: trace refused: Trace 3 row 2 column 4",
    ),
    (
        Refusal::Trace(TraceFault::Order { row: 9 }),
        4,
        "dreplay: trace refused: Trace 4 row 9",
    ),
    (
        Refusal::Trace(TraceFault::Text { row: 1, column: 10 }),
        4,
        "dreplay: trace refused: Trace 5 row 1 column 10",
    ),
    (
        Refusal::Trace(TraceFault::Reserved { row: 7 }),
        4,
        "dreplay: trace refused: Trace 6 row 7",
    ),
    (
        Refusal::Trace(TraceFault::TooMany),
        4,
        "dreplay: trace refused: Trace 7",
    ),
    (
        Refusal::Group(GroupFault::Memory),
        1,
        "dreplay: out of memory",
    ),
    (
        Refusal::Group(GroupFault::Missing { thread: 7 }),
        4,
        "dreplay: groups refused: Group 1 thread 7",
    ),
    (
        Refusal::Group(GroupFault::Doubled { thread: 1 }),
        4,
        "dreplay: groups refused: Group 2 thread 1",
    ),
    (
        Refusal::Group(GroupFault::Stranger { thread: -3 }),
        4,
        "dreplay: groups refused: Group 3 thread -3",
    ),
    (
        Refusal::Group(GroupFault::TooMany),
        4,
        "dreplay: groups refused: Group 4",
    ),
];

pub(crate) const HELP: Help = Help {
    usage: "dreplay [OPTIONS]",
    about: "Replays a D script over a recorded trace",
    more: "No more.",
};

/// Gives answers in the layout for people.
pub(crate) fn reporting<R: AllocGlobal>(rt: &R) -> Consumer<'_, R, Report> {
    Consumer::new(rt, rt.alloc(), Report)
}

fn serial() -> Plan {
    Plan {
        workers: 1,
        groups: GroupPlan::Dealt(1),
        engine: EngineKind::Tree,
    }
}

// Consumes the bundle one byte a call, if these many calls of the reader and of the writer go
// well. The writer's last call is a flush.
fn consume_by_bytes<R: AllocGlobal + Threads + Wait + Sync>(
    rt: &R,
    reads: u64,
    writes: u64,
) -> (Result<Replayed, ConsumeFault>, Vec<u8>) {
    let mut feed = Watched::new(Faulty::new(BUNDLE, reads));
    let mut sink = Watched::new(Faulty::new(Vec::new(rt.alloc()), writes));
    let answer = reporting(rt).consume(&mut feed, &mut sink, &serial());
    (answer, sink.into_inner().into_inner())
}

// Consumes the trace, with its script apart, in the same way.
fn consume_trace_by_bytes<R: AllocGlobal + Threads + Wait + Sync>(
    rt: &R,
    script_reads: u64,
    reads: u64,
    writes: u64,
) -> (Result<Replayed, ConsumeFault>, Vec<u8>) {
    let mut feed = Watched::new(Faulty::new(TRACE, reads));
    let mut sink = Watched::new(Faulty::new(Vec::new(rt.alloc()), writes));
    let plan = serial();
    let answer = match read(rt.alloc(), SCRIPT, script_reads) {
        Ok(script) => reporting(rt).consume_trace(&script, &mut feed, &mut sink, &plan),
        Err(fault) => Err(ConsumeFault::from(fault)),
    };
    (answer, sink.into_inner().into_inner())
}

// A plan of one worker and two groups.
fn of_two_groups() -> Plan {
    Plan {
        workers: 1,
        groups: GroupPlan::Dealt(2),
        engine: EngineKind::Dif,
    }
}

// Whether the one worker took all groups, in order, the last of which is that of BEGIN and END, and
// these firings ran in them.
fn has_run(replayed: &Replayed, groups: &[u32], ran: &[&[u64]]) -> bool {
    replayed.by_worker.len() == 1
        && replayed.by_worker[0].as_slice() == groups
        && replayed.ran.len() == ran.len()
        && replayed
            .ran
            .iter()
            .zip(ran.iter())
            .all(|(numbers, wanted)| numbers.as_slice() == *wanted)
}

// What a replay shows, its status, the groups that the one worker took, and what ran in them.
type Wanted<'a> = (&'a [u8], u8, &'a [u32], &'a [&'a [u64]]);

// Whether a replay is the expected one.
fn replays_as<R: AllocGlobal + Threads + Wait + Sync>(
    rt: &R,
    script: &[u8],
    trace: &[u8],
    plan: &Plan,
    wanted: Wanted<'_>,
) -> Result<bool, Refusal> {
    let (shown, status, groups, ran) = wanted;
    let replayed = reporting(rt).replay(script, trace, plan)?;
    let is_shown = replayed.bytes.as_slice() == shown && replayed.status == status;
    Ok(is_shown && has_run(&replayed, groups, ran))
}

#[test]
fn each_firing_is_run_once(rt: HostRuntime) -> Result<(), Fail> {
    let wanted: Wanted<'_> = (SHOWN, 0, &[0, 1], &[&[1, 4], &[0, 5]]);
    let is_wanted = replays_as(&rt, SCRIPT, TRACE, &serial(), wanted)?;
    assert!(rt; is_wanted);
    Ok(())
}

#[test]
fn begin_and_end_run_without_rows(rt: HostRuntime) -> Result<(), Fail> {
    let wanted: Wanted<'_> = (b"", 0, &[0, 1, 2], &[&[], &[], &[0, 1]]);
    let is_wanted = replays_as(&rt, SCRIPT, NO_ROWS, &of_two_groups(), wanted)?;
    assert!(rt; is_wanted);
    Ok(())
}

const SHOWN_AT_EXIT: &[u8] = b"end\n\n                2\n";

#[test]
fn firings_after_an_exit_do_not_run(rt: HostRuntime) -> Result<(), Fail> {
    let wanted: Wanted<'_> = (SHOWN_AT_EXIT, 5, &[0, 1], &[&[10, 12], &[0, 41]]);
    let is_wanted = replays_as(&rt, EXITING, FOUR_HITS, &serial(), wanted)?;
    assert!(rt; is_wanted);
    let wanted: Wanted<'_> = (SHOWN_AT_EXIT, 5, &[0, 1, 2], &[&[10], &[12], &[0, 41]]);
    let is_wanted = replays_as(&rt, EXITING, FOUR_HITS, &of_two_groups(), wanted)?;
    assert!(rt; is_wanted);
    Ok(())
}

// What becomes of an answer, and what is shown.
type Answer = (Result<Replayed, ConsumeFault>, Vec<u8>);

// Whether nothing was written, as a read failed.
fn is_unread((answer, out): &Answer) -> bool {
    matches!(answer, Err(ConsumeFault::Read)) && out.is_empty()
}

// Whether just this beginning was written, as a write failed.
fn is_unwritten((answer, out): &Answer, beginning: &[u8]) -> bool {
    matches!(answer, Err(ConsumeFault::Write)) && out.as_slice() == beginning
}

// Whether all was written.
fn is_shown((answer, out): &Answer) -> bool {
    answer.is_ok() && out.as_slice() == SHOWN
}

#[test]
fn nothing_is_written_after_a_failed_read(rt: HostRuntime) {
    for reads in 0..=BUNDLE.len() as u64 {
        let answer = consume_by_bytes(&rt, reads, 100);
        assert!(rt; is_unread(&answer), "at {reads}");
    }
    let answer = consume_by_bytes(&rt, BUNDLE.len() as u64 + 1, 100);
    assert!(rt; is_shown(&answer));
}

#[test]
fn nothing_is_written_after_a_failed_read_of_a_trace(rt: HostRuntime) {
    for reads in 0..=TRACE.len() as u64 {
        let answer = consume_trace_by_bytes(&rt, 1000, reads, 100);
        assert!(rt; is_unread(&answer), "at {reads}");
    }
    let answer = consume_trace_by_bytes(&rt, 1000, TRACE.len() as u64 + 1, 100);
    assert!(rt; is_shown(&answer));
}

#[test]
fn nothing_is_written_after_a_failed_read_of_a_script(rt: HostRuntime) {
    for reads in 0..=SCRIPT.len() as u64 {
        let answer = consume_trace_by_bytes(&rt, reads, 1000, 100);
        assert!(rt; is_unread(&answer), "at {reads}");
    }
    let answer = consume_trace_by_bytes(&rt, SCRIPT.len() as u64 + 1, 1000, 100);
    assert!(rt; is_shown(&answer));
}

#[test]
fn a_beginning_is_written_before_a_failed_write(rt: HostRuntime) {
    for writes in 0..=SHOWN.len() {
        let answer = consume_by_bytes(&rt, 1000, writes as u64);
        assert!(rt; is_unwritten(&answer, &SHOWN[..writes]), "at {writes}");
        let answer = consume_trace_by_bytes(&rt, 1000, 1000, writes as u64);
        assert!(rt; is_unwritten(&answer, &SHOWN[..writes]), "at {writes}");
    }
}

// Whether this is said of a refusal.
fn is_said(alloc: Global, refusal: &Refusal, line: &str) -> Result<bool, AllocError> {
    let said = refusal_text(alloc, refusal)?;
    Ok(said.as_str() == line)
}

#[test]
fn each_refusal_has_its_line_and_status(rt: HostRuntime) -> Result<(), Fail> {
    for (refusal, status, line) in SAID {
        let is_said = is_said(rt.alloc(), &refusal, line)?;
        assert!(rt; is_said && refusal_status(&refusal) == status, "{line}");
    }
    Ok(())
}

// A plan whose groups are these lists, for two workers.
fn plan_of_lists(alloc: Global, lists: &[&[i32]]) -> Result<Plan, AllocError> {
    let mut groups = Vec::new(alloc);
    for list in lists {
        let list = Vec::from_slice(alloc, list)?;
        groups.push(list)?;
    }
    Ok(Plan {
        workers: 2,
        groups: GroupPlan::Lists(groups),
        engine: EngineKind::Dif,
    })
}

// What becomes of the lists, of threads 7 and 8.
const LISTS: [(&[&[i32]], Option<GroupFault>); 6] = [
    (&[&[7, 8]], None),
    (&[&[], &[8], &[], &[7]], None),
    (&[&[7], &[8, 7]], Some(GroupFault::Doubled { thread: 7 })),
    (&[&[7]], Some(GroupFault::Missing { thread: 8 })),
    (
        &[&[7], &[3], &[8]],
        Some(GroupFault::Stranger { thread: 3 }),
    ),
    (&[], Some(GroupFault::Missing { thread: 7 })),
];

// Whether an answer is the whole one, or if there is a fault of the groups, this fault.
fn is_of_lists(answer: &Result<Replayed, Refusal>, fault: Option<GroupFault>) -> bool {
    match answer {
        Ok(replayed) => fault.is_none() && replayed.bytes.as_slice() == SHOWN,
        Err(Refusal::Group(found)) => fault == Some(*found),
        Err(_) => false,
    }
}

// Whether a replay over these lists has this answer.
fn is_grouped<R: AllocGlobal + Threads + Wait + Sync>(
    rt: &R,
    lists: &[&[i32]],
    fault: Option<GroupFault>,
) -> Result<bool, AllocError> {
    let plan = plan_of_lists(rt.alloc(), lists)?;
    let answer = reporting(rt).replay(SCRIPT, TRACE, &plan);
    Ok(is_of_lists(&answer, fault))
}

#[test]
fn threads_are_grouped_by_lists(rt: HostRuntime) -> Result<(), Fail> {
    for (lists, fault) in LISTS {
        let is_grouped = is_grouped(&rt, lists, fault)?;
        assert!(rt; is_grouped, "{lists:?}");
    }
    Ok(())
}
