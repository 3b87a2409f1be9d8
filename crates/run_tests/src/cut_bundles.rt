//! Bundles that come in two blocks, cut at each byte: what is shown doesn't depend on the cut.

use crate::replays::reporting;
use consumer::{ConsumeFault, EngineKind, GroupPlan, Plan, Replayed, refusal_text};
use std::alloc::{AllocError, AllocGlobal, Global};
use std::io::{Chain, Read};
use std::sync::Wait;
use std::test::Fail;
use std::thread::Threads;
use streams::Watched;

// Lines that begin as the dividing one, a carriage return before the end of that, a byte order
// mark, and a row with quotes.
const MIXED: &[u8] = b"/*\n---x\n--- */ syscall::: { @[execname] = count(); }\n---\r\n\xEF\xBB\xBF\
number,cpu,thread,pid,execname,time,provider,module,function,name,\
arg0,arg1,arg2,arg3,arg4,arg5,arg6,arg7,arg8,arg9\n\
1,0,7,700,cat,1000,syscall,,read,entry,3,0,0,0,0,0,0,0,0,0\n\
4,0,8,700,\"c\"\"t\",1000,syscall,,write,entry,3,0,0,0,0,0,0,0,0,0\r\n";

const MIXED_SHOWN: &str = "
  c\"t                                                               1
  cat                                                               1
";

const SECOND_ROW_REFUSED: &[u8] = b"BEGIN { trace(1); }\n---\n\
number,cpu,thread,pid,execname,time,provider,module,function,name,\
arg0,arg1,arg2,arg3,arg4,arg5,arg6,arg7,arg8,arg9\n\
1,0,7,700,cat,1000,syscall,,read,entry,3,0,0,0,0,0,0,0,0,0\n\
1,0,8,700,cat,1000,syscall,,write,entry,3,0,0,0,0,0,0,0,0,0\n\
x\n";

// What each bundle shows, or what is said of it.
const BUNDLES: [(&[u8], &str); 6] = [
    (MIXED, MIXED_SHOWN),
    (SECOND_ROW_REFUSED, "dreplay: trace refused: Trace 4 row 2"),
    (
        b"BEGIN { trace(1); }\n---\n",
        "dreplay: trace refused: Trace 1",
    ),
    (
        b"BEGIN { trace(1); }\n---\r",
        "dreplay: trace refused: Trace 1",
    ),
    (
        b"BEGIN { trace(1); }\n----\n",
        "dreplay: script refused: Parse 1 line 2",
    ),
    (
        b"BEGIN {\n08; }\n---\nno header\n",
        "dreplay: script refused: Lex 4 line 2",
    ),
];

// A plan with this many workers, at most two.
fn plan_of(workers: u32) -> Plan {
    Plan {
        workers: workers.clamp(1, 2),
        groups: GroupPlan::Dealt(1),
        engine: EngineKind::Tree,
    }
}

// A bundle that comes in two blocks.
fn cut(bundle: &[u8], at: usize) -> Chain<&[u8], &[u8]> {
    let (first, rest) = bundle.split_at(at.min(bundle.len()));
    first.chain(rest)
}

// Consumes a bundle that comes in two blocks.
fn consume_in_two<R: AllocGlobal + Threads + Wait + Sync>(
    rt: &R,
    bundle: &[u8],
    at: usize,
    workers: u32,
) -> (Result<Replayed, ConsumeFault>, Vec<u8>) {
    let mut feed = Watched::new(cut(bundle, at));
    let mut sink = Watched::new(Vec::new(rt.alloc()));
    let answer = reporting(rt).consume(&mut feed, &mut sink, &plan_of(workers));
    (answer, sink.into_inner())
}

// Whether this is what a bundle shows, or what is said of its refusal.
fn is_answer(
    alloc: Global,
    answer: &Result<Replayed, ConsumeFault>,
    out: &[u8],
    wanted: &str,
) -> Result<bool, AllocError> {
    match answer {
        Ok(_) => Ok(out == wanted.as_bytes()),
        Err(ConsumeFault::Refused(refusal)) => {
            let said = refusal_text(alloc, refusal)?;
            Ok(said.as_str() == wanted && out.is_empty())
        }
        Err(_) => Ok(false),
    }
}

// Whether a bundle that comes in two blocks shows this, or this is said of it.
fn answers_in_two<R: AllocGlobal + Threads + Wait + Sync>(
    rt: &R,
    bundle: &[u8],
    at: usize,
    workers: u32,
    wanted: &str,
) -> Result<bool, AllocError> {
    let (answer, out) = consume_in_two(rt, bundle, at, workers);
    is_answer(rt.alloc(), &answer, &out, wanted)
}

// The first of these positions at which a bundle, cut there, shows something else.
fn first_wrong_cut<R: AllocGlobal + Threads + Wait + Sync>(
    rt: &R,
    bundle: &[u8],
    indices: &[usize],
    workers: u32,
    wanted: &str,
) -> Result<Option<usize>, AllocError> {
    for at in indices {
        let is_wanted = answers_in_two(rt, bundle, *at, workers, wanted)?;
        if !is_wanted {
            return Ok(Some(*at));
        }
    }
    Ok(None)
}

// The first position of all at which a bundle, cut there, shows something else.
fn first_wrong_cut_of_all<R: AllocGlobal + Threads + Wait + Sync>(
    rt: &R,
    bundle: &[u8],
    wanted: &str,
) -> Result<Option<usize>, AllocError> {
    for at in 0..=bundle.len() {
        let is_wanted = answers_in_two(rt, bundle, at, 1, wanted)?;
        if !is_wanted {
            return Ok(Some(at));
        }
    }
    Ok(None)
}

#[test]
fn a_bundle_may_be_cut_anywhere(rt: HostRuntime) -> Result<(), Fail> {
    for (bundle, wanted) in BUNDLES {
        let cut = first_wrong_cut_of_all(&rt, bundle, wanted)?;
        assert_eq!(rt; cut, None, "{wanted}");
        let indices = [0, 20, 22, 24, bundle.len()];
        let cut = first_wrong_cut(&rt, bundle, &indices, 2, wanted)?;
        assert_eq!(rt; cut, None, "{wanted}");
    }
    Ok(())
}

// A bundle whose script has this many bytes, most of which are blanks, or line feeds.
fn long_bundle(alloc: Global, bytes: usize, filler: u8) -> Result<Vec<u8>, AllocError> {
    let mut bundle = Vec::new(alloc);
    bundle.extend_from_slice(b"BEGIN { trace(1); }")?;
    for _ in bundle.len() + 1..bytes {
        bundle.push(filler)?;
    }
    bundle.extend_from_slice(b"\n---\r\nno header\n")?;
    Ok(bundle)
}

// The first index at which such a bundle, cut there, shows something else.
fn first_wrong_cut_of_long<R: AllocGlobal + Threads + Wait + Sync>(
    rt: &R,
    bytes: usize,
    filler: u8,
    wanted: &str,
) -> Result<Option<usize>, AllocError> {
    let bundle = long_bundle(rt.alloc(), bytes, filler)?;
    first_wrong_cut(rt, &bundle, &[1, bytes, bytes.saturating_add(4)], 1, wanted)
}

// How many bytes a script has, what most of them are, and what is said of its bundle.
const LONG: [(usize, u8, &str); 6] = [
    (65_536, b' ', "dreplay: trace refused: Trace 1"),
    (65_536, b'\n', "dreplay: trace refused: Trace 1"),
    (65_537, b' ', "dreplay: script refused: Lex 1"),
    (65_537, b'\n', "dreplay: script refused: Lex 1"),
    (65_541, b' ', "dreplay: script refused: Lex 1"),
    (65_541, b'\n', "dreplay: script refused: Lex 1"),
];

#[test]
fn a_script_at_its_limit_is_told_from_one_past_it(rt: HostRuntime) -> Result<(), Fail> {
    for (bytes, filler, wanted) in LONG {
        let cut = first_wrong_cut_of_long(&rt, bytes, filler, wanted)?;
        assert_eq!(rt; cut, None, "{bytes} bytes");
    }
    Ok(())
}
