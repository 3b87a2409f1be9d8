//! The program over arguments, a file and streams in memory: its status and the bytes of both
//! outputs.

use crate::replays::{BUNDLE, HELP, SCRIPT, SHOWN, TRACE, reporting};
use consumer::{ScriptFiles, Streams};
use std::alloc::{AllocError, AllocGlobal, Global};
use std::env::Args;
use std::io;
use std::io::ErrorKind;
use std::sync::Wait;
use std::test::Fail;
use std::thread::Threads;
use streams::faulty::Faulty;
use streams::{Failed, Watched};

// How many calls of each stream go well before one fails. Each call moves a byte.
#[derive(Clone, Copy)]
struct GoodCalls {
    file: u64,
    input: u64,
    output: u64,
    errors: u64,
}

const MANY: u64 = 1_000_000;

const NONE_FAILS: GoodCalls = GoodCalls {
    file: MANY,
    input: MANY,
    output: MANY,
    errors: MANY,
};

// The one file that there is, `s.d`.
#[derive(Drop)]
struct OneFile {
    good_calls: u64,
}

impl ScriptFiles for OneFile {
    type File = Watched<Faulty<&'static [u8]>>;

    ghost use Rattle.std.specs.Prelude.{None};

    ghost bytes = { λ _ _. None };

    fn open(&self, name: &str) -> Result<Watched<Faulty<&'static [u8]>>, Failed> {
        if name != "s.d" {
            return Err(Failed);
        }
        Ok(Watched::new(Faulty::new(SCRIPT, self.good_calls)))
    }
}

// How the program ended.
#[derive(Drop)]
struct Ended {
    status: u8,
    output: Vec<u8>,
    errors: Vec<u8>,
}

impl Ended {
    fn is(&self, status: u8, output: &[u8], errors: &[u8]) -> bool {
        self.status == status
            && self.output.as_slice() == output
            && self.errors.as_slice() == errors
    }
}

// Adds an argument.
fn add_argument(alloc: Global, all: &mut Vec<String>, argument: &str) -> Result<(), AllocError> {
    let argument = String::from_str(alloc, argument)?;
    all.push(argument)?;
    Ok(())
}

// The arguments of a process, of which the first is the program's name.
fn given(alloc: Global, arguments: &[&str]) -> Result<Args, AllocError> {
    let mut all = Vec::new(alloc);
    add_argument(alloc, &mut all, "dreplay")?;
    for argument in arguments {
        add_argument(alloc, &mut all, argument)?;
    }
    Ok(all.into_iter())
}

// Runs the program, given these arguments, over this input.
fn run_program<R: AllocGlobal + Threads + Wait + Sync>(
    rt: &R,
    given: io::Result<Args>,
    input: &[u8],
    calls: GoodCalls,
) -> Ended {
    let files = OneFile {
        good_calls: calls.file,
    };
    let mut streams = Streams {
        input: Watched::new(Faulty::new(input, calls.input)),
        output: Watched::new(Faulty::new(Vec::new(rt.alloc()), calls.output)),
        errors: Watched::new(Faulty::new(Vec::new(rt.alloc()), calls.errors)),
    };
    let status = reporting(rt).program(HELP, &files, given, &mut streams);
    Ended {
        status,
        output: streams.output.into_inner().into_inner(),
        errors: streams.errors.into_inner().into_inner(),
    }
}

// Whether the program, given these arguments, ends so over this input.
fn ends<R: AllocGlobal + Threads + Wait + Sync>(
    rt: &R,
    arguments: &[&str],
    input: &[u8],
    calls: GoodCalls,
    (status, output, errors): (u8, &[u8], &[u8]),
) -> Result<bool, AllocError> {
    let given = given(rt.alloc(), arguments)?;
    let ended = run_program(rt, Ok(given), input, calls);
    Ok(ended.is(status, output, errors))
}

const READ_FAILED: &[u8] = b"dreplay: read failed\n";

const WRITE_FAILED: &[u8] = b"dreplay: write failed\n";

const LEX_REFUSED: &[u8] = b"dreplay: script refused: Lex 4 line 2\n";

// Arguments, input, and the status, output and errors of the end.
const ENDS: [(&[&str], &[u8], u8, &[u8], &[u8]); 11] = [
    (&[], BUNDLE, 0, SHOWN, b""),
    (&["-s", "s.d"], TRACE, 0, SHOWN, b""),
    (
        &["-w", "2", "-e", "tree"],
        b"BEGIN { trace(1); exit(3); }\n---\nnumber,cpu,thread,pid,execname,time,provider,module,\
function,name,arg0,arg1,arg2,arg3,arg4,arg5,arg6,arg7,arg8,arg9",
        3,
        b"1\n",
        b"",
    ),
    (&["-s", "s.c"], TRACE, 1, b"", READ_FAILED),
    (
        &["-w", "17"],
        BUNDLE,
        2,
        b"",
        b"error: invalid value '17' for '-w <N>': 17 is not in 1..=16\n\n\
For more information, try '--help'.\n",
    ),
    (
        &["-s"],
        BUNDLE,
        2,
        b"",
        b"error: a value is required for '-s <FILE>' but none was supplied\n\n\
For more information, try '--help'.\n",
    ),
    (
        &["-n"],
        BUNDLE,
        2,
        b"",
        b"error: unexpected argument '-n' found\n\nUsage: dreplay [OPTIONS]\n\n\
For more information, try '--help'.\n",
    ),
    (&[], b"BEGIN {\n 08 }", 3, b"", LEX_REFUSED),
    (
        &[],
        b"a { x = 1; }",
        3,
        b"",
        b"dreplay: script refused: Type 1 line 1\n",
    ),
    (&[], SCRIPT, 4, b"", b"dreplay: trace refused: Trace 1\n"),
    (
        &["-s", "s.d"],
        BUNDLE,
        4,
        b"",
        b"dreplay: trace refused: Trace 1\n",
    ),
];

#[test]
fn program_ends_as_its_arguments_and_input_ask(rt: HostRuntime) -> Result<(), Fail> {
    for (arguments, input, status, output, errors) in ENDS {
        let is_end = ends(&rt, arguments, input, NONE_FAILS, (status, output, errors))?;
        assert!(rt; is_end, "{arguments:?}");
    }
    Ok(())
}

#[test]
fn program_says_that_arguments_are_no_text(rt: HostRuntime) {
    let given = Err(io::Error::from(ErrorKind::InvalidData));
    let ended = run_program(&rt, given, BUNDLE, NONE_FAILS);
    let said = b"error: a word is not UTF-8\n\nUsage: dreplay [OPTIONS]\n\n\
For more information, try '--help'.\n";
    assert!(rt; ended.is(2, b"", said));
}

#[test]
fn program_tells_that_a_read_failed(rt: HostRuntime) -> Result<(), Fail> {
    for reads in 0..=BUNDLE.len() as u64 {
        let calls = GoodCalls {
            input: reads,
            ..NONE_FAILS
        };
        let is_end = ends(&rt, &[], BUNDLE, calls, (1, b"", READ_FAILED))?;
        assert!(rt; is_end, "at {reads}");
    }
    Ok(())
}

#[test]
fn program_tells_that_a_read_of_the_file_failed(rt: HostRuntime) -> Result<(), Fail> {
    for reads in 0..=SCRIPT.len() as u64 {
        let calls = GoodCalls {
            file: reads,
            ..NONE_FAILS
        };
        let is_end = ends(&rt, &["-s", "s.d"], TRACE, calls, (1, b"", READ_FAILED))?;
        assert!(rt; is_end, "at {reads}");
    }
    Ok(())
}

// The last call is the flush.
#[test]
fn program_tells_that_a_write_or_the_flush_failed(rt: HostRuntime) -> Result<(), Fail> {
    for writes in 0..=SHOWN.len() {
        let calls = GoodCalls {
            output: writes as u64,
            ..NONE_FAILS
        };
        let wanted = (1, &SHOWN[..writes], WRITE_FAILED);
        let is_end = ends(&rt, &[], BUNDLE, calls, wanted)?;
        assert!(rt; is_end, "at {writes}");
    }
    Ok(())
}

#[test]
fn program_keeps_its_status_where_the_errors_fail(rt: HostRuntime) -> Result<(), Fail> {
    for writes in 0..=LEX_REFUSED.len() {
        let calls = GoodCalls {
            errors: writes as u64,
            ..NONE_FAILS
        };
        let wanted = (3, b"".as_slice(), &LEX_REFUSED[..writes]);
        let is_end = ends(&rt, &[], b"BEGIN {\n 08 }", calls, wanted)?;
        assert!(rt; is_end, "at {writes}");
    }
    Ok(())
}

const HELP_SHOWN: &[u8] = b"Replays a D script over a recorded trace\n\n\
Usage: dreplay [OPTIONS]\n\nOptions:\n";

// Whether the program, given this argument, shows the help and nothing else.
fn shows_help<R: AllocGlobal + Threads + Wait + Sync>(
    rt: &R,
    argument: &str,
) -> Result<bool, AllocError> {
    let given = given(rt.alloc(), &[argument])?;
    let ended = run_program(rt, Ok(given), BUNDLE, NONE_FAILS);
    Ok(ended.output.starts_with(HELP_SHOWN) && ended.is(0, &ended.output, b""))
}

#[test]
fn program_shows_help(rt: HostRuntime) -> Result<(), Fail> {
    for argument in ["-h", "--help"] {
        let shows_help = shows_help(&rt, argument)?;
        assert!(rt; shows_help, "{argument}");
    }
    Ok(())
}

#[test]
fn program_tells_that_help_was_not_written(rt: HostRuntime) -> Result<(), Fail> {
    for writes in 0..HELP_SHOWN.len() {
        let calls = GoodCalls {
            output: writes as u64,
            ..NONE_FAILS
        };
        let wanted = (1, &HELP_SHOWN[..writes], WRITE_FAILED);
        let is_end = ends(&rt, &["-h"], BUNDLE, calls, wanted)?;
        assert!(rt; is_end, "at {writes}");
    }
    Ok(())
}
