//! Turns a recording of strace, from standard input, into the rows of a trace, to standard output.
#![tactic(auto)]

use recording_rows::{End, convert};
use std::env::args;
use std::io::ErrorKind;
use std::process::ExitCode;

// The status if reading, writing or memory failed, if there are arguments that it doesn't take, and
// if a line isn't known.
const FAILED: u8 = 1;

const MISTAKE: u8 = 2;

const STOPPED: u8 = 4;

const HELP: &str = "\
usage: dreplay-rows < RECORDING > TRACE

Converts what 'strace -f -ttt -T -e raw=all' or dreplay-record recorded, up to the first line that
it doesn't know. The status is then 4, and standard error has the line's number. dreplay-from-strace
takes any recording, and runs this program where it can.
";

fn main(rt: HostRuntime) -> ExitCode {
    let argument = match args(&rt) {
        Ok(mut arguments) => arguments.nth(1),
        Err(error) if error.kind() == ErrorKind::OutOfMemory => {
            let _ = eprintln!(rt; "dreplay-rows: out of memory");
            return ExitCode::from(FAILED);
        }
        Err(_) => {
            let _ = eprint!(rt; "{HELP}");
            return ExitCode::from(MISTAKE);
        }
    };
    if let Some(argument) = argument {
        let is_help = argument.as_str() == "-h" || argument.as_str() == "--help";
        let told = if is_help {
            print!(rt; "{HELP}")
        } else {
            eprint!(rt; "{HELP}")
        };
        let failed = if told.is_ok() { 0 } else { FAILED };
        return ExitCode::from(if is_help { failed } else { MISTAKE });
    }
    let mut output = rt.stdout();
    let status = match convert(rt.alloc(), rt.stdin(), &mut output) {
        Ok(End::Whole) => 0,
        Ok(End::Stopped { line }) => {
            let _ = eprintln!(rt; "dreplay-rows: line {line} is not known");
            STOPPED
        }
        Err(fault) => {
            let _ = eprintln!(rt; "dreplay-rows: {fault}");
            FAILED
        }
    };
    ExitCode::from(status)
}
