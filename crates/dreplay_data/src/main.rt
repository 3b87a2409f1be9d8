//! Replays a D script over a recorded trace of probe firings, and writes what the run made to
//! standard output as JSON Lines, for other programs. It takes the same arguments and input as
//! dreplay.
#![tactic(auto)]

mod help;

use consumer::{Consumer, Streams, SystemFiles};
use data_lines::DataLines;
use help::{AT_A_TERMINAL, HELP};
use keyed_hash::HashKey;
use std::env::args;
use std::io::IsTerminal;
use std::process::ExitCode;

fn main(rt: HostRuntime) -> ExitCode {
    let files = SystemFiles { rt: &rt };
    let mut streams = Streams::watching(rt.stdin(), rt.stdout(), rt.stderr());
    let consumer = Consumer {
        rt: &rt,
        alloc: rt.alloc(),
        layout: DataLines,
        hash_key: HashKey::random(&rt),
    };
    let arguments = args(&rt);
    let is_alone = arguments.as_ref().is_ok_and(|given| given.len() == 1);
    if is_alone && rt.stdin().is_terminal() {
        // Nothing else would tell that it waits. A line that can't be written is no loss.
        let _ = eprintln!(rt; "{AT_A_TERMINAL}");
    }
    let status = consumer.program(HELP, &files, arguments, &mut streams);
    ExitCode::from(status)
}
