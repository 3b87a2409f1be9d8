//! Replays a D script over a recorded trace of probe firings, and writes to standard output what
//! the script shows. It reads a bundle from standard input: a script, a line `---` and a trace; or
//! the script from the file of the option `-s`.
#![tactic(auto)]

pub mod arguments;
#[cfg(test)]
mod calls;
pub mod consuming;
#[cfg(test)]
mod gates;
mod help;
#[cfg(test)]
mod meeting;
pub mod replaying;

pub use arguments::read_words;
pub use consumer::{
    ConsumeFault, EngineKind, GroupPlan, Plan, Refusal, Replayed, Request as Asked, UsageFault,
    refusal_status, refusal_text,
};
use consumer::{Consumer, Streams, SystemFiles};
pub use consuming::consume;
use help::{AT_A_TERMINAL, HELP};
use keyed_hash::HashKey;
pub use replaying::{replay, replay_with};
use report::Report;
use std::env::args;
use std::io::IsTerminal;
use std::process::ExitCode;

fn main(rt: HostRuntime) -> ExitCode {
    let files = SystemFiles { rt: &rt };
    let mut streams = Streams::watching(rt.stdin(), rt.stdout(), rt.stderr());
    let consumer = Consumer {
        rt: &rt,
        alloc: rt.alloc(),
        layout: Report,
        hash_key: HashKey::random(&rt),
    };
    let arguments = args(&rt);
    let is_alone = arguments.as_ref().is_ok_and(|given| given.len() == 1);
    if is_alone && rt.stdin().is_terminal() {
        // Nothing else would tell that it waits. A line that can't be written is no loss.
        let _ = eprintln!(rt; "{AT_A_TERMINAL}");
    }
    let status = consumer.program(HELP, &files, arguments, &mut streams);
    ExitCode::from(status)
}
