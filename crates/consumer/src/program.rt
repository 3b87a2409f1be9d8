//! What the program does with its arguments, its files and its streams.

ghost use Rattle.std.specs.Prelude.{◌≡◌, IsFalse, MatchResult};
ghost use Rattle.consumer.specs.Program.{AreUnfailed, Ends, EndsWithoutRun, IsNoRequest, IsRequest};
ghost use Rattle.consumer.specs.Program.{IsRunOf, streams_seen};
ghost use Rattle.streams.specs.Watched.{watched_calls, watched_has_failed, watched_inner};

use crate::arguments::{Help, Request, UsageFault, program_arguments, read_words, texts_of};
use crate::consumer::Consumer;
use crate::consuming::ConsumeFault;
use crate::ending::{end, fail};
use crate::files::{ScriptFiles, script_in};
use crate::plan::Replayed;
use crate::refusal::Refusal;
use replay_core::Layout;
use std::alloc::Global;
use std::env::Args;
use std::io;
use std::sync::Wait;
use std::thread::Threads;
use streams::{Feed, Sink, Watched, send};

/// The program's streams.
#[derive(Drop)]
pub struct Streams<F, S, E> {
    pub input: F,
    pub output: S,
    pub errors: E,
}

impl<F, S, E> Streams<Watched<F>, Watched<S>, Watched<E>> {
    /// Watches a std reader and two std writers from here on.
    ///
    /// ```text
    /// let mut streams = Streams::watching(bundle, Vec::new(alloc), Vec::new(alloc));
    /// ```
    pub fn watching(input: F, output: S, errors: E) -> Streams<Watched<F>, Watched<S>, Watched<E>>
        ensures input { IsFalse (watched_has_failed result.input) }
        ensures output { IsFalse (watched_has_failed result.output) }
        ensures errors { IsFalse (watched_has_failed result.errors) }
        ensures inner { (watched_inner result.input ≡ input)
            × (watched_inner result.output ≡ output) × (watched_inner result.errors ≡ errors) }
        ensures calls { (watched_calls result.input ≡ 0)
            × (watched_calls result.output ≡ 0) × (watched_calls result.errors ≡ 0) }
    {
        Streams {
            input: Watched::new(input),
            output: Watched::new(output),
            errors: Watched::new(errors),
        }
    }
}

impl<'a, R: Threads + Wait + Sync, L: Layout> Consumer<'a, R, L> {
    /// Does all that a program with this layout does, and returns its exit status.
    ///
    /// ```text
    /// consumer.program(HELP, &files, arguments, &mut streams); // 0, with the answer written
    /// ```
    pub fn program<C: ScriptFiles, F: Feed + Send, S: Sink, E: Sink>(
        &self,
        help: Help,
        files: &C,
        given: io::Result<Args>,
        streams: &mut Streams<F, S, E>,
    ) -> u8
        requires { AreUnfailed (streams_seen F.seen S.seen E.seen streams.old) }
        ensures { Ends L.shows given (C.bytes files.now)
            (streams_seen F.seen S.seen E.seen streams.old)
            (streams_seen F.seen S.seen E.seen streams.new) result }
    {
        match request(self.alloc, help, given) {
            Ok(request) => {
                let answer = self.run_request(files, &request, streams);
                let status = end(&mut streams.errors, &answer);
                drop(answer);
                drop(request);
                status
            }
            Err(fault) => {
                let status = explain(self.alloc, &fault, streams);
                drop(fault);
                status
            }
        }
    }

    // Runs what was asked for, a bundle or a script of a file, from the input into the output.
    fn run_request<C: ScriptFiles, F: Feed + Send, S: Sink, E: Sink>(
        &self,
        files: &C,
        request: &Request,
        streams: &mut Streams<F, S, E>,
    ) -> Result<Replayed, ConsumeFault>
        requires { AreUnfailed (streams_seen F.seen S.seen E.seen streams.old) }
        ensures run { IsRunOf L.shows request.now (C.bytes files.now)
            (streams_seen F.seen S.seen E.seen streams.old)
            (streams_seen F.seen S.seen E.seen streams.new) result }
        ensures errors { streams.new.errors ≡ streams.old.errors }
    {
        let Some(file) = &request.file else {
            return self.consume(&mut streams.input, &mut streams.output, &request.plan);
        };
        match script_in(self.alloc, files, file.as_str()) {
            Ok(script) => {
                let answer = self.consume_trace(
                    &script,
                    &mut streams.input,
                    &mut streams.output,
                    &request.plan,
                );
                drop(script);
                answer
            }
            Err(fault) => Err(fault),
        }
    }
}

// What the program's arguments ask for.
fn request(alloc: Global, help: Help, given: io::Result<Args>) -> Result<Request, UsageFault>
    ensures { MatchResult result (IsRequest given) (IsNoRequest given) }
{
    let arguments = program_arguments(alloc, help, given)?;
    let arguments = texts_of(alloc, &arguments)?;
    read_words(alloc, help, &arguments)
}

// Shows the help that was asked for, or says what is wrong with the arguments, and returns the
// status.
fn explain<F: Feed, S: Sink, E: Sink>(
    alloc: Global,
    fault: &UsageFault,
    streams: &mut Streams<F, S, E>,
) -> u8
    requires { AreUnfailed (streams_seen F.seen S.seen E.seen streams.old) }
    ensures ends { EndsWithoutRun fault.now (streams_seen F.seen S.seen E.seen streams.old)
        (streams_seen F.seen S.seen E.seen streams.new) result }
    ensures input { streams.new.input ≡ streams.old.input }
{
    match fault {
        UsageFault::Help(help) => match format!(in alloc; "{help}") {
            Ok(text) => match send(&mut streams.output, text.as_str().as_bytes()) {
                Ok(()) => 0,
                Err(_) => fail(&mut streams.errors, ConsumeFault::Write),
            },
            Err(_) => fail(&mut streams.errors, OUT_OF_MEMORY),
        },
        UsageFault::Usage(mistake) => match format!(in alloc; "{mistake}") {
            Ok(text) => {
                let _ = send(&mut streams.errors, text.as_str().as_bytes());
                2
            }
            Err(_) => fail(&mut streams.errors, OUT_OF_MEMORY),
        },
        UsageFault::Memory => fail(&mut streams.errors, OUT_OF_MEMORY),
    }
}

const OUT_OF_MEMORY: ConsumeFault = ConsumeFault::Refused(Refusal::Memory);
