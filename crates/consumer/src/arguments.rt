//! The arguments after the program's name.

ghost use Rattle.std.specs.Prelude.{◌≡◌, ◌⊎◌, ◌∷◌, [], ℕ, IfErr, IfOk, IfSome, IsErr, IsOkAnd};
ghost use Rattle.std.specs.Prelude.{MatchResult, None, Some, codes, drop, map, option_map};
ghost use Rattle.std.specs.Prelude.{pos, string_bytes};
ghost use Rattle.clap.specs.Words.{Rule, app_of, found_of, kind_of, rows_of};
ghost use Rattle.consumer.specs.{Vocabulary.into_iter_items, Vocabulary.Signed};
ghost use Rattle.consumer.specs.{declared.arguments.UsageFault.TheVariants.Memory};
ghost use Rattle.consumer.specs.Arguments.{AreRead, IsMistake, IsNumberIn, IsPlanIn, IsRequestIn};
ghost use Rattle.consumer.specs.Arguments.{bare, engine_called, engine_in, file_in};
ghost use Rattle.consumer.specs.Arguments.{number_option, option, option_or, program};
ghost use Rattle.consumer.specs.Steps.Arguments.{HasRule, IsPlanFault, IsReportedAs};

use crate::plan::{EngineKind, GroupPlan, Plan};
use clap::builder::ValueParser;
use clap::error::ErrorKind;
use clap::{Arg, ArgMatches, Command, value_parser};
use shard_queue::{MAX_GROUPS, MAX_WORKERS};
use std::alloc::{AllocError, Global};
use std::env::Args;
use std::io;
use thiserror::Error;

/// What the arguments ask for.
#[derive(Debug, Drop)]
pub struct Request {
    /// The file that holds the script. Standard input is then the trace alone. Without a file it
    /// is a bundle.
    pub file: Option<String>,
    /// How the run is carried out.
    pub plan: Plan,
}

/// Why the arguments ask for no run.
#[derive(Debug, Drop, Error)]
pub enum UsageFault {
    /// The arguments ask for help; this is its text.
    #[error(transparent)]
    Help(clap::Error),
    /// The arguments are not understood. This says why, in clap's words.
    #[error(transparent)]
    Usage(clap::Error),
    /// Memory ran out.
    #[error("out of memory")]
    Memory,
}

impl From<AllocError> for UsageFault {
    ghost from_gives = { λ _ e. e ≡ Memory };

    fn from(_e: AllocError) -> UsageFault {
        UsageFault::Memory
    }
}

/// What help says of a program, beside its options.
#[derive(Clone, Copy, Debug)]
pub struct Help {
    /// The program's name, and the form of its arguments.
    pub usage: &'static str,
    /// What it does, in a sentence.
    pub about: &'static str,
    /// What comes after the options.
    pub more: &'static str,
}

const SCRIPT: &str = "Take the script from FILE, and the trace alone from standard input";

const WORKERS: &str = "Run groups of threads on N workers, from 1 to 16";

const GROUPS: &str = "Deal the threads of the trace out into N groups, from 1 to 4096";

const ENGINE: &str = "Run compiled code (dif), or walk the typed tree (tree)";

/// The arguments after the program's name, of those that the process was given, if these are UTF-8.
pub fn program_arguments(
    alloc: Global,
    help: Help,
    given: io::Result<Args>,
) -> Result<Vec<String>, UsageFault>
    ensures arguments { IfOk result (λ arguments. IsOkAnd given (λ all.
        arguments.items ≡ drop 1 (into_iter_items all))) }
    ensures fault { IfErr result (λ e. (e ≡ Memory)
        ⊎ (IsErr given × IsMistake ErrorKind.ValueValidation e)) }
{
    match given {
        Ok(arguments) => Ok(after_the_first(alloc, arguments)?),
        Err(fault) if fault.kind() == io::ErrorKind::OutOfMemory => Err(UsageFault::Memory),
        Err(_) => Err(UsageFault::Usage(not_text(alloc, help)?)),
    }
}

// All arguments but the program's name.
fn after_the_first(alloc: Global, arguments: Args) -> Result<Vec<String>, AllocError>
    ensures { IfOk result (λ rest. rest.items ≡ drop 1 (into_iter_items arguments)) }
{
    arguments.skip(1).collect(alloc)
}

/// The texts of arguments, borrowed from them.
pub fn texts_of(alloc: Global, arguments: &[String]) -> Result<Vec<&str>, AllocError>
    ensures { IfOk result (λ texts. map (λ t. t.now) texts.items ≡ map string_bytes arguments.now) }
{
    arguments.iter().map(|text| text.as_str()).collect(alloc)
}

/// Reads the arguments after the program's name.
///
/// Without any, a bundle is run by 4 workers, in 16 groups and with compiled code. A request for
/// help is an error too.
///
/// ```text
/// // the script's file `s.d`, and two workers
/// read_words(alloc, help, &["-s", "s.d", "-w", "2"])?;
/// read_words(alloc, help, &["-w", "17"]); // Err(UsageFault::Usage(..))
/// ```
pub fn read_words<'a>(
    alloc: Global,
    help: Help,
    arguments: &'a [&'a str],
) -> Result<Request, UsageFault>
    ensures { AreRead (map (λ w. w.now) arguments.now) result }
{
    let command = command(alloc, help)?;
    match command.try_get_matches_from(arguments) {
        Ok(matches) => {
            let request = request_in(alloc, help, &matches);
            drop(matches);
            request
        }
        Err(error) => Err(usage_fault(error)),
    }
}

// The file and the plan of clap's matches.
fn request_in(alloc: Global, help: Help, matches: &ArgMatches<'_>) -> Result<Request, UsageFault>
    ensures { MatchResult result (IsRequestIn (rows_of (found_of matches.now)))
        (IsPlanFault (rows_of (found_of matches.now))) }
{
    let file = file_named(alloc, matches)?;
    let plan = plan_in(alloc, help, matches)?;
    Ok(Request { file, plan })
}

// A program's options, with all that help says of them.
fn command<'a>(alloc: Global, help: Help) -> Result<Command<'a>, AllocError>
    ensures { IfOk result (λ c. app_of c ≡ program) }
{
    let command = bare_command(alloc, help);
    let command = command.arg(script_option(alloc))?;
    let command = command.arg(workers_option(alloc))?;
    let command = command.arg(groups_option(alloc))?;
    command.arg(engine_option(alloc))
}

// The command before it has options.
fn bare_command<'a>(alloc: Global, help: Help) -> Command<'a>
    ensures { app_of result ≡ bare }
{
    Command::new(alloc, "dreplay")
        .no_binary_name(true)
        .override_usage(help.usage)
        .about(help.about)
        .after_help(help.more)
}

// The option -s: the script's file.
fn script_option<'a>(alloc: Global) -> Arg<'a>
    ensures { HasRule (option (codes "script") 115) result }
{
    option(alloc, "script", 's', "FILE", SCRIPT)
}

// The option -w: how many workers run.
fn workers_option<'a>(alloc: Global) -> Arg<'a>
    ensures { HasRule (number_option (codes "workers") 119 MAX_WORKERS (codes "4")) result }
{
    let workers = with_default(option(alloc, "workers", 'w', "N", WORKERS), "4");
    with_numbers(workers, MAX_WORKERS)
}

// The option -g: how many groups the threads are dealt into.
fn groups_option<'a>(alloc: Global) -> Arg<'a>
    ensures { HasRule (number_option (codes "groups") 103 MAX_GROUPS (codes "16")) result }
{
    let groups = with_default(option(alloc, "groups", 'g', "N", GROUPS), "16");
    with_numbers(groups, MAX_GROUPS)
}

// The option -e: the engine's name.
fn engine_option<'a>(alloc: Global) -> Arg<'a>
    ensures { HasRule (option_or (codes "engine") 101 (codes "dif")) result }
{
    with_default(option(alloc, "engine", 'e', "ENGINE", ENGINE), "dif")
}

// An option with a name of one letter.
fn option<'a>(alloc: Global, id: &'a str, letter: char, value: &'a str, help: &'a str) -> Arg<'a>
    ensures { HasRule (option id.entry.now letter) result }
{
    Arg::new(alloc, id)
        .short(letter)
        .value_name(value)
        .help(help)
}

// An option that has the value `default` if it isn't given.
fn with_default<'a>(option: Arg<'a>, default: &'a str) -> Arg<'a>
    ensures { (rule : Rule) → HasRule rule option.entry
        → HasRule (record rule { defaults = default.entry.now ∷ [] }) result }
{
    option.default_value(default)
}

// An option that takes a value from 1 to `most`.
fn with_numbers<'a>(option: Arg<'a>, most: u32) -> Arg<'a>
    ensures { (rule : Rule) → HasRule rule option.entry
        → HasRule (record rule { parser = Some (Signed (pos 1) (pos most)) }) result }
{
    option.value_parser(numbers_to(most))
}

// A parser of the numbers from 1 to `most`.
fn numbers_to<'a>(most: u32) -> ValueParser<'a>
    ensures { result ≡ Signed (pos 1) (pos most) }
{
    value_parser!(u32).range(1..=i64::from(most))
}

// The file of the option -s, if it was given.
fn file_named(alloc: Global, matches: &ArgMatches<'_>) -> Result<Option<String>, AllocError>
    ensures { IfOk result (λ file. option_map string_bytes file
        ≡ file_in (rows_of (found_of matches.now))) }
{
    match matches.get_str("script") {
        Some(name) => Ok(Some(String::from_str(alloc, name)?)),
        None => Ok(None),
    }
}

// How the run is to be carried out, by the options -w, -g and -e.
fn plan_in(alloc: Global, help: Help, matches: &ArgMatches<'_>) -> Result<Plan, UsageFault>
    ensures { MatchResult result (IsPlanIn (rows_of (found_of matches.now)))
        (IsPlanFault (rows_of (found_of matches.now))) }
{
    let Some(workers) = number_named(matches, "workers", 1, MAX_WORKERS) else {
        return Err(out_of_range(alloc, help));
    };
    let Some(groups) = number_named(matches, "groups", 1, MAX_GROUPS) else {
        return Err(out_of_range(alloc, help));
    };
    let Some(engine) = engine_named(matches) else {
        return Err(no_engine(alloc, help));
    };
    Ok(Plan {
        workers,
        groups: GroupPlan::Dealt(groups),
        engine,
    })
}

// The mistake of a number out of range that clap accepted. It accepts none, so this is never
// returned.
fn out_of_range(alloc: Global, help: Help) -> UsageFault
    ensures { (result ≡ Memory) ⊎ IsMistake ErrorKind.ValueValidation result }
{
    let text = "a number is out of range";
    mistake_fault(alloc, help, ErrorKind::ValueValidation, text)
}

// The mistake of a name that no engine has.
fn no_engine(alloc: Global, help: Help) -> UsageFault
    ensures { (result ≡ Memory) ⊎ IsMistake ErrorKind.InvalidValue result }
{
    let text = "the engine is dif or tree";
    mistake_fault(alloc, help, ErrorKind::InvalidValue, text)
}

// The fault of a mistake with this text, unless memory runs out as it is made.
fn mistake_fault(alloc: Global, help: Help, kind: ErrorKind, text: &str) -> UsageFault
    ensures { (result ≡ Memory) ⊎ IsMistake kind result }
{
    match mistake(alloc, help, kind, text) {
        Ok(error) => UsageFault::Usage(error),
        Err(_) => UsageFault::Memory,
    }
}

// The number that an option has, if it is in these bounds.
fn number_named(matches: &ArgMatches<'_>, id: &str, low: u32, high: u32) -> Option<u32>
    ensures some { IfSome result (IsNumberIn low high (rows_of (found_of matches.now)) id.now) }
    ensures none { result ≡ None
        → (n : ℕ) → ¬ IsNumberIn low high (rows_of (found_of matches.now)) id.now n }
{
    let number = matches.get_one::<u32>(id)?;
    if low <= number && number <= high {
        Some(number)
    } else {
        None
    }
}

// The engine that the option -e names, if there is one.
fn engine_named(matches: &ArgMatches<'_>) -> Option<EngineKind>
    ensures { result ≡ engine_in (rows_of (found_of matches.now)) }
{
    let name = matches.get_str("engine")?;
    engine_called(name)
}

fn engine_called(name: &str) -> Option<EngineKind>
    ensures { result ≡ engine_called name.now }
{
    if name == "dif" {
        Some(EngineKind::Dif)
    } else if name == "tree" {
        Some(EngineKind::Tree)
    } else {
        None
    }
}

// What clap's error is: a request for help, a mistake, or out of memory.
fn usage_fault(error: clap::Error) -> UsageFault
    ensures { IsReportedAs error result }
{
    match error.kind() {
        ErrorKind::DisplayHelp => UsageFault::Help(error),
        ErrorKind::OutOfMemory => UsageFault::Memory,
        _ => UsageFault::Usage(error),
    }
}

// The mistake of arguments that aren't UTF-8, in clap's form. `read_words` can't be given these.
fn not_text(alloc: Global, help: Help) -> Result<clap::Error, AllocError>
    ensures { IfOk result (λ e. kind_of e ≡ ErrorKind.ValueValidation) }
{
    let text = "a word is not UTF-8";
    mistake(alloc, help, ErrorKind::ValueValidation, text)
}

// A mistake with this text, in clap's form.
fn mistake(
    alloc: Global,
    help: Help,
    kind: ErrorKind,
    text: &str,
) -> Result<clap::Error, AllocError>
    ensures { IfOk result (λ e. kind_of e ≡ kind) }
{
    let mut command = command(alloc, help)?;
    let error = command.error(kind, text);
    drop(command);
    error
}
