//! Why a script or a trace is refused, and what the program says of it.

ghost use Rattle.std.specs.Prelude.{◌≡◌, IfOk, string_bytes};
ghost use Rattle.consumer.specs.declared.refusal.Refusal.TheVariants.{Group, Lex, Memory, Parse};
ghost use Rattle.consumer.specs.declared.refusal.Refusal.TheVariants.{Trace, Typing};
ghost use Rattle.consumer.specs.{Lines.reason_bytes};
ghost use Rattle.consumer.specs.Refusals.{refusal_line, plain_refusal, status_of};

use crate::line::reason_line;
use crate::reason::{Place, Reason};
use d_lexer::LexFault;
use d_parser::ParseFault;
use d_types::TypeFault;
use firing_reader::TraceFault;
use shard_queue::GroupFault;
use std::alloc::{AllocError, AllocFailed, Global};
use thiserror::Error;

/// The first reason for which a script over a trace has no answer. The script is looked at before
/// the trace, and the trace before the groups.
#[derive(Debug, Drop, Error)]
pub enum Refusal {
    /// Why the script has no tokens.
    #[error(transparent)]
    Lex(LexFault),
    /// Why its tokens have no tree.
    #[error(transparent)]
    Parse(ParseFault),
    /// The first fault of its types.
    #[error(transparent)]
    Typing(TypeFault),
    /// The trace's first fault.
    #[error(transparent)]
    Trace(TraceFault),
    /// Why the plan's lists aren't groups of the trace's threads.
    #[error(transparent)]
    Group(GroupFault),
    /// Memory ran out.
    #[error("out of memory")]
    Memory,
}

impl From<AllocError> for Refusal {
    ghost from_gives = { λ _ e. e ≡ Memory };

    fn from(_e: AllocError) -> Refusal {
        Refusal::Memory
    }
}

impl<T: Drop> From<AllocFailed<T>> for Refusal {
    ghost from_gives = { λ _ e. e ≡ Memory };

    fn from(_e: AllocFailed<T>) -> Refusal {
        Refusal::Memory
    }
}

impl From<LexFault> for Refusal {
    ghost from_gives = { λ fault e. e ≡ plain_refusal (Lex fault) };

    fn from(fault: LexFault) -> Refusal {
        match fault {
            LexFault::Memory => Refusal::Memory,
            LexFault::TooLong
            | LexFault::BadByte { .. }
            | LexFault::Unclosed { .. }
            | LexFault::Constant { .. }
            | LexFault::Escape { .. }
            | LexFault::OptionLine { .. } => Refusal::Lex(fault),
        }
    }
}

impl From<ParseFault> for Refusal {
    ghost from_gives = { λ fault e. e ≡ plain_refusal (Parse fault) };

    fn from(fault: ParseFault) -> Refusal {
        match fault {
            ParseFault::Memory => Refusal::Memory,
            ParseFault::Syntax { .. } | ParseFault::TooDeep | ParseFault::TooManyClauses => {
                Refusal::Parse(fault)
            }
        }
    }
}

impl From<TypeFault> for Refusal {
    ghost from_gives = { λ fault e. e ≡ plain_refusal (Typing fault) };

    fn from(fault: TypeFault) -> Refusal {
        match fault {
            TypeFault::Memory => Refusal::Memory,
            TypeFault::GlobalAssignment { .. }
            | TypeFault::Undeclared { .. }
            | TypeFault::Mismatch { .. }
            | TypeFault::Keys { .. }
            | TypeFault::AggregationRedefined { .. }
            | TypeFault::LquantizeBounds { .. }
            | TypeFault::PrintfArguments { .. }
            | TypeFault::ReadOnly { .. }
            | TypeFault::NoRegister { .. } => Refusal::Typing(fault),
        }
    }
}

impl From<TraceFault> for Refusal {
    ghost from_gives = { λ fault e. e ≡ plain_refusal (Trace fault) };

    fn from(fault: TraceFault) -> Refusal {
        match fault {
            TraceFault::Memory => Refusal::Memory,
            TraceFault::Header
            | TraceFault::Columns { .. }
            | TraceFault::Number { .. }
            | TraceFault::Order { .. }
            | TraceFault::Text { .. }
            | TraceFault::Reserved { .. }
            | TraceFault::TooMany => Refusal::Trace(fault),
        }
    }
}

impl From<GroupFault> for Refusal {
    ghost from_gives = { λ fault e. e ≡ plain_refusal (Group fault) };

    fn from(fault: GroupFault) -> Refusal {
        match fault {
            GroupFault::Memory => Refusal::Memory,
            GroupFault::Missing { .. }
            | GroupFault::Doubled { .. }
            | GroupFault::Stranger { .. }
            | GroupFault::TooMany => Refusal::Group(fault),
        }
    }
}

/// The line that the program writes to standard error, without its line feed.
///
/// ```text
/// let refusal = Refusal::Trace(TraceFault::Order { row: 9 });
/// refusal_text(alloc, &refusal)?; // `dreplay: trace refused: Trace 4 row 9`
/// ```
pub fn refusal_text(alloc: Global, refusal: &Refusal) -> Result<String, AllocError>
    ensures { IfOk result (λ text. string_bytes text ≡ refusal_line refusal.now) }
{
    String::from_str(alloc, reason_line(refusal_reason(refusal)).as_str())
}

/// The text and the place in that line.
pub fn refusal_reason(refusal: &Refusal) -> Reason
    ensures { reason_bytes result ≡ refusal_line refusal.now }
{
    match refusal {
        Refusal::Lex(fault) => lex_reason(*fault),
        Refusal::Parse(fault) => parse_reason(*fault),
        Refusal::Typing(fault) => type_reason(fault),
        Refusal::Trace(fault) => trace_reason(*fault),
        Refusal::Group(fault) => group_reason(*fault),
        Refusal::Memory => OUT_OF_MEMORY,
    }
}

const OUT_OF_MEMORY: Reason = Reason {
    text: "dreplay: out of memory",
    place: Place::Nowhere,
};

fn lex_reason(fault: LexFault) -> Reason
    ensures { reason_bytes result ≡ refusal_line (Refusal.Lex fault) }
{
    let (text, place) = match fault {
        LexFault::TooLong => ("dreplay: script refused: Lex 1", Place::Nowhere),
        LexFault::BadByte { line } => ("dreplay: script refused: Lex 2", Place::Line(line)),
        LexFault::Unclosed { line } => ("dreplay: script refused: Lex 3", Place::Line(line)),
        LexFault::Constant { line } => ("dreplay: script refused: Lex 4", Place::Line(line)),
        LexFault::Escape { line } => ("dreplay: script refused: Lex 5", Place::Line(line)),
        LexFault::OptionLine { line } => ("dreplay: script refused: Lex 6", Place::Line(line)),
        LexFault::Memory => return OUT_OF_MEMORY,
    };
    Reason { text, place }
}

fn parse_reason(fault: ParseFault) -> Reason
    ensures { reason_bytes result ≡ refusal_line (Refusal.Parse fault) }
{
    let (text, place) = match fault {
        ParseFault::Syntax { line } => ("dreplay: script refused: Parse 1", Place::Line(line)),
        ParseFault::TooDeep => ("dreplay: script refused: Parse 2", Place::Nowhere),
        ParseFault::TooManyClauses => ("dreplay: script refused: Parse 3", Place::Nowhere),
        ParseFault::Memory => return OUT_OF_MEMORY,
    };
    Reason { text, place }
}

fn type_reason(fault: &TypeFault) -> Reason
    ensures { reason_bytes result ≡ refusal_line (Refusal.Typing fault.now) }
{
    let (text, line) = match fault {
        TypeFault::GlobalAssignment { line, .. } => ("dreplay: script refused: Type 1", *line),
        TypeFault::Undeclared { line } => ("dreplay: script refused: Type 2", *line),
        TypeFault::Mismatch { line } => ("dreplay: script refused: Type 3", *line),
        TypeFault::Keys { line } => ("dreplay: script refused: Type 4", *line),
        TypeFault::AggregationRedefined { line } => ("dreplay: script refused: Type 5", *line),
        TypeFault::LquantizeBounds { line } => ("dreplay: script refused: Type 6", *line),
        TypeFault::PrintfArguments { line } => ("dreplay: script refused: Type 7", *line),
        TypeFault::ReadOnly { line } => ("dreplay: script refused: Type 8", *line),
        TypeFault::NoRegister { line } => ("dreplay: script refused: Type 9", *line),
        TypeFault::Memory => return OUT_OF_MEMORY,
    };
    Reason {
        text,
        place: Place::Line(line),
    }
}

fn trace_reason(fault: TraceFault) -> Reason
    ensures { reason_bytes result ≡ refusal_line (Refusal.Trace fault) }
{
    let (text, place) = match fault {
        TraceFault::Header => ("dreplay: trace refused: Trace 1", Place::Nowhere),
        TraceFault::Columns { row } => ("dreplay: trace refused: Trace 2", Place::Row(row)),
        TraceFault::Number { row, column } => {
            (
                "dreplay: trace refused: Trace 3",
                Place::Field { row, column },
            )
        }
        TraceFault::Order { row } => ("dreplay: trace refused: Trace 4", Place::Row(row)),
        TraceFault::Text { row, column } => {
            (
                "dreplay: trace refused: Trace 5",
                Place::Field { row, column },
            )
        }
        TraceFault::Reserved { row } => ("dreplay: trace refused: Trace 6", Place::Row(row)),
        TraceFault::TooMany => ("dreplay: trace refused: Trace 7", Place::Nowhere),
        TraceFault::Memory => return OUT_OF_MEMORY,
    };
    Reason { text, place }
}

fn group_reason(fault: GroupFault) -> Reason
    ensures { reason_bytes result ≡ refusal_line (Refusal.Group fault) }
{
    let (text, place) = match fault {
        GroupFault::Missing { thread } => {
            ("dreplay: groups refused: Group 1", Place::Thread(thread))
        }
        GroupFault::Doubled { thread } => {
            ("dreplay: groups refused: Group 2", Place::Thread(thread))
        }
        GroupFault::Stranger { thread } => {
            ("dreplay: groups refused: Group 3", Place::Thread(thread))
        }
        GroupFault::TooMany => ("dreplay: groups refused: Group 4", Place::Nowhere),
        GroupFault::Memory => return OUT_OF_MEMORY,
    };
    Reason { text, place }
}

/// The status that the program ends with.
///
/// ```text
/// refusal_status(&Refusal::Trace(TraceFault::Order { row: 9 })); // 4
/// ```
pub fn refusal_status(refusal: &Refusal) -> u8
    ensures { result ≡ status_of refusal.now }
{
    match refusal {
        Refusal::Lex(LexFault::Memory)
        | Refusal::Parse(ParseFault::Memory)
        | Refusal::Typing(TypeFault::Memory)
        | Refusal::Trace(TraceFault::Memory)
        | Refusal::Group(GroupFault::Memory)
        | Refusal::Memory => 1,
        Refusal::Lex(_) | Refusal::Parse(_) | Refusal::Typing(_) => 3,
        Refusal::Trace(_) | Refusal::Group(_) => 4,
    }
}
