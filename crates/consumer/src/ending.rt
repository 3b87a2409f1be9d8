//! How the program ends: what it says on standard error, and its status.

ghost use Rattle.std.specs.Prelude.{◌≡◌, Err, IsFalse};
ghost use Rattle.consumer.specs.{Lines.reason_bytes};
ghost use Rattle.consumer.specs.Refusals.{IsReported, consume_fault_line, status_at_end};

use crate::consuming::ConsumeFault;
use crate::line::reason_line;
use crate::plan::Replayed;
use crate::reason::{Place, Reason};
use crate::refusal::{refusal_reason, refusal_status};
use streams::{Sink, send};

/// Writes why there is no answer to the errors' stream in one piece, if there is none, and returns
/// the exit status. It allocates nothing.
///
/// ```text
/// end(&mut errors, &Err(ConsumeFault::Write)); // 1, and the line `dreplay: write failed`
/// ```
pub fn end<E: Sink>(errors: &mut E, answer: &Result<Replayed, ConsumeFault>) -> u8
    requires { IsFalse (E.seen errors.old).has_failed }
    ensures { IsReported answer.now (E.seen errors.old) (E.seen errors.new) result }
{
    if let Err(fault) = answer {
        let mut line = reason_line(fault_reason(fault));
        line.push('\n');
        // If that fails, the status still shows the fault.
        let _ = send(errors, line.as_str().as_bytes());
    }
    status_at_end(answer)
}

/// Writes a fault's line to the errors' stream, and returns the exit status. It allocates nothing.
///
/// ```text
/// fail(&mut errors, ConsumeFault::Write); // 1, and the line `dreplay: write failed`
/// ```
pub fn fail<E: Sink>(errors: &mut E, fault: ConsumeFault) -> u8
    requires { IsFalse (E.seen errors.old).has_failed }
    ensures { IsReported (Err fault) (E.seen errors.old) (E.seen errors.new) result }
{
    let answer: Result<Replayed, ConsumeFault> = Err(fault);
    let status = end(errors, &answer);
    drop(answer);
    status
}

// The text and the place in the line of a fault.
fn fault_reason(fault: &ConsumeFault) -> Reason
    ensures { reason_bytes result ≡ consume_fault_line fault.now }
{
    let text = match fault {
        ConsumeFault::Read => "dreplay: read failed",
        ConsumeFault::Refused(refusal) => return refusal_reason(refusal),
        ConsumeFault::Write => "dreplay: write failed",
    };
    Reason {
        text,
        place: Place::Nowhere,
    }
}

// The status that the program ends with: the script's own if it exits, 0 if it doesn't, and
// otherwise the fault's.
fn status_at_end(answer: &Result<Replayed, ConsumeFault>) -> u8
    ensures { result ≡ status_at_end answer.now }
{
    match answer {
        Ok(replayed) => replayed.status,
        Err(ConsumeFault::Refused(refusal)) => refusal_status(refusal),
        Err(ConsumeFault::Read | ConsumeFault::Write) => 1,
    }
}
