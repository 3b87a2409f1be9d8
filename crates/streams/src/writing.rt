//! Writing all bytes to a sink, in as many calls as it asks for.
ghost use Rattle.std.specs.Prelude.{◌↔◌, ◌+◌, ◌≤◌, length, OnOk, OnErr, IsErr, IsTrue, IsFalse};
ghost use Rattle.std.specs.Io.KnownBytes.{Appends};
ghost use Rattle.streams.specs.Stream.{AppendsBeginning, IsSent};

use crate::stream::Sink;
use thiserror::Error;

/// The sink failed.
#[derive(Clone, Copy, Debug, PartialEq, Eq, Error)]
#[error("write failed")]
pub struct WriteFault;

/// Writes the bytes, each once and in order, and takes no memory. A fault comes exactly if the
/// sink fails; what went out is then a beginning of the bytes, and not all of them.
///
/// ```text
/// let mut sink = Watched::new(Vec::new(alloc));
/// emit(&mut sink, b"  cat  1\n")?;
/// ```
pub fn emit<S: Sink>(sink: &mut S, bytes: &[u8]) -> Result<(), WriteFault>
    requires { IsFalse (S.seen sink.old).has_failed }
    ensures fault { IsErr result ↔ IsTrue (S.seen sink.new).has_failed }
    ensures whole { OnOk result
        (Appends (S.seen sink.old).bytes (S.seen sink.new).bytes bytes.now) }
    ensures beginning { OnErr result
        (AppendsBeginning (S.seen sink.old).bytes (S.seen sink.new).bytes bytes.now) }
    ensures calls { (S.seen sink.new).calls ≤ (S.seen sink.old).calls + length bytes.now }
{
    let mut rest = bytes;
    while !rest.is_empty() {
        let Ok(taken) = sink.put(rest) else {
            return Err(WriteFault);
        };
        rest = &rest[taken..];
    }
    Ok(())
}

/// Writes the bytes as `emit` does, and flushes the sink. A fault comes exactly if the sink
/// fails.
///
/// ```text
/// let mut sink = Watched::new(BufWriter::new(alloc, file)?);
/// send(&mut sink, b"  cat  1\n")?; // the file has them
/// ```
pub fn send<S: Sink>(sink: &mut S, bytes: &[u8]) -> Result<(), WriteFault>
    requires { IsFalse (S.seen sink.old).has_failed }
    ensures fault { IsErr result ↔ IsTrue (S.seen sink.new).has_failed }
    ensures sent { IsSent bytes.now (S.seen sink.old) (S.seen sink.new) }
{
    emit(sink, bytes)?;
    match sink.flush() {
        Ok(()) => Ok(()),
        Err(_) => Err(WriteFault),
    }
}
