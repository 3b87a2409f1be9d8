//! What goes through streams over memory, with a failure at each call in turn.
ghost use Rattle.std.specs.Prelude.{◌≡◌, ◌<◌, ℕ, length, take, OnOk, OnErr};

use std::alloc::Global;
use std::test::Fail;
use streams::faulty::Faulty;
use streams::{ReadFault, Reading, Watched, WriteFault, emit, read_block};

// Writes to memory one byte a call. The contract has what a caller knows of it after both wrappers.
fn write_to_memory(
    alloc: Global,
    bytes: &[u8],
    good_calls: u64,
) -> (Result<(), WriteFault>, Vec<u8>)
    ensures whole { OnOk result.0 (result.1.items ≡ bytes.now) }
    ensures beginning { OnErr result.0
        ((k : ℕ) × (k < length bytes.now) × (result.1.items ≡ take k bytes.now)) }
{
    let mut sink = Watched::new(Faulty::new(Vec::new(alloc), good_calls));
    let answer = emit(&mut sink, bytes);
    (answer, sink.into_inner().into_inner())
}

/// Reads from memory one byte a call, to the end.
pub(crate) fn read(alloc: Global, bytes: &[u8], good_calls: u64) -> Result<Vec<u8>, ReadFault> {
    let mut feed = Watched::new(Faulty::new(bytes, good_calls));
    let mut reading = Reading::new(alloc)?;
    let mut all = Vec::new(alloc);
    let ended = read_block(&mut feed, &mut reading, &mut all, usize::MAX)?;
    if !ended {
        return Err(ReadFault::Failed);
    }
    Ok(all)
}

#[test]
fn what_went_out_before_a_failed_call_stays(rt: HostRuntime) {
    let bytes = b"  cat  1\n";
    for good_calls in 0..=bytes.len() {
        let (answer, out) = write_to_memory(rt.alloc(), bytes, good_calls as u64);
        let is_whole = good_calls == bytes.len();
        assert_eq!(rt; answer.is_ok(), is_whole, "at {good_calls}");
        assert_eq!(rt; out.as_slice(), &bytes[..good_calls]);
    }
}

#[test]
fn a_writer_that_takes_nothing_has_failed(rt: HostRuntime) {
    let mut room = [0; 2];
    let mut sink = Watched::new(Faulty::new(&mut room[..], 9));
    assert_eq!(rt; emit(&mut sink, b"abc"), Err(WriteFault));
    assert_eq!(rt; room, [b'a', b'b']);
}

#[test]
fn a_failed_call_is_not_the_end(rt: HostRuntime) -> Result<(), Fail> {
    let bytes: &[u8] = b"number,cpu";
    for good_calls in 0..=bytes.len() {
        let answer = read(rt.alloc(), bytes, good_calls as u64);
        assert!(rt; matches!(answer, Err(ReadFault::Failed)), "at {good_calls}");
    }
    let all = read(rt.alloc(), bytes, 11)?;
    assert_eq!(rt; all.as_slice(), bytes);
    Ok(())
}
