//! Reading a feed to its end.
ghost use Rattle.std.specs.Prelude.{◌≡◌, ◌<◌, ◌++◌, ◌≤◌, IfOk, Ok, false, length};
ghost use Rattle.streams.specs.Turns.{GoesOn, IsTurn};
ghost use Rattle.streams.specs.declared.reading.ReadFault.TheVariants.{Memory};

use crate::stream::Feed;
use std::alloc::{AllocError, Global};
use thiserror::Error;

/// Why a feed was not read to its end.
#[derive(Clone, Copy, Debug, PartialEq, Eq, Error)]
pub enum ReadFault {
    /// A call failed, or the feed had not ended after 2^32 calls.
    #[error("read failed")]
    Failed,
    /// Memory ran out.
    #[error("out of memory")]
    Memory,
}

impl From<AllocError> for ReadFault {
    ghost from_gives = { λ _ e. e ≡ Memory };

    fn from(_e: AllocError) -> ReadFault {
        ReadFault::Memory
    }
}

/// The most calls of `get` that one reading makes.
pub const MAX_CALLS: u64 = 1 << 32;

// The bytes that one call may give.
const ROOM: usize = 1 << 16;

/// What is left of the calls that a reading may make, and the buffer for the bytes of one.
#[derive(Drop)]
pub struct Reading {
    /// How many calls of `get` it may still make.
    pub calls_left: u64,
    buffer: Vec<u8>,
    ghost has_room: { 0 < length buffer.items },
}

impl Reading {
    /// A reading that has made no call.
    ///
    /// ```text
    /// let mut reading = Reading::new(alloc)?;
    /// reading.calls_left; // 4,294,967,296
    /// ```
    pub fn new(alloc: Global) -> Result<Reading, AllocError>
        ensures { IfOk result (λ r. r.calls_left ≡ MAX_CALLS) }
    {
        let buffer = vec![in alloc; 0u8; ROOM]?;
        Ok(Reading {
            calls_left: MAX_CALLS,
            buffer,
        })
    }
}

/// Adds what one call of a feed gives to a block, and returns whether the feed has ended.
///
/// ```text
/// take_next(feed, reading, &mut block)?; // false, and the block has up to 64 KiB more
/// ```
pub fn take_next<F: Feed>(
    feed: &mut F,
    reading: &mut Reading,
    block: &mut Vec<u8>,
) -> Result<bool, ReadFault>
    requires { GoesOn reading.old.calls_left (F.seen feed.old) }
    ensures { IsTurn (F.seen feed.old) (F.seen feed.new) reading.old.calls_left
        reading.new.calls_left result (λ bytes. block.new.items ≡ block.old.items ++ bytes) }
{
    if reading.calls_left == 0 {
        return Err(ReadFault::Failed);
    }
    reading.calls_left -= 1;
    let Ok(given) = feed.get(&mut reading.buffer) else {
        return Err(ReadFault::Failed);
    };
    if given == 0 {
        return Ok(true);
    }
    block.extend_from_slice(&reading.buffer[..given])?;
    Ok(false)
}

/// Adds what a feed gives to a block until it has at least `enough` bytes and the last of them have
/// the end of a line, and returns whether the feed has ended. So the line that isn't whole then is
/// short, and who moves it needs no more time than the reading.
///
/// ```text
/// let mut block = Vec::new(alloc);
/// read_block(feed, reading, &mut block, 1 << 22)?; // false: 4 MiB were read, or a little more
/// ```
pub fn read_block<F: Feed>(
    feed: &mut F,
    reading: &mut Reading,
    block: &mut Vec<u8>,
    enough: usize,
) -> Result<bool, ReadFault>
    requires { GoesOn reading.old.calls_left (F.seen feed.old) }
    ensures turn { IsTurn (F.seen feed.old) (F.seen feed.new) reading.old.calls_left
        reading.new.calls_left result (λ bytes. block.new.items ≡ block.old.items ++ bytes) }
    ensures enough { result ≡ Ok false → enough ≤ length block.new.items }
{
    while reading.calls_left > 0 {
        let from = block.len();
        if take_next(feed, reading, block)? {
            return Ok(true);
        }
        if block.len() >= enough && ends_line(block, from) {
            return Ok(false);
        }
    }
    Err(ReadFault::Failed)
}

// Whether a line ends in the bytes from an index on.
fn ends_line(bytes: &[u8], from: usize) -> bool {
    for at in from..bytes.len() {
        if bytes[at] == b'\n' || bytes[at] == b'\r' {
            return true;
        }
    }
    false
}
