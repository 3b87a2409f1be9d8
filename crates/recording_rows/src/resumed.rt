//! The rests of calls that break off, found before the rows are made: a row shows all arguments.

use crate::bytes::cut;
use crate::line::{Event, Line};
use memchr::memrchr_iter;
use std::alloc::{AllocError, Global};
use std::collections::BTreeMap;

/// The rest of a call, as its second line shows it after the name.
#[derive(Clone, Copy)]
pub(crate) struct Rest<'a> {
    /// The name of the call.
    pub(crate) name: &'a [u8],
    /// What is shown after it.
    pub(crate) shown: &'a [u8],
    /// How many lines lie between that line and the end, or the first line of the call.
    pub(crate) lines: usize,
}

/// The rests of a recording's calls that break off, those of the last one first; None for each that
/// isn't resumed.
pub(crate) fn rests<'a>(
    alloc: Global,
    recording: &'a [u8],
) -> Result<Vec<Option<Rest<'a>>>, AllocError> {
    let mut rests = Vec::new(alloc);
    let mut open: BTreeMap<u64, Rest<'a>> = BTreeMap::new(alloc);
    let mut end = recording.len();
    let mut lines: usize = 0;
    for feed in memrchr_iter(b'\n', recording) {
        let line = recording.get(feed.saturating_add(1)..end).unwrap_or(b"");
        end = feed;
        lines = lines.saturating_add(1);
        take(&mut rests, &mut open, line, lines)?;
    }
    let first = recording.get(..end).unwrap_or(b"");
    take(&mut rests, &mut open, first, lines.saturating_add(1))?;
    Ok(rests)
}

// Takes a line that is this many lines before the end. Those of calls that break off count.
#[inline(always)]
fn take<'a>(
    rests: &mut Vec<Option<Rest<'a>>>,
    open: &mut BTreeMap<u64, Rest<'a>>,
    line: &'a [u8],
    lines: usize,
) -> Result<(), AllocError> {
    if !may_be_split(line) {
        return Ok(());
    }
    match Line::of(line) {
        Some(line) => take_split(rests, open, line, lines),
        None => Ok(()),
    }
}

// Takes a line that may be of a call that breaks off.
fn take_split<'a>(
    rests: &mut Vec<Option<Rest<'a>>>,
    open: &mut BTreeMap<u64, Rest<'a>>,
    line: Line<'a>,
    lines: usize,
) -> Result<(), AllocError> {
    let thread = line.thread.number;
    match line.event {
        Event::Resumed(name, shown) => {
            let name = name.bytes;
            open.insert(thread, Rest { name, shown, lines })?;
        }
        Event::Begun(..) => rests.push(since(lines, open.remove(&thread)))?,
        Event::Ended => {
            open.remove(&thread);
        }
        Event::Whole(..) | Event::Signal => {}
    }
    Ok(())
}

// Whether a line may begin a call that breaks off, resume it or end its thread: most lines don't.
#[inline(always)]
fn may_be_split(line: &[u8]) -> bool {
    match line {
        [.., b'.', b'>'] | [.., b'+', b'+'] => true,
        _ => cut(line, b'<').is_some_and(|(_, after)| after.starts_with(b"... ")),
    }
}

// The rest of a call whose first line is this many lines before the end.
fn since<'a>(lines: usize, rest: Option<Rest<'a>>) -> Option<Rest<'a>> {
    let rest = rest?;
    Some(Rest {
        lines: lines.saturating_sub(rest.lines),
        ..rest
    })
}
