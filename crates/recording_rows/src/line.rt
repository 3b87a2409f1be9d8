//! Lines of strace: how they begin, and what they are of.

use crate::bytes::{after_spaces, cut, is_visible};
use crate::ids::Id;
use crate::limits::{MAX_NAME, MAX_SECONDS, MAX_THREAD};
use crate::numbers::{decimal, nanoseconds};
use crate::words::Word;

/// What a line is of.
#[derive(Clone, Copy)]
pub(crate) enum Event<'a> {
    /// A call that returns on its line: its name, and what is shown after the bracket.
    Whole(Word<'a>, &'a [u8]),
    /// A call that breaks off.
    Begun(Word<'a>, &'a [u8]),
    /// The rest of such a call.
    Resumed(Word<'a>, &'a [u8]),
    /// The end of a thread.
    Ended,
    /// A signal.
    Signal,
}

/// A line: its thread, its time in nanoseconds and what it is of.
#[derive(Clone, Copy)]
pub(crate) struct Line<'a> {
    pub(crate) thread: Id,
    pub(crate) time: u64,
    pub(crate) event: Event<'a>,
}

impl<'a> Line<'a> {
    /// The parts of a line, if it is known.
    pub(crate) fn of(line: &'a [u8]) -> Option<Line<'a>> {
        if line.first() == Some(&b'0') {
            return None;
        }
        let (thread, rest) = decimal(line, MAX_THREAD)?;
        let rest = after_spaces(rest.strip_prefix(b" ")?);
        let (time, rest) = nanoseconds(rest, MAX_SECONDS)?;
        let event = rest.strip_prefix(b" ")?;
        Some(Line {
            thread: Id::of(thread)?,
            time,
            event: event_of(event)?,
        })
    }
}

// What a line is of, by what it has after its time.
fn event_of<'a>(shown: &'a [u8]) -> Option<Event<'a>> {
    match shown.first()? {
        b'<' => resumed(shown),
        b'+' => ended(shown),
        b'-' => signal(shown),
        _ => called(shown),
    }
}

fn called<'a>(shown: &'a [u8]) -> Option<Event<'a>> {
    let (name, shown) = cut(shown, b'(')?;
    let name = call_name(name)?;
    let [begun @ .., b'.', b'>'] = shown else {
        return Some(Event::Whole(name, shown));
    };
    let begun = begun.strip_suffix(b"<unfinished ..")?;
    Some(Event::Begun(name, begun.strip_suffix(b" ").unwrap_or(begun)))
}

fn resumed<'a>(shown: &'a [u8]) -> Option<Event<'a>> {
    let (name, rest) = cut(shown.strip_prefix(b"<... ")?, b' ')?;
    Some(Event::Resumed(call_name(name)?, rest.strip_prefix(b"resumed>")?))
}

fn ended<'a>(shown: &'a [u8]) -> Option<Event<'a>> {
    let exited = shown.strip_prefix(b"+++ exited ");
    let how = exited.or(shown.strip_prefix(b"+++ killed "))?;
    if how.ends_with(b"+++") && is_visible(how) {
        Some(Event::Ended)
    } else {
        None
    }
}

fn signal<'a>(shown: &'a [u8]) -> Option<Event<'a>> {
    let signal = shown.strip_prefix(b"--- ")?;
    if signal.ends_with(b" ---") && is_visible(signal) {
        Some(Event::Signal)
    } else {
        None
    }
}

// The name of a system call.
fn call_name<'a>(name: &'a [u8]) -> Option<Word<'a>> {
    if name.len() > MAX_NAME || !matches!(name.first()?, b'a'..=b'z' | b'_') {
        return None;
    }
    if !name
        .iter()
        .all(|byte| matches!(*byte, b'a'..=b'z' | b'0'..=b'9' | b'_'))
    {
        return None;
    }
    Word::of(name)
}
