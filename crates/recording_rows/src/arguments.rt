//! The arguments of calls.

use crate::bytes::after_spaces;
use crate::marks::Marks;
use crate::numbers::integer;
use crate::row::{ARGUMENTS, Arguments};

// The folder in which a path begins, as strace shows it and as a number.
const HERE: &[u8] = b"AT_FDCWD";

const HERE_NUMBER: i64 = -100;

// A number that strace shows by a name.
const NULL: &[u8] = b"NULL";

/// The arguments of a call that shows numbers alone, and what comes after the bracket, if there
/// is one.
pub(crate) fn numbers(shown: &[u8]) -> Option<(Arguments, Option<&[u8]>)> {
    let mut arguments = [None; ARGUMENTS];
    let mut rest = shown;
    for slot in &mut arguments {
        let (value, after) = number(after_spaces(rest))?;
        *slot = value;
        match after_spaces(after) {
            [] => return Some((arguments, None)),
            [b')', after @ ..] => return Some((arguments, Some(after))),
            [b',', b' ', more @ ..] => rest = more,
            _ => return None,
        }
    }
    None
}

// The argument at the front, which may be missing, and what comes after it.
#[inline(always)]
fn number(shown: &[u8]) -> Option<(Option<i64>, &[u8])> {
    match shown {
        [] | [b',' | b')', ..] => Some((None, shown)),
        [b'N', ..] => Some((Some(0), shown.strip_prefix(NULL)?)),
        _ => {
            let (value, rest) = integer(shown)?;
            Some((Some(value), rest))
        }
    }
}

/// The arguments of a call that shows some by names, the first of them as it is shown, and what
/// comes after the bracket.
#[derive(Drop)]
pub(crate) struct Named<'a> {
    pub(crate) arguments: Arguments,
    pub(crate) first: &'a [u8],
    pub(crate) rest: &'a [u8],
}

/// The parts of what is shown, if it has the bracket.
pub(crate) fn by_names<'a>(shown: &'a [u8]) -> Option<Named<'a>> {
    let mut arguments = [None; ARGUMENTS];
    let mut marks = Marks::new();
    let (mut begin, mut place, mut first) = (0, 0, None);
    for (at, byte) in shown.iter().enumerate() {
        if !marks.ends(*byte)? {
            continue;
        }
        let argument = shown.get(begin..at)?.trim_ascii();
        begin = at + 1;
        first = first.or(Some(argument));
        if place < ARGUMENTS {
            arguments[place] = named_argument(argument)?;
            place += 1;
        }
        if *byte == b')' {
            let rest = shown.get(begin..)?;
            return Some(Named {
                arguments,
                first: first?,
                rest,
            });
        }
    }
    None
}

// An argument: empty if it isn't a number, and None if it only begins as one.
fn named_argument(shown: &[u8]) -> Option<Option<i64>> {
    if shown == HERE {
        return Some(Some(HERE_NUMBER));
    }
    if shown == NULL {
        return Some(Some(0));
    }
    match shown.first() {
        Some(b'-' | b'0'..=b'9') => Some(Some(commented(shown)?)),
        _ => Some(None),
    }
}

// A number that may have a comment after it.
fn commented(shown: &[u8]) -> Option<i64> {
    let (value, comment) = integer(shown)?;
    if comment.is_empty() {
        return Some(value);
    }
    let inner = comment
        .strip_prefix(b" ")?
        .trim_ascii()
        .strip_prefix(b"/*")?;
    if inner.ends_with(b"*/") {
        Some(value)
    } else {
        None
    }
}
