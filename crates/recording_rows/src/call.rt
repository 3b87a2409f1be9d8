//! Calls: what they returned, and what they change.

use crate::arguments::{Named, by_names, numbers};
use crate::bytes::{after_spaces, cut, is_visible};
use crate::errors::error_number;
use crate::ids::Id;
use crate::limits::MAX_DURATION;
use crate::numbers::{integer, nanoseconds};
use crate::row::Arguments;
use crate::words::Word;

/// What a call returned, and how long it took.
#[derive(Clone, Copy)]
pub(crate) struct Outcome {
    /// What it returned, and then its error's number or, if there is none, the same again. None if
    /// it doesn't return.
    pub(crate) returned: Option<(i64, i64)>,
    /// Nanoseconds, if strace tells.
    pub(crate) took: Option<u64>,
}

/// What a call changes of threads and programs.
#[derive(Clone, Copy)]
pub(crate) enum Change<'a> {
    None,
    /// The process runs this program.
    Program(Word<'a>),
    /// A thread of the same process.
    Thread(Id),
    /// A process that runs the same program.
    Process(Id),
}

/// A call with its outcome.
#[derive(Clone, Copy)]
pub(crate) struct Call<'a> {
    pub(crate) name: Word<'a>,
    pub(crate) outcome: Outcome,
    pub(crate) change: Change<'a>,
}

/// Whether strace shows a call's arguments by names: it begins a thread, a process or a program.
pub(crate) fn is_named(name: &[u8]) -> bool {
    matches!(name.first(), Some(b'c' | b'e' | b'f' | b'v'))
        && (is_birth(name) || matches!(name, b"execve" | b"execveat" | b"clone2"))
}

// Whether a call begins a thread or a process.
fn is_birth(name: &[u8]) -> bool {
    matches!(name, b"clone" | b"clone3" | b"vfork" | b"fork")
}

/// A call and its arguments, by what its line shows, and the same with what is shown of it on a
/// second line.
pub(crate) fn call_of<'a>(
    name: Word<'a>,
    shown: &'a [u8],
    whole: &[u8],
) -> Option<(Arguments, Call<'a>)> {
    if !is_named(name.bytes) {
        let (arguments, rest) = numbers(whole)?;
        let outcome = outcome_of(rest?)?;
        let change = Change::None;
        let call = Call {
            name,
            outcome,
            change,
        };
        return Some((arguments, call));
    }
    if !is_visible(whole) {
        return None;
    }
    let named = by_names(whole)?;
    let outcome = outcome_of(named.rest)?;
    let change = if name.bytes == b"execve".as_slice() {
        program_of(shown, outcome)?
    } else if is_birth(name.bytes) {
        birth_of(name.bytes, whole, &named, outcome)?
    } else {
        return None;
    };
    Some((
        named.arguments,
        Call {
            name,
            outcome,
            change,
        },
    ))
}

// What is shown after the arguments: ` = RESULT ERROR (TEXT) <DURATION>`.
fn outcome_of(shown: &[u8]) -> Option<Outcome> {
    let shown = after_spaces(shown).strip_prefix(b"= ")?;
    let (value, rest) = match shown {
        [b'?', rest @ ..] => (None, rest),
        _ => {
            let (number, rest) = integer(shown)?;
            (Some(number), rest)
        }
    };
    let (note, took) = without_duration(rest)?;
    let Some(error) = error_of(note)? else {
        let returned = value.map(|number| (number, number));
        return Some(Outcome { returned, took });
    };
    if value.unwrap_or(-1) != -1 {
        return None;
    }
    let returned = Some((-1, error));
    Some(Outcome { returned, took })
}

// What is shown before the duration, and the duration.
fn without_duration(shown: &[u8]) -> Option<(&[u8], Option<u64>)> {
    let Some((before, duration)) = cut(shown, b'<') else {
        return Some((shown, None));
    };
    let (took, rest) = nanoseconds(duration, MAX_DURATION)?;
    if rest != b">".as_slice() {
        return None;
    }
    Some((before.strip_suffix(b" ")?, Some(took)))
}

// The number of the error that a note names: ` ENOENT (No such file or directory)`. A note without
// an error is in brackets alone.
fn error_of(note: &[u8]) -> Option<Option<i64>> {
    if note.is_empty() {
        return Some(None);
    }
    let (name, text) = cut(note.strip_prefix(b" ")?, b'(')?;
    let (text, rest) = cut(text, b')')?;
    if text.contains(&b'(') || text.starts_with(b"errno") {
        return None;
    }
    if !rest.is_empty() || !is_visible(text) {
        return None;
    }
    if name.is_empty() {
        return Some(None);
    }
    Some(Some(error_number(name.strip_suffix(b" ")?)?))
}

// The program that a call begins: the last part of the path that it shows.
fn program_of<'a>(shown: &'a [u8], outcome: Outcome) -> Option<Change<'a>> {
    if outcome.returned != Some((0, 0)) {
        return Some(Change::None);
    }
    let (path, rest) = cut(shown.strip_prefix(b"\"")?, b'"')?;
    if path.contains(&b'\\') || rest.first() != Some(&b',') {
        return None;
    }
    let program = path.rsplit(|byte| *byte == b'/').next()?;
    if program.is_empty() {
        return None;
    }
    Some(Change::Program(Word::of(program)?))
}

// The thread or the process that a call begins.
fn birth_of<'a>(
    name: &[u8],
    whole: &[u8],
    named: &Named<'_>,
    outcome: Outcome,
) -> Option<Change<'a>> {
    let Some((born, _)) = outcome.returned else {
        return Some(Change::None);
    };
    let Some(born) = u64::try_from(born).ok().and_then(Id::of) else {
        return Some(Change::None);
    };
    if !shows_flags(name, whole, named.first) {
        return None;
    }
    let mut words = whole.split(|byte| !is_word_byte(*byte));
    let is_thread = words.any(|word| word == b"CLONE_THREAD".as_slice());
    Some(if is_thread {
        Change::Thread(born)
    } else {
        Change::Process(born)
    })
}

// Whether a call that begins a thread or a process shows its flags by their names.
fn shows_flags(name: &[u8], whole: &[u8], first: &[u8]) -> bool {
    if name == b"clone3".as_slice() && first.first() != Some(&b'{') {
        return false;
    }
    let is_number = matches!(first.first(), Some(b'0'..=b'9'));
    !is_number && !whole.windows(7).any(|part| part == b"flags=0".as_slice())
}

fn is_word_byte(byte: u8) -> bool {
    byte.is_ascii_alphanumeric() || byte == b'_'
}
