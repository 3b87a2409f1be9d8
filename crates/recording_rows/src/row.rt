//! A row of a trace without its number.

use crate::ids::Id;
use crate::words::Word;

/// How many arguments a row has.
pub(crate) const ARGUMENTS: usize = 10;

/// The arguments of a row, of which some are empty.
pub(crate) type Arguments = [Option<i64>; ARGUMENTS];

/// Whether a row is of a call's entry or of its return.
#[derive(Clone, Copy)]
pub(crate) enum Side {
    Entry,
    Return,
}

/// Whose call it is: the thread, its process and the program that runs.
#[derive(Clone, Copy)]
pub(crate) struct Owner<'a> {
    pub(crate) thread: Id,
    pub(crate) process: Id,
    pub(crate) program: Word<'a>,
}

/// A row of a trace without its number.
#[derive(Clone, Copy)]
pub(crate) struct Row<'a> {
    pub(crate) owner: Owner<'a>,
    pub(crate) time: u64,
    pub(crate) call: Word<'a>,
    pub(crate) side: Side,
    pub(crate) arguments: Arguments,
}

/// The rows of a line.
#[derive(Clone, Copy)]
pub(crate) struct Made<'a> {
    pub(crate) entry: Option<Row<'a>>,
    pub(crate) back: Option<Row<'a>>,
}

impl<'a> Made<'a> {
    /// No row.
    pub(crate) fn nothing() -> Made<'a> {
        Made {
            entry: None,
            back: None,
        }
    }

    /// The row of an entry alone.
    pub(crate) fn entry(row: Row<'a>) -> Made<'a> {
        Made {
            entry: Some(row),
            back: None,
        }
    }
}
