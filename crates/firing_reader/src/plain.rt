//! Plain rows, without quotes, read where they lie in the trace. csv reads all others.

ghost use Rattle.firing_reader.specs.{Pieces.GoesOn, Pieces.PassesRows, Plain.BeginsAtEnd};
ghost use Rattle.firing_reader.specs.{Steps.Plain.Leaves};

use crate::builder::FiringsBuilder;
use firings::MAX_ROWS;

mod arguments;
pub(crate) mod field;
pub(crate) mod front;
pub(crate) mod row;
pub(crate) mod unit;

/// Reads the rows after the end of a row, as long as they are plain. It returns what is left, from
/// the end of the last of them on.
#[inline(never)]
pub(crate) fn take_plain<'a>(firings: &mut FiringsBuilder, bytes: &'a [u8]) -> &'a [u8]
    requires { BeginsAtEnd bytes.now }
    ensures read { GoesOn firings.old bytes.now firings.new result.now }
    ensures left { Leaves bytes.now result.now }
{
    let mut rest = bytes;
    for _ in firings.len()..MAX_ROWS as usize {
        let Some(after) = firings.read_row(rest) else {
            return rest;
        };
        rest = after;
    }
    rest
}

/// Does the same, and returns how many bytes come before what is left.
pub(crate) fn read_plain(firings: &mut FiringsBuilder, bytes: &[u8]) -> usize
    requires { BeginsAtEnd bytes.now }
    ensures { PassesRows firings.old bytes.now firings.new result }
{
    bytes.len() - take_plain(firings, bytes).len()
}
