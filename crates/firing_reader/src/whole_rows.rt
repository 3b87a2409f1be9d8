//! Rows that are whole, at the front of the bytes that are left.

ghost use Rattle.std.specs.Prelude.{◌≡◌, ◌<◌, ◌≤◌, ◌+◌, ◌∷◌, OnOk, drop, length};
ghost use Rattle.firing_reader.specs.Blocks.{BeginsAtFeed};
ghost use Rattle.firing_reader.specs.{Steps.Blocks.IsReadBy};

use crate::builder::FiringsBuilder;
use crate::fault::TraceFault;
use crate::plain::read_plain;
use crate::reading::read_rest;
use crate::row_ends::end_of_rows;

/// Reads the rows that are whole: plain ones where they lie, from the first other one on by csv.
pub(crate) fn read_rows(firings: &mut FiringsBuilder, left: &mut Vec<u8>) -> Result<(), TraceFault>
    requires { BeginsAtFeed left.old.items }
    ensures read { IsReadBy result firings.old left.old.items firings.new left.new.items }
    ensures feed { OnOk result (BeginsAtFeed left.new.items) }
{
    let passed = read_plain(firings, left);
    keep_from(left, passed);
    let end = end_of_rows(&left[1..], usize::MAX);
    if end > 0 {
        read_rest(firings, &left[..end + 1])?;
        keep_from(left, end);
    }
    Ok(())
}

/// Drops the bytes before an index, and puts a line feed there, as at the end of a row.
pub(crate) fn keep_from(left: &mut Vec<u8>, at: usize)
    requires { at < length left.old.items }
    ensures { left.new.items ≡ 10 ∷ drop (at + 1) left.old.items }
{
    drop_front(left, at);
    left[0] = b'\n';
}

// Drops the first `count` bytes.
fn drop_front(left: &mut Vec<u8>, count: usize)
    requires { count ≤ length left.old.items }
    ensures { left.new.items ≡ drop count left.old.items }
{
    let len = left.len();
    left.copy_within(count..len, 0);
    left.truncate(len - count);
}
