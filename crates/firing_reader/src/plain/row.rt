//! One plain row.

ghost use Rattle.std.specs.Prelude.{◌<◌, IfSome, map};
ghost use Rattle.firing_reader.specs.{Plain.ReadsRow};
ghost use Rattle.firing_reader.specs.Steps.Plain.{BeginsRow};
ghost use Rattle.firings.specs.Stored.{Extends, IsRowIn, firing_in};
ghost use Rattle.firings.specs.Units.{owner_in, probe_in};

use super::arguments::read_arguments;
use super::field::whole;
use super::front::{after_ends, starts_with_digit};
use super::unit::end_of;
use crate::unit_table::UnitTable;
use firings::{OwnerEntry, ProbeEntry, Row};

/// The row after the end of the one before, and the bytes from its own end on. Its number has to be
/// above `last`. Its owner and its probe are added if they aren't there. They are looked for one
/// right after the other, so that the processor waits for both at once.
#[inline(always)]
pub(crate) fn row<'a>(
    owners: &mut UnitTable<OwnerEntry>,
    probes: &mut UnitTable<ProbeEntry>,
    args: &mut Vec<i64>,
    bytes: &'a [u8],
    last: u64,
) -> Option<(Row, &'a [u8])>
    ensures owners { Extends owners.old owners.new }
    ensures probes { Extends probes.old probes.new }
    ensures args { Extends args.old.items args.new.items }
    ensures inside { IfSome result (λ p. IsRowIn (map owner_in owners.new)
        (map probe_in probes.new) args.new.items p.0) }
    ensures row { IfSome result (λ p. ReadsRow bytes.now p.1.now
        (firing_in (map owner_in owners.new) (map probe_in probes.new) args.new.items p.0)) }
    ensures rises { IfSome result (λ p. last < p.0.number) }
{
    let (number, rest) = number_above(bytes, last)?;
    let (owner_key, rest) = rest.split_at(end_of(rest, 4));
    let (time, rest) = whole(rest, 0, u64::MAX)?;
    let (probe_key, rest) = rest.split_at(end_of(rest, 4));
    let owner = owners.read(owner_key)?;
    let probe = probes.read(probe_key)?;
    let (first, count, rest) = read_arguments(args, rest)?;
    let row = Row {
        number,
        time,
        owner,
        probe,
        first,
        count,
    };
    Some((row, rest))
}

// The number at the front of the row, which has to be above `last`, and what comes after it.
#[inline(always)]
fn number_above(bytes: &[u8], last: u64) -> Option<(u64, &[u8])>
    ensures begins { IfSome result (λ p. BeginsRow bytes.now p.0 p.1.now) }
    ensures rises { IfSome result (λ p. last < p.0) }
{
    let line = after_ends(bytes)?;
    if !starts_with_digit(line) {
        return None;
    }
    let (number, rest) = whole(line, 1, 1 << 62)?;
    if number <= last {
        return None;
    }
    Some((number, rest))
}
