//! Who fired, as rows say it.

ghost use Rattle.std.specs.Prelude.{◌≡◌, ◌++◌, ℕ, List, Some, IfSome, map, slice_get};
ghost use Rattle.firing_reader.specs.Steps.Stored.{Gains, owner_of};
ghost use Rattle.firings.specs.{Units.owner_in};

use crate::plain::field::{int, text};
use crate::unit_table::{PlainEntry, UnitTable, add_bytes};
use firings::{Firing, MAX_TEXT, OwnerEntry};
use std::alloc::Global;

// Three numbers of 31 bits that begin with no zero have at most this many bytes, with their commas.
// If they have more csv reads the row, as zeros write an owner in any number of ways.
const MAX_NUMBERS: usize = 33;

impl PlainEntry for OwnerEntry {
    ghost use Rattle.std.specs.Prelude.{[]};
    ghost use Rattle.firing_reader.specs.{Plain.ReadsOwner};
    ghost use Rattle.firings.specs.{Units.owner_in};

    ghost reads = { λ e bytes. ReadsOwner bytes [] (owner_in (bytes, e)) };

    fn is(self, other: OwnerEntry) -> bool {
        self == other
    }

    fn read(key: &[u8]) -> Option<OwnerEntry> {
        let (cpu, rest) = int(key, 0)?;
        let (thread, rest) = int(rest, 1)?;
        let (pid, rest) = int(rest, 0)?;
        let from = key.len().saturating_sub(rest.len());
        let (execname, rest) = text(rest)?;
        if from > MAX_NUMBERS || !rest.is_empty() {
            return None;
        }
        Some(OwnerEntry {
            cpu,
            thread,
            pid,
            from: from as u8,
            count: execname.count(),
        })
    }
}

/// The index of an owner that csv read, which is kept if it isn't there. Its text is the first of
/// its bytes, and its numbers come after it.
pub(crate) fn keep_owner(
    owners: &mut UnitTable<OwnerEntry>,
    alloc: Global,
    firing: &Firing,
) -> Option<u32>
    ensures { Gains owners.old owners.new result
        (λ p. slice_get (map owner_in owners.new) p ≡ Some (owner_of firing.now)) }
{
    let bytes = owner_bytes(alloc, firing)?;
    owners.intern(
        &bytes,
        OwnerEntry {
            cpu: firing.cpu,
            thread: firing.thread,
            pid: firing.pid,
            from: 0,
            count: firing.execname.count(),
        },
    )
}

// The bytes of an owner that csv read: its text, and four for each of its numbers.
fn owner_bytes(alloc: Global, firing: &Firing) -> Option<Vec<u8>>
    ensures { IfSome result
        (λ bytes. (numbers : List ℕ) × (bytes.items ≡ firing.now.execname ++ numbers)) }
{
    let mut bytes = Vec::with_capacity(alloc, MAX_TEXT + 12).ok()?;
    add_bytes(&mut bytes, firing.execname.as_bytes())?;
    add_bytes(&mut bytes, &firing.cpu.to_le_bytes())?;
    add_bytes(&mut bytes, &firing.thread.to_le_bytes())?;
    add_bytes(&mut bytes, &firing.pid.to_le_bytes())?;
    Some(bytes)
}
