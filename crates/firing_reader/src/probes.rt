//! Which probe fired, as rows say it.

ghost use Rattle.std.specs.Prelude.{◌≡◌, ◌++◌, ◌∷◌, [], Some, IfSome, map, slice_get};
ghost use Rattle.firings.specs.{Probing.probe_of, Units.probe_in};
ghost use Rattle.firing_reader.specs.{Steps.Stored.Gains};

use crate::plain::field::text;
use crate::row::RESERVED;
use crate::unit_table::{PlainEntry, UnitTable, add_bytes};
use firings::{Firing, MAX_TEXT, ProbeEntry, Text};
use std::alloc::Global;

impl PlainEntry for ProbeEntry {
    ghost use Rattle.std.specs.Prelude.{[]};
    ghost use Rattle.firing_reader.specs.{Plain.ReadsProbe};
    ghost use Rattle.firings.specs.{Units.probe_in};

    ghost reads = { λ e bytes. ReadsProbe bytes [] (probe_in (bytes, e)) };

    fn is(self, other: ProbeEntry) -> bool {
        self == other
    }

    fn read(key: &[u8]) -> Option<ProbeEntry> {
        let (provider, rest) = text(key)?;
        let (probemod, rest) = text(rest)?;
        let (probefunc, rest) = text(rest)?;
        let (name, rest) = text(rest)?;
        if !rest.is_empty() || provider.as_bytes() == RESERVED {
            return None;
        }
        Some(ProbeEntry {
            provider: provider.count(),
            probemod: probemod.count(),
            probefunc: probefunc.count(),
            name: name.count(),
        })
    }
}

/// The index of a probe that csv read, which is kept if it isn't there. A zero comes after each of
/// its texts.
pub(crate) fn keep_probe(
    probes: &mut UnitTable<ProbeEntry>,
    alloc: Global,
    firing: &Firing,
) -> Option<u32>
    ensures { Gains probes.old probes.new result
        (λ p. slice_get (map probe_in probes.new) p ≡ Some (probe_of firing.now)) }
{
    let bytes = probe_bytes(alloc, firing)?;
    probes.intern(
        &bytes,
        ProbeEntry {
            provider: firing.provider.count(),
            probemod: firing.probemod.count(),
            probefunc: firing.probefunc.count(),
            name: firing.name.count(),
        },
    )
}

// The bytes of a probe that csv read: each text, and a zero after it.
fn probe_bytes(alloc: Global, firing: &Firing) -> Option<Vec<u8>>
    ensures { IfSome result (λ bytes. bytes.items ≡ firing.now.provider ++ 0
        ∷ (firing.now.probemod ++ 0 ∷ (firing.now.probefunc ++ 0 ∷ (firing.now.name ++ 0 ∷ [])))) }
{
    let mut bytes = Vec::with_capacity(alloc, 4 * (MAX_TEXT + 1)).ok()?;
    add_text(&mut bytes, &firing.provider)?;
    add_text(&mut bytes, &firing.probemod)?;
    add_text(&mut bytes, &firing.probefunc)?;
    add_text(&mut bytes, &firing.name)?;
    Some(bytes)
}

// Adds a text and a zero after it, if there is memory for them.
fn add_text(all: &mut Vec<u8>, text: &Text) -> Option<()>
    ensures { IfSome result (λ _. all.new.items ≡ all.old.items ++ (text.now ++ 0 ∷ [])) }
{
    add_bytes(all, text.as_bytes())?;
    all.push(0).ok()
}
