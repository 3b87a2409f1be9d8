//! What rows share: who fired, and which probe.

ghost use Rattle.std.specs.Prelude.{◌≡◌, ◌<◌, Some, length, map, slice_get};
ghost use Rattle.firings.specs.Units.{owner_in, probe_in};

use crate::text::Text;
use crate::units::{Entry, Units};

/// Who fired: a row's processor, thread, process and program.
#[derive(Drop)]
pub struct Owner<'a> {
    /// The processor.
    pub cpu: i32,
    /// The thread.
    pub thread: i32,
    /// The process.
    pub pid: i32,
    /// The name of the process.
    pub execname: Text<'a>,
}

/// What fires: a probe by the four parts of its name.
#[derive(Drop)]
pub struct Probe<'a> {
    /// Who makes it known.
    pub provider: Text<'a>,
    /// Where it is, such as a kernel module.
    pub probemod: Text<'a>,
    /// In which function.
    pub probefunc: Text<'a>,
    /// What it is called, such as `entry`.
    pub name: Text<'a>,
}

/// An owner beside its bytes: its numbers, where its text begins among the bytes, and how long it
/// is.
#[derive(Clone, Copy, PartialEq, Eq)]
pub struct OwnerEntry {
    pub cpu: i32,
    pub thread: i32,
    pub pid: i32,
    pub from: u8,
    pub count: u8,
}

impl Entry for OwnerEntry {
    ghost use Rattle.firings.specs.Units.{IsTextIn};

    ghost is_in = { λ e bytes. IsTextIn bytes e.from e.count };
}

/// A probe beside its bytes: how long each of its texts is. One byte comes after each text.
#[derive(Clone, Copy, PartialEq, Eq)]
pub struct ProbeEntry {
    pub provider: u8,
    pub probemod: u8,
    pub probefunc: u8,
    pub name: u8,
}

impl Entry for ProbeEntry {
    ghost use Rattle.firings.specs.Units.{IsProbeIn};

    ghost is_in = { λ e bytes. IsProbeIn e bytes };
}

/// The owner at an index.
#[inline(always)]
pub(crate) fn owner_at(owners: &Units<OwnerEntry>, index: usize) -> Owner
    requires { index < length owners.now }
    ensures { slice_get (map owner_in owners.now) index ≡ Some result }
{
    let (bytes, entry) = owners.at(index);
    Owner {
        cpu: entry.cpu,
        thread: entry.thread,
        pid: entry.pid,
        execname: Text::within(bytes, entry.from as usize, entry.count),
    }
}

/// The probe at an index.
#[inline(always)]
pub(crate) fn probe_at(probes: &Units<ProbeEntry>, index: usize) -> Probe
    requires { index < length probes.now }
    ensures { slice_get (map probe_in probes.now) index ≡ Some result }
{
    let (bytes, entry) = probes.at(index);
    let probemod = entry.provider as usize + 1;
    let probefunc = probemod + entry.probemod as usize + 1;
    let name = probefunc + entry.probefunc as usize + 1;
    Probe {
        provider: Text::within(bytes, 0, entry.provider),
        probemod: Text::within(bytes, probemod, entry.probemod),
        probefunc: Text::within(bytes, probefunc, entry.probefunc),
        name: Text::within(bytes, name, entry.name),
    }
}
