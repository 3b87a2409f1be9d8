//! A trace.

ghost use Rattle.std.specs.Prelude.{◌≡◌, ◌<◌, ◌↔◌, ◌||◌, ℤ, true, false, IfOk, OnOk, Contains, map};
ghost use Rattle.std.specs.Prelude.{get_or, length, set};
ghost use Rattle.std.specs.BTreeSet.{contains};
ghost use Rattle.std.specs.List.Sorted.{IsStrictlySortedBy};
ghost use Rattle.std.specs.Ordering.{eq_by_cmp, int_cmp};
ghost use Rattle.firings.specs.Firings.{IsTrace, thread_of};

use crate::firings::Firings;
use std::alloc::{AllocError, Global};
use std::collections::BTreeSet;
use std::marker::Model;

/// The firings of a trace. Contracts see it as the list of them.
#[derive(Drop)]
pub struct Trace {
    firings: Firings,
}

impl Model for Trace {
    ghost use Rattle.firings.specs.{Firings.IsTrace, declared.firing.Firing.Firing};
    ghost use Rattle.std.specs.Prelude.{List};

    ghost Value = { List Firing };

    ghost view = { λ t. t.firings };

    ghost invariant = { λ t. IsTrace t.firings };
}

impl Trace {
    /// The trace of firings that were read.
    ///
    /// ```text
    /// let trace = Trace::of(Firings::of(owners, probes, args, rows));
    /// ```
    pub fn of(firings: Firings) -> Trace
        requires { IsTrace firings }
        ensures { result ≡ firings }
    {
        Trace { firings }
    }

    /// The firings, in the order of the rows. Their numbers rise, there are at most `MAX_ROWS`,
    /// and each field is in its range.
    ///
    /// ```text
    /// let trace = read_trace(alloc, &bytes)?;
    /// trace.firings().get(0).thread; // 7, if the first row has this thread
    /// ```
    pub fn firings(&self) -> &Firings
        ensures value { result.now ≡ self.now }
        ensures trace { IsTrace self.now }
    {
        &self.firings
    }

    /// The threads that fired, each once and ascending, or the error that memory was refused.
    ///
    /// ```text
    /// // of rows of the threads 9, 3, 9 and 5
    /// trace.threads(alloc)?; // [3, 5, 9]
    /// ```
    pub fn threads(&self, alloc: Global) -> Result<Vec<i32>, AllocError>
        ensures ascending { IfOk result (λ v. IsStrictlySortedBy int_cmp v.items) }
        ensures same { IfOk result (λ v.
            (t : ℤ) → Contains v.items t ↔ Contains (map thread_of self.now) t) }
    {
        let seen = threads_of(alloc, &self.firings)?;
        seen.into_iter().collect(alloc)
    }
}

// The threads of firings. Once each owner was noted, the rows that are left have no other threads.
fn threads_of(alloc: Global, firings: &Firings) -> Result<BTreeSet<i32>, AllocError>
    ensures { IfOk result (λ seen.
        (t : ℤ) → Contains seen.keys t ↔ Contains (map thread_of firings.now) t) }
{
    let indices = firings.owner_indices();
    let mut seen = BTreeSet::new(alloc);
    let mut noted = vec![in alloc; false; indices.owner_count()]?;
    // Owners before this one were noted.
    let mut front = 0;
    for at in 0..firings.len() {
        if front == noted.len() {
            break;
        }
        let owner = indices.index_of(at);
        note(&mut seen, &mut noted, owner, indices.thread(owner))?;
        if noted[front] {
            front += 1;
        }
    }
    Ok(seen)
}

// Adds the thread of an owner to those that were seen, unless it was noted.
fn note(
    seen: &mut BTreeSet<i32>,
    noted: &mut Vec<bool>,
    owner: usize,
    thread: i32,
) -> Result<(), AllocError>
    requires owner { owner < length noted.old.items }
    requires noted { get_or noted.old.items owner false ≡ true
        → contains int_cmp seen.old thread ≡ true }
    ensures seen { OnOk result ((t : ℤ) → contains int_cmp seen.new t
        ≡ (eq_by_cmp int_cmp thread t || contains int_cmp seen.old t)) }
    ensures noted { OnOk result (noted.new.items ≡ set noted.old.items owner true) }
{
    if !noted[owner] {
        seen.insert(thread)?;
    }
    noted[owner] = true;
    Ok(())
}
