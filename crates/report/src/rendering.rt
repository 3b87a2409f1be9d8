//! All that a run shows.

ghost use Rattle.std.specs.Prelude.{◌≡◌, ◌++◌, List, OnOk, IfOk, map};
ghost use Rattle.report.specs.{Entry.entry_bytes};
ghost use Rattle.report.specs.Vocabulary.{Contribution, StandsFor, deref_pair, flat_map};
ghost use Rattle.report.specs.Vocabulary.{functions_of};
ghost use Rattle.report.specs.Listing.{listing_bytes};
ghost use Rattle.report.specs.Output.{IsOutput};
ghost use Rattle.report.specs.Steps.Output.{AppendsTables};
ghost use Rattle.d_types.specs.TypedScripts.{typed_script_of};

use crate::entry::put_entry;
use crate::listing::listing;
use aggregations::{AggTable, Partial};
use d_types::TypedScript;
use d_values::{Key, Text};
use rayon::prelude::*;
use replay_core::Whole;
use std::alloc::{AllocError, Global};
use std::thread::Threads;

// How many entries a thread takes at a time. Each thread that rayon starts is given two such blocks
// at least.
const BLOCK: usize = 512;

// With fewer entries threads cost more than they save.
const MIN_FOR_THREADS: usize = 4 * BLOCK;

// How many entries are shared at once: only their bytes are in memory twice.
const ROUND: usize = 64 * BLOCK;

/// The bytes that show what a run of the script made: its texts, and after them each aggregation
/// that has entries, in the order of the script, its entries ascending by value and then by key
/// (Dynamic Tracing Guide, "Aggregations"). The caller owes that the aggregations are the script's.
/// Threads share the work if there are many entries.
///
/// ```text
/// let bytes = render(&rt, alloc, &script, &whole)?;
/// emit(&mut sink, &bytes)?;
/// ```
pub fn render<R: Threads + Sync>(
    rt: &R,
    alloc: Global,
    script: &TypedScript,
    whole: &Whole,
) -> Result<Vec<u8>, AllocError>
    requires { functions_of whole.now.table
        ≡ map (λ a. a.function) (typed_script_of script.now).aggregations }
    ensures { (contributions : List Contribution) → StandsFor whole.now.table contributions
        → IfOk result (λ bytes. IsOutput (functions_of whole.now.table) whole.now.events.items
        contributions bytes.items) }
{
    // The table has what the script says of them.
    let _ = script;
    let mut out = Vec::new(alloc);
    put_texts(&mut out, &whole.events)?;
    put_tables(rt, alloc, &mut out, &whole.table)?;
    Ok(out)
}

// Puts the texts, one after the other.
fn put_texts(out: &mut Vec<u8>, texts: &[(u64, Text)]) -> Result<(), AllocError>
    ensures { OnOk result (out.new.items ≡ out.old.items ++ flat_map (λ text. text.1) texts.now) }
{
    for (_, text) in texts {
        out.extend_from_slice(text.as_bytes())?;
    }
    Ok(())
}

// Puts the aggregations, in the order of the script.
fn put_tables<R: Threads + Sync>(
    rt: &R,
    alloc: Global,
    out: &mut Vec<u8>,
    table: &AggTable,
) -> Result<(), AllocError>
    ensures { (contributions : List Contribution) → StandsFor table.now contributions
        → OnOk result
        (AppendsTables (functions_of table.now) contributions out.old.items out.new.items) }
{
    for agg in 0..table.len() {
        let entries = listing(alloc, table, agg)?;
        put_entries(rt, alloc, out, &entries)?;
    }
    Ok(())
}

// Puts a line feed and the entries, if there are any. Threads share the work if there are many.
fn put_entries<R: Threads + Sync>(
    rt: &R,
    alloc: Global,
    out: &mut Vec<u8>,
    entries: &[(&Key, &Partial)],
) -> Result<(), AllocError>
    ensures { OnOk result (out.new.items
        ≡ out.old.items ++ listing_bytes (map deref_pair entries.now)) }
{
    if entries.is_empty() {
        return Ok(());
    }
    out.push(b'\n')?;
    if entries.len() < MIN_FOR_THREADS {
        return put_each(out, entries);
    }
    for round in entries.chunks(ROUND) {
        put_round(rt, alloc, out, round)?;
    }
    Ok(())
}

// Puts a round of entries, in blocks that threads make.
fn put_round<R: Threads + Sync>(
    rt: &R,
    alloc: Global,
    out: &mut Vec<u8>,
    round: &[(&Key, &Partial)],
) -> Result<(), AllocError>
    ensures { OnOk result (out.new.items
        ≡ out.old.items ++ flat_map (λ e. entry_bytes (deref_pair e)) round.now) }
{
    let made = blocks(rt, alloc, round)?;
    put_blocks(out, &made)
}

// Puts entries, one after the other.
fn put_each(out: &mut Vec<u8>, entries: &[(&Key, &Partial)]) -> Result<(), AllocError>
    ensures { OnOk result (out.new.items
        ≡ out.old.items ++ flat_map (λ e. entry_bytes (deref_pair e)) entries.now) }
{
    for entry in entries {
        put_entry(out, entry.0, entry.1)?;
    }
    Ok(())
}

// The bytes of all entries, in blocks that threads make.
fn blocks<R: Threads + Sync>(
    rt: &R,
    alloc: Global,
    entries: &[(&Key, &Partial)],
) -> Result<Vec<Vec<u8>>, AllocError>
    ensures { IfOk result (λ blocks. flat_map (λ block. block.items) blocks.items
        ≡ flat_map (λ e. entry_bytes (deref_pair e)) entries.now) }
{
    entries
        .par_chunks(BLOCK)
        .map(
            |entries: &[(&Key, &Partial)]| -> Result<Vec<u8>, AllocError>
                ensures { IfOk result (λ block. block.items
                    ≡ flat_map (λ e. entry_bytes (deref_pair e)) entries.now) }
            {
                let mut out = Vec::new(alloc);
                put_each(&mut out, entries)?;
                Ok(out)
            },
        )
        .collect::<Result<Vec<Vec<u8>>, AllocError>>(rt, alloc)?
}

// Puts blocks, one after the other.
fn put_blocks(out: &mut Vec<u8>, blocks: &[Vec<u8>]) -> Result<(), AllocError>
    ensures { OnOk result (out.new.items
        ≡ out.old.items ++ flat_map (λ block. block.items) blocks.now) }
{
    for block in blocks {
        out.extend_from_slice(block)?;
    }
    Ok(())
}
