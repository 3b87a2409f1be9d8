//! All lines of a run.

ghost use Rattle.std.specs.Prelude.{◌≡◌, ◌<◌, ◌++◌, [], ◌∷◌, IfOk, OnOk, List, map, length, sum_by};
ghost use Rattle.std.specs.Prelude.{Some, slice_get};
ghost use Rattle.d_types.specs.Typed.{agg_of, aggs_of};
ghost use Rattle.d_types.specs.TypedScripts.{typed_script_of};
ghost use Rattle.data_lines.specs.Vocabulary.{Contribution, StandsFor, deref_pair, enumerate_from};
ghost use Rattle.data_lines.specs.Vocabulary.{flat_map, functions_of};
ghost use Rattle.data_lines.specs.Lines.{entry_line, text_line};
ghost use Rattle.data_lines.specs.Runs.{IsData, run_from};
ghost use Rattle.data_lines.specs.Steps.Runs.{AppendsListed};

use crate::lines::{FIRST_LINE, entry_head, put_entry_line, put_last_line, put_text_line};
use aggregations::{AggTable, Partial};
use d_types::{TypedAggregation, TypedScript};
use d_values::{Key, Text};
use replay_core::Whole;
use report::listing::listing;
use std::alloc::{AllocError, Global};

/// The whole of what a run of the script made, as JSON Lines: a line that names the format, a line
/// for each text, one for each entry of the aggregations, in the order of `report`, and a last line
/// with the exit. The caller owes that the aggregations are the script's.
///
/// ```text
/// let bytes = render(alloc, &script, &whole)?;
/// emit(&mut sink, &bytes)?;
/// ```
pub fn render(alloc: Global, script: &TypedScript, whole: &Whole) -> Result<Vec<u8>, AllocError>
    requires { functions_of whole.now.table
        ≡ map (λ a. a.function) (typed_script_of script.now).aggregations }
    ensures { (contributions : List Contribution) → StandsFor whole.now.table contributions
        → IfOk result (λ bytes. IsData (typed_script_of script.now).aggregations
        (run_from whole.now contributions) bytes.items) }
{
    let mut out = Vec::from_slice(alloc, FIRST_LINE)?;
    put_texts(&mut out, &whole.events)?;
    put_aggregations(alloc, &mut out, script.aggs(), &whole.table)?;
    put_last_line(&mut out, whole.exit, firings(&whole.ran))?;
    Ok(out)
}

// Puts a line for each text.
fn put_texts(out: &mut Vec<u8>, texts: &[(u64, Text)]) -> Result<(), AllocError>
    ensures { OnOk result (out.new.items ≡ out.old.items ++ flat_map text_line texts.now) }
{
    for (firing, text) in texts {
        put_text_line(out, *firing, text.as_bytes())?;
    }
    Ok(())
}

// How many firings were run.
fn firings(ran: &[Vec<u64>]) -> u128
    ensures { result ≡ sum_by (λ group. length group.items) ran.now }
{
    let mut count = 0;
    for group in ran {
        count += group.len() as u128;
    }
    count
}

// Puts the entries of all aggregations, in the order of the script.
fn put_aggregations(
    alloc: Global,
    out: &mut Vec<u8>,
    aggregations: &[TypedAggregation],
    table: &AggTable,
) -> Result<(), AllocError>
    requires { functions_of table.now ≡ map (λ a. a.function) (aggs_of aggregations.now) }
    ensures { (contributions : List Contribution) → StandsFor table.now contributions
        → OnOk result (AppendsListed (enumerate_from 0 (aggs_of aggregations.now)) contributions
        out.old.items out.new.items) }
{
    for (index, aggregation) in aggregations.iter().enumerate() {
        put_aggregation(alloc, out, index, aggregation, table)?;
    }
    Ok(())
}

// Puts the entries of one aggregation.
fn put_aggregation(
    alloc: Global,
    out: &mut Vec<u8>,
    index: usize,
    aggregation: &TypedAggregation,
    table: &AggTable,
) -> Result<(), AllocError>
    requires { slice_get (functions_of table.now) index ≡ Some aggregation.now.function }
    ensures { (contributions : List Contribution) → StandsFor table.now contributions
        → OnOk result (AppendsListed ((index, agg_of aggregation.now) ∷ []) contributions
        out.old.items out.new.items) }
{
    let head = entry_head(
        alloc,
        index,
        aggregation.name.as_slice(),
        aggregation.function,
    )?;
    let entries = listing(alloc, table, index)?;
    put_entries(out, &head, &entries)
}

// Puts a line for each entry.
fn put_entries(
    out: &mut Vec<u8>,
    head: &[u8],
    entries: &[(&Key, &Partial)],
) -> Result<(), AllocError>
    ensures { OnOk result (out.new.items
        ≡ out.old.items ++ flat_map (λ e. entry_line head.now (deref_pair e)) entries.now) }
{
    for entry in entries {
        put_entry_line(out, head, entry.0, entry.1)?;
    }
    Ok(())
}
