//! The entries of an aggregation in the order in which they are shown.

ghost use Rattle.std.specs.Prelude.{◌≡◌, ◌<◌, List, Some, IfOk, map, slice_get, length};
ghost use Rattle.report.specs.Vocabulary.{AggFn, Contribution, StandsFor, deref_pair, functions_of};
ghost use Rattle.report.specs.Listing.{IsListing, entry_rank};

use aggregations::{AggTable, Partial};
use d_values::Key;
use std::alloc::{AllocError, Global};

// What an entry is ordered by: its rank, and then its key.
fn rank_and_key<'a>(entry: &(&'a Key, &'a Partial)) -> (i128, &'a Key)
    ensures { result ≡ (entry_rank (deref_pair entry.now), entry.now.0) }
{
    (entry.1.rank(), entry.0)
}

/// The entries of an aggregation, each before the next. The rank of each is worked out once.
///
/// ```text
/// for (key, partial) in listing(alloc, &table, 0)? {
///     partial.rank(); // no less than the one before
/// }
/// ```
pub fn listing(
    alloc: Global,
    table: &AggTable,
    agg: usize,
) -> Result<Vec<(&Key, &Partial)>, AllocError>
    requires { agg < length (functions_of table.now) }
    ensures { (contributions : List Contribution) (function : AggFn)
        → StandsFor table.now contributions → slice_get (functions_of table.now) agg ≡ Some function
        → IfOk result (λ es. IsListing function agg contributions (map deref_pair es.items)) }
{
    let mut entries = table.entries(alloc, agg)?;
    entries.sort_by_cached_key(rank_and_key)?;
    Ok(entries)
}
